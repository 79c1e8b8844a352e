// The listing of a sheet, as text in a buffer.
#![tactic(auto)]

ghost use Rattle.std.specs.Prelude.{◌≡◌, List, ℕ, ◌+◌, ◌≤◌, length};
ghost use Rattle.text.specs.Writing.{Writes};
ghost use Rattle.listing.specs.Listing.{previous, text_of, listed_of, buffer_of};
ghost use Rattle.listing.specs.Puts.{Puts};
ghost use Rattle.listing.specs.Size.{longest};
ghost use Rattle.listing.specs.Turn.{Countable, Lists, ListsField, passed_by};
ghost use Rattle.listing.specs.Short.{text_short};

use fields::FieldKind;
use refusals::Refusal;
use walk::FieldAt;

// Where a listing stands: the place of the next line, what stands just before, and how many words there were and how many of them are refused.
#[derive(Clone, Copy, PartialEq, Eq, Debug)]
struct Progress {
    at: usize,
    before: Option<(u8, u32)>,
    words: u64,
    refused: u64,
}

// What a figure at a depth is tested against.
fn previous_of(before: Option<(u8, u32)>, depth: u8) -> Option<u32>
    ensures { result ≡ previous before depth }
{
    let (other, word) = before?;
    if other == depth { Some(word) } else { None }
}

// A word field. The word is decoded once, for its line and for the count.
fn put_word(out: &mut [u8], progress: Progress, depth: u8, content: &[u8]) -> Progress
    requires { Countable progress }
    ensures { Lists out.old progress FieldKind.Word depth content.now out.new result }
{
    let words = progress.words + 1;
    match content_values::word_in(content) {
        Ok(word) => {
            let decoded = decoder::decode(word);
            let refused = progress.refused + totals::refused_one(decoded);
            let at = word_lines::put_decoded_line(
                out,
                progress.at,
                word_labels::label_of(word),
                decoded,
            );
            Progress {
                at,
                before: Some((depth, word)),
                words,
                refused,
            }
        }
        Err(_) => Progress {
            at: progress.at,
            before: None,
            words,
            refused: progress.refused,
        },
    }
}

// A figure field.
fn put_figure(out: &mut [u8], progress: Progress, depth: u8, content: &[u8]) -> Progress
    ensures { Lists out.old progress FieldKind.Figure depth content.now out.new result }
{
    let before = progress.before;
    let previous = previous_of(before, depth);
    match content_values::figure_in(content) {
        Ok((label, millionths)) => Progress {
            at: lines::put_figure_line(out, progress.at, previous, label, millionths),
            before: None,
            words: progress.words,
            refused: progress.refused,
        },
        Err(_) => passed(progress),
    }
}

// A field that prints nothing.
fn passed(progress: Progress) -> Progress
    ensures { result ≡ passed_by progress }
{
    Progress {
        at: progress.at,
        before: None,
        words: progress.words,
        refused: progress.refused,
    }
}

// A field of the sheet.
fn put_field(out: &mut [u8], sheet: &[u8], progress: Progress, field: FieldAt) -> Progress
    requires { (field.place + 3 + field.length ≤ length sheet.now) × Countable progress }
    ensures { ListsField sheet.now out.old progress field out.new result }
{
    let from = field.place + 3;
    let end = from + field.length;
    let depth = field.depth;
    let kind = field.kind;
    match kind {
        FieldKind::Word => put_word(out, progress, depth, &sheet[from..end]),
        FieldKind::Figure => put_figure(out, progress, depth, &sheet[from..end]),
        FieldKind::Note => passed(progress),
        FieldKind::Group => passed(progress),
    }
}

// The text of a sheet's listing, as far as it fits, and its length: a line for each word and figure, last the total; or the refusal.
fn put_listing(out: &mut [u8], sheet: &[u8]) -> usize
    ensures { Writes out.old 0 (text_of sheet.now) out.new result }
{
    let mut walk = walker::start(sheet);
    let mut progress = Progress {
        at: 0,
        before: None,
        words: 0,
        refused: 0,
    };
    loop {
        let step = walker::step(sheet, walk);
        match step.given {
            Ok(given) => {
                let Some(field) = given else {
                    return lines::put_total_line(
                        out,
                        progress.at,
                        progress.words,
                        progress.refused,
                    );
                };
                progress = put_field(out, sheet, progress, field);
                walk = step.next;
            }
            Err((refusal, place)) => {
                return lines::put_refusal_line(out, progress.at, refusal, place);
            }
        }
    }
}

// A text of a sheet that is put into buffers: a function of the sheet's bytes, with a bound on its length.
pub trait SheetText {
    ghost text_of: { List ℕ → List ℕ };

    ghost LIMIT: { ℕ };

    const LIMIT: usize;

    // Puts the text from the buffer's start, as far as it fits, and gives its length.
    fn put(out: &mut [u8], sheet: &[u8]) -> usize
        ensures { Writes out.old 0 (text_of sheet.now) out.new result };

    // No sheet's text has more bytes.
    ghost within_limit: { (s : List ℕ) → length (text_of s) ≤ LIMIT };
}

// Puts a sheet's text into a buffer that has room for all of it. Where the buffer is shorter than some sheet's text, the text is measured before: it is put, and one byte of it stored.
pub fn put_sheet_text<T: SheetText>(sheet: &[u8], out: &mut [u8]) -> Result<usize, Refusal>
    ensures answer { result ≡ listed_of (T.text_of sheet.now) out.old }
    ensures content { out.new ≡ buffer_of (T.text_of sheet.now) out.old }
{
    if out.len() < T::LIMIT {
        let mut first = [0u8; 1];
        if out.len() < T::put(&mut first, sheet) {
            return Err(Refusal::Room);
        }
    }
    Ok(T::put(out, sheet))
}

// Puts a text of at most `limit` bytes into a buffer with room for all of it. Where some such text is longer than the buffer, it is measured before: it is put, and one byte of it stored. What puts it is a closure, and has to be callable; a text of a sheet goes through `put_sheet_text`, which asks nothing.
pub fn put_whole<F: Fn(&mut [u8]) -> usize>(
    limit: usize,
    put: F,
    out: &mut [u8],
) -> Result<usize, Refusal>
    requires { F.IsAlwaysCallable put }
    ensures answer { (text : _) → Puts F.Fn put text → length text ≤ limit → result ≡ listed_of text out.old }
    ensures content { (text : _) → Puts F.Fn put text → length text ≤ limit → out.new ≡ buffer_of text out.old }
{
    if out.len() < limit {
        let mut first = [0u8; 1];
        if out.len() < put(&mut first) {
            return Err(Refusal::Room);
        }
    }
    Ok(put(out))
}

// The listing.
struct Listing;

impl SheetText for Listing {
    ghost text_of = { text_of };

    ghost LIMIT = { longest };

    const LIMIT: usize = 117085;

    fn put(out: &mut [u8], sheet: &[u8]) -> usize {
        put_listing(out, sheet)
    }

    ghost within_limit = { text_short };
}

// Writes the listing of a sheet into a buffer.
pub fn list_sheet(sheet: &[u8], out: &mut [u8]) -> Result<usize, Refusal>
    ensures answer { result ≡ listed_of (text_of sheet.now) out.old }
    ensures content { out.new ≡ buffer_of (text_of sheet.now) out.old }
{
    put_sheet_text::<Listing>(sheet, out)
}

#[cfg(test)]
mod tests {
    use super::*;

    // A total line of 22 bytes, put by a closure that holds its numbers. No such line has more than 56.
    #[test]
    fn a_closure_puts_its_text_where_all_of_it_fits(rt: HostRuntime) {
        let words = 4681;
        let refused = 12;
        for room in [0, 1, 21, 22, 23, 55, 56, 57] {
            let mut out = [b'.'; 57];
            let put = |buffer: &mut [u8]| lines::put_total_line(buffer, 0, words, refused);
            let answer = put_whole(56, put, &mut out[..room]);
            if room < 22 {
                assert_eq!(rt; answer, Err(Refusal::Room), "room {room}");
                assert_eq!(rt; out, [b'.'; 57], "room {room}");
            } else {
                let whole = *b"words 4681 refused 12\n...................................";
                assert_eq!(rt; answer, Ok(22), "room {room}");
                assert_eq!(rt; out, whole, "room {room}");
            }
        }
    }
}
