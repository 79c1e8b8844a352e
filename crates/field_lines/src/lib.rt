// The fields of a sheet, a line for each, as text in a buffer.
#![tactic(auto)]

ghost use Rattle.std.specs.Prelude.{◌≡◌, ◌+◌, ◌≤◌, length};
ghost use Rattle.walk.specs.Rest.{field_of};
ghost use Rattle.text.specs.Writing.{Writes};
ghost use Rattle.listing.specs.Listing.{listed_of, buffer_of};
ghost use Rattle.field_lines.specs.FieldLines.{place_text, head_text, line_of, text_of};
ghost use Rattle.field_lines.specs.Size.{longest};
ghost use Rattle.field_lines.specs.Short.{text_short};

use listing::SheetText;
use refusals::Refusal;
use walk::FieldAt;

// The place and the depth, with a blank behind each.
fn put_place(out: &mut [u8], at: usize, place: usize, depth: u8) -> usize
    ensures { Writes out.old at (place_text place depth) out.new result }
{
    let first = decimals::put_decimal(out, at, place as u64);
    let second = number_texts::put_named(out, first, b" ", depth as u64);
    text::put_byte(out, second, 32)
}

// What every line starts with: place, depth, tag and length.
fn put_head(out: &mut [u8], at: usize, field: FieldAt) -> usize
    ensures { Writes out.old at (head_text field.place field.depth field.kind field.length) out.new result }
{
    let kind = field.kind;
    let tag = field_headers::tag_of(kind);
    let first = put_place(out, at, field.place, field.depth);
    let second = hex_texts::put_hex_byte(out, first, tag);
    number_texts::put_named(out, second, b" ", field.length as u64)
}

// The line of a field of the sheet.
fn put_line(out: &mut [u8], at: usize, sheet: &[u8], field: FieldAt) -> usize
    requires { field.place + 3 + field.length ≤ length sheet.now }
    ensures { Writes out.old at (line_of (field_of sheet.now field)) out.new result }
{
    let from = field.place + 3;
    let end = from + field.length;
    let kind = field.kind;
    let first = put_head(out, at, field);
    let second = field_texts::put_content(out, first, kind, &sheet[from..end]);
    text::put_byte(out, second, 10)
}

// The text of a sheet's fields, as far as it fits, and its length: a line for each field, or the refusal.
fn put_lines(out: &mut [u8], sheet: &[u8]) -> usize
    ensures { Writes out.old 0 (text_of sheet.now) out.new result }
{
    let mut walk = walker::start(sheet);
    let mut at = 0;
    loop {
        let step = walker::step(sheet, walk);
        match step.given {
            Ok(given) => {
                let Some(field) = given else {
                    return at;
                };
                at = put_line(out, at, sheet, field);
                walk = step.next;
            }
            Err((refusal, place)) => {
                return lines::put_refusal_line(out, at, refusal, place);
            }
        }
    }
}

// The fields' lines.
struct FieldLines;

impl SheetText for FieldLines {
    ghost text_of = { text_of };

    ghost LIMIT = { longest };

    const LIMIT: usize = 196608;

    fn put(out: &mut [u8], sheet: &[u8]) -> usize {
        put_lines(out, sheet)
    }

    ghost within_limit = { text_short };
}

// Writes a line for each field of a sheet, or its refusal, into a buffer: the text's length, or 13 with the buffer as it was.
pub fn list_fields(sheet: &[u8], out: &mut [u8]) -> Result<usize, Refusal>
    ensures answer { result ≡ listed_of (text_of sheet.now) out.old }
    ensures content { out.new ≡ buffer_of (text_of sheet.now) out.old }
{
    listing::put_sheet_text::<FieldLines>(sheet, out)
}
