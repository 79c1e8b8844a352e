// Finding the note at a place of a sheet.
#![tactic(auto)]

ghost use Rattle.std.specs.Prelude.{◌≡◌, ◌&&◌, eqb};
ghost use Rattle.fields.specs.Run.{sheet_of};
ghost use Rattle.notes.specs.Note.{is_note, note_of, text_of, found_of, span_of, PartOf};

use fields::FieldKind;
use notes::Span;
use refusals::Refusal;
use walk::FieldAt;

// Whether a field is the note at a place.
fn is_note_at(field: FieldAt, place: usize) -> bool
    ensures { result ≡ is_note field.kind && eqb field.place place }
{
    matches!(field.kind, FieldKind::Note) & (field.place == place)
}

// Where the text of the note at a place is, or why there is none.
pub fn find_note(sheet: &[u8], place: usize) -> Result<(usize, usize), (Refusal, usize)>
    ensures { result ≡ found_of place (note_of (sheet_of sheet.now) place) }
{
    let mut at = walker::start(sheet);
    loop {
        let step = walker::step(sheet, at);
        let Some(field) = step.given? else {
            return Err((Refusal::Tag, place));
        };
        if is_note_at(field, place) {
            let start = place + 3;
            return Ok((start, start + field.length));
        }
        at = step.next;
    }
}

// The part of a sheet that a note's text is.
fn span_of(found: Result<(usize, usize), (Refusal, usize)>) -> Span
    ensures { result ≡ span_of found }
{
    match found {
        Ok((start, end)) => Span { start, end },
        Err((_, _)) => Span { start: 0, end: 0 },
    }
}

// The text of the note at a place: the sheet's own bytes, none where there is no note.
pub fn note_text(sheet: &[u8], place: usize) -> &[u8]
    ensures text { result.now ≡ text_of (note_of (sheet_of sheet.now) place) }
    ensures part { PartOf sheet.entry (span_of (found_of place (note_of (sheet_of sheet.now) place))) result }
{
    let span = span_of(find_note(sheet, place));
    let start = span.start;
    let end = span.end;
    &sheet[start..end]
}
