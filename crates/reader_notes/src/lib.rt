// The notes of the sheet that a reader holds.
#![tactic(auto)]

ghost use Rattle.std.specs.Prelude.{◌≡◌};
ghost use Rattle.fields.specs.Run.{sheet_of};
ghost use Rattle.notes.specs.Note.{note_of, text_of, found_of, span_of, PartOf};

use reader::Reader;
use refusals::Refusal;

// Where the text of the note at a place is, or why there is none.
pub fn find_note<'a>(reader: Reader<'a>, place: usize) -> Result<(usize, usize), (Refusal, usize)>
    ensures { result ≡ found_of place (note_of (sheet_of reader.entry.sheet.now) place) }
{
    note_finder::find_note(reader.sheet, place)
}

// The text of the note at a place, as the sheet's own bytes: none where there is no note.
pub fn note<'a>(reader: Reader<'a>, place: usize) -> &'a [u8]
    ensures { (result.now ≡ text_of (note_of (sheet_of reader.entry.sheet.now) place)) × PartOf reader.entry.sheet (span_of (found_of place (note_of (sheet_of reader.entry.sheet.now) place))) result }
{
    note_finder::note_text(reader.sheet, place)
}
