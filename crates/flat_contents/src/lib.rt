// What stands in the fields of a sheet, as numbers: the word, the figure, and where the text of a note is.
#![tactic(auto)]

ghost use Rattle.std.specs.Prelude.{◌≡◌};
ghost use Rattle.fields.specs.Run.{sheet_of};
ghost use Rattle.notes.specs.Note.{note_of};
ghost use Rattle.contents.specs.Contents.{word_in, figure_in};
ghost use Rattle.flat_contents.specs.Contents.{flat_word_in, flat_figure_in, flat_note};

use flat_words::FlatWord;
use refusals::Refusal;

// A label and millionths, or a refusal's number beside zeros.
#[repr(C)]
#[derive(Clone, Copy)]
pub struct FlatFigure {
    pub refusal: u8,
    pub label: u8,
    pub millionths: i64,
}

// The offset of a note's first byte and the number of its bytes; beside a refusal's number, the offset that it has, and 0.
#[repr(C)]
#[derive(Clone, Copy)]
pub struct FlatNote {
    pub refusal: u8,
    pub start: usize,
    pub length: usize,
}

// The numbers of a word field's content.
fn flat_word_in(found: Result<u32, Refusal>) -> FlatWord
    ensures { result ≡ flat_word_in found }
{
    match found {
        Ok(word) => FlatWord {
            refusal: 0,
            word: word,
        },
        Err(refusal) => FlatWord {
            refusal: refusals::number(refusal),
            word: 0,
        },
    }
}

// The numbers of a figure field's content.
fn flat_figure_in(found: Result<(u8, i64), Refusal>) -> FlatFigure
    ensures { result ≡ flat_figure_in found }
{
    match found {
        Ok((label, millionths)) => FlatFigure {
            refusal: 0,
            label: label,
            millionths: millionths,
        },
        Err(refusal) => FlatFigure {
            refusal: refusals::number(refusal),
            label: 0,
            millionths: 0,
        },
    }
}

// The word that a word field's content holds, or the number of its refusal.
pub fn word_in_flat(content: &[u8]) -> FlatWord
    ensures { result ≡ flat_word_in (word_in content.now) }
{
    flat_word_in(content_values::word_in(content))
}

// The figure that a figure field's content holds, or the number of its refusal.
pub fn figure_in_flat(content: &[u8]) -> FlatFigure
    ensures { result ≡ flat_figure_in (figure_in content.now) }
{
    flat_figure_in(content_values::figure_in(content))
}

// Where the text of the note at a place is, or the number of its refusal.
pub fn find_note_flat(sheet: &[u8], place: usize) -> FlatNote
    ensures { result ≡ flat_note place (note_of (sheet_of sheet.now) place) }
{
    match note_finder::find_note(sheet, place) {
        Ok((start, end)) => FlatNote {
            refusal: 0,
            start: start,
            length: end - start,
        },
        Err((refusal, offset)) => FlatNote {
            refusal: refusals::number(refusal),
            start: offset,
            length: 0,
        },
    }
}
