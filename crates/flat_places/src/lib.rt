// The check of a sheet and the writing of a field, with their answers as numbers.
#![tactic(auto)]

ghost use Rattle.std.specs.Prelude.{◌≡◌};
ghost use Rattle.fields.specs.declared.FieldKind.{FieldKind};
ghost use Rattle.fields.specs.Run.{sheet_of};
ghost use Rattle.sheet.specs.Checked.{checked_of};
ghost use Rattle.contents.specs.Contents.{word_bytes, figure_bytes};
ghost use Rattle.writer.specs.Write.{write_of, group_of};
ghost use Rattle.flat_places.specs.Places.{flat_checked, flat_written};

use refusals::Refusal;

// An offset: of a legal sheet 0, of a field that was written the place after it; beside a refusal's number the offset that it has.
#[repr(C)]
#[derive(Clone, Copy)]
pub struct FlatPlace {
    pub refusal: u8,
    pub offset: usize,
}

// The numbers of what a check says.
fn flat_checked(checked: Result<(), (Refusal, usize)>) -> FlatPlace
    ensures { result ≡ flat_checked checked }
{
    match checked {
        Ok(()) => FlatPlace {
            refusal: 0,
            offset: 0,
        },
        Err((refusal, offset)) => FlatPlace {
            refusal: refusals::number(refusal),
            offset: offset,
        },
    }
}

// The numbers of what came of writing a field.
fn flat_written(written: Result<usize, (Refusal, usize)>) -> FlatPlace
    ensures { result ≡ flat_written written }
{
    match written {
        Ok(end) => FlatPlace {
            refusal: 0,
            offset: end,
        },
        Err((refusal, place)) => FlatPlace {
            refusal: refusals::number(refusal),
            offset: place,
        },
    }
}

// Whether a sheet is legal, else its refusal's number and offset.
pub fn check_flat(sheet: &[u8]) -> FlatPlace
    ensures { result ≡ flat_checked (checked_of (sheet_of sheet.now)) }
{
    flat_checked(sheet::check_sheet(sheet))
}

// Writes a word field.
pub fn write_word_flat(out: &mut [u8], place: usize, word: u32) -> FlatPlace
    ensures value { result ≡ flat_written (write_of out.old place FieldKind.Word (word_bytes word)).answer }
    ensures out_after { out.new ≡ (write_of out.old place FieldKind.Word (word_bytes word)).buffer }
{
    flat_written(field_writers::write_word(out, place, word))
}

// Writes a figure field: a label and millionths.
pub fn write_figure_flat(out: &mut [u8], place: usize, label: u8, millionths: i64) -> FlatPlace
    ensures value { result ≡ flat_written (write_of out.old place FieldKind.Figure (figure_bytes label millionths)).answer }
    ensures out_after { out.new ≡ (write_of out.old place FieldKind.Figure (figure_bytes label millionths)).buffer }
{
    flat_written(field_writers::write_figure(out, place, label, millionths))
}

// Writes a note field.
pub fn write_note_flat(out: &mut [u8], place: usize, text: &[u8]) -> FlatPlace
    ensures value { result ≡ flat_written (write_of out.old place FieldKind.Note text.now).answer }
    ensures out_after { out.new ≡ (write_of out.old place FieldKind.Note text.now).buffer }
{
    flat_written(field_writers::write_note(out, place, text))
}

// Writes a group field of a run of bytes, which is checked first as the inside of a top group.
pub fn write_group_flat(out: &mut [u8], place: usize, run: &[u8]) -> FlatPlace
    ensures value { result ≡ flat_written (group_of out.old place run.now).answer }
    ensures out_after { out.new ≡ (group_of out.old place run.now).buffer }
{
    flat_written(field_writers::write_group(out, place, run))
}
