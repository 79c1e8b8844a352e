// Writing one field of a sheet at a place of a buffer.
#![tactic(auto)]

ghost use Rattle.std.specs.Prelude.{◌≡◌};
ghost use Rattle.fields.specs.declared.FieldKind.{FieldKind};
ghost use Rattle.contents.specs.Contents.{word_bytes, figure_bytes};
ghost use Rattle.writer.specs.Write.{write_of, group_of};

use refusals::Refusal;

// Writes a word field.
pub fn write_word(out: &mut [u8], place: usize, word: u32) -> Result<usize, (Refusal, usize)>
    ensures value { result ≡ (write_of out.old place FieldKind.Word (word_bytes word)).answer }
    ensures out_after { out.new ≡ (write_of out.old place FieldKind.Word (word_bytes word)).buffer }
{
    let content = content_bytes::word_bytes(word);
    field_store::put_field(out, place, 0x10, &content)
}

// Writes a figure field: a label and millionths.
pub fn write_figure(
    out: &mut [u8],
    place: usize,
    label: u8,
    millionths: i64,
) -> Result<usize, (Refusal, usize)>
    ensures value { result ≡ (write_of out.old place FieldKind.Figure (figure_bytes label millionths)).answer }
    ensures out_after { out.new ≡ (write_of out.old place FieldKind.Figure (figure_bytes label millionths)).buffer }
{
    let content = content_bytes::figure_bytes(label, millionths);
    field_store::put_field(out, place, 0x11, &content)
}

// Writes a note field.
pub fn write_note(out: &mut [u8], place: usize, text: &[u8]) -> Result<usize, (Refusal, usize)>
    ensures value { result ≡ (write_of out.old place FieldKind.Note text.now).answer }
    ensures out_after { out.new ≡ (write_of out.old place FieldKind.Note text.now).buffer }
{
    field_store::put_field(out, place, 0x12, text)
}

// Writes a group field of a run of bytes, which is checked first as the inside of a top group.
pub fn write_group(out: &mut [u8], place: usize, run: &[u8]) -> Result<usize, (Refusal, usize)>
    ensures value { result ≡ (group_of out.old place run.now).answer }
    ensures out_after { out.new ≡ (group_of out.old place run.now).buffer }
{
    sheet::check_inside(run)?;
    field_store::put_field(out, place, 0x20, run)
}
