// The content of a field as text into a buffer: what fits is stored and all is counted, as in the crate `text`.
#![tactic(auto)]

ghost use Rattle.text.specs.Writing.{Writes};
ghost use Rattle.field_texts.specs.FieldTexts.{hex_bytes, note_byte, note_text, figure_text, content_text};

use fields::FieldKind;

// Bytes in hex, two digits each.
fn put_hex(out: &mut [u8], at: usize, bytes: &[u8]) -> usize
    ensures { Writes out.old at (hex_bytes bytes.now) out.new result }
{
    let mut next = at;
    for &byte in bytes {
        next = hex_texts::put_hex_byte(out, next, byte);
    }
    next
}

// A byte of a note: as it is, or escaped.
fn put_note_byte(out: &mut [u8], at: usize, byte: u8) -> usize
    ensures { Writes out.old at (note_byte byte) out.new result }
{
    if ((31 < byte) & (byte < 127)) & (byte != 92) {
        return text::put_byte(out, at, byte);
    }
    let digits = text::put_text(out, at, b"\\x");
    hex_texts::put_hex_byte(out, digits, byte)
}

// The text of a note.
fn put_note(out: &mut [u8], at: usize, bytes: &[u8]) -> usize
    ensures { Writes out.old at (note_text bytes.now) out.new result }
{
    let mut next = at;
    for &byte in bytes {
        next = put_note_byte(out, next, byte);
    }
    next
}

// The label and the number of a figure field.
fn put_figure(out: &mut [u8], at: usize, content: &[u8]) -> usize
    ensures { Writes out.old at (figure_text content.now) out.new result }
{
    match content_values::figure_in(content) {
        Ok((label, millionths)) => {
            let blank = number_texts::put_octal3(out, at, label as u32);
            let number = text::put_byte(out, blank, 32);
            number_texts::put_millionths(out, number, millionths)
        }
        Err(_) => at,
    }
}

// A blank and the content of a field, by what the field holds; nothing for a group.
pub fn put_content(out: &mut [u8], at: usize, kind: FieldKind, content: &[u8]) -> usize
    ensures { Writes out.old at (content_text kind content.now) out.new result }
{
    match kind {
        FieldKind::Word => {
            let next = text::put_byte(out, at, 32);
            put_hex(out, next, content)
        }
        FieldKind::Figure => {
            let next = text::put_byte(out, at, 32);
            put_figure(out, next, content)
        }
        FieldKind::Note => {
            let next = text::put_byte(out, at, 32);
            put_note(out, next, content)
        }
        FieldKind::Group => at,
    }
}
