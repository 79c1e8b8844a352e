// Labels as lines of text into a buffer: what fits is stored and all is counted, as in the crate `text`.
#![tactic(auto)]

ghost use Rattle.std.specs.Prelude.{◌≡◌, ◌++◌, ◌<◌, length};
ghost use Rattle.text.specs.Ascii.{ascii};
ghost use Rattle.text.specs.Writing.{Writes};
ghost use Rattle.label_texts.specs.LabelTexts.{bits_text, label_line, shown_bytes, labels_text};
ghost use Rattle.label_texts.specs.Writers.{shown_at};

// Bits 1 to 8 of a byte in their order, between blanks.
fn put_bits(out: &mut [u8], at: usize, byte: u8) -> usize
    ensures { Writes out.old at (ascii " " ++ bits_text byte ++ ascii " ") out.new result }
{
    let digits = [
        32,
        48 + byte % 2,
        48 + byte / 2 % 2,
        48 + byte / 4 % 2,
        48 + byte / 8 % 2,
        48 + byte / 16 % 2,
        48 + byte / 32 % 2,
        48 + byte / 64 % 2,
        48 + byte / 128 % 2,
        32,
    ];
    text::put_text(out, at, &digits)
}

// The line of a byte: its label, its bits and the byte.
fn put_line(out: &mut [u8], at: usize, byte: u8) -> usize
    ensures { Writes out.old at (label_line byte) out.new result }
{
    let label = word_labels::label_of(byte as u32);
    let bits = number_texts::put_octal3(out, at, label);
    let hex = put_bits(out, bits, byte);
    let end = hex_texts::put_hex_byte(out, hex, byte);
    text::put_byte(out, end, 10)
}

// How many bytes are shown: those of the fifteen labels, or all.
fn shown_count(all: bool) -> usize
    ensures { result ≡ length (shown_bytes all) }
{
    if all {
        return 256;
    }
    15
}

// The byte at a place among them, in the order of document 01's table, or from 00 to FF.
fn shown_byte(all: bool, place: usize) -> u8
    requires { place < length (shown_bytes all) }
    ensures { result ≡ shown_at all place }
{
    if all {
        return place as u8;
    }
    let row = label_table::row_at(place);
    word_labels::label_of(row.label) as u8
}

// The lines of the fifteen labels, or of all bytes.
pub fn put_labels(out: &mut [u8], at: usize, all: bool) -> usize
    ensures { Writes out.old at (labels_text all) out.new result }
{
    let count = shown_count(all);
    let mut next = at;
    for place in 0..count {
        next = put_line(out, next, shown_byte(all, place));
    }
    next
}
