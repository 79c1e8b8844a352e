// Bytes and words in hex digits, A to F in capitals, into a buffer: what fits is stored and all is counted, as in the crate `text`.
#![tactic(auto)]

ghost use Rattle.std.specs.Prelude.{[], ◌∷◌, ◌%◌};
ghost use Rattle.text.specs.Writing.{Writes};
ghost use Rattle.hex_texts.specs.HexTexts.{hex_digit, hex_byte, word_text};

// The lowest hex digit of a number.
fn put_hex_digit(out: &mut [u8], at: usize, number: u8) -> usize
    ensures { Writes out.old at (hex_digit (number % 16) ∷ []) out.new result }
{
    let digit = number % 16;
    if digit < 10 {
        return text::put_byte(out, at, 48 + digit);
    }
    text::put_byte(out, at, 55 + digit)
}

// A byte in two hex digits.
pub fn put_hex_byte(out: &mut [u8], at: usize, byte: u8) -> usize
    ensures { Writes out.old at (hex_byte byte) out.new result }
{
    let second = put_hex_digit(out, at, byte / 16);
    put_hex_digit(out, second, byte)
}

// A word in eight hex digits.
pub fn put_word(out: &mut [u8], at: usize, word: u32) -> usize
    ensures { Writes out.old at (word_text word) out.new result }
{
    let second = put_hex_byte(out, at, (word / 0x1000000 % 256) as u8);
    let third = put_hex_byte(out, second, (word / 0x10000 % 256) as u8);
    let fourth = put_hex_byte(out, third, (word / 256 % 256) as u8);
    put_hex_byte(out, fourth, (word % 256) as u8)
}
