// Numbers in octal digits, behind a text and in millionths, into a buffer: what fits is stored and all is counted, as in the crate `text`.
#![tactic(auto)]

ghost use Rattle.std.specs.Prelude.{◌++◌};
ghost use Rattle.text.specs.Writing.{Writes};
ghost use Rattle.numerals.specs.Digits.{octal3, decimal, signed_fixed};

// A number in three octal digits.
pub fn put_octal3(out: &mut [u8], at: usize, number: u32) -> usize
    ensures { Writes out.old at (octal3 number) out.new result }
{
    let digits = [
        (48 + number / 8 / 8 % 8) as u8,
        (48 + number / 8 % 8) as u8,
        (48 + number % 8) as u8,
    ];
    text::put_text(out, at, &digits)
}

// A text, and a decimal number behind it.
pub fn put_named(out: &mut [u8], at: usize, name: &[u8], number: u64) -> usize
    ensures { Writes out.old at (name.now ++ decimal number) out.new result }
{
    let digits = text::put_text(out, at, name);
    decimals::put_decimal(out, digits, number)
}

// A number of millionths, with six decimals.
pub fn put_millionths(out: &mut [u8], at: usize, millionths: i64) -> usize
    ensures { Writes out.old at (signed_fixed 6 millionths) out.new result }
{
    let negative = rounding::is_negative(millionths);
    let size = rounding::magnitude(millionths);
    decimals::put_signed(out, at, negative, 6, size)
}
