// Decimal numbers into a buffer, whole and with places: what fits is stored and all is counted, as in the crate `text`.
#![tactic(auto)]

ghost use Rattle.std.specs.Prelude.{[], ◌∷◌, ◌++◌, ◌<◌};
ghost use Rattle.text.specs.Writing.{Writes};
ghost use Rattle.numerals.specs.Digits.{digit, padded, decimal, pointed, fixed, sign};

// The lowest decimal digit of a number.
fn put_digit(out: &mut [u8], at: usize, number: u64) -> usize
    ensures { Writes out.old at (digit 10 number ∷ []) out.new result }
{
    text::put_byte(out, at, (48 + number % 10) as u8)
}

// The three lowest decimal digits of a number.
fn put_three(out: &mut [u8], at: usize, number: u64) -> usize
    ensures { Writes out.old at (padded 10 3 number) out.new result }
{
    let second = put_digit(out, at, number / 10 / 10);
    let third = put_digit(out, second, number / 10);
    put_digit(out, third, number)
}

// A decimal number with no leading zeros.
pub fn put_decimal(out: &mut [u8], at: usize, number: u64) -> usize
    ensures { Writes out.old at (decimal number) out.new result }
{
    if number < 10 {
        return put_digit(out, at, number);
    }
    if number < 100 {
        let units = put_digit(out, at, number / 10);
        return put_digit(out, units, number);
    }
    if number < 1000 {
        return put_three(out, at, number);
    }
    let next = put_decimal(out, at, number / 1000);
    put_three(out, next, number)
}

// A number's digits with a point before the last ones, as many as there are places.
fn put_pointed(out: &mut [u8], at: usize, places: u8, number: u64) -> usize
    ensures { Writes out.old at (pointed places number) out.new result }
{
    if places == 0 {
        let point = put_decimal(out, at, number);
        return text::put_byte(out, point, 46);
    }
    if 3 <= places {
        let next = put_pointed(out, at, places - 3, number / 1000);
        return put_three(out, next, number);
    }
    let last = put_pointed(out, at, places - 1, number / 10);
    put_digit(out, last, number)
}

// A minus, or nothing.
fn put_sign(out: &mut [u8], at: usize, negative: bool) -> usize
    ensures { Writes out.old at (sign negative) out.new result }
{
    if negative {
        return text::put_byte(out, at, 45);
    }
    at
}

// A number of units of 1/10^places, by its sign and its size.
pub fn put_signed(out: &mut [u8], at: usize, negative: bool, places: u8, size: u64) -> usize
    ensures { Writes out.old at (sign negative ++ fixed places size) out.new result }
{
    let whole = put_sign(out, at, negative);
    if places == 0 {
        return put_decimal(out, whole, size);
    }
    put_pointed(out, whole, places, size)
}
