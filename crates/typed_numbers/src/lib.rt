// The numbers that are written in digits in a typed text.
#![tactic(auto)]

ghost use Rattle.std.specs.Prelude.{◌≡◌};
ghost use Rattle.typed_texts.specs.Texts.{unsigned};
ghost use Rattle.typed_texts.specs.Numbers.{digit_of, goes_behind, numeral_of};

// The digit that a byte is in ASCII, or 255 where it is none.
#[tactic(auto, using(std::proofs::lemmas::Bool::Decides::nat_tests), unfolding(typed_texts::specs::Numbers::digit_of))]
fn digit_of(byte: u8) -> u64
    ensures { result ≡ digit_of byte }
{
    match byte {
        b'0'..=b'9' => (byte - b'0') as u64,
        b'A'..=b'F' => (byte - b'A') as u64 + 10,
        b'a'..=b'f' => (byte - b'a') as u64 + 10,
        _ => 255,
    }
}

// Whether a number with this digit behind it is one of the base, and no greater than `most`.
fn goes_behind(value: u64, digit: u64, base: u64, most: u64) -> bool
    ensures { result ≡ goes_behind base most value digit }
{
    if base <= digit {
        return false;
    }
    if most < digit {
        return false;
    }
    value <= (most - digit) / base
}

// The number that a text of digits is in a base, if it is no greater than `most`.
pub fn read_number(text: &[u8], base: u8, most: u64) -> Option<u64>
    ensures { result ≡ numeral_of base most text.now }
{
    if text.is_empty() {
        return None;
    }
    let wide = base as u64;
    let mut value: u64 = 0;
    for &byte in text {
        let digit = digit_of(byte);
        if !goes_behind(value, digit, wide, most) {
            return None;
        }
        value = value * wide + digit;
    }
    Some(value)
}

// The decimal number behind the sign, if there is one.
pub fn read_size(text: &[u8], most: u64) -> Option<u64>
    ensures { result ≡ numeral_of 10 most (unsigned text.now) }
{
    if typed_parts::starts_with(text, b'-') {
        return read_number(&text[1..], 10, most);
    }
    read_number(text, 10, most)
}
