// The signed numbers in the lines of test vectors.
#![tactic(auto)]

ghost use Rattle.std.specs.Prelude.{◌≡◌};
ghost use Rattle.test_numbers.specs.Signed.{signed_in};

// The whole number that a text is, with a minus or none: one of 64 bits, or too large, and so where it is no number.
pub fn read_signed(text: &[u8]) -> Option<i64>
    ensures { result ≡ signed_in text.now }
{
    let size = typed_numbers::read_size(text, 18446744073709551615)?;
    let negative = typed_parts::starts_with(text, b'-');
    signed_numbers::with_sign(negative, size)
}
