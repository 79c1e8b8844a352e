// A number of 64 bits, by its sign and its size.
#![tactic(auto)]

ghost use Rattle.std.specs.Prelude.{◌≡◌};
ghost use Rattle.signed_numbers.specs.Signed.{signed_of};

// The number of this size and sign.
pub fn with_sign(negative: bool, size: u64) -> Option<i64>
    ensures { result ≡ signed_of negative size }
{
    if 9223372036854775807 + (negative as u64) < size {
        return None;
    }
    if negative & (0 < size) {
        return Some(!((size - 1) as i64));
    }
    Some(size as i64)
}
