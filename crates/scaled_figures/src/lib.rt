// The figure that a reason puts in the place of the one that was typed.
#![tactic(auto)]

ghost use Rattle.std.specs.Prelude.{◌≡◌, ◌<◌};
ghost use Rattle.reasons.specs.Scaled.{part_of, multiple_of, opposite_of, scaled_for};

use reasons::Reason;

// The n-th part of a figure, where that is whole.
fn part_of(millionths: i64, n: u64) -> Option<i64>
    requires { 0 < n }
    ensures { result ≡ part_of n millionths }
{
    let negative = rounding::is_negative(millionths);
    let size = rounding::magnitude(millionths);
    if size % n == 0 {
        return signed_numbers::with_sign(negative, size / n);
    }
    None
}

// n times a figure, where 64 bits hold that.
fn multiple_of(millionths: i64, n: u64) -> Option<i64>
    requires { 0 < n }
    ensures { result ≡ multiple_of n millionths }
{
    let negative = rounding::is_negative(millionths);
    let size = rounding::magnitude(millionths);
    if 9223372036854775808 / n < size {
        return None;
    }
    signed_numbers::with_sign(negative, size * n)
}

// A figure with the other sign, where 64 bits hold that.
fn opposite_of(millionths: i64) -> Option<i64>
    ensures { result ≡ opposite_of millionths }
{
    let negative = rounding::is_negative(millionths);
    let size = rounding::magnitude(millionths);
    signed_numbers::with_sign(!negative, size)
}

// The figure that a reason puts in the place of this one.
pub fn scaled_for(reason: Reason, millionths: i64) -> Option<i64>
    ensures { result ≡ scaled_for reason millionths }
{
    match reason {
        Reason::Agrees => Some(millionths),
        Reason::Tenth => part_of(millionths, 10),
        Reason::Hundredth => part_of(millionths, 100),
        Reason::Thousandth => part_of(millionths, 1000),
        Reason::TenTimes => multiple_of(millionths, 10),
        Reason::HundredTimes => multiple_of(millionths, 100),
        Reason::ThousandTimes => multiple_of(millionths, 1000),
        Reason::OtherSign => opposite_of(millionths),
        Reason::NoneOfThese => None,
    }
}
