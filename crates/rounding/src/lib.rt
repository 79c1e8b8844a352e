#![tactic(auto)]

ghost use Rattle.std.specs.Prelude.{◌≡◌, ◌<◌, nat_abs};
ghost use Rattle.rounding.specs.Parts.{is_negative};
ghost use Rattle.rounding.specs.Rounding.{round_even, rounded_over};

// n over a divisor d that is not 0, rounded to the nearest whole number, a tie to the even one.
fn round_over(n: u64, d: u64) -> u64
    requires { 0 < d }
    ensures { result ≡ round_even n d }
{
    let quotient = n / d;
    let remainder = n % d;
    let rest = d - remainder;
    let tie = (remainder == rest) & (quotient % 2 == 1);
    quotient + ((rest < remainder) | tie) as u64
}

// n over d rounded to the nearest whole number, a tie to the even one; 0 where d is 0.
pub fn round_half_even(n: u64, d: u64) -> u64
    ensures { result ≡ rounded_over n d }
{
    if d == 0 {
        return 0;
    }
    round_over(n, d)
}

// Whether a number is below 0.
pub fn is_negative(number: i64) -> bool
    ensures { result ≡ is_negative number }
{
    number < 0
}

// The number without its sign.
pub fn magnitude(number: i64) -> u64
    ensures { result ≡ nat_abs number }
{
    if number < 0 {
        return (!number) as u64 + 1;
    }
    number as u64
}
