// The numbers of the reasons.
// A function and no `From`: an impl would stand in `reasons`, and `u8::from(reason)` does not say that it is the number; it is no plainer.
#![tactic(auto)]

ghost use Rattle.std.specs.Prelude.{◌≡◌};
ghost use Rattle.reasons.specs.Reasons.{number_of};

use reasons::Reason;

// The number of a reason, 1 to 9.
pub fn number(reason: Reason) -> u8
    ensures { result ≡ number_of reason }
{
    match reason {
        Reason::Agrees => 1,
        Reason::Tenth => 2,
        Reason::Hundredth => 3,
        Reason::Thousandth => 4,
        Reason::TenTimes => 5,
        Reason::HundredTimes => 6,
        Reason::ThousandTimes => 7,
        Reason::OtherSign => 8,
        Reason::NoneOfThese => 9,
    }
}
