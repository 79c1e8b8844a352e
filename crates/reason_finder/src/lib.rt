// Why a figure and a count agree or do not.
#![tactic(auto)]

ghost use Rattle.std.specs.Prelude.{◌≡◌};
ghost use Rattle.reasons.specs.Scaled.{scaled_agrees, scaled_for, reason_of};
ghost use Rattle.explanations.specs.Explanations.{count_agrees};

use quantities::Quantity;
use reasons::Reason;

// Whether the figure agrees that a reason puts in the place of this one.
fn reason_agrees(reason: Reason, quantity: Quantity, count: i16, millionths: i64) -> bool
    ensures { result ≡ scaled_agrees (count_agrees quantity count) (scaled_for reason millionths) }
{
    match scaled_figures::scaled_for(reason, millionths) {
        Some(scaled) => agreements::count_agrees(quantity, count, scaled),
        None => false,
    }
}

// Why a figure in millionths and a count of a quantity agree or do not.
pub fn reason_of(quantity: Quantity, count: i16, millionths: i64) -> Reason
    ensures { result ≡ reason_of (count_agrees quantity count) millionths }
{
    if reason_agrees(Reason::Agrees, quantity, count, millionths) {
        return Reason::Agrees;
    }
    if reason_agrees(Reason::Tenth, quantity, count, millionths) {
        return Reason::Tenth;
    }
    if reason_agrees(Reason::Hundredth, quantity, count, millionths) {
        return Reason::Hundredth;
    }
    if reason_agrees(Reason::Thousandth, quantity, count, millionths) {
        return Reason::Thousandth;
    }
    if reason_agrees(Reason::TenTimes, quantity, count, millionths) {
        return Reason::TenTimes;
    }
    if reason_agrees(Reason::HundredTimes, quantity, count, millionths) {
        return Reason::HundredTimes;
    }
    if reason_agrees(Reason::ThousandTimes, quantity, count, millionths) {
        return Reason::ThousandTimes;
    }
    if reason_agrees(Reason::OtherSign, quantity, count, millionths) {
        return Reason::OtherSign;
    }
    Reason::NoneOfThese
}
