// The text of a reason, into a buffer: what fits is stored and all is counted, as in the crate `text`.
#![tactic(auto)]

ghost use Rattle.text.specs.Writing.{Writes};
ghost use Rattle.reason_texts.specs.ReasonTexts.{reason_text, because_text};

use reasons::Reason;

// A reason.
fn put_reason(out: &mut [u8], at: usize, reason: Reason) -> usize
    ensures { Writes out.old at (reason_text reason) out.new result }
{
    match reason {
        Reason::Agrees => text::put_text(out, at, b"agrees"),
        Reason::Tenth => text::put_text(out, at, b"a tenth agrees"),
        Reason::Hundredth => text::put_text(out, at, b"a hundredth agrees"),
        Reason::Thousandth => text::put_text(out, at, b"a thousandth agrees"),
        Reason::TenTimes => text::put_text(out, at, b"ten times it agrees"),
        Reason::HundredTimes => text::put_text(out, at, b"a hundred times it agrees"),
        Reason::ThousandTimes => text::put_text(out, at, b"a thousand times it agrees"),
        Reason::OtherSign => text::put_text(out, at, b"the other sign agrees"),
        Reason::NoneOfThese => text::put_text(out, at, b"none of these"),
    }
}

// A reason, and behind all but the first the word's figure, in millionths.
pub fn put_because(out: &mut [u8], at: usize, reason: Reason, figure: i64) -> usize
    ensures { Writes out.old at (because_text reason figure) out.new result }
{
    let behind = put_reason(out, at, reason);
    if reason_numbers::number(reason) == 1 {
        return behind;
    }
    let says = text::put_text(out, behind, b"; the word says ");
    number_texts::put_millionths(out, says, figure)
}
