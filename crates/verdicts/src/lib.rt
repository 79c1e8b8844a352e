// Whether a figure of a sheet agrees with the word just before it, and whether a word is refused.
#![tactic(auto)]

ghost use Rattle.std.specs.Prelude.{cond, ◌≡◌};
ghost use Rattle.verdicts.specs.Verdicts.{measurement_verdict, verdict_of, is_refused};

use quantities::Quantity;
use records::Record;
use refusals::Refusal;

// What the listing says of a figure.
#[derive(Clone, Copy, PartialEq, Eq, Debug)]
pub enum Verdict {
    Agrees,
    Differs,
    Unmatched,
}

// The verdict on a figure that is compared with a word.
fn compared(agrees: bool) -> Verdict
    ensures { result ≡ cond agrees Verdict.Agrees Verdict.Differs }
{
    if agrees {
        return Verdict::Agrees;
    }
    Verdict::Differs
}

// The verdict on a figure behind a word that has a reading, by what the word measures.
fn measurement_verdict(measurement: Option<(Quantity, i16)>, millionths: i64) -> Verdict
    ensures { result ≡ measurement_verdict measurement millionths }
{
    match measurement {
        Some((quantity, count)) => {
            compared(agreements::count_agrees(quantity, count, millionths))
        }
        None => Verdict::Unmatched,
    }
}

// What the listing says of a figure of this label, in millionths, behind a word. The word is decoded once.
fn word_verdict(word: u32, label: u8, millionths: i64) -> Verdict
    ensures { result ≡ verdict_of (Some word) label millionths }
{
    match decoder::decode(word) {
        Ok(record) => {
            let body = record.body;
            if (word_labels::label_of(word) == label as u32) & record_readings::has_reading(body) {
                return measurement_verdict(measurements::measurement_of(body), millionths);
            }
            Verdict::Unmatched
        }
        Err(_) => Verdict::Unmatched,
    }
}

// What the listing says of a figure of this label, in millionths.
pub fn verdict_of(previous: Option<u32>, label: u8, millionths: i64) -> Verdict
    ensures { result ≡ verdict_of previous label millionths }
{
    match previous {
        Some(word) => word_verdict(word, label, millionths),
        None => Verdict::Unmatched,
    }
}

// Whether a word is refused, by what it is decoded to.
pub fn is_refused(decoded: Result<Record, Refusal>) -> bool
    ensures { result ≡ is_refused decoded }
{
    match decoded {
        Ok(_) => false,
        Err(_) => true,
    }
}
