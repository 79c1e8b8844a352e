// The answer to a typed line of a word and a figure, into a buffer: what fits is stored and all is counted, as in the crate `text`.
#![tactic(auto)]

ghost use Rattle.std.specs.Prelude.{cond, ◌≡◌, eqb};
ghost use Rattle.reasons.specs.Reasons.{number_of};
ghost use Rattle.text.specs.Writing.{Writes};
ghost use Rattle.explanations.specs.Explanations.{explained_by};
ghost use Rattle.answers.specs.Answers.{explained_outcome, pair_text, pair_answer, unread_answer, typed_answer, typed_outcome, answer_text, outcome_of};
ghost use Rattle.answers.specs.Held.{held_text};

use answers::Outcome;
use quantities::Quantity;
use reasons::Reason;
use refusals::Refusal;
use typed_pairs::TypedLine;

// Where an answer ends, and what its line is counted as.
#[derive(Clone, Copy, PartialEq, Eq, Debug)]
pub struct Answered {
    pub next: usize,
    pub outcome: Outcome,
}

// What a line is counted as for a reason.
fn outcome_for(reason: Reason) -> Outcome
    ensures { result ≡ cond (eqb (number_of reason) 1) Outcome.Agrees Outcome.Disagrees }
{
    if matches!(reason, Reason::Agrees) {
        return Outcome::Agrees;
    }
    Outcome::Disagrees
}

// Why a figure and what a word holds agree or do not.
fn put_held(
    out: &mut [u8],
    at: usize,
    held: Result<(Quantity, i16), Refusal>,
    millionths: i64,
) -> Answered
    ensures text { Writes out.old at (held_text held millionths) out.new result.next }
    ensures outcome { result.outcome ≡ explained_outcome (explained_by held millionths) }
{
    match held {
        Ok((quantity, count)) => {
            let reason = reason_finder::reason_of(quantity, count, millionths);
            let figure = quantities::millionths(quantity, count);
            Answered {
                next: reason_texts::put_because(out, at, reason, figure),
                outcome: outcome_for(reason),
            }
        }
        Err(refusal) => Answered {
            next: number_texts::put_named(out, at, b"refused ", refusals::number(refusal) as u64),
            outcome: Outcome::Refused,
        },
    }
}

// A word and a figure as they are written again.
fn put_pair(out: &mut [u8], at: usize, word: u32, millionths: i64) -> usize
    ensures { Writes out.old at (pair_text word millionths) out.new result }
{
    let blank = hex_texts::put_word(out, at, word);
    let figure = text::put_byte(out, blank, 32);
    let colon = number_texts::put_millionths(out, figure, millionths);
    text::put_text(out, colon, b": ")
}

// The answer to a word and a figure. The word is decoded once.
fn put_pair_answer(out: &mut [u8], at: usize, word: u32, millionths: i64) -> Answered
    ensures text { Writes out.old at (pair_answer word millionths) out.new result.next }
    ensures outcome { result.outcome ≡ typed_outcome (TypedLine.Pair word millionths) }
{
    let why = put_pair(out, at, word, millionths);
    let answered = put_held(out, why, explainer::held_in(word), millionths);
    let end = answered.next;
    let outcome = answered.outcome;
    Answered {
        next: text::put_byte(out, end, 10),
        outcome,
    }
}

// The answer to a line that is no word and figure, by its number.
fn put_unread(out: &mut [u8], at: usize, number: u64) -> usize
    ensures { Writes out.old at (unread_answer number) out.new result }
{
    let behind = number_texts::put_named(out, at, b"line ", number);
    text::put_text(out, behind, b": no word and figure\n")
}

// The answer to what a line of this number is.
fn put_typed_answer(out: &mut [u8], at: usize, number: u64, typed: TypedLine) -> Answered
    ensures text { Writes out.old at (typed_answer number typed) out.new result.next }
    ensures outcome { result.outcome ≡ typed_outcome typed }
{
    match typed {
        TypedLine::Passed => Answered {
            next: at,
            outcome: Outcome::Passed,
        },
        TypedLine::Pair(word, millionths) => put_pair_answer(out, at, word, millionths),
        TypedLine::Unread => Answered {
            next: put_unread(out, at, number),
            outcome: Outcome::Unread,
        },
    }
}

// The answer to the line of this number, without its line feed.
pub fn put_answer(out: &mut [u8], at: usize, number: u64, line: &[u8]) -> Answered
    ensures text { Writes out.old at (answer_text number line.now) out.new result.next }
    ensures outcome { result.outcome ≡ outcome_of line.now }
{
    put_typed_answer(out, at, number, pair_reader::read_line(line))
}
