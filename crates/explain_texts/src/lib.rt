// The answers to the lines of a text, into a buffer, and the progress that they make.
#![tactic(auto)]

ghost use Rattle.std.specs.Prelude.{◌≡◌};
ghost use Rattle.text.specs.Writing.{Writes};
ghost use Rattle.answers.specs.Answers.{answer_text, outcome_of};
ghost use Rattle.text_lines.specs.Lines.{lines_of};
ghost use Rattle.line_answers.specs.LineAnswers.{one_more, counted, progress_of, answers_text};

use answers::Outcome;
use line_answers::Progress;

// One more, up to the largest number.
fn one_more(number: u64) -> u64
    ensures { result ≡ one_more number }
{
    number.saturating_add(1)
}

// One line more, of this outcome.
fn count(before: Progress, outcome: Outcome) -> Progress
    ensures { result ≡ counted before outcome }
{
    let mut after = before;
    after.seen = one_more(before.seen);
    match outcome {
        Outcome::Agrees => {
            after.lines = one_more(before.lines);
            after.agree = one_more(before.agree);
        }
        Outcome::Disagrees => {
            after.lines = one_more(before.lines);
            after.disagree = one_more(before.disagree);
        }
        Outcome::Refused => {
            after.lines = one_more(before.lines);
            after.refused = one_more(before.refused);
        }
        Outcome::Unread => {
            after.lines = one_more(before.lines);
            after.unread = one_more(before.unread);
        }
        Outcome::Passed => {}
    }
    after
}

// The answers to lines in a row.
#[derive(Clone, Copy, PartialEq, Eq, Debug)]
pub struct AnsweredLines {
    // the progress behind these lines
    pub after: Progress,
    // the length of the answers
    pub length: usize,
}

// The answer to one line more.
fn put_line(out: &mut [u8], answered: AnsweredLines, line: &[u8]) -> AnsweredLines
    ensures text { Writes out.old answered.length (answer_text (one_more answered.after.seen) line.now) out.new result.length }
    ensures progress { result.after ≡ counted answered.after (outcome_of line.now) }
{
    let before = answered.after;
    let answer = explain_lines::put_answer(out, answered.length, one_more(before.seen), line);
    let outcome = answer.outcome;
    let after = count(before, outcome);
    AnsweredLines {
        after,
        length: answer.next,
    }
}

// The answers to the lines of a text, which stand behind others.
pub fn explain_text(text: &[u8], before: Progress, out: &mut [u8]) -> AnsweredLines
    ensures text { Writes out.old 0 (answers_text before.seen (lines_of text.now)) out.new result.length }
    ensures progress { result.after ≡ progress_of before (lines_of text.now) }
{
    let mut answered = AnsweredLines {
        after: before,
        length: 0,
    };
    let mut ahead = text;
    while !ahead.is_empty() {
        let line = typed_parts::text_before(ahead, b'\n');
        answered = put_line(out, answered, line);
        ahead = typed_parts::text_behind(ahead, b'\n');
    }
    answered
}
