// The line of totals, into a buffer: what fits is stored and all is counted, as in the crate `text`.
#![tactic(auto)]

ghost use Rattle.text.specs.Writing.{Writes};
ghost use Rattle.line_answers.specs.LineAnswers.{counts_text, totals_text};

use line_answers::Progress;

// The first of the totals.
fn put_counts(out: &mut [u8], at: usize, progress: Progress) -> usize
    ensures { Writes out.old at (counts_text progress) out.new result }
{
    let agree = number_texts::put_named(out, at, b"lines ", progress.lines);
    let disagree = number_texts::put_named(out, agree, b" agree ", progress.agree);
    number_texts::put_named(out, disagree, b" disagree ", progress.disagree)
}

// The last line: how many lines were answer, and how many of them there are of each outcome.
pub fn put_totals(out: &mut [u8], at: usize, progress: Progress) -> usize
    ensures { Writes out.old at (totals_text progress) out.new result }
{
    let refused = put_counts(out, at, progress);
    let unread = number_texts::put_named(out, refused, b" refused ", progress.refused);
    let end = number_texts::put_named(out, unread, b" unread ", progress.unread);
    text::put_byte(out, end, 10)
}
