// The lines of the listing beside those of words, into a buffer: a figure's, the total and the line of a refused sheet.
#![tactic(auto)]

ghost use Rattle.text.specs.Writing.{Writes};
ghost use Rattle.verdicts.specs.Verdicts.{verdict_of};
ghost use Rattle.lines.specs.Lines.{verdict_line, total_line, refusal_line};

use refusals::Refusal;
use verdicts::Verdict;

// The line of a verdict.
fn put_verdict_line(out: &mut [u8], at: usize, verdict: Verdict) -> usize
    ensures { Writes out.old at (verdict_line verdict) out.new result }
{
    match verdict {
        Verdict::Agrees => text::put_text(out, at, b"figure agrees\n"),
        Verdict::Differs => text::put_text(out, at, b"figure differs\n"),
        Verdict::Unmatched => text::put_text(out, at, b"figure unmatched\n"),
    }
}

// The line of a figure of this label, in millionths, by the field just before it in its group.
pub fn put_figure_line(
    out: &mut [u8],
    at: usize,
    previous: Option<u32>,
    label: u8,
    millionths: i64,
) -> usize
    ensures { Writes out.old at (verdict_line (verdict_of previous label millionths)) out.new result }
{
    put_verdict_line(out, at, verdicts::verdict_of(previous, label, millionths))
}

// The last line: how many words there are, and how many of them are refused.
pub fn put_total_line(out: &mut [u8], at: usize, words: u64, refused: u64) -> usize
    ensures { Writes out.old at (total_line words refused) out.new result }
{
    let middle = number_texts::put_named(out, at, b"words ", words);
    let end = number_texts::put_named(out, middle, b" refused ", refused);
    text::put_byte(out, end, 10)
}

// The line of a refused sheet, with the offset of the refusal.
pub fn put_refusal_line(out: &mut [u8], at: usize, refusal: Refusal, place: usize) -> usize
    ensures { Writes out.old at (refusal_line refusal place) out.new result }
{
    let middle = number_texts::put_named(
        out,
        at,
        b"sheet refused ",
        refusals::number(refusal) as u64,
    );
    let end = number_texts::put_named(out, middle, b" at ", place as u64);
    text::put_byte(out, end, 10)
}
