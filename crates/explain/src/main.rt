// Explains the words and figures that are typed on standard input, one of each to a line, to standard output.
#![tactic(auto)]

ghost use Rattle.std.specs.Prelude.{◌≡◌, ◌-◌, ◌≤◌, min, length, take, drop};
ghost use Rattle.io.specs.Counts.{IsPrefixLen};
ghost use Rattle.text_lines.specs.Lines.{lines_of, whole_lines, begun_line};
ghost use Rattle.line_answers.specs.LineAnswers.{progress_of, answers_text, text_from};
ghost use Rattle.line_answers.specs.Pieces.{kept};

use explain_texts::AnsweredLines;
use line_answers::Progress;
use standard_input::Chunk;
use std::io::Read;

// What a piece of the input gives.
#[derive(Clone, Copy, PartialEq, Eq, Debug)]
struct Answered {
    // the progress behind its whole lines
    after: Progress,
    // how many bytes of the text their answers are
    length: usize,
    // how many bytes at the buffer's start are kept of the begun line
    begun: usize,
}

// Where a run stands.
#[derive(Clone, Copy, PartialEq, Eq, Debug)]
struct State {
    going: bool,
    begun: usize,
    progress: Progress,
}

// Puts the answers to whole lines into a buffer that has room for those of every piece.
fn explain_whole(lines: &[u8], before: Progress, text: &mut [u8]) -> AnsweredLines
    requires { (length lines.now ≤ 4352) × (278592 ≤ length text.old) }
    ensures prefix_len { IsPrefixLen result.length text.new }
    ensures text_after { take result.length text.new ≡ answers_text before.seen (lines_of lines.now) }
    ensures after_value { result.after ≡ progress_of before (lines_of lines.now) }
{
    explain_texts::explain_text(lines, before, text)
}

// Puts the answer to the last line, which no line feed ends, and the totals into such a buffer, and gives their length.
fn put_end(begun: &[u8], before: Progress, text: &mut [u8]) -> usize
    requires { (length begun.now ≤ 202) × (278592 ≤ length text.old) }
    ensures prefix_len { IsPrefixLen result text.new }
    ensures text_after { take result text.new ≡ text_from before (lines_of begun.now) }
{
    let answered = explain_texts::explain_text(begun, before, text);
    explain_totals::put_totals(text, answered.length, answered.after)
}

// Moves the begun line to the buffer's start, as far as it is kept, and gives its length.
fn keep_begun(buffer: &mut [u8], from: usize, filled: usize) -> usize
    requires { (from ≤ filled) × (filled ≤ length buffer.old) }
    ensures value { result ≡ min 202 (filled - from) }
    ensures buffer_after { take result buffer.new ≡ kept (drop from (take filled buffer.old)) }
{
    let length = (filled - from).min(202);
    buffer.copy_within(from..from + length, 0);
    length
}

// Answers the whole lines of what the buffer holds, and keeps the begun one.
fn answer_piece(buffer: &mut [u8], filled: usize, before: Progress, text: &mut [u8]) -> Answered
    requires { (filled ≤ 4352) × (filled ≤ length buffer.old) × (278592 ≤ length text.old) }
    ensures prefix_len { IsPrefixLen result.length text.new }
    ensures text_after { take result.length text.new ≡ answers_text before.seen (lines_of (whole_lines (take filled buffer.old))) }
    ensures after_value { result.after ≡ progress_of before (lines_of (whole_lines (take filled buffer.old))) }
    ensures begun_bound { result.begun ≤ 202 }
    ensures buffer_after { take result.begun buffer.new ≡ kept (begun_line (take filled buffer.old)) }
{
    let whole = line_ends::whole_lines(&buffer[..filled]);
    let answered = explain_whole(&buffer[..whole], before, text);
    let begun = keep_begun(buffer, whole, filled);
    let after = answered.after;
    Answered {
        after,
        length: answered.length,
        begun,
    }
}

// Writes answers to standard output, or says that they cannot be written. Whether they were.
fn write_answers(out: &impl Print, err: &impl Print, name: &[u8], answers: &[u8]) -> bool {
    let written = out.write_all(answers).is_ok();
    if !written {
        standard_streams::say_unwritten(err, name);
    }
    written
}

// Reads once, and answers what is whole of it; at the end the last line and the totals.
fn read_on(
    out: &impl Print,
    err: &impl Print,
    input: &mut impl Read,
    name: &[u8],
    buffer: &mut [u8],
    state: State,
    text: &mut [u8],
) -> State
    requires { (state.begun ≤ 202) × (4352 ≡ length buffer.old) × (278592 ≡ length text.old) }
    ensures { result.begun ≤ 202 }
{
    let begun = state.begun;
    let progress = state.progress;
    match standard_input::read_chunk(input, &mut buffer[begun..]) {
        Chunk::Bytes(count) => {
            let answered = answer_piece(buffer, begun + count, progress, text);
            let length = answered.length;
            let after = answered.after;
            State {
                going: write_answers(out, err, name, &text[..length]),
                begun: answered.begun,
                progress: after,
            }
        }
        Chunk::End => {
            let length = put_end(&buffer[..begun], progress, text);
            standard_streams::write_text(out, err, name, &text[..length]);
            stopped(progress)
        }
        Chunk::Interrupted => state,
        Chunk::Failed => {
            standard_streams::say_unread(err, name);
            stopped(progress)
        }
    }
}

// A run that has ended.
fn stopped(progress: Progress) -> State
    ensures { result.begun ≡ 0 }
{
    State {
        going: false,
        begun: 0,
        progress,
    }
}

// Answers standard input. Nothing says that an input ends: the turns are counted down from a number that no run uses up.
fn explain_input(out: &impl Print, err: &impl Print, input: &mut impl Read, name: &[u8]) {
    let mut buffer = [0u8; 4352];
    let mut text = [0u8; 278592];
    let mut state = State {
        going: true,
        begun: 0,
        progress: Progress {
            seen: 0,
            lines: 0,
            agree: 0,
            disagree: 0,
            refused: 0,
            unread: 0,
        },
    };
    let mut turns = u64::MAX;
    while 0 < turns {
        state = read_on(out, err, input, name, &mut buffer, state, &mut text);
        if !state.going {
            return;
        }
        turns -= 1;
    }
}

fn main(rt: HostRuntime) {
    let err = rt.stderr();
    let name = b"lampcygnet-explain";
    if standard_streams::argument(&rt, 1, &mut []).is_some() {
        standard_streams::say_usage(&err, name, b"LINES");
        return;
    }
    explain_input(&rt, &err, &mut rt.stdin(), name);
}
