// Explains each figure of the test vectors beside its word and compares the answer with what its line says: a word in hexadecimal, a figure in
// millionths, and then `refused` and the number of the refusal, or the reason in a word, between single spaces. In the second file four lines
// of the first are wrong.
#![tactic(auto)]

ghost use Rattle.std.specs.Prelude.{◌≡◌};
ghost use Rattle.test_explain.specs.Vectors.{right};

use std::rt::Files;
use test_vectors::Tally;

// What a line says of a figure beside a word: the number of a refusal, or 0 and the number of a reason.
#[derive(Clone, Copy, PartialEq, Eq, Debug)]
struct Answer {
    refusal: u64,
    reason: u64,
}

// Whether a line is right about its figure and its word.
fn is_right(word: u32, millionths: i64, answer: Answer) -> bool
    ensures { result ≡ right word millionths answer }
{
    let found = flat_explanations::explain_flat(word, millionths);
    (found.refusal as u64 == answer.refusal) & (found.reason as u64 == answer.reason)
}

// The place of a text among words between single spaces, from 1, or 0.
fn place_among(words: &[u8], text: &[u8]) -> u64 {
    let mut before: usize = 0;
    let mut start = 0;
    while start < words.len() {
        if check::same(text, typed_parts::text_before(&words[start..], b' ')) {
            return (before + 1) as u64;
        }
        before += 1;
        start = words.len() - typed_parts::text_behind(&words[start..], b' ').len();
    }
    0
}

// The number of the reason that a text tells, or 0.
fn reason_in(text: &[u8]) -> u64 {
    place_among(
        b"agrees tenth hundredth thousandth ten hundred thousand sign none",
        text,
    )
}

// The number of the refusal in `refused N`, or 0 and the number of the reason.
fn answer_in(text: &[u8]) -> Answer {
    let refusal = typed_parts::text_behind(text, b' ');
    if refusal.len() == 0 {
        return Answer {
            refusal: 0,
            reason: reason_in(text),
        };
    }
    Answer {
        refusal: typed_numbers::read_number(refusal, 10, 18446744073709551615).unwrap_or(0),
        reason: 0,
    }
}

// Whether the word and the figure of a line are well formed, and the answer after them is right.
fn is_line_right(line: &[u8]) -> bool {
    let after_word = typed_parts::text_behind(line, b' ');
    let figure = typed_parts::text_before(after_word, b' ');
    let Some(word) = word_reader::read_word(typed_parts::text_before(line, b' ')) else {
        return false;
    };
    let Some(millionths) = test_numbers::read_signed(figure) else {
        return false;
    };
    is_right(
        word,
        millionths,
        answer_in(typed_parts::text_behind(after_word, b' ')),
    )
}

// The tally of a text's lines.
fn tally_of(text: &[u8]) -> Tally {
    let mut tally = Tally {
        lines: 0,
        wrong: 0,
        first: 0,
    };
    let mut start = 0;
    while start < text.len() {
        let line = typed_parts::text_before(&text[start..], b'\n');
        tally = test_vectors::with_line(tally, is_line_right(line));
        start = text.len() - typed_parts::text_behind(&text[start..], b'\n').len();
    }
    tally
}

// Checks the lines of a file.
fn check_file(rt: &(impl Files + Print + Eprint), name: &[u8]) {
    let mut text = [0u8; 32768];
    let length = test_vectors::read_file(rt, name, &mut text);
    test_vectors::report(rt, name, tally_of(&text[..length]));
}

fn main(rt: HostRuntime) {
    check_file(&rt, b"explain.txt");
    check_file(&rt, b"explain_wrong.txt");
}
