// Codes each figure of the test vectors and compares the answer with what its line says: a label in octal, a source, a figure in millionths, and
// then `refused` and the number of the refusal, or the coded word in hexadecimal, between single spaces. The second file has document
// 01's own lines, the third figures at the half steps of the MLS deviations, and in the fourth four lines of the first are wrong.
#![tactic(auto)]

ghost use Rattle.std.specs.Prelude.{◌≡◌};
ghost use Rattle.test_figures.specs.Vectors.{right};

use std::rt::Files;
use test_vectors::Tally;

// What a line says that coding gives: the number of a refusal, or 0 and a word.
#[derive(Clone, Copy, PartialEq, Eq, Debug)]
struct Answer {
    refusal: u64,
    word: u64,
}

// What a line says of a figure.
#[derive(Clone, Copy, PartialEq, Eq, Debug)]
struct Expected {
    label: u64,
    source: u64,
    millionths: i64,
    answer: Answer,
}

// Whether a line is right about its figure.
fn is_right(expected: Expected) -> bool
    ensures { result ≡ right expected }
{
    let answer = expected.answer;
    let millionths = expected.millionths;
    match coder::code_figure(expected.label, expected.source, millionths) {
        Ok(word) => {
            (answer.refusal == 0)
                & ((word as u64 == answer.word) & agreements::agrees(word, millionths))
        }
        Err(refusal) => refusals::number(refusal) as u64 == answer.refusal,
    }
}

// The number of the refusal in `refused N`, or 0 and the word.
fn answer_in(text: &[u8]) -> Answer {
    let refusal = typed_parts::text_behind(text, b' ');
    if refusal.len() == 0 {
        return Answer {
            refusal: 0,
            word: typed_numbers::read_number(text, 16, 18446744073709551615).unwrap_or(0),
        };
    }
    Answer {
        refusal: typed_numbers::read_number(refusal, 10, 18446744073709551615).unwrap_or(0),
        word: 0,
    }
}

// Whether the three numbers of a line are well formed, and the answer after them is right.
fn is_line_right(line: &[u8]) -> bool {
    let after_label = typed_parts::text_behind(line, b' ');
    let after_source = typed_parts::text_behind(after_label, b' ');
    let figure = typed_parts::text_before(after_source, b' ');
    let Some(label) = typed_numbers::read_number(
        typed_parts::text_before(line, b' '),
        8,
        18446744073709551615,
    ) else {
        return false;
    };
    let Some(source) = typed_numbers::read_number(
        typed_parts::text_before(after_label, b' '),
        10,
        18446744073709551615,
    ) else {
        return false;
    };
    let Some(millionths) = test_numbers::read_signed(figure) else {
        return false;
    };
    is_right(Expected {
        label,
        source,
        millionths,
        answer: answer_in(typed_parts::text_behind(after_source, b' ')),
    })
}

// The tally of a text's lines.
fn tally_of(text: &[u8]) -> Tally {
    let mut tally = Tally {
        lines: 0,
        wrong: 0,
        first: 0,
    };
    let mut start = 0;
    while start < text.len() {
        let line = typed_parts::text_before(&text[start..], b'\n');
        tally = test_vectors::with_line(tally, is_line_right(line));
        start = text.len() - typed_parts::text_behind(&text[start..], b'\n').len();
    }
    tally
}

// Checks the lines of a file.
fn check_file(rt: &(impl Files + Print + Eprint), name: &[u8]) {
    let mut text = [0u8; 32768];
    let length = test_vectors::read_file(rt, name, &mut text);
    test_vectors::report(rt, name, tally_of(&text[..length]));
}

fn main(rt: HostRuntime) {
    check_file(&rt, b"figures.txt");
    check_file(&rt, b"document_01.txt");
    check_file(&rt, b"mls.txt");
    check_file(&rt, b"figures_wrong.txt");
}
