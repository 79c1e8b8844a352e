// Decodes each word of the test vectors and compares its refusal and its count with what its line says: a word in hexadecimal, the number of
// its refusal (0: accepted) and its count (0 where it has none), between single spaces. In the last file three lines are wrong.
#![tactic(auto)]

ghost use Rattle.std.specs.Prelude.{◌≡◌};
ghost use Rattle.decode.specs.Decode.{decode_of};
ghost use Rattle.pages.specs.Page.{refusal_in, count_in, count_of};
ghost use Rattle.test_words.specs.Vectors.{written, right};

use quantities::Quantity;
use std::rt::Files;
use test_vectors::Tally;

// What a line says of a word.
#[derive(Clone, Copy, PartialEq, Eq, Debug)]
struct Expected {
    word: u32,
    refusal: u32,
    negative: bool,
    size: u32,
}

// The number of a word's refusal, 0 where it is accepted.
fn refusal_of(word: u32) -> u32
    ensures { result ≡ refusal_in (decode_of word) }
{
    match decoder::decode(word) {
        Ok(_) => 0,
        Err(refusal) => refusals::number(refusal) as u32,
    }
}

// The count of a word of the five measured labels.
fn count_in(measurement: Option<(Quantity, i16)>) -> i16
    ensures { result ≡ count_in measurement }
{
    match measurement {
        Some((_, count)) => count,
        None => 0,
    }
}

// The count of a word, 0 where it has none.
fn count_of(word: u32) -> i16
    ensures { result ≡ count_of (decode_of word) }
{
    match decoder::decode(word) {
        Ok(found) => {
            let body = found.body;
            count_in(measurements::measurement_of(body))
        }
        Err(_) => 0,
    }
}

// Whether a count is written with this sign and size.
fn is_written(count: i16, negative: bool, size: u32) -> bool
    ensures { result ≡ written count negative size }
{
    let digits = bits::complement::<16>(count);
    if digits < 32768 {
        !negative & (digits == size)
    } else {
        negative & (65536 - digits == size)
    }
}

// Whether a line is right about its word.
fn is_right(expected: Expected) -> bool
    ensures { result ≡ right expected }
{
    let word = expected.word;
    (refusal_of(word) == expected.refusal)
        & is_written(count_of(word), expected.negative, expected.size)
}

// Whether a line is well formed and right about its word.
fn is_line_right(line: &[u8]) -> bool {
    let rest = typed_parts::text_behind(line, b' ');
    let count = typed_parts::text_behind(rest, b' ');
    let Some(word) = typed_numbers::read_number(
        typed_parts::text_before(line, b' '),
        16,
        4294967295,
    ) else {
        return false;
    };
    let Some(refusal) = typed_numbers::read_number(
        typed_parts::text_before(rest, b' '),
        10,
        4294967295,
    ) else {
        return false;
    };
    let Some(size) = typed_numbers::read_size(count, 4294967295) else {
        return false;
    };
    is_right(Expected {
        word: (word % 4294967296) as u32,
        refusal: (refusal % 4294967296) as u32,
        negative: typed_parts::starts_with(count, b'-'),
        size: (size % 4294967296) as u32,
    })
}

// The tally of a text's lines.
fn tally_of(text: &[u8]) -> Tally {
    let mut tally = Tally {
        lines: 0,
        wrong: 0,
        first: 0,
    };
    let mut start = 0;
    while start < text.len() {
        let line = typed_parts::text_before(&text[start..], b'\n');
        tally = test_vectors::with_line(tally, is_line_right(line));
        start = text.len() - typed_parts::text_behind(&text[start..], b'\n').len();
    }
    tally
}

// Checks the lines of a file.
fn check_file(rt: &(impl Files + Print + Eprint), name: &[u8]) {
    let mut text = [0u8; 32768];
    let length = test_vectors::read_file(rt, name, &mut text);
    test_vectors::report(rt, name, tally_of(&text[..length]));
}

fn main(rt: HostRuntime) {
    check_file(&rt, b"words.txt");
    check_file(&rt, b"raster.txt");
    check_file(&rt, b"words_wrong.txt");
}
