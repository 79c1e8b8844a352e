// Hands the words of a file one after the other to a reassembler, and compares each answer with the one that stands beside the word.
#![tactic(auto)]

use reassembly::{Reassembler, WordAnswer};
use reassembly_parts::Reassembly;
use std::rt::Files;
use test_vectors::Tally;

// The lines read so far, and the parts that are then held.
#[derive(Clone, Copy, PartialEq, Eq, Debug)]
struct Progress {
    held: Reassembler,
    tally: Tally,
}

// The last part that is held.
fn last_part(held: Reassembly) -> u64 {
    match held {
        Reassembly::Empty => 0,
        Reassembly::AfterOne(_, _) => 1,
        Reassembly::AfterTwo(_, _, _) => 2,
        Reassembly::AfterThree(_, _, _, _) => 3,
    }
}

// Whether a text is this number.
fn is_number(text: &[u8], value: u64) -> bool {
    typed_numbers::read_number(text, 10, 18446744073709551615) == Some(value)
}

// Whether a text is this number of bits and this parity.
fn is_joined(text: &[u8], bits: u64, parity_good: bool) -> bool {
    let letter = if parity_good { b'T' } else { b'F' };
    is_number(typed_parts::text_before(text, b' '), bits)
        & typed_parts::starts_with(typed_parts::text_behind(text, b' '), letter)
}

// Whether what stands beside a word says this answer, `part` being the last part that is then held: `begun C N`, `joined C BITS MARK` or `refused N`.
fn says(text: &[u8], answer: WordAnswer, part: u64) -> bool {
    let rest = typed_parts::text_behind(text, b' ');
    match answer {
        WordAnswer::Incomplete => {
            typed_parts::starts_with(text, b'b')
                & is_number(typed_parts::text_behind(rest, b' '), part)
        }
        WordAnswer::Complete(group) => {
            typed_parts::starts_with(text, b'j')
                & is_joined(
                    typed_parts::text_behind(rest, b' '),
                    group.bits,
                    group.parity_good,
                )
        }
        WordAnswer::Refused(refusal) => {
            let number = refusals::number(refusal);
            typed_parts::starts_with(text, b'r') & is_number(rest, number as u64)
        }
    }
}

// Takes one line: a word in hexadecimal, and the answer that it must get.
fn take_line(progress: Progress, line: &[u8]) -> Progress {
    let held = progress.held;
    let word = typed_numbers::read_number(typed_parts::text_before(line, b' '), 16, 4294967295);
    let step = held.take((word.unwrap_or(0) % 4294967296) as u32);
    let next = step.next;
    let answer = step.answer;
    let partial = next.group_c;
    let right = says(
        typed_parts::text_behind(line, b' '),
        answer,
        last_part(partial),
    );
    let tally = progress.tally;
    Progress {
        held: next,
        tally: test_vectors::with_line(tally, word.is_some() & right),
    }
}

// The tally of a text's lines, taken one after the other.
fn tally_of(text: &[u8]) -> Tally {
    let mut progress = Progress {
        held: Reassembler::new(),
        tally: Tally {
            lines: 0,
            wrong: 0,
            first: 0,
        },
    };
    let mut start = 0;
    while start < text.len() {
        let line = typed_parts::text_before(&text[start..], b'\n');
        progress = take_line(progress, line);
        start = text.len() - typed_parts::text_behind(&text[start..], b'\n').len();
    }
    progress.tally
}

// Checks the lines of a file.
fn check_file(rt: &(impl Files + Print + Eprint), name: &[u8]) {
    let mut text = [0u8; 32768];
    let length = test_vectors::read_file(rt, name, &mut text);
    test_vectors::report(rt, name, tally_of(&text[..length]));
}

fn main(rt: HostRuntime) {
    check_file(&rt, b"joins.txt");
    check_file(&rt, b"wrong.txt");
}
