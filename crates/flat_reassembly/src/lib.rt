// The reassembly of group C with its state as numbers, for other languages.
#![tactic(auto)]

ghost use Rattle.std.specs.Prelude.{◌≡◌};
ghost use Rattle.flat_reassembly.specs.Steps.{state_of, joined, partial_of, answered, flat_step, reassembled};

use reassembly::{Reassembler, WordAnswer, WordStep};
use reassembly_parts::Reassembly;

// A partial group as numbers: how many parts are held, 1 to 3, their source, and their bits, those of part one lowest. Any other number of parts
// is none, and of none the source and the bits are zero.
#[repr(C)]
#[derive(Clone, Copy)]
pub struct Partial {
    pub parts: u8,
    pub source: u8,
    pub bits: u64,
}

// The answer to one word with the partial group that is then held. The bits and the parity stand beside a complete group alone.
#[repr(C)]
#[derive(Clone, Copy)]
pub struct FlatStep {
    pub next: Partial,
    // document 01's number, or 0 where the word is taken
    pub refusal: u8,
    pub complete: u8,
    pub parity_good: u8,
    pub bits: u64,
}

// The answer to one word.
#[derive(Clone, Copy, PartialEq, Eq, Debug)]
pub struct FlatAnswer {
    pub refusal: u8,
    pub complete: u8,
    pub parity_good: u8,
    pub bits: u64,
}

// The partial group that numbers stand for.
fn state_of(p: Partial) -> Reassembly
    ensures { result ≡ state_of p }
{
    let source = p.source;
    let first = (p.bits % 65536) as u16;
    let second = (p.bits / 65536 % 65536) as u16;
    let third = (p.bits / 4294967296 % 65536) as u16;
    let parts = p.parts;
    match parts {
        1 => Reassembly::AfterOne(source, first),
        2 => Reassembly::AfterTwo(source, first, second),
        3 => Reassembly::AfterThree(source, first, second, third),
        _ => Reassembly::Empty,
    }
}

// The bits of three contents, the first lowest.
fn joined(first: u16, second: u16, third: u16) -> u64
    ensures { result ≡ joined first second third }
{
    first as u64 + second as u64 * 65536 + third as u64 * 4294967296
}

// The numbers of a partial group.
fn partial_of(state: Reassembly) -> Partial
    ensures { result ≡ partial_of state }
{
    match state {
        Reassembly::Empty => Partial {
            parts: 0,
            source: 0,
            bits: 0,
        },
        Reassembly::AfterOne(source, first) => Partial {
            parts: 1,
            source: source,
            bits: joined(first, 0, 0),
        },
        Reassembly::AfterTwo(source, first, second) => Partial {
            parts: 2,
            source: source,
            bits: joined(first, second, 0),
        },
        Reassembly::AfterThree(source, first, second, third) => Partial {
            parts: 3,
            source: source,
            bits: joined(first, second, third),
        },
    }
}

// The numbers of an answer.
fn answered(answer: WordAnswer) -> FlatAnswer
    ensures { result ≡ answered answer }
{
    match answer {
        WordAnswer::Incomplete => FlatAnswer {
            refusal: 0,
            complete: 0,
            parity_good: 0,
            bits: 0,
        },
        WordAnswer::Complete(group) => FlatAnswer {
            refusal: 0,
            complete: 1,
            parity_good: flat_flags::flag_number(group.parity_good),
            bits: group.bits,
        },
        WordAnswer::Refused(refusal) => FlatAnswer {
            refusal: refusals::number(refusal),
            complete: 0,
            parity_good: 0,
            bits: 0,
        },
    }
}

// The numbers of a step.
fn flat_step(step: WordStep) -> FlatStep
    ensures { result ≡ flat_step step }
{
    let next = step.next;
    let state = next.group_c;
    let answer = step.answer;
    let numbers = answered(answer);
    FlatStep {
        next: partial_of(state),
        refusal: numbers.refusal,
        complete: numbers.complete,
        parity_good: numbers.parity_good,
        bits: numbers.bits,
    }
}

// Takes one word into the partial group that numbers stand for.
pub fn reassemble(held: Partial, word: u32) -> FlatStep
    ensures { result ≡ reassembled held word }
{
    let state = Reassembler {
        group_c: state_of(held),
    };
    flat_step(state.take(word))
}
