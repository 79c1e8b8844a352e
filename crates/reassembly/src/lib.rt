// MLS auxiliary data: the words of group C, labels 140 to 143, put together.
#![tactic(auto)]

ghost use Rattle.std.specs.Prelude.{◌≡◌};
ghost use Rattle.part_words.specs.Parts.{only_parts, part_of, part_in};
ghost use Rattle.reassembly.specs.Step.{new, answer_of, stepped, take_word};

use reassembly_parts::{Answer, Group, Part, Reassembly, Step};
use records::{Body, Kind};
use refusals::Refusal;

// What a word is answered.
#[derive(Clone, Copy, PartialEq, Eq, Debug)]
pub enum WordAnswer {
    // Its part is taken, and the next one is awaited.
    Incomplete,
    // Its part is taken, and the group is complete.
    Complete(Group),
    // It is refused: number 1, 2, 3, 4 or 14 of document 01.
    Refused(Refusal),
}

// The partial groups: one, of group C.
#[derive(Clone, Copy, PartialEq, Eq, Debug)]
pub struct Reassembler {
    pub group_c: Reassembly,
}

// The answer to one word, with the partial groups that are then held.
#[derive(Clone, Copy, PartialEq, Eq, Debug)]
pub struct WordStep {
    pub next: Reassembler,
    pub answer: WordAnswer,
}

// What a label stands for among the parts: any other kind is an unknown label.
fn only_parts(lookup: Option<Kind>) -> Option<Kind>
    ensures { result ≡ only_parts lookup }
{
    let kind = lookup?;
    match kind {
        Kind::Part1 | Kind::Part2 | Kind::Part3 | Kind::Part4 => Some(kind),
        _ => None,
    }
}

// The part that a record carries.
fn part_of(source: u8, body: Body) -> Result<Part, Refusal>
    ensures { result ≡ part_of source body }
{
    match body {
        Body::Part1 {
            word_number,
            content,
        } => Ok(Part::One {
            source,
            content: word_number as u16 + 256 * (content as u16),
        }),
        Body::Part2 { content } => Ok(Part::Two { source, content }),
        Body::Part3 { content } => Ok(Part::Three { source, content }),
        Body::Part4 {
            parity_good,
            content,
        } => Ok(Part::Four {
            source,
            content,
            parity_good,
        }),
        _ => Err(Refusal::Label),
    }
}

// What a word is to the reassembly of group C.
pub fn part_in(word: u32) -> Result<Part, Refusal>
    ensures { result ≡ part_in word }
{
    let record = decoder::decode_as(only_parts(word_kinds::kind_in(word)), word)?;
    part_of(record.source, record.body)
}

// A part's answer as its word's answer.
fn answer_of(answer: Answer) -> WordAnswer
    ensures { result ≡ answer_of answer }
{
    match answer {
        Answer::Incomplete => WordAnswer::Incomplete,
        Answer::Complete(group) => WordAnswer::Complete(group),
        Answer::OutOfSequence => WordAnswer::Refused(Refusal::Sequence),
    }
}

// What a part's step leaves and answers.
fn stepped_by(step: Step) -> WordStep
    ensures { result ≡ stepped step }
{
    let next = step.next;
    let answer = step.answer;
    WordStep {
        next: Reassembler { group_c: next },
        answer: answer_of(answer),
    }
}

impl Reassembler {
    // No part is held.
    pub fn new() -> Self
        ensures { result ≡ new }
    {
        Self {
            group_c: Reassembly::Empty,
        }
    }

    // Takes one word. A word that carries no part changes nothing.
    pub fn take(self, word: u32) -> WordStep
        ensures { result ≡ take_word self word }
    {
        match part_in(word) {
            Ok(part) => {
                let held = self.group_c;
                stepped_by(held.take(part))
            }
            Err(refusal) => WordStep {
                next: self,
                answer: WordAnswer::Refused(refusal),
            },
        }
    }
}
