// MLS auxiliary data: the four parts of one kind of group put together, apart from the words that carry them.
#![tactic(auto)]

ghost use Rattle.std.specs.Prelude.{◌≡◌};
ghost use Rattle.reassembly_parts.specs.Take.{take_of, taken, dropped, from_same, bits_of};

// One part of a group: the source of its word, bits 14 to 29 as a number, and in part four whether the parity was good, bit 11.
#[derive(Clone, Copy, PartialEq, Eq, Debug)]
pub enum Part {
    One {
        source: u8,
        content: u16,
    },
    Two {
        source: u8,
        content: u16,
    },
    Three {
        source: u8,
        content: u16,
    },
    Four {
        source: u8,
        content: u16,
        parity_good: bool,
    },
}

// A complete group: bits 13 to 76 of the received MLS word, bit 13 lowest, and whether its parity was good.
#[derive(Clone, Copy, PartialEq, Eq, Debug)]
pub struct Group {
    pub bits: u64,
    pub parity_good: bool,
}

// What a part is answered.
#[derive(Clone, Copy, PartialEq, Eq, Debug)]
pub enum Answer {
    // It is taken, and the next one is awaited.
    Incomplete,
    // It is taken, and the group is complete.
    Complete(Group),
    // It is refused: number 14 of document 01.
    OutOfSequence,
}

// The partial group: the source of the parts taken so far, and their contents in order.
#[derive(Clone, Copy, PartialEq, Eq, Debug)]
pub enum Reassembly {
    Empty,
    AfterOne(u8, u16),
    AfterTwo(u8, u16, u16),
    AfterThree(u8, u16, u16, u16),
}

// The answer to one part, with the partial group that is then held.
#[derive(Clone, Copy, PartialEq, Eq, Debug)]
pub struct Step {
    pub next: Reassembly,
    pub answer: Answer,
}

impl Reassembly {
    // No part is held.
    pub fn new() -> Self
        ensures { result ≡ Reassembly.Empty }
    {
        Self::Empty
    }

    // Takes one part: part one starts anew, the others are taken only next in sequence and from the same source.
    pub fn take(self, part: Part) -> Step
        ensures { result ≡ take_of self part }
    {
        match part {
            Part::One { source, content } => incomplete(Reassembly::AfterOne(source, content)),
            Part::Two { source, content } => self.take_two(source, content),
            Part::Three { source, content } => self.take_three(source, content),
            Part::Four {
                source,
                content,
                parity_good,
            } => self.take_four(source, content, parity_good),
        }
    }

    // Takes part two.
    fn take_two(self, source: u8, content: u16) -> Step
        ensures { result ≡ take_of self (Part.Two source content) }
    {
        match self {
            Reassembly::Empty => out_of_sequence(),
            Reassembly::AfterOne(held, first) => {
                let next = Reassembly::AfterTwo(held, first, content);
                from_same(held, source, incomplete(next))
            }
            Reassembly::AfterTwo(_, _, _) => out_of_sequence(),
            Reassembly::AfterThree(_, _, _, _) => out_of_sequence(),
        }
    }

    // Takes part three.
    fn take_three(self, source: u8, content: u16) -> Step
        ensures { result ≡ take_of self (Part.Three source content) }
    {
        match self {
            Reassembly::Empty => out_of_sequence(),
            Reassembly::AfterOne(_, _) => out_of_sequence(),
            Reassembly::AfterTwo(held, first, second) => {
                let next = Reassembly::AfterThree(held, first, second, content);
                from_same(held, source, incomplete(next))
            }
            Reassembly::AfterThree(_, _, _, _) => out_of_sequence(),
        }
    }

    // Takes part four.
    fn take_four(self, source: u8, content: u16, parity_good: bool) -> Step
        ensures { result ≡ take_of self (Part.Four source content parity_good) }
    {
        match self {
            Reassembly::Empty => out_of_sequence(),
            Reassembly::AfterOne(_, _) => out_of_sequence(),
            Reassembly::AfterTwo(_, _, _) => out_of_sequence(),
            Reassembly::AfterThree(held, first, second, third) => {
                let complete = Step {
                    next: Reassembly::Empty,
                    answer: Answer::Complete(Group {
                        bits: join(first, second, third, content),
                        parity_good,
                    }),
                };
                from_same(held, source, complete)
            }
        }
    }
}

// The part is taken, and the group is still partial.
fn incomplete(next: Reassembly) -> Step
    ensures { result ≡ taken next }
{
    Step {
        next,
        answer: Answer::Incomplete,
    }
}

// A part next in sequence is taken only from the source of the parts held.
fn from_same(held: u8, source: u8, step: Step) -> Step
    ensures { result ≡ from_same held source step }
{
    if held == source {
        step
    } else {
        out_of_sequence()
    }
}

// The part is refused, and what was partial is dropped.
fn out_of_sequence() -> Step
    ensures { result ≡ dropped }
{
    Step {
        next: Reassembly::Empty,
        answer: Answer::OutOfSequence,
    }
}

// The 64 bits of four contents, the first lowest.
fn join(first: u16, second: u16, third: u16, fourth: u16) -> u64
    ensures { result ≡ bits_of first second third fourth }
{
    (first as u64)
        + (second as u64) * 65536
        + (third as u64) * 4294967296
        + (fourth as u64) * 281474976710656
}
