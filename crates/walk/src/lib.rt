// What a walk over a sheet is: its fields one by one, in the order of the tags, a group before its inside. The definitions and their laws stand in specs/.
#![tactic(auto)]

use fields::FieldKind;
use refusals::Refusal;

// Where a walk stands: the offset of the next field's tag, and the ends of the groups at depth 1, 2 and 3 that were entered last. Only an end past the place counts.
#[derive(Clone, Copy, PartialEq, Eq, Debug)]
pub struct Position {
    pub place: usize,
    pub end1: usize,
    pub end2: usize,
    pub end3: usize,
}

// The innermost run that a place lies in.
#[derive(Clone, Copy, PartialEq, Eq, Debug)]
pub struct Level {
    pub depth: u8,
    pub end: usize,
}

// A field of a sheet: the offset of its tag, its depth, what it holds, and the length of its content, which starts 3 bytes after the tag.
#[derive(Clone, Copy, PartialEq, Eq, Debug)]
pub struct FieldAt {
    pub place: usize,
    pub depth: u8,
    pub kind: FieldKind,
    pub length: usize,
}

// What a step gives, and the walk after it.
#[derive(Clone, Copy, PartialEq, Eq, Debug)]
pub struct WalkStep {
    pub given: Result<Option<FieldAt>, (Refusal, usize)>,
    pub next: Result<Position, (Refusal, usize)>,
}
