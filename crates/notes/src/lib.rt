// What asking for the note at a place of a sheet gives.
#![tactic(auto)]

// A part of a sheet, from a start to an end.
#[derive(Clone, Copy, PartialEq, Eq, Debug)]
pub struct Span {
    pub start: usize,
    pub end: usize,
}
