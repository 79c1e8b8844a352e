// What a typed line of a word and a figure is: the definitions and their laws stand in specs/.
#![tactic(auto)]

// What a typed line is.
#[derive(Clone, Copy, PartialEq, Eq, Debug)]
pub enum TypedLine {
    // empty, or a comment: passed over
    Passed,
    // a word, and a figure in millionths
    Pair(u32, i64),
    // anything else
    Unread,
}
