// What is answered to a typed line of a word and a figure: the definitions and their laws stand in specs/.
#![tactic(auto)]

// What a line is counted as.
#[derive(Clone, Copy, PartialEq, Eq, Debug)]
pub enum Outcome {
    Agrees,
    Disagrees,
    Refused,
    Unread,
    // not counted
    Passed,
}
