// The labels: document 01's table of the fifteen labels with their zero bits, and the label of a word. The definitions and their laws stand in specs/.
#![tactic(auto)]

use records::Kind;

// A row of the table. A one in `zeros` is a bit that is zero in every word of the kind.
#[derive(Clone, Copy, PartialEq, Eq, Debug)]
pub struct Row {
    pub label: u32,
    pub kind: Kind,
    pub zeros: u32,
}
