// What a sheet is: its fields, each with a tag of one byte, a length of two, high byte first, and a content. The definitions and their laws stand in specs/.
#![tactic(auto)]

// What a field holds.
#[derive(Clone, Copy, PartialEq, Eq, Debug)]
pub enum FieldKind {
    // tag 10 hex: a 32-bit word
    Word,
    // tag 11 hex: a figure, a label with a number of millionths
    Figure,
    // tag 12 hex: a note
    Note,
    // tag 20 hex: a group of fields
    Group,
}
