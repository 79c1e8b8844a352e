// The refusals of document 01 and their numbers.
#![tactic(auto)]

ghost use Rattle.std.specs.Prelude.{◌≡◌};
ghost use Rattle.refusals.specs.Numbers.{number_of, refusal_of};

// Why an input is refused. `number_of` in specs/ gives document 01's number of each.
#[derive(Clone, Copy, PartialEq, Eq, Debug)]
pub enum Refusal {
    // 1: the ones are even in number
    Parity,
    // 2: no such label, or not one that is wanted
    Label,
    // 3: a zero bit is one
    ZeroBit,
    // 4: a code or a source is not in its list, or two sources differ
    Code,
    // 5: a decimal digit above 9
    Digit,
    // 6: a value is not legal
    Value,
    // 7: the angle's parity bit is wrong
    AngleParity,
    // 8: a figure is out of reach, or there is no reading
    Reach,
    // 9: a field is cut short
    Truncated,
    // 10: unknown tag
    Tag,
    // 11: the length is wrong for the tag
    Length,
    // 12: a group is nested too deep
    Depth,
    // 13: no room in the buffer
    Room,
    // 14: a part is out of sequence
    Sequence,
    // 15: the sheet is too long
    Oversize,
}

// Document 01's number of a refusal.
pub fn number(refusal: Refusal) -> u8
    ensures { result ≡ number_of refusal }
{
    match refusal {
        Refusal::Parity => 1,
        Refusal::Label => 2,
        Refusal::ZeroBit => 3,
        Refusal::Code => 4,
        Refusal::Digit => 5,
        Refusal::Value => 6,
        Refusal::AngleParity => 7,
        Refusal::Reach => 8,
        Refusal::Truncated => 9,
        Refusal::Tag => 10,
        Refusal::Length => 11,
        Refusal::Depth => 12,
        Refusal::Room => 13,
        Refusal::Sequence => 14,
        Refusal::Oversize => 15,
    }
}

// The refusal that has this number.
pub fn refusal_of(number: u8) -> Option<Refusal>
    ensures { result ≡ refusal_of number }
{
    match number {
        1 => Some(Refusal::Parity),
        2 => Some(Refusal::Label),
        3 => Some(Refusal::ZeroBit),
        4 => Some(Refusal::Code),
        5 => Some(Refusal::Digit),
        6 => Some(Refusal::Value),
        7 => Some(Refusal::AngleParity),
        8 => Some(Refusal::Reach),
        9 => Some(Refusal::Truncated),
        10 => Some(Refusal::Tag),
        11 => Some(Refusal::Length),
        12 => Some(Refusal::Depth),
        13 => Some(Refusal::Room),
        14 => Some(Refusal::Sequence),
        15 => Some(Refusal::Oversize),
        _ => None,
    }
}
