// Why a figure and a word agree or do not: the reasons, and the figure that each puts in the place of the one that was typed.
#![tactic(auto)]

// The nine reasons, in the order in which they are asked.
#[derive(Clone, Copy, PartialEq, Eq, Debug)]
pub enum Reason {
    // 1: the figure agrees
    Agrees,
    // 2: a tenth of it agrees
    Tenth,
    // 3: a hundredth of it agrees
    Hundredth,
    // 4: a thousandth of it agrees
    Thousandth,
    // 5: ten times it agrees
    TenTimes,
    // 6: a hundred times it agrees
    HundredTimes,
    // 7: a thousand times it agrees
    ThousandTimes,
    // 8: the figure with the other sign agrees
    OtherSign,
    // 9: none of these
    NoneOfThese,
}
