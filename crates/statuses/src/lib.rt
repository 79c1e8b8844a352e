// The status of a word and its code, in binary and in decimal words.
#![tactic(auto)]

ghost use Rattle.std.specs.Prelude.{◌≡◌, ◌<◌};
ghost use Rattle.statuses.specs.Statuses.{binary_status, binary_code, decimal_status, decimal_code};

// The status (SSM) of a word.
#[derive(Clone, Copy, PartialEq, Eq, Debug)]
pub enum Status {
    Failure,
    NoData,
    Test,
    Ready,
}

// The status that bits 30 and 31 of a binary word mean; of a number above 3 `unlistedBinary`.
pub fn binary_status(code: u32) -> Status
    ensures { result ≡ binary_status code }
{
    match code {
        0 => Status::Failure,
        1 => Status::NoData,
        2 => Status::Test,
        _ => Status::Ready,
    }
}

// Bits 30 and 31 of a binary word of this status.
pub fn binary_code(status: Status) -> u32
    ensures value { result ≡ binary_code status }
    ensures upper_bound { result < 4 }
{
    match status {
        Status::Failure => 0,
        Status::NoData => 1,
        Status::Test => 2,
        Status::Ready => 3,
    }
}

// The status that bits 30 and 31 of a decimal word mean; of 3, which is no code, and of a number above it `unlistedDecimal`: no legal one means failure.
pub fn decimal_status(code: u32) -> Status
    ensures { result ≡ decimal_status code }
{
    match code {
        0 => Status::Ready,
        1 => Status::NoData,
        2 => Status::Test,
        _ => Status::Failure,
    }
}

// Bits 30 and 31 of a decimal word of this status.
pub fn decimal_code(status: Status) -> u32
    ensures value { result ≡ decimal_code status }
    ensures upper_bound { result < 4 }
{
    match status {
        Status::Failure => 3,
        Status::NoData => 1,
        Status::Test => 2,
        Status::Ready => 0,
    }
}
