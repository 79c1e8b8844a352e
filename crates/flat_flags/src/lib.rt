// A flag as a number.
#![tactic(auto)]

ghost use Rattle.std.specs.Prelude.{◌≡◌};
ghost use Rattle.codes.specs.Codes.{flag_bit};

// The bit of a flag.
pub fn flag_number(flag: bool) -> u8
    ensures { result ≡ flag_bit flag }
{
    flag as u8
}
