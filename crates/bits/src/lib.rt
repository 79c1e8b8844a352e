// Parity and two's complement of a 32-bit word. Bit k of a word weighs 2^(k-1).
#![tactic(auto)]

ghost use Rattle.std.specs.Prelude.{◌≡◌, ◌-◌, ◌^◌, ◌<◌, min};
ghost use Rattle.bits.specs.Fields.{bits};
ghost use Rattle.bits.specs.Parity.{odd, parity_bit};
ghost use Rattle.bits.specs.Complement.{signed, complement};

// Whether the ones of `word` are odd in number.
pub fn is_odd(word: u32) -> bool
    ensures { result ≡ odd word }
{
    u32::count_ones(word) % 2 == 1
}

// The bit that makes the ones of `value` odd in number.
pub fn parity_bit(value: u32) -> u32
    ensures value { result ≡ parity_bit value }
    ensures upper_bound { result < 2 }
{
    1 - u32::count_ones(value) % 2
}

// The signed number in the WIDTH bits up to bit 29. A width above 16 is taken as 16.
pub fn signed_field<const WIDTH: u32>(word: u32) -> i16
    ensures { result ≡ signed (min WIDTH 16) (bits (30 - min WIDTH 16) 29 word) }
{
    let width = WIDTH.min(16);
    let whole = 1u32 << width;
    let digits = (word >> (29 - width)) % whole;
    if digits * 2 < whole {
        digits as i16
    } else {
        !((whole - 1 - digits) as i16)
    }
}

// The WIDTH lowest binary digits of `count`. A width above 16 is taken as 16.
pub fn complement<const WIDTH: u32>(count: i16) -> u32
    ensures value { result ≡ complement (min WIDTH 16) count }
    ensures upper_bound { result < 2 ^ min WIDTH 16 }
{
    let whole = 1u32 << WIDTH.min(16);
    if count < 0 {
        whole - 1 - (!count) as u32 % whole
    } else {
        count as u32 % whole
    }
}
