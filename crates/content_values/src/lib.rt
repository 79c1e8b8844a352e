// The word or the figure that the content of a field holds.
#![tactic(auto)]

ghost use Rattle.std.specs.Prelude.{◌≡◌, [], ◌∷◌, ◌+◌, ◌*◌, ◌^◌};
ghost use Rattle.bits.specs.Complement.{signed};
ghost use Rattle.contents.specs.BigEndian.{value_of};
ghost use Rattle.contents.specs.Contents.{word_in, figure_in};

use refusals::Refusal;

// The number whose four bytes these are, the highest first.
fn of_four(a: u8, b: u8, c: u8, d: u8) -> u32
    ensures { result ≡ value_of (a ∷ b ∷ c ∷ d ∷ []) }
{
    a as u32 * 0x1000000 + b as u32 * 0x10000 + c as u32 * 256 + d as u32
}

// The number whose 32 higher and 32 lower binary digits these are.
fn of_halves(higher: u32, lower: u32) -> u64
    ensures { result ≡ higher * 2 ^ 32 + lower }
{
    higher as u64 * 0x100000000 + lower as u64
}

// The signed number of 64 binary digits, in two's complement.
fn signed_64(digits: u64) -> i64
    ensures { result ≡ signed 64 digits }
{
    if digits < 0x8000000000000000 {
        digits as i64
    } else {
        !((0xFFFFFFFFFFFFFFFF - digits) as i64)
    }
}

// The word that a word field's content holds; 11 unless it has 4 bytes.
pub fn word_in(content: &[u8]) -> Result<u32, Refusal>
    ensures { result ≡ word_in content.now }
{
    if content.len() != 4 {
        return Err(Refusal::Length);
    }
    Ok(of_four(content[0], content[1], content[2], content[3]))
}

// The label and the millionths that a figure field's content holds; 11 unless it has 9 bytes.
pub fn figure_in(content: &[u8]) -> Result<(u8, i64), Refusal>
    ensures { result ≡ figure_in content.now }
{
    if content.len() != 9 {
        return Err(Refusal::Length);
    }
    let higher = of_four(content[1], content[2], content[3], content[4]);
    let lower = of_four(content[5], content[6], content[7], content[8]);
    Ok((content[0], signed_64(of_halves(higher, lower))))
}
