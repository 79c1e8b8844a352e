// Frequencies in tens of kHz: what the words leave out, the codes of the tens, and which ones a word's digits can say.
#![tactic(auto)]

ghost use Rattle.std.specs.Prelude.{◌≡◌};
ghost use Rattle.frequencies.specs.Frequencies.{offset, tens_of, tens_listed, tens_code, frequency_in, expressible};

// The bands of the frequency words.
#[derive(Clone, Copy, PartialEq, Eq, Debug)]
pub enum Band {
    Vor,
    Ils,
    Mls,
}

// What a band's words leave out of a frequency, in tens of kHz.
fn offset_of(band: Band) -> u32
    ensures { result ≡ offset band }
{
    match band {
        Band::Vor => 10000,
        Band::Ils => 10000,
        Band::Mls => 500000,
    }
}

// Whether bits 27 to 29 are the code of a tens digit.
pub fn is_tens(band: Band, code: u32) -> bool
    ensures { result ≡ tens_listed band code }
{
    match band {
        Band::Vor => true,
        Band::Ils => true,
        Band::Mls => code != 2,
    }
}

// The tens digit that a code means.
fn tens_of(band: Band, code: u32) -> u32
    ensures { result ≡ tens_of band code }
{
    match band {
        Band::Vor => code,
        Band::Ils => code,
        Band::Mls => match code {
            0 => 8,
            1 => 9,
            _ => code,
        },
    }
}

// The frequency in bits 15 to 29 of a word, in tens of kHz.
pub fn frequency_in(band: Band, word: u32) -> u32
    ensures { result ≡ frequency_in band word }
{
    let tens = tens_of(band, word / 67108864 % 8);
    let megahertz = tens * 10 + word / 4194304 % 16;
    let digits = (megahertz * 10 + word / 262144 % 16) * 10 + word / 16384 % 16;
    offset_of(band) + digits
}

// The code of a tens digit.
pub fn tens_code(band: Band, digit: u32) -> u32
    ensures { result ≡ tens_code band digit }
{
    match band {
        Band::Vor => digit,
        Band::Ils => digit,
        Band::Mls => digit % 8,
    }
}

// Whether the digits of a band's words can say a frequency.
pub fn is_expressible(band: Band, frequency: u32) -> bool
    ensures { result ≡ expressible band frequency }
{
    match band {
        Band::Vor => (10000 <= frequency) & (frequency <= 17999),
        Band::Ils => (10000 <= frequency) & (frequency <= 17999),
        Band::Mls => (503000 <= frequency) & (frequency <= 509999),
    }
}
