// Frequency words whose zero bits are zero: their rules, and what they hold.
#![tactic(auto)]

ghost use Rattle.std.specs.Prelude.{◌≡◌};
ghost use Rattle.bits.specs.Fields.{bits};
ghost use Rattle.statuses.specs.Statuses.{decimal_status};
ghost use Rattle.decode.specs.Rules.{decimal};
ghost use Rattle.decode.specs.Decode.{judgement, decode_clear};

use frequencies::Band;
use records::{Body, Kind, Record};
use refusals::Refusal;
use statuses::Status;

// The status of a decimal word, in bits 30 and 31.
fn decimal_status_in(word: u32) -> Status
    ensures { result ≡ decimal_status (bits 30 31 word) }
{
    statuses::decimal_status(word / 536870912 % 4)
}

// Whether a frequency word keeps its rules, or the first that it breaks.
pub fn frequency_judgement(band: Band, word: u32) -> Result<(), Refusal>
    ensures { result ≡ judgement (decimal band word) }
{
    let digits = (word / 16384 % 16 <= 9)
        & ((word / 262144 % 16 <= 9) & (word / 4194304 % 16 <= 9));
    if !digits {
        return Err(Refusal::Digit);
    }
    let codes = (word / 536870912 % 4 < 3) & frequencies::is_tens(band, word / 67108864 % 8);
    if !codes {
        return Err(Refusal::Code);
    }
    judgements::kept_if(
        channels::is_legal_frequency(
            band,
            decimal_status_in(word),
            frequencies::frequency_in(band, word),
        ),
        Refusal::Value,
    )
}

// A frequency word of each band.
pub fn vor_frequency(word: u32) -> Result<Record, Refusal>
    ensures { result ≡ decode_clear Kind.VorFrequency word }
{
    judgements::judged(
        frequency_judgement(Band::Vor, word),
        word,
        Body::VorFrequency {
            status: decimal_status_in(word),
            frequency: frequencies::frequency_in(Band::Vor, word),
        },
    )
}

pub fn ils_frequency(word: u32) -> Result<Record, Refusal>
    ensures { result ≡ decode_clear Kind.IlsFrequency word }
{
    judgements::judged(
        frequency_judgement(Band::Ils, word),
        word,
        Body::IlsFrequency {
            status: decimal_status_in(word),
            category: codes::category_of(word / 1024 % 4),
            frequency: frequencies::frequency_in(Band::Ils, word),
        },
    )
}

pub fn mls_frequency(word: u32) -> Result<Record, Refusal>
    ensures { result ≡ decode_clear Kind.MlsFrequency word }
{
    judgements::judged(
        frequency_judgement(Band::Mls, word),
        word,
        Body::MlsFrequency {
            status: decimal_status_in(word),
            frequency: frequencies::frequency_in(Band::Mls, word),
        },
    )
}
