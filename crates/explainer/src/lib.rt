// Why a figure and a word agree or do not.
#![tactic(auto)]

ghost use Rattle.std.specs.Prelude.{◌≡◌};
ghost use Rattle.decode.specs.Decode.{decode_of};
ghost use Rattle.explanations.specs.Explanations.{held_under, held_in, explained_of};

use quantities::Quantity;
use reasons::Reason;
use refusals::Refusal;

// What a word that measures this holds, by whether it has a reading.
fn held_under(
    reading: bool,
    measurement: Option<(Quantity, i16)>,
) -> Result<(Quantity, i16), Refusal>
    ensures { result ≡ held_under reading measurement }
{
    let measured = measurement.ok_or(Refusal::Label)?;
    if reading {
        return Ok(measured);
    }
    Err(Refusal::Reach)
}

// What a word holds that a figure is compared with.
pub fn held_in(word: u32) -> Result<(Quantity, i16), Refusal>
    ensures { result ≡ held_in (decode_of word) }
{
    let body = decoder::decode(word)?.body;
    let reading = record_readings::has_reading(body);
    held_under(reading, measurements::measurement_of(body))
}

// Why a figure in millionths and a word agree or do not. The word is decoded once.
pub fn explain(word: u32, millionths: i64) -> Result<Reason, Refusal>
    ensures { result ≡ explained_of word millionths }
{
    let (quantity, count) = held_in(word)?;
    Ok(reason_finder::reason_of(quantity, count, millionths))
}
