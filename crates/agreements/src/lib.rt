// Whether a figure agrees with a count or with a word.
#![tactic(auto)]

ghost use Rattle.std.specs.Prelude.{◌≡◌};
ghost use Rattle.quantities.specs.Nearest.{nearest_count};
ghost use Rattle.agreements.specs.Agreement.{is_nearest, holds_nearest, agrees_of};

use quantities::Quantity;

// Whether a count is the nearest one.
fn is_nearest(nearest: Option<i16>, count: i16) -> bool
    ensures { result ≡ is_nearest nearest count }
{
    match nearest {
        Some(other) => count == other,
        None => false,
    }
}

// Whether a count of a quantity is the one nearest to a figure in millionths.
pub fn count_agrees(quantity: Quantity, count: i16, millionths: i64) -> bool
    ensures { result ≡ is_nearest (nearest_count quantity millionths) count }
{
    is_nearest(quantities::nearest_count(quantity, millionths), count)
}

// Whether a count is measured, and it is the one nearest to a figure.
fn holds_nearest(measurement: Option<(Quantity, i16)>, millionths: i64) -> bool
    ensures { result ≡ holds_nearest measurement millionths }
{
    match measurement {
        Some((quantity, count)) => count_agrees(quantity, count, millionths),
        None => false,
    }
}

// Whether a figure in millionths agrees with a word: it is coded, under the word's label and source, to the word's count.
pub fn agrees(word: u32, millionths: i64) -> bool
    ensures { result ≡ agrees_of word millionths }
{
    match decoder::decode(word) {
        Ok(record) => {
            let body = record.body;
            holds_nearest(measurements::measurement_of(body), millionths)
        }
        Err(_) => false,
    }
}
