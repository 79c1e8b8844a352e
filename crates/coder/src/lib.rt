// Figures coded to words.
#![tactic(auto)]

ghost use Rattle.std.specs.Prelude.{◌≡◌, ◌≤◌};
ghost use Rattle.labels.proofs.Assignment.{document01};
ghost use Rattle.encode.specs.Encode.{word_as};
ghost use Rattle.figures.specs.Coding.{quantity_of, quantity_at, ready_record, coded_under, coded_of};
ghost use Rattle.figures.specs.Ready.{narrow_bits, wide_bits, ready_bits};

use quantities::Quantity;
use records::Kind;
use refusals::Refusal;

// The quantity that words of a kind measure.
fn quantity_of(kind: Kind) -> Option<Quantity>
    ensures { result ≡ quantity_of kind }
{
    match kind {
        Kind::VorAzimuth => Some(Quantity::Azimuth),
        Kind::IlsCourse => Some(Quantity::Course),
        Kind::IlsGlide => Some(Quantity::Glide),
        Kind::MlsAzimuthDeviation => Some(Quantity::MlsAzimuth),
        Kind::MlsGlideDeviation => Some(Quantity::MlsGlide),
        _ => None,
    }
}

// The quantity that words of a label measure. A label above 255 is none.
pub fn find_quantity(label: u64) -> Option<Quantity>
    ensures { result ≡ quantity_at document01 label }
{
    if 255 < label {
        return None;
    }
    quantity_of(label_table::find_kind(label as u32)?)
}

// Bits 11 to 31 of a ready word with a count of 13 bits: the status 3 above it, and zero below.
fn narrow_bits(count: i16) -> u32
    ensures { result ≡ narrow_bits count }
{
    (3 * 8192 + bits::complement::<13>(count)) * 64
}

// The same with a count of 16 bits.
fn wide_bits(count: i16) -> u32
    ensures { result ≡ wide_bits count }
{
    (3 * 65536 + bits::complement::<16>(count)) * 8
}

// Bits 11 to 31 of the ready word of a count.
fn ready_bits(quantity: Quantity, count: i16) -> u32
    ensures { result ≡ ready_bits quantity count }
{
    match quantity {
        Quantity::Azimuth => narrow_bits(count),
        Quantity::Course => narrow_bits(count),
        Quantity::Glide => narrow_bits(count),
        Quantity::MlsAzimuth => wide_bits(count),
        Quantity::MlsGlide => wide_bits(count),
    }
}

// The ready word of a count, under a label.
fn ready_word(quantity: Quantity, label: u8, source: u8, count: i16) -> u32
    requires { source ≤ 3 }
    ensures { result ≡ word_as label (ready_record quantity source count) }
{
    let lower = (ready_bits(quantity, count) * 4 + source as u32) * 256
        + word_labels::label_of(label as u32);
    bits::parity_bit(lower) * 2147483648 + lower
}

// A figure of a quantity, under a label.
fn code_quantity(
    quantity: Quantity,
    label: u8,
    source: u64,
    millionths: i64,
) -> Result<u32, Refusal>
    ensures { result ≡ coded_under quantity label source millionths }
{
    if 3 < source {
        return Err(Refusal::Code);
    }
    let count = quantities::nearest_count(quantity, millionths).ok_or(Refusal::Reach)?;
    Ok(ready_word(quantity, label, source as u8, count))
}

// The word that a figure of a quantity, in millionths, is coded to under any label and a source, or its refusal. There is one case for
// each quantity, so that the compiler knows the step in it.
pub fn code_under(
    quantity: Quantity,
    label: u8,
    source: u64,
    millionths: i64,
) -> Result<u32, Refusal>
    ensures { result ≡ coded_under quantity label source millionths }
{
    match quantity {
        Quantity::Azimuth => code_quantity(Quantity::Azimuth, label, source, millionths),
        Quantity::Course => code_quantity(Quantity::Course, label, source, millionths),
        Quantity::Glide => code_quantity(Quantity::Glide, label, source, millionths),
        Quantity::MlsAzimuth => code_quantity(Quantity::MlsAzimuth, label, source, millionths),
        Quantity::MlsGlide => code_quantity(Quantity::MlsGlide, label, source, millionths),
    }
}

// The word that a figure in millionths is coded to, under a label and a source, or its refusal.
pub fn code_figure(label: u64, source: u64, millionths: i64) -> Result<u32, Refusal>
    ensures { result ≡ coded_of label source millionths }
{
    let Some(quantity) = find_quantity(label) else {
        return Err(Refusal::Label);
    };
    code_under(quantity, label as u8, source, millionths)
}
