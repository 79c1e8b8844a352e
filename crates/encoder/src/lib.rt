// A record to its word, or to its refusal.
#![tactic(auto)]

ghost use Rattle.std.specs.Prelude.{◌≡◌, true, ◌<◌};
ghost use Rattle.statuses.specs.Statuses.{decimal_code, decimal_listed};
ghost use Rattle.encode.specs.Encode.{codes_listed, narrow, wide, values_legal, word_as, encode_as, encode_of};

use frequencies::Band;
use records::{Body, Record};
use refusals::Refusal;
use statuses::Status;

// Whether a count has 13 bits.
fn is_narrow(count: i16) -> bool
    ensures { result ≡ narrow count }
{
    (-4096 <= count) & (count <= 4095)
}

// Whether a count has 16 bits.
fn is_wide(count: i16) -> bool
    ensures { result ≡ wide count }
{
    (-32768 <= count) & (count <= 32767)
}

// Whether a status has a code in a decimal word.
fn is_decimal(status: Status) -> bool
    ensures { result ≡ decimal_listed (decimal_code status) }
{
    statuses::decimal_code(status) < 3
}

// Whether every code of a body is in its list.
fn codes_listed(body: Body) -> bool
    ensures { result ≡ codes_listed body }
{
    match body {
        Body::VorFrequency { status, .. } => is_decimal(status),
        Body::IlsFrequency { status, .. } => is_decimal(status),
        Body::MlsFrequency { status, .. } => is_decimal(status),
        _ => true,
    }
}

// Whether every other field of a body is legal.
fn values_legal(body: Body) -> bool
    ensures { result ≡ values_legal body }
{
    match body {
        Body::VorAzimuth { count, .. } => is_narrow(count.0),
        Body::VorFrequency { status, frequency } => channels::is_legal_frequency(
            Band::Vor,
            status,
            frequency,
        ),
        Body::IlsCourse { count, .. } => is_narrow(count.0),
        Body::IlsGlide { count, .. } => is_narrow(count.0),
        Body::IlsFrequency {
            status,
            frequency,
            ..
        } => channels::is_legal_frequency(Band::Ils, status, frequency),
        Body::MlsFrequency { status, frequency } => channels::is_legal_frequency(
            Band::Mls,
            status,
            frequency,
        ),
        Body::MlsAzimuthDeviation { count, .. } => is_wide(count.0),
        Body::MlsGlideDeviation { count, .. } => is_wide(count.0),
        Body::SelectedAzimuth { degrees, .. } => degrees <= 359,
        Body::GreatestGlideAngle { tenths, .. } => tenths <= 255,
        Body::SelectedGlideAngle { tenths, .. } => tenths <= 511,
        Body::Part1 {
            word_number,
            content,
        } => (word_number <= 255) & (content <= 255),
        Body::Part2 { content } => content <= 65535,
        Body::Part3 { content } => content <= 65535,
        Body::Part4 { content, .. } => content <= 65535,
    }
}

// The word of a legal record under a label.
fn word_of(label: u32, record: Record) -> u32
    requires { («record».source < 4) × (values_legal «record».body ≡ true) }
    ensures { result ≡ word_as label «record» }
{
    let body = record.body;
    let lower = (body_bits::upper_bits(body) * 4 + record.source as u32) * 256
        + word_labels::label_of(label);
    bits::parity_bit(lower) * 2147483648 + lower
}

// The word of a record under a label, or its refusal: 2 for a label above 255, then 4, then 6.
pub fn encode_as(label: u32, record: Record) -> Result<u32, Refusal>
    ensures { result ≡ encode_as label «record» }
{
    if 255 < label {
        return Err(Refusal::Label);
    }
    let body = record.body;
    let codes = (record.source <= 3) & codes_listed(body);
    if !codes {
        return Err(Refusal::Code);
    }
    if !values_legal(body) {
        return Err(Refusal::Value);
    }
    Ok(word_of(label, record))
}

// The word of a record, or its refusal.
pub fn encode(record: Record) -> Result<u32, Refusal>
    ensures { result ≡ encode_of «record» }
{
    let body = record.body;
    let row = label_table::row_of(record_kinds::kind_of(body));
    encode_as(row.label, record)
}
