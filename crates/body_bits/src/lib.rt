// Bits 11 to 31 of a word: what the body of a record writes in them.
#![tactic(auto)]

ghost use Rattle.std.specs.Prelude.{◌≡◌, ◌+◌, ◌*◌, ◌<◌, ◌/◌, ◌%◌};
ghost use Rattle.bits.specs.Complement.{complement};
ghost use Rattle.statuses.specs.Statuses.{binary_code, decimal_code};
ghost use Rattle.codes.specs.Codes.{flag_bit};
ghost use Rattle.frequencies.specs.Frequencies.{tens_code};
ghost use Rattle.encode.specs.Encode.{upper_bits};

use frequencies::Band;
use records::Body;
use statuses::Status;

// Bits 11 to 31 of a word with a count of 13 bits.
fn upper_narrow(status: Status, first: u32, count: i16) -> u32
    requires { first < 8 }
    ensures { result ≡ (binary_code status * 8192 + complement 13 count) * 64 + first }
{
    (statuses::binary_code(status) * 8192 + bits::complement::<13>(count)) * 64 + first
}

// Bits 11 to 31 of a word with a count of 16 bits.
fn upper_wide(status: Status, inhibit: bool, clearance: bool, count: i16) -> u32
    ensures { result ≡ ((binary_code status * 65536 + complement 16 count) * 4 + flag_bit clearance) * 2 + flag_bit inhibit }
{
    let deviation = statuses::binary_code(status) * 65536 + bits::complement::<16>(count);
    (deviation * 4 + codes::flag_bit(clearance)) * 2 + codes::flag_bit(inhibit)
}

// Bits 11 to 31 of a decimal word.
fn upper_decimal(band: Band, status: Status, first: u32, frequency: u32) -> u32
    requires { first < 4 }
    ensures { result ≡ ((((decimal_code status * 8 + tens_code band (frequency / 1000 % 10)) * 16 + frequency / 100 % 10) * 16 + frequency / 10 % 10) * 16 + frequency % 10) * 16 + first }
{
    let tens = statuses::decimal_code(status) * 8
        + frequencies::tens_code(band, frequency / 1000 % 10);
    let tenths = (tens * 16 + frequency / 100 % 10) * 16 + frequency / 10 % 10;
    (tenths * 16 + frequency % 10) * 16 + first
}

// Bits 11 to 31 of a word with a setting.
fn upper_setting(status: Status, manual: bool, value: u32) -> u32
    requires { value < 131072 }
    ensures { result ≡ ((binary_code status * 1024 + value) * 2 + flag_bit manual) * 256 }
{
    ((statuses::binary_code(status) * 1024 + value) * 2 + codes::flag_bit(manual)) * 256
}

// Bits 11 to 31 of a body's word.
pub fn upper_bits(body: Body) -> u32
    ensures { result ≡ upper_bits body }
{
    match body {
        Body::VorAzimuth {
            status,
            marker,
            count,
        } => upper_narrow(status, codes::marker_code(marker), count.0),
        Body::VorFrequency { status, frequency } => upper_decimal(Band::Vor, status, 0, frequency),
        Body::IlsCourse {
            status,
            inhibit,
            count,
        } => upper_narrow(status, codes::flag_bit(inhibit), count.0),
        Body::IlsGlide {
            status,
            inhibit,
            count,
        } => upper_narrow(status, codes::flag_bit(inhibit), count.0),
        Body::IlsFrequency {
            status,
            category,
            frequency,
        } => upper_decimal(Band::Ils, status, codes::category_code(category), frequency),
        Body::MlsFrequency { status, frequency } => upper_decimal(Band::Mls, status, 0, frequency),
        Body::MlsAzimuthDeviation {
            status,
            inhibit,
            clearance,
            count,
        } => upper_wide(status, inhibit, clearance, count.0),
        Body::MlsGlideDeviation {
            status,
            inhibit,
            clearance,
            count,
        } => upper_wide(status, inhibit, clearance, count.0),
        Body::SelectedAzimuth {
            status,
            manual,
            degrees,
        } => upper_setting(status, manual, degrees as u32),
        Body::GreatestGlideAngle { status, tenths } => upper_setting(
            status,
            false,
            bits::parity_bit(tenths as u32) * 256 + tenths as u32,
        ),
        Body::SelectedGlideAngle {
            status,
            manual,
            tenths,
        } => upper_setting(status, manual, tenths as u32),
        Body::Part1 {
            word_number,
            content,
        } => (content as u32 * 256 + word_number as u32) * 8,
        Body::Part2 { content } => (65536 + content as u32) * 8,
        Body::Part3 { content } => (131072 + content as u32) * 8,
        Body::Part4 {
            parity_good,
            content,
        } => (196608 + content as u32) * 8 + codes::flag_bit(parity_good),
    }
}
