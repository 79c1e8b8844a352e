// The record that numbers stand for.
#![tactic(auto)]

ghost use Rattle.std.specs.Prelude.{◌≡◌};
ghost use Rattle.flat_fields.specs.Fields.{kind_at, listed, fits, body_from, record_of_kind, record_from};

use flat_records::FlatRecord;
use records::{AzimuthCount, Body, CourseCount, GlideCount, Kind, MlsCount, Record};
use refusals::Refusal;

// The kind at a place of document 01's table, counted from 1.
fn kind_at(number: u8) -> Option<Kind>
    ensures { result ≡ kind_at number }
{
    match number {
        1 => Some(Kind::VorAzimuth),
        2 => Some(Kind::VorFrequency),
        3 => Some(Kind::IlsCourse),
        4 => Some(Kind::IlsGlide),
        5 => Some(Kind::IlsFrequency),
        6 => Some(Kind::MlsFrequency),
        7 => Some(Kind::MlsAzimuthDeviation),
        8 => Some(Kind::MlsGlideDeviation),
        9 => Some(Kind::SelectedAzimuth),
        10 => Some(Kind::GreatestGlideAngle),
        11 => Some(Kind::SelectedGlideAngle),
        12 => Some(Kind::Part1),
        13 => Some(Kind::Part2),
        14 => Some(Kind::Part3),
        15 => Some(Kind::Part4),
        _ => None,
    }
}

// Whether every code that the kind has is in its list.
fn codes_listed(kind: Kind, f: FlatRecord) -> bool
    ensures { result ≡ listed kind f }
{
    let status = (1 <= f.status) & (f.status <= 4);
    let category = f.category <= 3;
    let marker = codes::is_marker(f.marker as u32);
    match kind {
        Kind::VorAzimuth => status & marker,
        Kind::IlsFrequency => status & category,
        Kind::Part1 | Kind::Part2 | Kind::Part3 | Kind::Part4 => true,
        _ => status,
    }
}

// Whether every other field that the kind has is one that its record can hold.
fn fields_fit(kind: Kind, f: FlatRecord) -> bool
    ensures { result ≡ fits kind f }
{
    let inhibit = f.inhibit <= 1;
    let clearance = f.clearance <= 1;
    let manual = f.manual <= 1;
    let good = f.parity_good <= 1;
    let octet = f.value <= 255;
    let short = f.value <= 65535;
    match kind {
        Kind::IlsCourse | Kind::IlsGlide => inhibit,
        Kind::MlsAzimuthDeviation | Kind::MlsGlideDeviation => inhibit & clearance,
        Kind::SelectedAzimuth | Kind::SelectedGlideAngle => manual & short,
        Kind::GreatestGlideAngle | Kind::Part2 | Kind::Part3 => short,
        Kind::Part1 => octet,
        Kind::Part4 => good & short,
        _ => true,
    }
}

// The body of a kind, from the fields that the kind has.
fn body_from(kind: Kind, f: FlatRecord) -> Body
    ensures { result ≡ body_from kind f }
{
    let inhibit = f.inhibit == 1;
    let clearance = f.clearance == 1;
    let manual = f.manual == 1;
    let parity_good = f.parity_good == 1;
    let word_number = f.word_number;
    let frequency = f.value;
    let short = (frequency % 65536) as u16;
    let octet = (frequency % 256) as u8;
    let count = f.count;
    let category = codes::category_of(f.category as u32);
    let marker = codes::marker_of(f.marker as u32);
    let status = statuses::binary_status((f.status as u32 + 3) % 4);
    match kind {
        Kind::VorAzimuth => Body::VorAzimuth {
            status,
            marker,
            count: AzimuthCount(count),
        },
        Kind::VorFrequency => Body::VorFrequency { status, frequency },
        Kind::IlsCourse => Body::IlsCourse {
            status,
            inhibit,
            count: CourseCount(count),
        },
        Kind::IlsGlide => Body::IlsGlide {
            status,
            inhibit,
            count: GlideCount(count),
        },
        Kind::IlsFrequency => Body::IlsFrequency {
            status,
            category,
            frequency,
        },
        Kind::MlsFrequency => Body::MlsFrequency { status, frequency },
        Kind::MlsAzimuthDeviation => Body::MlsAzimuthDeviation {
            status,
            inhibit,
            clearance,
            count: MlsCount(count),
        },
        Kind::MlsGlideDeviation => Body::MlsGlideDeviation {
            status,
            inhibit,
            clearance,
            count: MlsCount(count),
        },
        Kind::SelectedAzimuth => Body::SelectedAzimuth {
            status,
            manual,
            degrees: short,
        },
        Kind::GreatestGlideAngle => Body::GreatestGlideAngle {
            status,
            tenths: short,
        },
        Kind::SelectedGlideAngle => Body::SelectedGlideAngle {
            status,
            manual,
            tenths: short,
        },
        Kind::Part1 => Body::Part1 {
            word_number,
            content: octet,
        },
        Kind::Part2 => Body::Part2 { content: short },
        Kind::Part3 => Body::Part3 { content: short },
        Kind::Part4 => Body::Part4 {
            parity_good,
            content: short,
        },
    }
}

// The record of a known kind: 4 before 6.
fn record_of_kind(kind: Kind, f: FlatRecord) -> Result<Record, Refusal>
    ensures { result ≡ record_of_kind kind f }
{
    let codes = (f.source <= 3) & codes_listed(kind, f);
    if !codes {
        return Err(Refusal::Code);
    }
    if !fields_fit(kind, f) {
        return Err(Refusal::Value);
    }
    Ok(Record {
        source: f.source,
        body: body_from(kind, f),
    })
}

// The record that numbers stand for, or the refusal 2, 4 or 6. What the kind has no field for is not looked at.
pub fn record_from(f: FlatRecord) -> Result<Record, Refusal>
    ensures { result ≡ record_from f }
{
    record_of_kind(kind_at(f.kind).ok_or(Refusal::Label)?, f)
}
