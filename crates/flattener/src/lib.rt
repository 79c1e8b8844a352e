// The numbers of a record, or of a refusal.
#![tactic(auto)]

ghost use Rattle.std.specs.Prelude.{◌≡◌};
ghost use Rattle.codes.specs.Codes.{marker_code, category_code, flag_bit};
ghost use Rattle.flat_records.specs.Numbers.{status_number, with_count, with_value, part, refused, flat_numbers, flat_of};

use codes::{Category, Marker};
use flat_records::FlatRecord;
use records::{Body, Record};
use refusals::Refusal;
use statuses::Status;

// The number of a status.
fn status_number(status: Status) -> u8
    ensures { result ≡ status_number status }
{
    match status {
        Status::Failure => 1,
        Status::NoData => 2,
        Status::Test => 3,
        Status::Ready => 4,
    }
}

// The code of a marker.
fn marker_number(marker: Marker) -> u8
    ensures { result ≡ marker_code marker }
{
    match marker {
        Marker::None => 0,
        Marker::Outer => 1,
        Marker::Middle => 2,
        Marker::Inner => 4,
    }
}

// The code of a category.
fn category_number(category: Category) -> u8
    ensures { result ≡ category_code category }
{
    match category {
        Category::NotStated => 0,
        Category::I => 1,
        Category::II => 2,
        Category::III => 3,
    }
}

// The numbers of a refusal, or of none, which is 0: zero in every other field.
fn blank(refusal: u8) -> FlatRecord
    ensures { result ≡ refused refusal }
{
    FlatRecord {
        refusal: refusal,
        kind: 0,
        source: 0,
        status: 0,
        marker: 0,
        category: 0,
        inhibit: 0,
        clearance: 0,
        manual: 0,
        parity_good: 0,
        word_number: 0,
        count: 0,
        value: 0,
    }
}

// The numbers of a record with a count.
fn with_count(
    kind: u8,
    source: u8,
    status: Status,
    marker: Marker,
    inhibit: bool,
    clearance: bool,
    count: i16,
) -> FlatRecord
    ensures { result ≡ with_count kind source (status_number status) (marker_code marker) (flag_bit inhibit) (flag_bit clearance) count }
{
    let mut r = blank(0);
    r.kind = kind;
    r.source = source;
    r.status = status_number(status);
    r.marker = marker_number(marker);
    r.inhibit = flat_flags::flag_number(inhibit);
    r.clearance = flat_flags::flag_number(clearance);
    r.count = count;
    r
}

// The numbers of a record with another value.
fn with_value(
    kind: u8,
    source: u8,
    status: Status,
    category: Category,
    manual: bool,
    value: u32,
) -> FlatRecord
    ensures { result ≡ with_value kind source (status_number status) (category_code category) (flag_bit manual) value }
{
    let mut r = blank(0);
    r.kind = kind;
    r.source = source;
    r.status = status_number(status);
    r.category = category_number(category);
    r.manual = flat_flags::flag_number(manual);
    r.value = value;
    r
}

// The numbers of a part of group C.
fn part(kind: u8, source: u8, parity_good: bool, word_number: u8, content: u16) -> FlatRecord
    ensures { result ≡ part kind source (flag_bit parity_good) word_number content }
{
    let mut r = blank(0);
    r.kind = kind;
    r.source = source;
    r.parity_good = flat_flags::flag_number(parity_good);
    r.word_number = word_number;
    r.value = content as u32;
    r
}

// The numbers of a record, from its kind's number, its source and its body.
fn flat_numbers(kind: u8, source: u8, body: Body) -> FlatRecord
    ensures { result ≡ flat_numbers kind source body }
{
    match body {
        Body::VorAzimuth {
            status,
            marker,
            count,
        } => with_count(kind, source, status, marker, false, false, count.0),
        Body::VorFrequency { status, frequency } => with_value(
            kind,
            source,
            status,
            Category::NotStated,
            false,
            frequency,
        ),
        Body::IlsCourse {
            status,
            inhibit,
            count,
        } => with_count(kind, source, status, Marker::None, inhibit, false, count.0),
        Body::IlsGlide {
            status,
            inhibit,
            count,
        } => with_count(kind, source, status, Marker::None, inhibit, false, count.0),
        Body::IlsFrequency {
            status,
            category,
            frequency,
        } => with_value(kind, source, status, category, false, frequency),
        Body::MlsFrequency { status, frequency } => with_value(
            kind,
            source,
            status,
            Category::NotStated,
            false,
            frequency,
        ),
        Body::MlsAzimuthDeviation {
            status,
            inhibit,
            clearance,
            count,
        } => with_count(
            kind,
            source,
            status,
            Marker::None,
            inhibit,
            clearance,
            count.0,
        ),
        Body::MlsGlideDeviation {
            status,
            inhibit,
            clearance,
            count,
        } => with_count(
            kind,
            source,
            status,
            Marker::None,
            inhibit,
            clearance,
            count.0,
        ),
        Body::SelectedAzimuth {
            status,
            manual,
            degrees,
        } => with_value(
            kind,
            source,
            status,
            Category::NotStated,
            manual,
            degrees as u32,
        ),
        Body::GreatestGlideAngle { status, tenths } => with_value(
            kind,
            source,
            status,
            Category::NotStated,
            false,
            tenths as u32,
        ),
        Body::SelectedGlideAngle {
            status,
            manual,
            tenths,
        } => with_value(
            kind,
            source,
            status,
            Category::NotStated,
            manual,
            tenths as u32,
        ),
        Body::Part1 {
            word_number,
            content,
        } => part(kind, source, false, word_number, content as u16),
        Body::Part2 { content } => part(kind, source, false, 0, content),
        Body::Part3 { content } => part(kind, source, false, 0, content),
        Body::Part4 {
            parity_good,
            content,
        } => part(kind, source, parity_good, 0, content),
    }
}

// The numbers of a record or a refusal.
pub fn flat_of(decoded: Result<Record, Refusal>) -> FlatRecord
    ensures { result ≡ flat_of decoded }
{
    match decoded {
        Ok(record) => {
            let source = record.source;
            let body = record.body;
            let kind = record_kinds::place_of(record_kinds::kind_of(body));
            flat_numbers(kind, source, body)
        }
        Err(refusal) => blank(refusals::number(refusal)),
    }
}
