// The reading of a record: its value's, under its status.
#![tactic(auto)]

ghost use Rattle.std.specs.Prelude.{◌≡◌};
ghost use Rattle.readings.specs.Meaning.{Reads, Shows};
ghost use Rattle.readings.specs.Readings.{azimuth_reading, course_reading, glide_reading, mls_reading, value_reading, shown_under, reading_of, has_reading};

use readings::{Reading, Shown};
use records::{AzimuthCount, Body, CourseCount, GlideCount, MlsCount};
use statuses::Status;
use views::{Value, View};

// The reading of 222.
fn azimuth_reading(count: AzimuthCount) -> Reading
    ensures { result ≡ azimuth_reading count.0 }
{
    Reading::Degrees(doubles::azimuth_degrees(count))
}

// The reading of 173.
fn course_reading(count: CourseCount) -> Reading
    ensures { result ≡ course_reading count.0 }
{
    Reading::DepthDifference(doubles::course_difference(count))
}

// The reading of 174.
fn glide_reading(count: GlideCount) -> Reading
    ensures { result ≡ glide_reading count.0 }
{
    Reading::DepthDifference(doubles::glide_difference(count))
}

// The reading of 151 and 152.
fn mls_reading(count: MlsCount) -> Reading
    ensures { result ≡ mls_reading count.0 }
{
    Reading::Millivolts(doubles::mls_millivolts(count))
}

// The reading of a value.
fn value_reading(value: Value) -> Reading
    ensures operations { result ≡ value_reading value }
    ensures values { Reads value result }
{
    match value {
        Value::Azimuth(count) => azimuth_reading(count),
        Value::Course(count) => course_reading(count),
        Value::Glide(count) => glide_reading(count),
        Value::MlsAzimuth(count) => mls_reading(count),
        Value::MlsGlide(count) => mls_reading(count),
        Value::Frequency(frequency) => Reading::Frequency(frequency),
        Value::Setting(setting) => Reading::Setting(setting),
    }
}

// What a status shows of a reading.
fn shown_under(status: Status, reading: Reading) -> Shown
    ensures { result ≡ shown_under status reading }
{
    match status {
        Status::Failure => Shown::Absent,
        Status::NoData => Shown::Absent,
        Status::Test => Shown::Test(reading),
        Status::Ready => Shown::Ready(reading),
    }
}

// The reading of a record's body, if there is one.
pub fn reading_of(body: Body) -> Shown
    ensures operations { result ≡ reading_of body }
    ensures values { Shows body result }
{
    match views::view_of(body) {
        View::Value(status, value) => shown_under(status, value_reading(value)),
        View::Part(_, _) => Shown::Absent,
    }
}

// Whether a body has a reading: a value, under a status that shows it.
pub fn has_reading(body: Body) -> bool
    ensures { result ≡ has_reading (reading_of body) }
{
    match views::view_of(body) {
        View::Value(status, _) => views::is_shown(status),
        View::Part(_, _) => false,
    }
}
