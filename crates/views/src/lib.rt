// What every record has, whatever its kind: a status and a value, or a part's number and content.
#![tactic(auto)]

ghost use Rattle.std.specs.Prelude.{◌≡◌, ◌+◌, ◌*◌};
ghost use Rattle.views.specs.Views.{is_shown, view_of};

use records::{AzimuthCount, Body, CourseCount, GlideCount, MlsCount};
use statuses::Status;

// What was selected, or sent as the greatest, by hand or not where the word tells it.
#[derive(Clone, Copy, PartialEq, Eq, Debug)]
pub enum Setting {
    // 153, in degrees
    SelectedAzimuth { manual: bool, degrees: u16 },
    // 154, in tenths of a degree
    GreatestGlideAngle { tenths: u16 },
    // 155, in tenths of a degree
    SelectedGlideAngle { manual: bool, tenths: u16 },
}

// What a word with a status holds: a count of one of the five measured quantities, a frequency in tens of kHz, or a setting.
#[derive(Clone, Copy, PartialEq, Eq, Debug)]
pub enum Value {
    Azimuth(AzimuthCount),
    Course(CourseCount),
    Glide(GlideCount),
    MlsAzimuth(MlsCount),
    MlsGlide(MlsCount),
    Frequency(u32),
    Setting(Setting),
}

// A record without its source and the flags that only its own kind has.
#[derive(Clone, Copy, PartialEq, Eq, Debug)]
pub enum View {
    Value(Status, Value),
    // a part of the MLS auxiliary data, 1 to 4, and its 16 bits
    Part(u8, u16),
}

// Whether a value is shown under a status: only under test and ready.
pub fn is_shown(status: Status) -> bool
    ensures { result ≡ is_shown status }
{
    matches!(status, Status::Test | Status::Ready)
}

// The status and the value of a record's body, or its part.
pub fn view_of(body: Body) -> View
    ensures { result ≡ view_of body }
{
    match body {
        Body::VorAzimuth { status, count, .. } => View::Value(status, Value::Azimuth(count)),
        Body::VorFrequency { status, frequency } => View::Value(
            status,
            Value::Frequency(frequency),
        ),
        Body::IlsCourse { status, count, .. } => View::Value(status, Value::Course(count)),
        Body::IlsGlide { status, count, .. } => View::Value(status, Value::Glide(count)),
        Body::IlsFrequency {
            status,
            frequency,
            ..
        } => View::Value(status, Value::Frequency(frequency)),
        Body::MlsFrequency { status, frequency } => View::Value(
            status,
            Value::Frequency(frequency),
        ),
        Body::MlsAzimuthDeviation { status, count, .. } => {
            View::Value(status, Value::MlsAzimuth(count))
        }
        Body::MlsGlideDeviation { status, count, .. } => {
            View::Value(status, Value::MlsGlide(count))
        }
        Body::SelectedAzimuth {
            status,
            manual,
            degrees,
        } => View::Value(
            status,
            Value::Setting(Setting::SelectedAzimuth { manual, degrees }),
        ),
        Body::GreatestGlideAngle { status, tenths } => View::Value(
            status,
            Value::Setting(Setting::GreatestGlideAngle { tenths }),
        ),
        Body::SelectedGlideAngle {
            status,
            manual,
            tenths,
        } => View::Value(
            status,
            Value::Setting(Setting::SelectedGlideAngle { manual, tenths }),
        ),
        Body::Part1 {
            word_number,
            content,
        } => View::Part(1, word_number as u16 + 256 * (content as u16)),
        Body::Part2 { content } => View::Part(2, content),
        Body::Part3 { content } => View::Part(3, content),
        Body::Part4 { content, .. } => View::Part(4, content),
    }
}
