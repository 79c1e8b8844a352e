// What a line of the listing shows of a record: its status or part, and its figure.
#![tactic(auto)]

ghost use Rattle.std.specs.Prelude.{◌≡◌};
ghost use Rattle.columns.specs.Columns.{whole_figure, signed_figure, setting_figure, figure_of, figure_under, status_columns, part_columns, columns_of};

use records::Body;
use statuses::Status;
use views::{Setting, Value, View};

// What stands in the status's place.
#[derive(Clone, Copy, PartialEq, Eq, Debug)]
pub enum Mark {
    Status(Status),
    // a part of the MLS auxiliary data, 1 to 4
    Part(u8),
}

// A number of units of 1/10^places, by its sign and its size (document 01's term is a figure).
#[derive(Clone, Copy, PartialEq, Eq, Debug)]
pub struct Figure {
    pub negative: bool,
    pub places: u8,
    pub size: u64,
}

// The two columns that depend on a record's kind.
#[derive(Clone, Copy, PartialEq, Eq, Debug)]
pub struct Columns {
    pub mark: Mark,
    pub figure: Option<Figure>,
}

// A number that has no sign.
fn whole_figure(places: u8, size: u64) -> Figure
    ensures { result ≡ whole_figure places size }
{
    Figure {
        negative: false,
        places,
        size,
    }
}

// A number of millionths.
fn signed_figure(millionths: i64) -> Figure
    ensures { result ≡ signed_figure 6 millionths }
{
    Figure {
        negative: rounding::is_negative(millionths),
        places: 6,
        size: rounding::magnitude(millionths),
    }
}

// The figure of a setting.
fn setting_figure(setting: Setting) -> Figure
    ensures { result ≡ setting_figure setting }
{
    match setting {
        Setting::SelectedAzimuth { degrees, .. } => whole_figure(0, degrees as u64),
        Setting::GreatestGlideAngle { tenths } => whole_figure(1, tenths as u64),
        Setting::SelectedGlideAngle { tenths, .. } => whole_figure(1, tenths as u64),
    }
}

// The figure of a value.
fn figure_of(value: Value) -> Figure
    ensures { result ≡ figure_of value }
{
    match value {
        Value::Azimuth(count) => signed_figure(printing::azimuth_millionths(count)),
        Value::Course(count) => signed_figure(printing::course_millionths(count)),
        Value::Glide(count) => signed_figure(printing::glide_millionths(count)),
        Value::MlsAzimuth(count) => signed_figure(printing::mls_azimuth_millionths(count)),
        Value::MlsGlide(count) => signed_figure(printing::mls_glide_millionths(count)),
        Value::Frequency(frequency) => whole_figure(2, frequency as u64),
        Value::Setting(setting) => setting_figure(setting),
    }
}

// What a status shows of a figure: none where it shows no reading.
fn figure_under(status: Status, figure: Figure) -> Option<Figure>
    ensures { result ≡ figure_under status figure }
{
    if views::is_shown(status) {
        return Some(figure);
    }
    None
}

// A word with a status.
fn status_columns(status: Status, figure: Figure) -> Columns
    ensures { result ≡ status_columns status figure }
{
    Columns {
        mark: Mark::Status(status),
        figure: figure_under(status, figure),
    }
}

// A part of the MLS auxiliary data.
fn part_columns(part: u8, content: u64) -> Columns
    ensures { result ≡ part_columns part content }
{
    Columns {
        mark: Mark::Part(part),
        figure: Some(whole_figure(0, content)),
    }
}

// The status or part and the figure of a record.
pub fn columns_of(body: Body) -> Columns
    ensures { result ≡ columns_of body }
{
    match views::view_of(body) {
        View::Value(status, value) => status_columns(status, figure_of(value)),
        View::Part(part, content) => part_columns(part, content as u64),
    }
}
