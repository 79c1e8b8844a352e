// Readings as numbers, for other languages.
#![tactic(auto)]

ghost use Rattle.std.specs.Prelude.{◌≡◌, pos};
ghost use Rattle.flat_readings.specs.Readings.{rounded, whole, flat_setting, flat_reading, absent, flat_shown, reading_in};

use readings::{Reading, Shown};
use views::Setting;

// A reading as numbers. Zero stands in every field where there is none, and beside a refusal in every other field.
#[repr(C)]
#[derive(Clone, Copy)]
pub struct FlatReading {
    // document 01's number, or 0 where the word is accepted
    pub refusal: u8,
    // 0 no reading, 1 ready, 2 test
    pub shown: u8,
    // 0 none, 1 degrees, 2 depth difference, 3 millivolts, 4 tens of kHz,
    // 5 degrees selected, 6 tenths of a degree sent as the greatest, 7 tenths of a degree selected
    pub unit: u8,
    pub manual: u8,
    // what units 4 to 7 read
    pub whole: i64,
    // what units 1 to 3 read
    pub value: f64,
}

// A reading in doubles.
fn rounded(shown: u8, unit: u8, value: f64) -> FlatReading
    ensures { result ≡ rounded shown unit value }
{
    FlatReading {
        refusal: 0,
        shown: shown,
        unit: unit,
        manual: 0,
        whole: 0,
        value: value,
    }
}

// A reading in whole numbers.
fn whole(shown: u8, unit: u8, manual: u8, number: i64) -> FlatReading
    ensures { result ≡ whole shown unit manual number }
{
    FlatReading {
        refusal: 0,
        shown: shown,
        unit: unit,
        manual: manual,
        whole: number,
        value: 0.0,
    }
}

// A number with a sign.
fn widened(number: u32) -> i64
    ensures { result ≡ pos number }
{
    number as i64
}

// The numbers of a setting.
fn flat_setting(shown: u8, setting: Setting) -> FlatReading
    ensures { result ≡ flat_setting shown setting }
{
    match setting {
        Setting::SelectedAzimuth { manual, degrees } => whole(
            shown,
            5,
            flat_flags::flag_number(manual),
            widened(degrees as u32),
        ),
        Setting::GreatestGlideAngle { tenths } => whole(shown, 6, 0, widened(tenths as u32)),
        Setting::SelectedGlideAngle { manual, tenths } => whole(
            shown,
            7,
            flat_flags::flag_number(manual),
            widened(tenths as u32),
        ),
    }
}

// The numbers of a reading.
fn flat_reading(shown: u8, reading: Reading) -> FlatReading
    ensures { result ≡ flat_reading shown reading }
{
    match reading {
        Reading::Degrees(value) => rounded(shown, 1, value),
        Reading::DepthDifference(value) => rounded(shown, 2, value),
        Reading::Millivolts(value) => rounded(shown, 3, value),
        Reading::Frequency(frequency) => whole(shown, 4, 0, widened(frequency)),
        Reading::Setting(setting) => flat_setting(shown, setting),
    }
}

// The numbers where there is no reading, of an accepted word or of a refusal.
fn absent(refusal: u8) -> FlatReading
    ensures { result ≡ absent refusal }
{
    FlatReading {
        refusal: refusal,
        shown: 0,
        unit: 0,
        manual: 0,
        whole: 0,
        value: 0.0,
    }
}

// The numbers of what is shown.
pub fn flat_shown(shown: Shown) -> FlatReading
    ensures { result ≡ flat_shown shown }
{
    match shown {
        Shown::Ready(reading) => flat_reading(1, reading),
        Shown::Test(reading) => flat_reading(2, reading),
        Shown::Absent => absent(0),
    }
}

// The numbers of a word's reading, or of its refusal.
pub fn reading_flat(word: u32) -> FlatReading
    ensures { result ≡ reading_in word }
{
    match decoder::decode(word) {
        Ok(record) => {
            let body = record.body;
            flat_shown(record_readings::reading_of(body))
        }
        Err(refusal) => absent(refusals::number(refusal)),
    }
}
