// The records of the fifteen kinds of word. The definitions and their laws stand in specs/.
#![tactic(auto)]

use codes::{Category, Marker};
use statuses::Status;

// What a word is about.
#[derive(Clone, Copy, PartialEq, Eq, Debug)]
pub enum Kind {
    VorAzimuth,
    VorFrequency,
    IlsCourse,
    IlsGlide,
    IlsFrequency,
    MlsFrequency,
    MlsAzimuthDeviation,
    MlsGlideDeviation,
    SelectedAzimuth,
    GreatestGlideAngle,
    SelectedGlideAngle,
    Part1,
    Part2,
    Part3,
    Part4,
}

// A count of 45/1024 degree.
#[derive(Clone, Copy, PartialEq, Eq, Debug)]
pub struct AzimuthCount(pub i16);

// A count of 1/10240 of modulation depth difference.
#[derive(Clone, Copy, PartialEq, Eq, Debug)]
pub struct CourseCount(pub i16);

// A count of 1/5120 of modulation depth difference.
#[derive(Clone, Copy, PartialEq, Eq, Debug)]
pub struct GlideCount(pub i16);

// A count of 75/1024 mV.
#[derive(Clone, Copy, PartialEq, Eq, Debug)]
pub struct MlsCount(pub i16);

// What a word of each kind holds beside its source. Frequencies are in tens of kHz, angles of 154 and 155 in tenths of a degree.
#[derive(Clone, Copy, PartialEq, Eq, Debug)]
pub enum Body {
    VorAzimuth {
        status: Status,
        marker: Marker,
        count: AzimuthCount,
    },
    VorFrequency {
        status: Status,
        frequency: u32,
    },
    IlsCourse {
        status: Status,
        inhibit: bool,
        count: CourseCount,
    },
    IlsGlide {
        status: Status,
        inhibit: bool,
        count: GlideCount,
    },
    IlsFrequency {
        status: Status,
        category: Category,
        frequency: u32,
    },
    MlsFrequency {
        status: Status,
        frequency: u32,
    },
    MlsAzimuthDeviation {
        status: Status,
        inhibit: bool,
        clearance: bool,
        count: MlsCount,
    },
    MlsGlideDeviation {
        status: Status,
        inhibit: bool,
        clearance: bool,
        count: MlsCount,
    },
    SelectedAzimuth {
        status: Status,
        manual: bool,
        degrees: u16,
    },
    GreatestGlideAngle {
        status: Status,
        tenths: u16,
    },
    SelectedGlideAngle {
        status: Status,
        manual: bool,
        tenths: u16,
    },
    Part1 {
        word_number: u8,
        content: u8,
    },
    Part2 {
        content: u16,
    },
    Part3 {
        content: u16,
    },
    Part4 {
        parity_good: bool,
        content: u16,
    },
}

// An accepted word: its source (SDI) and what it holds.
#[derive(Clone, Copy, PartialEq, Eq, Debug)]
pub struct Record {
    pub source: u8,
    pub body: Body,
}
