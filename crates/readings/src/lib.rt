// What a record reads: degrees, depth difference, millivolts, a frequency or a setting. The definitions and their laws stand in specs/.
#![tactic(auto)]

use views::Setting;

// A quantity with its unit (document 01's term is a reading).
#[derive(Clone, Copy)]
pub enum Reading {
    // an azimuth, in degrees
    Degrees(f64),
    // a difference in depth of modulation (DDM)
    DepthDifference(f64),
    // an MLS deviation, in millivolts
    Millivolts(f64),
    // a frequency, in tens of kHz
    Frequency(u32),
    // a setting
    Setting(Setting),
}

// The reading of a record, marked where it comes from a test, or none.
#[derive(Clone, Copy)]
pub enum Shown {
    Ready(Reading),
    Test(Reading),
    Absent,
}
