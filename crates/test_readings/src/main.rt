// Prints the readings of document 01's starred words, and three chart points, for comparison with `stdout`.
#![tactic(auto)]

use readings::{Reading, Shown};
use views::Setting;

// Writes a text. A test program that cannot write is found by what it has not written.
fn print(out: &impl Print, text: &[u8]) {
    let _ = out.write_all(text);
}

// Writes a decimal number.
fn print_number(out: &impl Print, n: u64) {
    let _ = out.print(n);
}

// The double by the literal that it is equal to.
fn print_double(out: &impl Print, x: f64) {
    if x == 90.0 {
        print(out, b"+90.0");
    } else if x == -45.0 {
        print(out, b"-45.0");
    } else if x == 0.1 {
        print(out, b"+0.1");
    } else if x == -0.00009765625 {
        print(out, b"-0.00009765625");
    } else if x == 0.0732421875 {
        print(out, b"+0.0732421875");
    } else if x == -2400.0 {
        print(out, b"-2400.0");
    } else {
        print(out, b"another double");
    }
}

fn print_manual(out: &impl Print, manual: bool) {
    if manual {
        print(out, b"manual ");
    }
}

fn print_setting(out: &impl Print, setting: Setting) {
    match setting {
        Setting::SelectedAzimuth { manual, degrees } => {
            print_manual(out, manual);
            print_number(out, degrees as u64);
            print(out, b" degrees set");
        }
        Setting::GreatestGlideAngle { tenths } => {
            print_number(out, tenths as u64);
            print(out, b" tenths of a degree greatest");
        }
        Setting::SelectedGlideAngle { manual, tenths } => {
            print_manual(out, manual);
            print_number(out, tenths as u64);
            print(out, b" tenths of a degree set");
        }
    }
}

fn print_reading(out: &impl Print, reading: Reading) {
    match reading {
        Reading::Degrees(x) => {
            print_double(out, x);
            print(out, b" degrees");
        }
        Reading::DepthDifference(x) => {
            print_double(out, x);
            print(out, b" depth difference");
        }
        Reading::Millivolts(x) => {
            print_double(out, x);
            print(out, b" millivolts");
        }
        Reading::Frequency(f) => {
            print_number(out, f as u64);
            print(out, b" tens of kHz");
        }
        Reading::Setting(setting) => print_setting(out, setting),
    }
}

fn print_shown(out: &impl Print, shown: Shown) {
    match shown {
        Shown::Ready(reading) => print_reading(out, reading),
        Shown::Test(reading) => {
            print(out, b"test ");
            print_reading(out, reading);
        }
        Shown::Absent => {
            print(out, b"-");
        }
    }
}

// A line for a word.
fn print_word(out: &impl Print, word: u32) {
    let _ = print!(out; "{word:08x}");
    print(out, b" ");
    match decoder::decode(word) {
        Ok(record) => {
            let body = record.body;
            print_shown(out, record_readings::reading_of(body));
        }
        Err(refusal) => {
            print(out, b"refused ");
            print_number(out, refusals::number(refusal) as u64);
        }
    }
    print(out, b"\n");
}

// A line for two words.
fn print_point(out: &impl Print, first: u32, second: u32) {
    print(out, b"chart ");
    match chart_points::chart_point(first, second) {
        Ok(point) => {
            let course = point.course;
            let glide = point.glide;
            print_double(out, course);
            print(out, b" ");
            print_double(out, glide);
        }
        Err(refusal) => {
            print(out, b"refused ");
            print_number(out, refusals::number(refusal) as u64);
        }
    }
    print(out, b"\n");
}

// The starred words, and the MLS words of count 1 and of the least count.
fn print_words(out: &impl Print) {
    print_word(out, 0xE8000049);
    print_word(out, 0xFC000049);
    print_word(out, 0x640000DE);
    print_word(out, 0x7FFF00DE);
    print_word(out, 0x04C80038);
    print_word(out, 0x841C0078);
    print_word(out, 0xEB3C00D6);
    print_word(out, 0xEB4400D6);
    print_word(out, 0x69400036);
    print_word(out, 0xE1400036);
    print_word(out, 0xE8000048);
    print_word(out, 0x60002096);
    print_word(out, 0x70000096);
}

// The statuses of one course word, and a part.
fn print_statuses(out: &impl Print) {
    print_word(out, 0x040000DE);
    print_word(out, 0xA40000DE);
    print_word(out, 0xC40000DE);
    print_word(out, 0x80000006);
}

// A point, a point from test words, and each refusal in its turn.
fn print_points(out: &impl Print) {
    print_point(out, 0x640000DE, 0xE200003E);
    print_point(out, 0xC40000DE, 0x4200003E);
    print_point(out, 0xE8000048, 0xEB4400D6);
    print_point(out, 0x640000DE, 0xEB4400D6);
    print_point(out, 0xE200003E, 0x640000DE);
    print_point(out, 0x640000DE, 0x6200013E);
    print_point(out, 0x640000DE, 0x2200003E);
}

fn main(rt: HostRuntime) {
    print_words(&rt);
    print_statuses(&rt);
    print_points(&rt);
}
