// Lists each sheet of the test data and compares the listing, byte for byte, with the text that stands beside it. The
// folder `flight` holds the example; in `faulty` each text has one byte changed or missing.
#![tactic(auto)]

use std::fs::File;
use std::io::Read;
use std::rt::Files;
use std::str;

fn digit_of(number: u64) -> u8 {
    48 + (number % 10) as u8
}

// The name of a numbered file, as `sheets/0042.bin`.
fn path_of(folder: &[u8; 6], number: u64, ending: &[u8; 3]) -> [u8; 15] {
    [
        folder[0],
        folder[1],
        folder[2],
        folder[3],
        folder[4],
        folder[5],
        b'/',
        digit_of(number / 1000),
        digit_of(number / 100),
        digit_of(number / 10),
        digit_of(number),
        b'.',
        ending[0],
        ending[1],
        ending[2],
    ]
}

// Whether the first `length` bytes of `text` are `expected`.
fn starts_with(text: &[u8], length: usize, expected: &[u8]) -> bool {
    if text.len() < length {
        return false;
    }
    check::same(&text[..length], expected)
}

// Whether a sheet's listing is this text.
fn is_listed(sheet: &[u8], expected: &[u8]) -> bool {
    let mut text = [0u8; 131072];
    match listing::list_sheet(sheet, &mut text) {
        Ok(length) => starts_with(&text, length, expected),
        Err(_) => false,
    }
}

// Opens the file of this name, if that can be done.
fn open_named<R: Files>(files: &R, name: &[u8]) -> Option<R::File> {
    let Ok(path) = str::from_utf8(name) else {
        return None;
    };
    match File::open(files, path) {
        Ok(file) => Some(file),
        Err(_) => None,
    }
}

// Whether the listing of an open file, read to one byte past the longest sheet, is the text of another.
fn are_equal<F: Read + Drop>(sheet_file: Option<F>, text_file: Option<F>) -> bool {
    let Some(mut sheet_file) = sheet_file else {
        return false;
    };
    let Some(mut text_file) = text_file else {
        return false;
    };
    let mut sheet = [0u8; 32769];
    let mut expected = [0u8; 131072];
    let Some(read) = standard_input::read_all(&mut sheet_file, &mut sheet) else {
        return false;
    };
    let Some(size) = standard_input::read_all(&mut text_file, &mut expected) else {
        return false;
    };
    is_listed(&sheet[..read], &expected[..size])
}

// Writes a text. A test program that cannot write is found by what it has not written.
fn print(out: &impl Print, text: &[u8]) {
    let _ = out.write_all(text);
}

// Writes a decimal number.
fn print_number(out: &impl Print, n: u64) {
    let _ = out.print(n);
}

// 1 if the listing of a numbered sheet is its text; else 0, and the text is named.
fn check_sheet(rt: &(impl Files + Print), folder: &[u8; 6], number: u64) -> u64 {
    let sheet_path = path_of(folder, number, b"bin");
    let text_path = path_of(folder, number, b"txt");
    let sheet_file = open_named(rt, &sheet_path);
    let text_file = open_named(rt, &text_path);
    let equal = are_equal(sheet_file, text_file);
    if equal {
        return 1;
    }
    print(rt, &text_path);
    print(rt, b" differs\n");
    0
}

// How many sheets of a folder, numbered from 0, have the listing that is their text.
fn count_equal(rt: &(impl Files + Print), folder: &[u8; 6], sheets: u64) -> u64 {
    let mut equal: u64 = 0;
    for number in 0..sheets {
        equal = std::num::wrapping_add_u64(equal, check_sheet(rt, folder, number));
    }
    equal
}

// Checks the sheets of a folder and writes one line that says how many are equal.
fn check_folder(rt: &(impl Files + Print), folder: &[u8; 6], sheets: u64) {
    let equal = count_equal(rt, folder, sheets);
    print(rt, folder);
    print(rt, b": ");
    print_number(rt, equal);
    print(rt, b" of ");
    print_number(rt, sheets);
    print(rt, b" equal\n");
}

fn main(rt: HostRuntime) {
    check_folder(&rt, b"sheets", 82);
    check_folder(&rt, b"flight", 1);
    check_folder(&rt, b"faulty", 2);
}
