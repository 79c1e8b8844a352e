// What the test programs share: the tally of the right and wrong lines of a file of test vectors, its report, and the reading of the file.
#![tactic(auto)]

ghost use Rattle.std.specs.Prelude.{◌≡◌};
ghost use Rattle.io.specs.Counts.{IsPrefixLen};
ghost use Rattle.test_vectors.specs.Tally.{with_line};

use std::fs::File;
use std::rt::Files;
use std::str;

// How many lines were read and how many are wrong, and which of them is the first, counted from 1.
#[derive(Clone, Copy, PartialEq, Eq, Debug)]
pub struct Tally {
    pub lines: u64,
    pub wrong: u64,
    pub first: u64,
}

// The tally with one line more.
pub fn with_line(tally: Tally, right: bool) -> Tally
    ensures { result ≡ with_line tally right }
{
    let lines = std::num::wrapping_add_u64(tally.lines, 1);
    if right {
        return Tally {
            lines,
            wrong: tally.wrong,
            first: tally.first,
        };
    }
    let wrong = std::num::wrapping_add_u64(tally.wrong, 1);
    if tally.wrong == 0 {
        return Tally {
            lines,
            wrong,
            first: lines,
        };
    }
    Tally {
        lines,
        wrong,
        first: tally.first,
    }
}

// Writes a text. A test program that cannot write is found by what it has not written.
fn print(out: &impl Print, text: &[u8]) {
    let _ = out.write_all(text);
}

// Writes a decimal number.
fn print_number(out: &impl Print, n: u64) {
    let _ = out.print(n);
}

// Writes one line: the file's name and its tally.
pub fn report(out: &impl Print, name: &[u8], tally: Tally) {
    print(out, name);
    print(out, b": ");
    print_number(out, tally.lines);
    print(out, b" lines, ");
    print_number(out, tally.wrong);
    print(out, b" wrong");
    if tally.wrong != 0 {
        print(out, b", first at line ");
        print_number(out, tally.first);
    }
    print(out, b"\n");
}

// Writes why a file is not taken, and gives its length as 0.
fn refused(out: &impl Print, name: &[u8], why: &[u8]) -> usize
    ensures { result ≡ 0 }
{
    print(out, name);
    print(out, why);
    0
}

// Opens a file, or writes to standard error why it cannot be opened. A name that is not UTF-8 is that of no file.
fn open_named<R: Files + Eprint>(rt: &R, name: &[u8]) -> Option<R::File> {
    let Ok(path) = str::from_utf8(name) else {
        return None;
    };
    match File::open(rt, path) {
        Ok(file) => Some(file),
        Err(error) => {
            let _ = eprintln!(rt; "{path}: {error}");
            None
        }
    }
}

// Reads a file into a buffer that is longer and gives its length; or 0, and a line that says why.
pub fn read_file<R: Files + Print + Eprint>(rt: &R, name: &[u8], text: &mut [u8]) -> usize
    ensures { IsPrefixLen result text.new }
{
    let Some(mut file) = open_named(rt, name) else {
        return refused(rt, name, b": cannot be opened\n");
    };
    let n = match standard_input::read_all(&mut file, text) {
        Some(length) => length,
        None => 0,
    };
    if n == 0 {
        return refused(rt, name, b": is empty, or cannot be read\n");
    }
    if n == text.len() {
        return refused(rt, name, b": is too long\n");
    }
    n
}
