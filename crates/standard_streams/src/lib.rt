// The standard streams of a program that takes no argument: a sheet on standard input, the text, and what the program says.
#![tactic(auto)]

ghost use Rattle.std.specs.Prelude.{IfSome};
ghost use Rattle.io.specs.Counts.{IsPrefixLen};

use std::env::FillError;
use std::io;
use std::rt::Env;

// Puts the argument at this place into a buffer and gives its length: 0 where it is longer, and none where there is no such argument. The program's name is at 0.
pub fn argument(rt: &impl Env, place: usize, text: &mut [u8]) -> Option<usize>
    ensures { IfSome result (λ n. IsPrefixLen n text.new) }
{
    match rt.arg(place, text) {
        Ok(length) => Some(length),
        Err(FillError::TooLong) => Some(0),
        Err(FillError::NotPresent) => None,
    }
}

// Says a text on standard error, behind the program's name and a colon. Where it cannot be said, there is nobody to be told.
pub fn say(err: &impl Print, name: &[u8], text: &[u8]) {
    let _ = err.write_all(name);
    let _ = err.write_all(b": ");
    let _ = err.write_all(text);
}

// Says that the program takes no argument, and how it is used: with this on its standard input.
pub fn say_usage(err: &impl Print, name: &[u8], input: &[u8]) {
    say(err, name, b"no argument is taken\nusage: ");
    let _ = err.write_all(name);
    let _ = err.write_all(b" < ");
    let _ = err.write_all(input);
    let _ = err.write_all(b"\n");
}

// Says that standard input cannot be read.
pub fn say_unread(err: &impl Print, name: &[u8]) {
    say(err, name, b"standard input cannot be read\n");
}

// Reads the sheet of a program that takes no argument and gives its length, or says why there is none. It is read to one byte past the longest sheet, so that a longer one is refused as such.
pub fn read_sheet<R: Env + io::Input>(
    rt: &R,
    err: &impl Print,
    name: &[u8],
    sheet: &mut [u8; 32769],
) -> Option<usize>
    ensures { IfSome result (λ n. IsPrefixLen n sheet.new) }
{
    if argument(rt, 1, &mut []).is_some() {
        say_usage(err, name, b"SHEET");
        return None;
    }
    let read = standard_input::read_all(&mut rt.reader(), sheet);
    if read.is_none() {
        say_unread(err, name);
    }
    read
}

// Says that standard output cannot be written.
pub fn say_unwritten(err: &impl Print, name: &[u8]) {
    say(err, name, b"standard output cannot be written\n");
}

// Writes a text to standard output, or says that it cannot be written.
pub fn write_text(out: &impl Print, err: &impl Print, name: &[u8], text: &[u8]) {
    if out.write_all(text).is_err() {
        say_unwritten(err, name);
    }
}
