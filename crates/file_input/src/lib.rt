// A file that is named, read to its end or as far as a buffer holds it. A read that fails is not taken for the end.
#![tactic(auto)]

ghost use Rattle.standard_input.specs.Input.{Holds, Takes};
ghost use Rattle.file_input.specs.Once.{TakesOnce};

use std::fs::File;
use std::io::Read;
use std::rt::Files;
use std::str;

// One read of an open file.
fn read_once<R: Read>(file: &mut R, buffer: &mut [u8]) -> Option<usize>
    ensures holds { Holds result buffer.new }
    ensures bytes { TakesOnce result (R.remaining file.old) (R.remaining file.new) buffer.new }
{
    file.read(buffer).ok()
}

// Reads an open file until it ends or the buffer is full.
fn read_open<R: Read>(file: &mut R, buffer: &mut [u8]) -> Option<usize>
    ensures holds { Holds result buffer.new }
    ensures bytes { Takes result (R.remaining file.old) (R.remaining file.new) buffer.new }
{
    let mut done = 0;
    while done < buffer.len() {
        let count = read_once(file, &mut buffer[done..])?;
        if count == 0 {
            return Some(done);
        }
        done += count;
    }
    Some(done)
}

// Reads the file of this name until it ends or the buffer is full. A name that is not UTF-8 is that of no file.
pub fn read_file(files: &impl Files, name: &[u8], buffer: &mut [u8]) -> Option<usize>
    ensures { Holds result buffer.new }
{
    let path = str::from_utf8(name).ok()?;
    let mut file = File::open(files, path).ok()?;
    read_open(&mut file, buffer)
}
