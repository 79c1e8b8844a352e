// Standard input, read to its end or piece by piece into a buffer. A read that fails is not taken for the end.
#![tactic(auto)]

ghost use Rattle.std.specs.Prelude.{length};
ghost use Rattle.standard_input.specs.Input.{Holds, Adds, Takes, TakesOnce};

use std::io::{ErrorKind, Read};

// What one read gives.
#[derive(Clone, Copy, PartialEq, Eq, Debug)]
pub enum Chunk {
    // As many bytes.
    Bytes(usize),
    // The input's end.
    End,
    // A signal came before the first byte.
    Interrupted,
    // The read failed.
    Failed,
}

// One read into a buffer. Without room there is the input's end.
pub fn read_chunk<R: Read>(input: &mut R, buffer: &mut [u8]) -> Chunk
    ensures adds { Adds result (length buffer.old) }
    ensures bytes { TakesOnce result (R.remaining input.old) (R.remaining input.new) buffer.new }
{
    match input.read(buffer) {
        Ok(count) => {
            if count == 0 {
                return Chunk::End;
            }
            Chunk::Bytes(count)
        }
        Err(error) => {
            if error.kind() == ErrorKind::Interrupted {
                return Chunk::Interrupted;
            }
            Chunk::Failed
        }
    }
}

// Reads standard input until it ends or the buffer is full. A read that a signal interrupts is tried again, 65,536 times in all.
pub fn read_all<R: Read>(input: &mut R, buffer: &mut [u8]) -> Option<usize>
    ensures holds { Holds result buffer.new }
    ensures bytes { Takes result (R.remaining input.old) (R.remaining input.new) buffer.new }
{
    let mut done = 0;
    let mut tries: u32 = 65536;
    while done < buffer.len() {
        match read_chunk(input, &mut buffer[done..]) {
            Chunk::Bytes(count) => {
                done += count;
            }
            Chunk::End => {
                return Some(done);
            }
            Chunk::Interrupted => {
                tries = tries.checked_sub(1)?;
            }
            Chunk::Failed => {
                return None;
            }
        }
    }
    Some(done)
}
