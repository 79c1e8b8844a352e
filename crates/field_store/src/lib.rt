// Storing a tag, a length and a content at a place of a buffer, where they fit.
#![tactic(auto)]

ghost use Rattle.std.specs.Prelude.{◌≡◌, ◌++◌, ◌+◌, ◌≤◌, ◌<◌, length, take, drop};
ghost use Rattle.std.proofs.Math.Seq.{paste};
ghost use Rattle.fields.specs.Start.{tagged};
ghost use Rattle.writer.specs.Write.{answer_of, put};

use refusals::Refusal;

// The most bytes a sheet may have.
const SHEET_LIMIT: usize = 32768;

// Whether a content of this length can stand at a place of a buffer of `room` bytes.
pub fn end_of(room: usize, place: usize, length: usize) -> Result<usize, (Refusal, usize)>
    ensures { result ≡ answer_of room place length }
{
    if SHEET_LIMIT < place {
        return Err((Refusal::Oversize, 0));
    }
    if SHEET_LIMIT < length {
        return Err((Refusal::Oversize, 0));
    }
    let end = place + 3 + length;
    if SHEET_LIMIT < end {
        return Err((Refusal::Oversize, 0));
    }
    if room < end {
        return Err((Refusal::Room, 0));
    }
    Ok(end)
}

// Copies the content into the buffer from a place on: byte by byte, since `copy_from_slice` wants `memmove` of a C library.
fn copy_to(out: &mut [u8], at: usize, content: &[u8])
    requires { at + length content.now ≤ length out.old }
    ensures { out.new ≡ paste out.old at content.now (length content.now) }
{
    for (i, &byte) in content.iter().enumerate() {
        out[at + i] = byte;
    }
}

// Stores a tag, a length, high byte first, and the content.
fn store(out: &mut [u8], place: usize, tag: u8, content: &[u8])
    requires { (place + 3 + length content.now ≤ length out.old) × (length content.now < 0x10000) }
    ensures { out.new ≡ take place out.old ++ tagged tag content.now ++ drop (place + 3 + length content.now) out.old }
{
    let length = content.len();
    out[place] = tag;
    out[place + 1] = (length / 256) as u8;
    out[place + 2] = (length % 256) as u8;
    copy_to(out, place + 3, content);
}

// Stores a tag, a length and the content, where they fit.
pub fn put_field(
    out: &mut [u8],
    place: usize,
    tag: u8,
    content: &[u8],
) -> Result<usize, (Refusal, usize)>
    ensures value { result ≡ (put out.old place tag content.now).answer }
    ensures out_after { out.new ≡ (put out.old place tag content.now).buffer }
{
    let end = end_of(out.len(), place, content.len())?;
    store(out, place, tag, content);
    Ok(end)
}
