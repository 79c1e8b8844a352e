// Text into a buffer, in the manner of C's `snprintf`: what fits is stored from a place on, and the next place is told whatever fits.
// A place that would pass the largest number stays there.
#![tactic(auto)]

ghost use Rattle.std.specs.Prelude.{[], ◌∷◌};
ghost use Rattle.text.specs.Writing.{Writes};

// A byte.
pub fn put_byte(out: &mut [u8], at: usize, byte: u8) -> usize
    ensures { Writes out.old at (byte ∷ []) out.new result }
{
    if at < out.len() {
        out[at] = byte;
        return at + 1;
    }
    at.saturating_add(1)
}

// A text of bytes.
pub fn put_text(out: &mut [u8], at: usize, text: &[u8]) -> usize
    ensures { Writes out.old at text.now out.new result }
{
    let mut next = at;
    for &byte in text {
        next = put_byte(out, next, byte);
    }
    next
}
