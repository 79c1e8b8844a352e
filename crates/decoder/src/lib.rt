// A word to its record, or to its refusal.
#![tactic(auto)]

ghost use Rattle.std.specs.Prelude.{◌≡◌};
ghost use Rattle.decode.specs.Decode.{decode_kind, decode_found, decode_as, decode_of};

use records::{Kind, Record};
use refusals::Refusal;

// A word of a known kind.
fn decode_kind(kind: Kind, word: u32) -> Result<Record, Refusal>
    ensures { result ≡ decode_kind kind word }
{
    let row = label_table::row_of(kind);
    let zeros = row.zeros;
    if word & zeros != 0 {
        return Err(Refusal::ZeroBit);
    }
    clear_words::decode_clear(kind, word)
}

// A word whose label was looked up and whose parity is right.
fn decode_found(lookup: Option<Kind>, word: u32) -> Result<Record, Refusal>
    ensures { result ≡ decode_found lookup word }
{
    decode_kind(lookup.ok_or(Refusal::Label)?, word)
}

// The record of a word whose label was looked up, or its refusal.
pub fn decode_as(lookup: Option<Kind>, word: u32) -> Result<Record, Refusal>
    ensures { result ≡ decode_as lookup word }
{
    if !bits::is_odd(word) {
        return Err(Refusal::Parity);
    }
    decode_found(lookup, word)
}

// The record of a word, or its refusal. Its label is looked up where its parity is right.
pub fn decode(word: u32) -> Result<Record, Refusal>
    ensures { result ≡ decode_of word }
{
    if !bits::is_odd(word) {
        return Err(Refusal::Parity);
    }
    decode_found(word_kinds::kind_in(word), word)
}
