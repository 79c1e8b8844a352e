// The word of a record's numbers.
#![tactic(auto)]

ghost use Rattle.std.specs.Prelude.{◌≡◌};
ghost use Rattle.flat_words.specs.Words.{flat_word, encode_flat};

use flat_records::FlatRecord;
use refusals::Refusal;

// A word, or its refusal's number beside the word 0.
#[repr(C)]
#[derive(Clone, Copy)]
pub struct FlatWord {
    pub refusal: u8,
    pub word: u32,
}

// The numbers of a word or a refusal.
pub fn flat_word(encoded: Result<u32, Refusal>) -> FlatWord
    ensures { result ≡ flat_word encoded }
{
    match encoded {
        Ok(word) => FlatWord {
            refusal: 0,
            word: word,
        },
        Err(refusal) => FlatWord {
            refusal: refusals::number(refusal),
            word: 0,
        },
    }
}

// The word of a record's numbers, or the number of its refusal.
pub fn encode_flat(f: FlatRecord) -> FlatWord
    ensures { result ≡ encode_flat f }
{
    flat_word(flat_fields::record_from(f).and_then(encoder::encode))
}
