// A judgement from one test, and what a word is by its judgement.
#![tactic(auto)]

ghost use Rattle.std.specs.Prelude.{◌≡◌, cond};
ghost use Rattle.bits.specs.Fields.{bits};
ghost use Rattle.decode.specs.Decode.{judged};

use records::{Body, Record};
use refusals::Refusal;

// Kept where the test holds, or broken with this refusal.
pub fn kept_if(test: bool, otherwise: Refusal) -> Result<(), Refusal>
    ensures { result ≡ cond test (Ok tt) (Err otherwise) }
{
    if test { Ok(()) } else { Err(otherwise) }
}

// The source, in bits 9 and 10.
fn source_in(word: u32) -> u8
    ensures { result ≡ bits 9 10 word }
{
    (word / 256 % 4) as u8
}

// The record of this body and the word's source, or the refusal for the rule that the word breaks.
pub fn judged(judgement: Result<(), Refusal>, word: u32, body: Body) -> Result<Record, Refusal>
    ensures { result ≡ judged judgement (record { source = bits 9 10 word; body = body }) }
{
    judgement?;
    Ok(Record {
        source: source_in(word),
        body,
    })
}
