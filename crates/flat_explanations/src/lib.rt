// Why a figure and a word agree or do not, as numbers for other languages.
#![tactic(auto)]

ghost use Rattle.std.specs.Prelude.{◌≡◌};
ghost use Rattle.explanations.specs.Explanations.{explained_of};
ghost use Rattle.flat_explanations.specs.Explained.{flat_explained};

use reasons::Reason;
use refusals::Refusal;

// The number of a reason, or its refusal's number beside 0.
#[repr(C)]
#[derive(Clone, Copy)]
pub struct FlatExplained {
    pub refusal: u8,
    pub reason: u8,
}

// The numbers of an answer.
fn flat_explained(explained: Result<Reason, Refusal>) -> FlatExplained
    ensures { result ≡ flat_explained explained }
{
    match explained {
        Ok(reason) => FlatExplained {
            refusal: 0,
            reason: reason_numbers::number(reason),
        },
        Err(refusal) => FlatExplained {
            refusal: refusals::number(refusal),
            reason: 0,
        },
    }
}

// The number of the reason why a figure in millionths and a word agree or do not, or of its refusal.
pub fn explain_flat(word: u32, millionths: i64) -> FlatExplained
    ensures { result ≡ flat_explained (explained_of word millionths) }
{
    flat_explained(explainer::explain(word, millionths))
}
