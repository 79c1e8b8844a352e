// The answer to a word, straight from its bits: no record is made.
#![tactic(auto)]

ghost use Rattle.std.specs.Prelude.{cond, ◌≡◌, eqb};
ghost use Rattle.pages.specs.Page.{answer_of};
ghost use Rattle.word_rows.specs.Asking.{is_listed, plain_judgement, judgement_by, count_by, clear_answer, known_answer, unknown_answer};

use frequencies::Band;
use pages::Answer;
use refusals::Refusal;
use word_rows::Asked;

// Whether the code at the row's place is one of its codes.
fn is_listed(asked: Asked, word: u32) -> bool
    ensures { result ≡ is_listed asked word }
{
    let code = (word >> (asked.place % 32)) % 8;
    (asked.codes >> code) % 2 == 1
}

// The first number where a flag is 1, else the second. They are worked out before, so that no jump depends on the kind.
fn either_number(flag: u32, first: u32, second: u32) -> u32
    ensures { result ≡ cond (eqb flag 1) first second }
{
    if flag == 1 { first } else { second }
}

fn either_count(flag: u32, first: i16, second: i16) -> i16
    ensures { result ≡ cond (eqb flag 1) first second }
{
    if flag == 1 { first } else { second }
}

// Whether a word that is no frequency keeps the row's rules, or the first that it breaks: its code, its greatest setting, its angle's parity. Each is kept by the words of a kind that has it not.
fn plain_judgement(asked: Asked, word: u32) -> Result<(), Refusal>
    ensures { result ≡ plain_judgement asked word }
{
    if !is_listed(asked, word) {
        return Err(Refusal::Code);
    }
    let setting = word / 524288 % 512;
    if either_number(asked.limited, 359, 511) < setting {
        return Err(Refusal::Value);
    }
    judgements::kept_if(
        bits::is_odd(either_number(asked.angle, setting, 1)),
        Refusal::AngleParity,
    )
}

// Whether a word of the row's kind keeps the kind's rules, or the first that it breaks.
fn judgement_by(asked: Asked, word: u32) -> Result<(), Refusal>
    ensures { result ≡ judgement_by asked word }
{
    let band = asked.band;
    match band {
        1 => frequency_words::frequency_judgement(Band::Vor, word),
        2 => frequency_words::frequency_judgement(Band::Ils, word),
        3 => frequency_words::frequency_judgement(Band::Mls, word),
        _ => plain_judgement(asked, word),
    }
}

// The count of a word of the row's kind, 0 where the kind has none.
fn count_by(asked: Asked, word: u32) -> i16
    ensures { result ≡ count_by asked word }
{
    let long = either_count(asked.long, bits::signed_field::<16>(word), 0);
    either_count(asked.short, bits::signed_field::<13>(word), long)
}

// The answer to a word of the row's kind whose parity is right and whose zero bits are zero.
fn clear_answer(asked: Asked, word: u32) -> Answer
    ensures { result ≡ clear_answer asked word }
{
    match judgement_by(asked, word) {
        Ok(()) => Answer {
            refusal: 0,
            count: count_by(asked, word),
        },
        Err(refusal) => Answer {
            refusal: refusals::number(refusal),
            count: 0,
        },
    }
}

// The answer to a word of the row's kind.
fn known_answer(asked: Asked, word: u32) -> Answer
    ensures { result ≡ known_answer asked word }
{
    if !bits::is_odd(word) {
        return Answer {
            refusal: 1,
            count: 0,
        };
    }
    if word & asked.zeros != 0 {
        return Answer {
            refusal: 3,
            count: 0,
        };
    }
    clear_answer(asked, word)
}

// The answer to a word whose label is unknown: its parity comes first.
fn unknown_answer(word: u32) -> Answer
    ensures { result ≡ unknown_answer word }
{
    if bits::is_odd(word) {
        Answer {
            refusal: 2,
            count: 0,
        }
    } else {
        Answer {
            refusal: 1,
            count: 0,
        }
    }
}

// The answer to a word.
pub fn answer_of(word: u32) -> Answer
    ensures { result ≡ answer_of word }
{
    let asked = word_rows::asked_of(word);
    if asked.byte == word % 256 {
        known_answer(asked, word)
    } else {
        unknown_answer(word)
    }
}
