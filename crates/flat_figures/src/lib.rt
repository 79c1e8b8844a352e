// Figures coded and counts printed, as numbers for other languages.
#![tactic(auto)]

ghost use Rattle.std.specs.Prelude.{◌≡◌};
ghost use Rattle.encode.specs.Encode.{narrow, wide};
ghost use Rattle.figures.specs.Coding.{coded_of};
ghost use Rattle.flat_words.specs.Words.{flat_word};
ghost use Rattle.flat_figures.specs.Printing.{holds, refused, printed, printed_of};

use flat_words::FlatWord;
use quantities::Quantity;

// A figure in millionths, or its refusal's number beside the figure 0.
#[repr(C)]
#[derive(Clone, Copy)]
pub struct FlatMillionths {
    pub refusal: u8,
    pub millionths: i64,
}

// The word that a figure in millionths is coded to, under a label and a source, or its refusal's number.
pub fn code_flat(label: u32, source: u32, millionths: i64) -> FlatWord
    ensures { result ≡ flat_word (coded_of label source millionths) }
{
    flat_words::flat_word(coder::code_figure(label as u64, source as u64, millionths))
}

// Whether a count has 13 bits.
fn is_narrow(count: i64) -> bool
    ensures { result ≡ narrow count }
{
    (-4096 <= count) & (count <= 4095)
}

// Whether a count has 16 bits.
fn is_wide(count: i64) -> bool
    ensures { result ≡ wide count }
{
    (-32768 <= count) & (count <= 32767)
}

// Whether the bits of a quantity hold a count.
fn is_held(quantity: Quantity, count: i64) -> bool
    ensures { result ≡ holds quantity count }
{
    match quantity {
        Quantity::Azimuth => is_narrow(count),
        Quantity::Course => is_narrow(count),
        Quantity::Glide => is_narrow(count),
        Quantity::MlsAzimuth => is_wide(count),
        Quantity::MlsGlide => is_wide(count),
    }
}

// The number of a refusal, with no figure.
fn refused(refusal: u8) -> FlatMillionths
    ensures { result ≡ refused refusal }
{
    FlatMillionths {
        refusal: refusal,
        millionths: 0,
    }
}

// The figure of a count of a quantity, or 6.
fn printed(quantity: Quantity, count: i64) -> FlatMillionths
    ensures { result ≡ printed quantity count }
{
    if !is_held(quantity, count) {
        return refused(6);
    }
    FlatMillionths {
        refusal: 0,
        millionths: quantities::millionths(quantity, count as i16),
    }
}

// The figure in millionths of a count, under a label: 2 where the label has no measured quantity, 6 where its bits do not hold the count.
pub fn print_count_flat(label: u32, count: i64) -> FlatMillionths
    ensures { result ≡ printed_of label count }
{
    match coder::find_quantity(label as u64) {
        Some(quantity) => printed(quantity, count),
        None => refused(2),
    }
}
