// Reads a figure as a person typed it.
#![tactic(auto)]

ghost use Rattle.std.specs.Prelude.{◌≡◌, ◌-◌, ◌^◌};
ghost use Rattle.typed_figures.specs.Figures.{behind_sign, separator_of, parts_read, figure_of};
ghost use Rattle.figure_reader.specs.Digits.{digits_of};

// A figure's text without its sign.
fn behind_sign(text: &[u8]) -> &[u8]
    ensures { result.now ≡ behind_sign text.now }
{
    if typed_parts::starts_with(text, b'-') | typed_parts::starts_with(text, b'+') {
        return &text[1..];
    }
    text
}

// The byte that parts the whole digits and the decimals.
fn separator_of(text: &[u8]) -> u8
    ensures { result ≡ separator_of text.now }
{
    let before = typed_parts::text_before(text, b'.');
    if before.len() < text.len() {
        return b'.';
    }
    b','
}

// The number of a text of digits, if it is no greater than `most`: 0 where there are none.
fn digits_of(text: &[u8], most: u64) -> Option<u64>
    ensures { result ≡ digits_of most text.now }
{
    if text.len() == 0 {
        return Some(0);
    }
    typed_numbers::read_number(text, 10, most)
}

// The millionths that the last of these decimals weighs.
fn last_weight(decimals: usize) -> u64
    ensures { result ≡ 10 ^ (6 - decimals) }
{
    match decimals {
        0 => 1000000,
        1 => 100000,
        2 => 10000,
        3 => 1000,
        4 => 100,
        5 => 10,
        _ => 1,
    }
}

// What is read of the sign, the whole digits and the decimals.
fn read_parts(negative: bool, whole: &[u8], decimals: &[u8]) -> Option<i64>
    ensures { result ≡ parts_read negative whole.now decimals.now }
{
    if (6 < decimals.len()) | ((whole.len() == 0) & (decimals.len() == 0)) {
        return None;
    }
    let units = digits_of(whole, 9223372036854)?;
    let rest = digits_of(decimals, 999999)?;
    let size = units * 1000000 + rest * last_weight(decimals.len());
    signed_numbers::with_sign(negative, size)
}

// What a typed figure means in millionths of its unit.
pub fn read_figure(text: &[u8]) -> Option<i64>
    ensures { result ≡ figure_of text.now }
{
    let negative = typed_parts::starts_with(text, b'-');
    let body = behind_sign(text);
    let separator = separator_of(body);
    let whole = typed_parts::text_before(body, separator);
    let decimals = typed_parts::text_behind(body, separator);
    read_parts(negative, whole, decimals)
}
