// The parts of a typed text: what stands before and behind a byte, as a line break or a blank.
#![tactic(auto)]

ghost use Rattle.std.specs.Prelude.{◌≡◌, ◌==◌, position};
ghost use Rattle.typed_texts.specs.Texts.{text_before, text_behind, starts_with};

// The place of the first `byte`, if there is one.
fn find(text: &[u8], byte: u8) -> Option<usize>
    ensures { result ≡ position (λ b. b == byte) text.now }
{
    text.iter().position(|&b| b == byte)
}

// What stands before the first `byte`: the whole text where it has none.
pub fn text_before(text: &[u8], byte: u8) -> &[u8]
    ensures { result.now ≡ text_before byte text.now }
{
    match find(text, byte) {
        Some(end) => &text[..end],
        None => text,
    }
}

// What stands behind the first `byte`: nothing where the text has none.
pub fn text_behind(text: &[u8], byte: u8) -> &[u8]
    ensures { result.now ≡ text_behind byte text.now }
{
    match find(text, byte) {
        Some(end) => &text[end + 1..],
        None => &[],
    }
}

// Whether a text starts with this byte.
pub fn starts_with(text: &[u8], byte: u8) -> bool
    ensures { result ≡ starts_with byte text.now }
{
    text.first() == Some(&byte)
}
