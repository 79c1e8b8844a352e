// Reads a word typed in hex.
#![tactic(auto)]

ghost use Rattle.std.specs.Prelude.{◌≡◌};
ghost use Rattle.typed_words.specs.Words.{word_of};

// The word that a text of eight hex digits is.
pub fn read_word(text: &[u8]) -> Option<u32>
    ensures { result ≡ word_of text.now }
{
    if text.len() != 8 {
        return None;
    }
    let number = typed_numbers::read_number(text, 16, 0xFFFFFFFF)?;
    Some(number as u32)
}
