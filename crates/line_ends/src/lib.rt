// Where the whole lines of a text end.
#![tactic(auto)]

ghost use Rattle.std.specs.Prelude.{◌≡◌, length};
ghost use Rattle.text_lines.specs.Lines.{whole_lines};

// How many bytes of a text there are up to its last line feed.
pub fn whole_lines(text: &[u8]) -> usize
    ensures { result ≡ length (whole_lines text.now) }
{
    match text.iter().rposition(|&b| b == b'\n') {
        Some(last) => last + 1,
        None => 0,
    }
}
