// The parts of a typed line, found.
#![tactic(auto)]

ghost use Rattle.std.specs.Prelude.{◌≡◌, length};
ghost use Rattle.typed_lines.specs.Lines.{in_run, run_of, skip_blanks, first_part, behind_part, without_return};

// Whether a byte belongs to a run of blanks, or of other bytes. A tab is a blank too.
fn in_run(byte: u8, blanks: bool) -> bool
    ensures { result ≡ in_run blanks byte }
{
    let blank = (byte == 32) | (byte == 9);
    if blanks {
        return blank;
    }
    !blank
}

// How many bytes at the start are blanks, or other bytes.
fn run_length(text: &[u8], blanks: bool) -> usize
    ensures { result ≡ length (run_of blanks text.now) }
{
    text.iter().take_while(|&&b| in_run(b, blanks)).count()
}

// A text without the blanks at its start.
pub fn skip_blanks(text: &[u8]) -> &[u8]
    ensures { result.now ≡ skip_blanks text.now }
{
    let blanks = run_length(text, true);
    &text[blanks..]
}

// What stands before the first blank: the whole text where there is none.
pub fn first_part(text: &[u8]) -> &[u8]
    ensures { result.now ≡ first_part text.now }
{
    let end = run_length(text, false);
    &text[..end]
}

// A text from its first blank on: nothing where there is none.
pub fn behind_part(text: &[u8]) -> &[u8]
    ensures { result.now ≡ behind_part text.now }
{
    let start = run_length(text, false);
    &text[start..]
}

// A line without one carriage return at its end.
pub fn without_return(line: &[u8]) -> &[u8]
    ensures { result.now ≡ without_return line.now }
{
    match line.split_last() {
        Some((&last, rest)) if last == b'\r' => rest,
        _ => line,
    }
}
