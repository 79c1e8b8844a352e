// Reads a typed line of a word and a figure.
#![tactic(auto)]

ghost use Rattle.std.specs.Prelude.{◌≡◌};
ghost use Rattle.typed_pairs.specs.Pairs.{pair_of, pair_in, line_of};

use typed_pairs::TypedLine;

// The pair of a word and a figure that are both read, with nothing behind them.
fn pair_of(word: Option<u32>, figure: Option<i64>, rest: &[u8]) -> TypedLine
    ensures { result ≡ pair_of word figure rest.now }
{
    let Some(bits) = word else {
        return TypedLine::Unread;
    };
    let Some(millionths) = figure else {
        return TypedLine::Unread;
    };
    if rest.len() == 0 {
        return TypedLine::Pair(bits, millionths);
    }
    TypedLine::Unread
}

// What the two parts of a text are, and nothing but blanks behind them.
fn read_pair(text: &[u8]) -> TypedLine
    ensures { result ≡ pair_in text.now }
{
    let start = line_parts::skip_blanks(text);
    let word = word_reader::read_word(line_parts::first_part(start));
    let behind = line_parts::skip_blanks(line_parts::behind_part(start));
    let figure = figure_reader::read_figure(line_parts::first_part(behind));
    let rest = line_parts::skip_blanks(line_parts::behind_part(behind));
    pair_of(word, figure, rest)
}

// What a line is, without its line break. One carriage return at its end is not part of it.
pub fn read_line(line: &[u8]) -> TypedLine
    ensures { result ≡ line_of line.now }
{
    let content = line_parts::without_return(line);
    if content.len() == 0 {
        return TypedLine::Passed;
    }
    if content[0] == b'#' {
        return TypedLine::Passed;
    }
    if 200 < content.len() {
        return TypedLine::Unread;
    }
    read_pair(content)
}
