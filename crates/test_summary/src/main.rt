// Summarizes the sheet of each line of the test vectors and compares every number of the answer with what its line says: a sheet in hexadecimal
// (`-`: the empty one), a label in octal, a source in decimal, and then `refused`, the number of the refusal and, where it is the sheet's own, its
// offset; or the numbers of the summary, each behind its name and `=`. All between single spaces. In the second file the first line is right, and
// every other one is wrong in one place.
#![tactic(auto)]

use flat_summaries::FlatSummary;
use std::rt::Files;
use test_vectors::Tally;

// Whether a text is this number.
fn is_number(text: &[u8], number: u64) -> bool {
    typed_numbers::read_number(text, 10, 18446744073709551615) == Some(number)
}

// Whether a text is this number, with a minus or none.
fn is_signed(text: &[u8], number: i64) -> bool {
    let Some(read) = test_numbers::read_signed(text) else {
        return false;
    };
    read == number
}

// Whether a text is this count.
fn is_count(text: &[u8], count: i16) -> bool {
    is_signed(text, count as i64)
}

// Whether the first of these parts has this name.
fn is_named(parts: &[u8], name: &[u8]) -> bool {
    check::same(typed_parts::text_before(parts, b'='), name)
}

// What stands behind the name in the first of these parts.
fn value_in(parts: &[u8]) -> &[u8] {
    typed_parts::text_before(typed_parts::text_behind(parts, b'='), b' ')
}

// Whether the first of these parts says this number of words.
fn says_words(parts: &[u8], name: &[u8], number: u64) -> bool {
    is_named(parts, name) & is_number(value_in(parts), number)
}

// Whether the first of these parts says this count of the ready words: `-` where there are none.
fn says_count(parts: &[u8], name: &[u8], ready: u64, count: i16) -> bool {
    let value = value_in(parts);
    if ready == 0 {
        return is_named(parts, name) & check::same(value, b"-");
    }
    is_named(parts, name) & is_count(value, count)
}

// Whether the first of these parts says the mean of the ready words: their sum, `/` and how many they are; `-` where there are none.
fn says_mean(parts: &[u8], ready: u64, sum: i64) -> bool {
    let value = value_in(parts);
    if ready == 0 {
        return is_named(parts, b"mean") & check::same(value, b"-");
    }
    let over = is_number(typed_parts::text_behind(value, b'/'), ready);
    is_named(parts, b"mean") & (is_signed(typed_parts::text_before(value, b'/'), sum) & over)
}

// Whether these parts say the least and the greatest count of the ready words, the sum and the mean.
fn says_counts(least: &[u8], found: FlatSummary) -> bool {
    let ready = found.ready;
    let lowest = found.least;
    let highest = found.greatest;
    let total = found.sum;
    let greatest = typed_parts::text_behind(least, b' ');
    let sum = typed_parts::text_behind(greatest, b' ');
    let mean = typed_parts::text_behind(sum, b' ');
    (says_count(least, b"least", ready, lowest) & says_count(greatest, b"greatest", ready, highest))
        & (is_named(sum, b"sum") & is_signed(value_in(sum), total) & says_mean(mean, ready, total))
}

// Whether these parts say the numbers of a summary.
fn says_summary(ready: &[u8], found: FlatSummary) -> bool {
    let test = typed_parts::text_behind(ready, b' ');
    let nodata = typed_parts::text_behind(test, b' ');
    let failure = typed_parts::text_behind(nodata, b' ');
    let refused = typed_parts::text_behind(failure, b' ');
    let others = typed_parts::text_behind(refused, b' ');
    let words = typed_parts::text_behind(others, b' ');
    says_words(ready, b"ready", found.ready)
        & says_words(test, b"test", found.test)
        & says_words(nodata, b"nodata", found.nodata)
        & says_words(failure, b"failure", found.failure)
        & says_words(refused, b"refused", found.refused)
        & says_words(others, b"others", found.other)
        & says_words(words, b"words", found.words)
        & says_counts(typed_parts::text_behind(words, b' '), found)
}

// Whether these parts say a refusal: that of the label or the source (2, 4) without an offset, and the sheet's own with it.
fn says_refusal(parts: &[u8], refusal: u64, offset: u64) -> bool {
    let numbers = typed_parts::text_behind(parts, b' ');
    let behind = typed_parts::text_behind(numbers, b' ');
    let right = check::same(typed_parts::text_before(parts, b' '), b"refused")
        & is_number(typed_parts::text_before(numbers, b' '), refusal);
    if (refusal == 2) | (refusal == 4) {
        return right & (behind.len() == 0);
    }
    right & is_number(behind, offset)
}

// Whether these parts say what was found.
fn is_right(parts: &[u8], found: FlatSummary) -> bool {
    if found.refusal == 0 {
        return says_summary(parts, found);
    }
    says_refusal(parts, found.refusal as u64, found.offset as u64)
}

// Stores the bytes that a text of hex digits is, and gives their number; or a number that is greater than the room, where it is no such text or
// there is no room for it.
fn read_bytes(text: &[u8], out: &mut [u8]) -> usize {
    if text.len() % 2 != 0 {
        return 18446744073709551615;
    }
    let number = text.len() / 2;
    let mut i = 0;
    while i < number {
        if out.len() <= i {
            return 18446744073709551615;
        }
        let Some(byte) = typed_numbers::read_number(&text[2 * i..2 * i + 2], 16, 255) else {
            return 18446744073709551615;
        };
        out[i] = (byte % 256) as u8;
        i += 1;
    }
    number
}

// The same for a sheet, where `-` is the empty one.
fn read_sheet(text: &[u8], out: &mut [u8]) -> usize {
    if check::same(text, b"-") {
        return 0;
    }
    read_bytes(text, out)
}

// Whether a label and a source are well formed, and what stands behind them is right about the sheet that has this length in a buffer.
fn is_right_about(buffer: &[u8], length: usize, text: &[u8]) -> bool {
    if buffer.len() < length {
        return false;
    }
    let after_label = typed_parts::text_behind(text, b' ');
    let Some(label) = typed_numbers::read_number(
        typed_parts::text_before(text, b' '),
        8,
        4294967295,
    ) else {
        return false;
    };
    let Some(source) = typed_numbers::read_number(
        typed_parts::text_before(after_label, b' '),
        10,
        4294967295,
    ) else {
        return false;
    };
    let found = flat_summaries::summarize_flat(
        &buffer[..length],
        (label % 4294967296) as u32,
        (source % 4294967296) as u32,
    );
    is_right(typed_parts::text_behind(after_label, b' '), found)
}

// Whether a line is well formed and right; its sheet is stored in a buffer.
fn is_right_within(line: &[u8], buffer: &mut [u8]) -> bool {
    let length = read_sheet(typed_parts::text_before(line, b' '), buffer);
    is_right_about(buffer, length, typed_parts::text_behind(line, b' '))
}

// The same with a buffer of one byte more than the longest sheet has.
fn is_line_right(line: &[u8]) -> bool {
    let mut buffer = [0u8; 32769];
    is_right_within(line, &mut buffer)
}

// The tally of a text's lines.
fn tally_of(text: &[u8]) -> Tally {
    let mut tally = Tally {
        lines: 0,
        wrong: 0,
        first: 0,
    };
    let mut start = 0;
    while start < text.len() {
        let line = typed_parts::text_before(&text[start..], b'\n');
        tally = test_vectors::with_line(tally, is_line_right(line));
        start = text.len() - typed_parts::text_behind(&text[start..], b'\n').len();
    }
    tally
}

// Checks the lines of a file.
fn check_file(rt: &(impl Files + Print + Eprint), name: &[u8]) {
    let mut text = [0u8; 131072];
    let length = test_vectors::read_file(rt, name, &mut text);
    test_vectors::report(rt, name, tally_of(&text[..length]));
}

fn main(rt: HostRuntime) {
    check_file(&rt, b"summary.txt");
    check_file(&rt, b"summary_wrong.txt");
}
