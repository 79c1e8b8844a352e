// Lists the fifteen labels, or with --all the labels of all bytes, to standard output: each in octal, in bits 1 to 8 of the word, and as the byte.
#![tactic(auto)]

ghost use Rattle.std.specs.Prelude.{◌≡◌, take};
ghost use Rattle.io.specs.Counts.{IsPrefixLen};
ghost use Rattle.label_texts.specs.LabelTexts.{labels_text};

use std::rt::Env;

// Puts the lines into a buffer that has room for all of them, and gives their length.
fn list_whole(all: bool, text: &mut [u8; 4096]) -> usize
    ensures prefix_len { IsPrefixLen result text.new }
    ensures text_after { take result text.new ≡ labels_text all }
{
    label_lines::put_labels(text, 0, all)
}

// Whether the first argument is --all.
fn wants_all(rt: &impl Env) -> bool {
    let mut text = [0u8; 4096];
    let length = standard_streams::argument(rt, 1, &mut text).unwrap_or(0);
    check::same(&text[..length], b"--all")
}

fn main(rt: HostRuntime) {
    let err = rt.stderr();
    let name = b"lampcygnet-labels";
    let one = standard_streams::argument(&rt, 1, &mut []).is_some();
    let more = standard_streams::argument(&rt, 2, &mut []).is_some();
    let all = wants_all(&rt);
    if !one | (all & !more) {
        let mut text = [0u8; 4096];
        let length = list_whole(all, &mut text);
        standard_streams::write_text(&rt, &err, name, &text[..length]);
        return;
    }
    standard_streams::say(&err, name, b"wanted: no argument, or --all\n");
}
