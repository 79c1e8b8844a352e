// The kind that a word's label stands for, found at once.
#![tactic(auto)]

ghost use Rattle.std.specs.Prelude.{◌≡◌, ◌%◌};
ghost use Rattle.labels.specs.Label.{label_of};
ghost use Rattle.labels.specs.Table.{rows, find_kind};
ghost use Rattle.word_kinds.specs.HashLemmas.{candidate_of};

use records::Kind;

// A kind and its label.
#[derive(Clone, Copy, PartialEq, Eq, Debug)]
struct KindLabel(Kind, u32);

// The only kind that a word can be of, by a hash of its lowest byte that no two labels share.
fn candidate(word: u32) -> KindLabel
    ensures { result ≡ candidate_of (word % 256) }
{
    match word % 256 * 23 / 64 % 16 {
        0 => KindLabel(Kind::Part2, 0o141),
        1 => KindLabel(Kind::SelectedGlideAngle, 0o155),
        2 => KindLabel(Kind::Part1, 0o140),
        3 => KindLabel(Kind::GreatestGlideAngle, 0o154),
        4 => KindLabel(Kind::VorFrequency, 0o034),
        5 => KindLabel(Kind::MlsAzimuthDeviation, 0o151),
        6 => KindLabel(Kind::IlsGlide, 0o174),
        7 => KindLabel(Kind::Part4, 0o143),
        8 => KindLabel(Kind::Part4, 0o143),
        9 => KindLabel(Kind::Part3, 0o142),
        10 => KindLabel(Kind::VorAzimuth, 0o222),
        11 => KindLabel(Kind::MlsFrequency, 0o036),
        12 => KindLabel(Kind::SelectedAzimuth, 0o153),
        13 => KindLabel(Kind::IlsFrequency, 0o033),
        14 => KindLabel(Kind::MlsGlideDeviation, 0o152),
        _ => KindLabel(Kind::IlsCourse, 0o173),
    }
}

// The kind that a word's label stands for: that of its candidate, where it has the candidate's label.
pub fn kind_in(word: u32) -> Option<Kind>
    ensures { result ≡ find_kind rows (label_of word) }
{
    let found = candidate(word);
    if found.1 == word_labels::label_of(word) {
        let kind = found.0;
        Some(kind)
    } else {
        None
    }
}
