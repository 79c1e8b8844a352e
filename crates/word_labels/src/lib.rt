// The label of a word, bit by bit.
#![tactic(auto)]

ghost use Rattle.std.specs.Prelude.{◌≡◌, ◌-◌, ◌^◌, ◌≤◌};
ghost use Rattle.labels.specs.Label.{bit, label_of};

// Bit k of a word, in which it weighs 2^(k-1).
fn bit(word: u32, k: u32) -> u32
    requires { (1 ≤ k) × (k ≤ 8) }
    ensures { result ≡ bit k word }
{
    (word >> (k - 1)) % 2
}

// What bit k of a word weighs in its label: 2^(8-k).
fn weight(k: u32) -> u32
    requires { (1 ≤ k) × (k ≤ 8) }
    ensures { result ≡ 2 ^ (8 - k) }
{
    1 << (8 - k)
}

// The label of a word: for k from 1 to 8 bit k is taken, weighed and added, so that bit 1 is the label's highest binary digit. Of a label it gives the byte that a word has in bits 1 to 8.
pub fn label_of(word: u32) -> u32
    ensures { result ≡ label_of word }
{
    let mut label = 0;
    for k in 1..=8 {
        label += bit(word, k) * weight(k);
    }
    label
}
