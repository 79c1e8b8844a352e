// The bytes of a word and of a figure, as the content of a field.
#![tactic(auto)]

ghost use Rattle.std.specs.Prelude.{◌≡◌};
ghost use Rattle.bits.specs.Complement.{complement};
ghost use Rattle.contents.specs.Contents.{word_bytes, figure_bytes};

// The 64 binary digits of a signed number, in two's complement.
fn complement_64(number: i64) -> u64
    ensures { result ≡ complement 64 number }
{
    if number < 0 {
        0xFFFFFFFFFFFFFFFF - (!number) as u64
    } else {
        number as u64
    }
}

// The content of a word field: the word's 4 bytes.
pub fn word_bytes(word: u32) -> [u8; 4]
    ensures { result ≡ word_bytes word }
{
    [
        (word / 0x1000000 % 256) as u8,
        (word / 0x10000 % 256) as u8,
        (word / 256 % 256) as u8,
        (word % 256) as u8,
    ]
}

// The content of a figure field: the label, then the 8 bytes of the millionths.
pub fn figure_bytes(label: u8, millionths: i64) -> [u8; 9]
    ensures { result ≡ figure_bytes label millionths }
{
    let digits = complement_64(millionths);
    [
        label,
        (digits / 0x100000000000000 % 256) as u8,
        (digits / 0x1000000000000 % 256) as u8,
        (digits / 0x10000000000 % 256) as u8,
        (digits / 0x100000000 % 256) as u8,
        (digits / 0x1000000 % 256) as u8,
        (digits / 0x10000 % 256) as u8,
        (digits / 256 % 256) as u8,
        (digits % 256) as u8,
    ]
}
