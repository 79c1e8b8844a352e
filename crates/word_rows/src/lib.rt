// What the words of each kind are asked, as numbers, found at once by the lowest byte of a word.
#![tactic(auto)]

ghost use Rattle.std.specs.Prelude.{◌≡◌, ◌%◌};
ghost use Rattle.word_rows.specs.Rows.{candidate, packed, unpacked, asked};

// What the words of a kind are asked.
#[derive(Clone, Copy, PartialEq, Eq, Debug)]
pub struct Asked {
    // bits 1 to 8
    pub byte: u32,
    // the codes that are listed, bit c for code c, and the place of the code's three bits
    pub codes: u32,
    pub place: u32,
    // a frequency of VOR 1, ILS 2 or MLS 3, or none 0
    pub band: u32,
    // 1 where the kind has it: a count in bits 17 to 29, one in bits 14 to 29, a setting of at most 359, a setting with its parity
    pub short: u32,
    pub long: u32,
    pub limited: u32,
    pub angle: u32,
    // ones where its zero bits are
    pub zeros: u32,
}

// The row of the only kind that a word can be of, packed: the zero bits in the upper half, then a digit of flags, the band, and two digits each for the place, the codes and the byte. The arms are in the order of `hashed`.
fn packed_in(word: u32) -> u64
    ensures { result ≡ packed (candidate (word % 256)) }
{
    match word % 256 * 23 / 64 % 16 {
        0 => 0x00001c00001d2286,
        1 => 0x1003fc000000ffb6,
        2 => 0x00001c00001d1106,
        3 => 0x1007fc008000ff36,
        4 => 0x00003c000100ff38,
        5 => 0x000010002000ff96,
        6 => 0x0000f8001000ff3e,
        7 => 0x00001800001d88c6,
        8 => 0x00001800001d88c6,
        9 => 0x00001c00001d4446,
        10 => 0x0000e000100a1749,
        11 => 0x00003c000300ff78,
        12 => 0x1003fc004000ffd6,
        13 => 0x000030000200ffd8,
        14 => 0x000010002000ff56,
        _ => 0x0000f8001000ffde,
    }
}

// The fields of a packed row.
fn unpacked(row: u64) -> Asked
    ensures { result ≡ unpacked row }
{
    Asked {
        byte: (row % 0x100) as u32,
        codes: (row / 0x100 % 0x100) as u32,
        place: (row / 0x10000 % 0x20) as u32,
        band: (row / 0x1000000 % 4) as u32,
        short: (row / 0x10000000 % 2) as u32,
        long: (row / 0x20000000 % 2) as u32,
        limited: (row / 0x40000000 % 2) as u32,
        angle: (row / 0x80000000 % 2) as u32,
        zeros: (row / 0x100000000) as u32,
    }
}

// What the words of the only kind that a word can be of are asked.
pub fn asked_of(word: u32) -> Asked
    ensures { result ≡ asked (candidate (word % 256)) }
{
    unpacked(packed_in(word))
}
