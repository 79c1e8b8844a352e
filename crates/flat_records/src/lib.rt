// A record as numbers, for other languages: the definitions and their laws stand in specs/.
#![tactic(auto)]

// A record as numbers. Zero stands in every field that the kind has not, and beside a refusal in every other field.
#[repr(C)]
#[derive(Clone, Copy)]
pub struct FlatRecord {
    // document 01's number, or 0 where the word is accepted
    pub refusal: u8,
    // 1 to 15, in the order of document 01's table
    pub kind: u8,
    pub source: u8,
    // 1 failure, 2 nodata, 3 test, 4 ready; 0 in the parts of group C
    pub status: u8,
    // 0 none, 1 outer, 2 middle, 4 inner
    pub marker: u8,
    // 0 not stated, 1 I, 2 II, 3 III
    pub category: u8,
    pub inhibit: u8,
    pub clearance: u8,
    pub manual: u8,
    pub parity_good: u8,
    pub word_number: u8,
    pub count: i16,
    // a frequency in tens of kHz, degrees, tenths of a degree, or a part's content
    pub value: u32,
}
