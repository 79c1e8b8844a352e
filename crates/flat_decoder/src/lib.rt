// The numbers of a word's record.
#![tactic(auto)]

ghost use Rattle.std.specs.Prelude.{◌≡◌};
ghost use Rattle.decode.specs.Decode.{decode_of};
ghost use Rattle.flat_records.specs.Numbers.{flat_of};

use flat_records::FlatRecord;

// The numbers of a word's record, or of its refusal.
pub fn decode_flat(word: u32) -> FlatRecord
    ensures { result ≡ flat_of (decode_of word) }
{
    flattener::flat_of(decoder::decode(word))
}
