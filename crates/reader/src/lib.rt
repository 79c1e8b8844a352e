// What a reader of a sheet holds: the sheet and where the walk stands, together.
#![tactic(auto)]

use refusals::Refusal;
use walk::Position;

// A sheet and where the walk over it stands.
#[derive(Clone, Copy)]
pub struct Reader<'a> {
    pub sheet: &'a [u8],
    pub at: Result<Position, (Refusal, usize)>,
}
