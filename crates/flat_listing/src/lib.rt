// The listing of a sheet, with its answer as numbers.
#![tactic(auto)]

ghost use Rattle.std.specs.Prelude.{◌≡◌};
ghost use Rattle.listing.specs.Listing.{text_of, listed_of, buffer_of};
ghost use Rattle.flat_listing.specs.Listed.{flat_listed};

use refusals::Refusal;

// The length of a listing, or a refusal's number beside 0.
#[repr(C)]
#[derive(Clone, Copy)]
pub struct FlatListed {
    pub refusal: u8,
    pub length: usize,
}

// The numbers of what a listing gives.
fn flat_listed(listed: Result<usize, Refusal>) -> FlatListed
    ensures { result ≡ flat_listed listed }
{
    match listed {
        Ok(length) => FlatListed {
            refusal: 0,
            length: length,
        },
        Err(refusal) => FlatListed {
            refusal: refusals::number(refusal),
            length: 0,
        },
    }
}

// Writes the listing of a sheet into a buffer.
pub fn list_flat(sheet: &[u8], out: &mut [u8]) -> FlatListed
    ensures answer { result ≡ flat_listed (listed_of (text_of sheet.now) out.old) }
    ensures content { out.new ≡ buffer_of (text_of sheet.now) out.old }
{
    flat_listed(listing::list_sheet(sheet, out))
}
