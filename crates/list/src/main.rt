// Lists the sheet that standard input holds, to standard output.
#![tactic(auto)]

ghost use Rattle.std.specs.Prelude.{◌≡◌, take};
ghost use Rattle.io.specs.Counts.{IsPrefixLen};
ghost use Rattle.listing.specs.Listing.{text_of};

// Puts the listing of a sheet into a buffer that has room for that of every sheet, and gives its length.
fn list_whole(sheet: &[u8], text: &mut [u8; 131072]) -> usize
    ensures prefix_len { IsPrefixLen result text.new }
    ensures text_after { take result text.new ≡ text_of sheet.now }
{
    match listing::list_sheet(sheet, text) {
        Ok(length) => length,
        Err(_) => 0,
    }
}

fn main(rt: HostRuntime) {
    let err = rt.stderr();
    let name = b"lampcygnet-list";
    let mut sheet = [0u8; 32769];
    if let Some(read) = standard_streams::read_sheet(&rt, &err, name, &mut sheet) {
        let mut text = [0u8; 131072];
        let length = list_whole(&sheet[..read], &mut text);
        standard_streams::write_text(&rt, &err, name, &text[..length]);
    }
}
