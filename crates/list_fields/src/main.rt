// Lists the fields of the sheet that standard input holds, a line for each, to standard output.
#![tactic(auto)]

ghost use Rattle.std.specs.Prelude.{◌≡◌, take};
ghost use Rattle.io.specs.Counts.{IsPrefixLen};
ghost use Rattle.field_lines.specs.FieldLines.{text_of};

// Puts the lines of a sheet's fields into a buffer that has room for those of every sheet, and gives its length.
fn list_whole(sheet: &[u8], text: &mut [u8; 196608]) -> usize
    ensures prefix_len { IsPrefixLen result text.new }
    ensures text_after { take result text.new ≡ text_of sheet.now }
{
    match field_lines::list_fields(sheet, text) {
        Ok(length) => length,
        Err(_) => 0,
    }
}

fn main(rt: HostRuntime) {
    let err = rt.stderr();
    let name = b"lampcygnet-fields";
    let mut sheet = [0u8; 32769];
    if let Some(read) = standard_streams::read_sheet(&rt, &err, name, &mut sheet) {
        let mut text = [0u8; 196608];
        let length = list_whole(&sheet[..read], &mut text);
        standard_streams::write_text(&rt, &err, name, &text[..length]);
    }
}
