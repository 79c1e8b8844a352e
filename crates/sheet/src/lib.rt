// Checking a sheet: whether it is legal, else its first refusal with the offset of the field's tag.
#![tactic(auto)]

ghost use Rattle.std.specs.Prelude.{◌≡◌, ◌+◌, ◌-◌, ◌≤◌, ◌<◌, length};
ghost use Rattle.fields.specs.Run.{run_of, sheet_of, inside_of};
ghost use Rattle.sheet.specs.Checked.{answer_of, checked_of, after_inside, field_of};

use fields::FieldKind;
use refusals::Refusal;

// What the check of a run says, within this crate. Every turn of the check clears the memory of a group's answer: 16 bytes, where the `Result` of `answer_of` has 24.
enum Checked {
    // Every field may stand where it stands.
    Legal,
    // The first refusal, and the offset of the tag of the field that it refuses.
    Refused(Refusal, usize),
}

// The same as callers have it.
fn answer_of(checked: Checked) -> Result<(), (Refusal, usize)>
    ensures { result ≡ answer_of checked }
{
    match checked {
        Checked::Legal => Ok(()),
        Checked::Refused(refusal, place) => Err((refusal, place)),
    }
}

// A field goes on past its content once its inside is legal.
fn after_inside(inside: Checked, next: usize) -> Result<Option<usize>, (Refusal, usize)>
    ensures { result ≡ after_inside (answer_of inside) next }
{
    answer_of(inside)?;
    Ok(Some(next))
}

// The check of the field at a place in a run whose first byte has this offset. Below the run's own depth so many are left: 3 at the top, where the depth is 1.
#[cycle(check_field_check_run)]
fn check_field(
    run: &[u8],
    at: usize,
    offset: usize,
    depths: u8,
) -> Result<Option<usize>, (Refusal, usize)>
    requires { (depths ≤ 3) × (at ≤ length run.now) × (offset + length run.now < 0x10000000000000000) }
    ensures { result ≡ field_of (4 - depths) offset at run.now }
{
    let place = offset + at;
    match field_headers::start_at(run, at, 4 - depths) {
        Ok(None) => Ok(None),
        Err(refusal) => Err((refusal, place)),
        Ok(Some((kind, length))) => {
            let from = at + 3;
            let next = from + length;
            match kind {
                // told by the kind alone: where the next field is does not wait for this one's length
                FieldKind::Word => Ok(Some(at + 7)),
                FieldKind::Figure => Ok(Some(at + 12)),
                FieldKind::Note => Ok(Some(next)),
                FieldKind::Group => {
                    after_inside(check_run(&run[from..next], place + 3, depths - 1), next)
                }
            }
        }
    }
}

// The check of a run of fields whose first byte has this offset, with so many depths left below its own.
#[cycle(check_field_check_run)]
fn check_run(run: &[u8], offset: usize, depths: u8) -> Checked
    requires { (depths ≤ 3) × (offset + length run.now < 0x10000000000000000) }
    ensures { answer_of result ≡ checked_of (run_of (4 - depths) offset run.now) }
{
    let mut at: usize = 0;
    loop {
        match check_field(run, at, offset, depths) {
            Ok(Some(next)) => {
                at = next;
            }
            Ok(None) => {
                return Checked::Legal;
            }
            Err((refusal, place)) => {
                return Checked::Refused(refusal, place);
            }
        }
    }
}

// Whether a sheet is legal, else its refusal: 15 first, then the first from the left.
pub fn check_sheet(sheet: &[u8]) -> Result<(), (Refusal, usize)>
    ensures { result ≡ checked_of (sheet_of sheet.now) }
{
    if 32768 < sheet.len() {
        return Err((Refusal::Oversize, 0));
    }
    answer_of(check_run(sheet, 0, 3))
}

// Whether a run of bytes may be the inside of a top group, else its first refusal, with the offset in the run.
pub fn check_inside(run: &[u8]) -> Result<(), (Refusal, usize)>
    ensures { result ≡ checked_of (inside_of run.now) }
{
    answer_of(check_run(run, 0, 2))
}

// The check of the top field, with its inside, that begins at a place of a sheet.
pub fn check_top_field(sheet: &[u8], at: usize) -> Result<Option<usize>, (Refusal, usize)>
    ensures { result ≡ field_of 1 0 at sheet.now }
{
    if sheet.len() < at {
        return Ok(None);
    }
    check_field(sheet, at, 0, 3)
}
