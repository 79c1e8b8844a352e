// A reader that walks a sheet field by field.
#![tactic(auto)]

ghost use Rattle.std.specs.Prelude.{◌≡◌};
ghost use Rattle.fields.specs.Run.{sheet_of};
ghost use Rattle.walk.specs.Step.{start_walk, step_of};
ghost use Rattle.walk.specs.Walked.{after as afterSteps};
ghost use Rattle.reader.specs.Fields.{is_field, field_at};

use reader::Reader;
use refusals::Refusal;
use walk::{FieldAt, Position};

// What one step of a walk gives.
fn given_of(
    sheet: &[u8],
    walk: Result<Position, (Refusal, usize)>,
) -> Result<Option<FieldAt>, (Refusal, usize)>
    ensures { result ≡ (step_of sheet.now walk).given }
{
    let step = walker::step(sheet, walk);
    step.given
}

// Whether a step gave a field.
fn is_field(given: Result<Option<FieldAt>, (Refusal, usize)>) -> bool
    ensures { result ≡ is_field given }
{
    matches!(given, Ok(Some(_)))
}

// Where a walk stands after so many steps; at the end and at a refusal it stays.
fn walk_past(
    sheet: &[u8],
    walk: Result<Position, (Refusal, usize)>,
    count: usize,
) -> Result<Position, (Refusal, usize)>
    ensures { result ≡ afterSteps count sheet.now walk }
{
    let mut at = walk;
    for _ in 0..count {
        let step = walker::step(sheet, at);
        if !is_field(step.given) {
            return at;
        }
        at = step.next;
    }
    at
}

// The reader of a sheet that stands at its first field.
pub fn new<'a>(sheet: &'a [u8]) -> Reader<'a>
    ensures { (result.sheet ≡ sheet.entry) × (result.at ≡ start_walk sheet.now) }
{
    let at = walker::start(sheet);
    Reader { sheet, at }
}

// The next field, with its place and depth; or the sheet's refusal; or the end.
pub fn next<'a>(reader: Reader<'a>) -> Result<Option<FieldAt>, (Refusal, usize)>
    ensures { result ≡ (step_of reader.entry.sheet.now reader.entry.at).given }
{
    given_of(reader.sheet, reader.at)
}

// The reader that stands so many fields further on; where fewer are left, at the end.
pub fn skip<'a>(reader: Reader<'a>, count: usize) -> Reader<'a>
    ensures { (result.sheet ≡ reader.entry.sheet) × (result.at ≡ afterSteps count reader.entry.sheet.now reader.entry.at) }
{
    let at = walk_past(reader.sheet, reader.at, count);
    Reader {
        sheet: reader.sheet,
        at,
    }
}

// The reader that stands after the next field.
pub fn after<'a>(reader: Reader<'a>) -> Reader<'a>
    ensures { (result.sheet ≡ reader.entry.sheet) × (result.at ≡ (step_of reader.entry.sheet.now reader.entry.at).next) }
{
    skip(reader, 1)
}

// The field with this index, counted from 0 in the order of the tags; or the sheet's refusal; or the end where there is none.
pub fn field_at(sheet: &[u8], index: usize) -> Result<Option<FieldAt>, (Refusal, usize)>
    ensures { result ≡ field_at (sheet_of sheet.now) index }
{
    next(skip(new(sheet), index))
}
