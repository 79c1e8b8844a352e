// Walking a sheet field by field.
#![tactic(auto)]

ghost use Rattle.std.specs.Prelude.{◌≡◌, ℕ, ◌+◌, ◌<◌};
ghost use Rattle.walk.specs.Step.{start_walk, entered, next_of, given_at, step_at};
ghost use Rattle.walk.specs.Step.{level_of, step_of};

use fields::FieldKind;
use refusals::Refusal;
use walk::{FieldAt, Level, Position, WalkStep};

// The walk over a sheet from its first field.
pub fn start(sheet: &[u8]) -> Result<Position, (Refusal, usize)>
    ensures { result ≡ start_walk sheet.now }
{
    sheet::check_sheet(sheet)?;
    Ok(Position {
        place: 0,
        end1: 0,
        end2: 0,
        end3: 0,
    })
}

// The innermost run that a position lies in, in a sheet of this length.
fn level_of(position: Position, sheet: usize) -> Level
    ensures { result ≡ level_of position sheet }
{
    if position.place < position.end3 {
        return Level {
            depth: 4,
            end: position.end3,
        };
    }
    if position.place < position.end2 {
        return Level {
            depth: 3,
            end: position.end2,
        };
    }
    if position.place < position.end1 {
        return Level {
            depth: 2,
            end: position.end1,
        };
    }
    Level {
        depth: 1,
        end: sheet,
    }
}

// Into a group at a depth, whose content has this start and end.
fn enter(position: Position, depth: u8, from: usize, end: usize) -> Position
    ensures { result ≡ entered position depth from end }
{
    let mut next = position;
    next.place = from;
    if depth == 1 {
        next.end1 = end;
        return next;
    }
    if depth == 2 {
        next.end2 = end;
        return next;
    }
    next.end3 = end;
    next
}

// Where a walk goes on after a field whose content has this start and end.
fn next_of(position: Position, depth: u8, kind: FieldKind, from: usize, end: usize) -> Position
    ensures { result ≡ next_of position depth kind from end }
{
    let mut past = position;
    past.place = end;
    match kind {
        FieldKind::Word => past,
        FieldKind::Figure => past,
        FieldKind::Note => past,
        FieldKind::Group => enter(position, depth, from, end),
    }
}

// What is given where the field, the end or the refusal `found` stands.
fn given_at(
    position: Position,
    depth: u8,
    found: Result<Option<(FieldKind, usize)>, Refusal>,
) -> WalkStep
    requires { (k : FieldKind) (n : ℕ) → found ≡ Ok (Some (k, n)) → position.place + 3 + n < 0x10000000000000000 }
    ensures { result ≡ given_at position depth found }
{
    let place = position.place;
    match found {
        Ok(None) => WalkStep {
            given: Ok(None),
            next: Ok(position),
        },
        Err(refusal) => WalkStep {
            given: Err((refusal, place)),
            next: Ok(position),
        },
        Ok(Some((kind, length))) => {
            let from = place + 3;
            let end = from + length;
            WalkStep {
                given: Ok(Some(FieldAt {
                    place,
                    depth,
                    kind,
                    length,
                })),
                next: Ok(next_of(position, depth, kind, from, end)),
            }
        }
    }
}

// One step from a position.
fn step_at(sheet: &[u8], position: Position, level: Level) -> WalkStep
    ensures { result ≡ step_at sheet.now position level }
{
    let end = level.end.min(sheet.len());
    let place = position.place;
    let depth = level.depth;
    given_at(
        position,
        depth,
        field_headers::start_at(&sheet[..end], place, depth),
    )
}

// One step of a walk: the next field, the sheet's refusal, or the end. After the refusal or the end it gives the same again.
pub fn step(sheet: &[u8], walk: Result<Position, (Refusal, usize)>) -> WalkStep
    ensures { result ≡ step_of sheet.now walk }
{
    match walk {
        Ok(position) => step_at(sheet, position, level_of(position, sheet.len())),
        // whole, since the compiler reads a walk's place in four pieces where this pair is taken apart
        Err(refused) => WalkStep {
            given: Err(refused),
            next: Err(refused),
        },
    }
}
