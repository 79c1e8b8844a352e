// A walk over a sheet with its state and its fields as numbers.
#![tactic(auto)]

ghost use Rattle.std.specs.Prelude.{◌≡◌};
ghost use Rattle.refusals.specs.Numbers.{numbered};
ghost use Rattle.walk.specs.Step.{start_walk};
ghost use Rattle.flat_walks.specs.Walks.{sheet_refusals, flat_walk, walk_from, flat_field, flat_step, stepped};

use refusals::Refusal;
use walk::{FieldAt, Position, WalkStep};

// Where a walk stands, as numbers. 9, 10, 11, 12 and 15 stand for a sheet refused so, with the refusal's offset as the place; beside any other number
// stand the place and the ends of a position.
#[repr(C)]
#[derive(Clone, Copy)]
pub struct FlatWalk {
    pub refusal: u8,
    pub place: usize,
    pub end1: usize,
    pub end2: usize,
    pub end3: usize,
}

// A field as numbers. The tag is 0 at the end, and beside a refusal, whose offset is then the place.
#[repr(C)]
#[derive(Clone, Copy)]
pub struct FlatField {
    pub refusal: u8,
    pub tag: u8,
    pub depth: u8,
    pub place: usize,
    pub length: usize,
}

// The field that a step gives, and where the walk then stands.
#[repr(C)]
#[derive(Clone, Copy)]
pub struct FlatWalked {
    pub field: FlatField,
    pub next: FlatWalk,
}

// The numbers of what a step gives.
fn flat_field(given: Result<Option<FieldAt>, (Refusal, usize)>) -> FlatField
    ensures { result ≡ flat_field given }
{
    match given {
        Ok(Some(field)) => {
            let kind = field.kind;
            FlatField {
                refusal: 0,
                tag: field_headers::tag_of(kind),
                depth: field.depth,
                place: field.place,
                length: field.length,
            }
        }
        Err((refusal, offset)) => FlatField {
            refusal: refusals::number(refusal),
            tag: 0,
            depth: 0,
            place: offset,
            length: 0,
        },
        Ok(None) => FlatField {
            refusal: 0,
            tag: 0,
            depth: 0,
            place: 0,
            length: 0,
        },
    }
}

// The numbers of a walk.
fn flat_walk(walk: Result<Position, (Refusal, usize)>) -> FlatWalk
    ensures { result ≡ flat_walk walk }
{
    match walk {
        Ok(position) => FlatWalk {
            refusal: 0,
            place: position.place,
            end1: position.end1,
            end2: position.end2,
            end3: position.end3,
        },
        Err((refusal, offset)) => FlatWalk {
            refusal: refusals::number(refusal),
            place: offset,
            end1: 0,
            end2: 0,
            end3: 0,
        },
    }
}

// The refusal of a sheet that has this number, or none.
fn sheet_refusal(number: u8) -> Option<Refusal>
    ensures { result ≡ numbered sheet_refusals number }
{
    match number {
        9 => Some(Refusal::Truncated),
        10 => Some(Refusal::Tag),
        11 => Some(Refusal::Length),
        12 => Some(Refusal::Depth),
        15 => Some(Refusal::Oversize),
        _ => None,
    }
}

// The walk that numbers stand for.
fn walk_from(walk: FlatWalk) -> Result<Position, (Refusal, usize)>
    ensures { result ≡ walk_from walk }
{
    let refusal = walk.refusal;
    match sheet_refusal(refusal) {
        Some(refusal) => Err((refusal, walk.place)),
        None => Ok(Position {
            place: walk.place,
            end1: walk.end1,
            end2: walk.end2,
            end3: walk.end3,
        }),
    }
}

// The numbers of a step.
fn flat_step(step: WalkStep) -> FlatWalked
    ensures { result ≡ flat_step step }
{
    let given = step.given;
    let next = step.next;
    let field = flat_field(given);
    FlatWalked {
        field: field,
        next: flat_walk(next),
    }
}

// The walk over a sheet from its first field.
pub fn start_flat(sheet: &[u8]) -> FlatWalk
    ensures { result ≡ flat_walk (start_walk sheet.now) }
{
    flat_walk(walker::start(sheet))
}

// One step of the walk that numbers stand for.
pub fn step_flat(sheet: &[u8], walk: FlatWalk) -> FlatWalked
    ensures { result ≡ stepped sheet.now walk }
{
    flat_step(walker::step(sheet, walk_from(walk)))
}
