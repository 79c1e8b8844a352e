// The kind of a record, and a kind's place in document 01's table.
// Functions and no methods or `From`: an impl would stand in `records` and state the same two definitions, so it is no plainer.
#![tactic(auto)]

ghost use Rattle.std.specs.Prelude.{◌≡◌};
ghost use Rattle.records.specs.All.{place_of};
ghost use Rattle.records.specs.Kinds.{kind_of};

use records::{Body, Kind};

// The kind of a record's body.
pub fn kind_of(body: Body) -> Kind
    ensures { result ≡ kind_of body }
{
    match body {
        Body::VorAzimuth { .. } => Kind::VorAzimuth,
        Body::VorFrequency { .. } => Kind::VorFrequency,
        Body::IlsCourse { .. } => Kind::IlsCourse,
        Body::IlsGlide { .. } => Kind::IlsGlide,
        Body::IlsFrequency { .. } => Kind::IlsFrequency,
        Body::MlsFrequency { .. } => Kind::MlsFrequency,
        Body::MlsAzimuthDeviation { .. } => Kind::MlsAzimuthDeviation,
        Body::MlsGlideDeviation { .. } => Kind::MlsGlideDeviation,
        Body::SelectedAzimuth { .. } => Kind::SelectedAzimuth,
        Body::GreatestGlideAngle { .. } => Kind::GreatestGlideAngle,
        Body::SelectedGlideAngle { .. } => Kind::SelectedGlideAngle,
        Body::Part1 { .. } => Kind::Part1,
        Body::Part2 { .. } => Kind::Part2,
        Body::Part3 { .. } => Kind::Part3,
        Body::Part4 { .. } => Kind::Part4,
    }
}

// A kind's place in document 01's table, from 1 to 15.
pub fn place_of(kind: Kind) -> u8
    ensures { result ≡ place_of kind }
{
    match kind {
        Kind::VorAzimuth => 1,
        Kind::VorFrequency => 2,
        Kind::IlsCourse => 3,
        Kind::IlsGlide => 4,
        Kind::IlsFrequency => 5,
        Kind::MlsFrequency => 6,
        Kind::MlsAzimuthDeviation => 7,
        Kind::MlsGlideDeviation => 8,
        Kind::SelectedAzimuth => 9,
        Kind::GreatestGlideAngle => 10,
        Kind::SelectedGlideAngle => 11,
        Kind::Part1 => 12,
        Kind::Part2 => 13,
        Kind::Part3 => 14,
        Kind::Part4 => 15,
    }
}
