// Document 01's table of the fifteen labels with their zero bits: the row of a kind, and the kind of a label.
#![tactic(auto)]

ghost use Rattle.std.specs.Prelude.{◌≡◌};
ghost use Rattle.labels.specs.Table.{rows, row_of, kind_at, find_kind};

use labels::Row;
use records::Kind;

const ROWS: [Row; 15] = [
    Row {
        label: 0o222,
        kind: Kind::VorAzimuth,
        zeros: 0x0000e000,
    },
    Row {
        label: 0o034,
        kind: Kind::VorFrequency,
        zeros: 0x00003c00,
    },
    Row {
        label: 0o173,
        kind: Kind::IlsCourse,
        zeros: 0x0000f800,
    },
    Row {
        label: 0o174,
        kind: Kind::IlsGlide,
        zeros: 0x0000f800,
    },
    Row {
        label: 0o033,
        kind: Kind::IlsFrequency,
        zeros: 0x00003000,
    },
    Row {
        label: 0o036,
        kind: Kind::MlsFrequency,
        zeros: 0x00003c00,
    },
    Row {
        label: 0o151,
        kind: Kind::MlsAzimuthDeviation,
        zeros: 0x00001000,
    },
    Row {
        label: 0o152,
        kind: Kind::MlsGlideDeviation,
        zeros: 0x00001000,
    },
    Row {
        label: 0o153,
        kind: Kind::SelectedAzimuth,
        zeros: 0x1003fc00,
    },
    Row {
        label: 0o154,
        kind: Kind::GreatestGlideAngle,
        zeros: 0x1007fc00,
    },
    Row {
        label: 0o155,
        kind: Kind::SelectedGlideAngle,
        zeros: 0x1003fc00,
    },
    Row {
        label: 0o140,
        kind: Kind::Part1,
        zeros: 0x00001c00,
    },
    Row {
        label: 0o141,
        kind: Kind::Part2,
        zeros: 0x00001c00,
    },
    Row {
        label: 0o142,
        kind: Kind::Part3,
        zeros: 0x00001c00,
    },
    Row {
        label: 0o143,
        kind: Kind::Part4,
        zeros: 0x00001800,
    },
];

// The row at a place, from 0 to 14, and the first one at any other: the one function that reads the table.
#[tactic(auto, using(crate::proofs::Rows::row_within, crate::proofs::Rows::row_past), unfolding(labels::specs::Table::row_of))]
pub fn row_at(place: usize) -> Row
    ensures { result ≡ row_of (kind_at place) }
{
    if place < 15 {
        return ROWS[place];
    }
    ROWS[0]
}

// The row of a kind.
pub fn row_of(kind: Kind) -> Row
    ensures { result ≡ row_of kind }
{
    match kind {
        Kind::VorAzimuth => row_at(0),
        Kind::VorFrequency => row_at(1),
        Kind::IlsCourse => row_at(2),
        Kind::IlsGlide => row_at(3),
        Kind::IlsFrequency => row_at(4),
        Kind::MlsFrequency => row_at(5),
        Kind::MlsAzimuthDeviation => row_at(6),
        Kind::MlsGlideDeviation => row_at(7),
        Kind::SelectedAzimuth => row_at(8),
        Kind::GreatestGlideAngle => row_at(9),
        Kind::SelectedGlideAngle => row_at(10),
        Kind::Part1 => row_at(11),
        Kind::Part2 => row_at(12),
        Kind::Part3 => row_at(13),
        Kind::Part4 => row_at(14),
    }
}

// The kind that a label stands for.
pub fn find_kind(label: u32) -> Option<Kind>
    ensures { result ≡ find_kind rows label }
{
    match label {
        0o222 => Some(Kind::VorAzimuth),
        0o034 => Some(Kind::VorFrequency),
        0o173 => Some(Kind::IlsCourse),
        0o174 => Some(Kind::IlsGlide),
        0o033 => Some(Kind::IlsFrequency),
        0o036 => Some(Kind::MlsFrequency),
        0o151 => Some(Kind::MlsAzimuthDeviation),
        0o152 => Some(Kind::MlsGlideDeviation),
        0o153 => Some(Kind::SelectedAzimuth),
        0o154 => Some(Kind::GreatestGlideAngle),
        0o155 => Some(Kind::SelectedGlideAngle),
        0o140 => Some(Kind::Part1),
        0o141 => Some(Kind::Part2),
        0o142 => Some(Kind::Part3),
        0o143 => Some(Kind::Part4),
        _ => None,
    }
}
