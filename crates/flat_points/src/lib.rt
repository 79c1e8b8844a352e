// The chart point as numbers, for other languages.
#![tactic(auto)]

ghost use Rattle.std.specs.Prelude.{◌≡◌};
ghost use Rattle.chart.specs.Words.{chart_point};
ghost use Rattle.flat_points.specs.Points.{flat_point};

use chart::ChartPoint;
use refusals::Refusal;

// A chart point as numbers, or its refusal's number beside zeros.
#[repr(C)]
#[derive(Clone, Copy)]
pub struct FlatPoint {
    pub refusal: u8,
    pub course: f64,
    pub glide: f64,
}

// The numbers of a chart point, or of its refusal.
pub fn flat_point(charted: Result<ChartPoint, Refusal>) -> FlatPoint
    ensures { result ≡ flat_point charted }
{
    match charted {
        Ok(point) => FlatPoint {
            refusal: 0,
            course: point.course,
            glide: point.glide,
        },
        Err(refusal) => FlatPoint {
            refusal: refusals::number(refusal),
            course: 0.0,
            glide: 0.0,
        },
    }
}

// The numbers of the chart point of a course word and a glide word, or of its refusal.
pub fn chart_flat(first: u32, second: u32) -> FlatPoint
    ensures { result ≡ flat_point (chart_point first second) }
{
    flat_point(chart_points::chart_point(first, second))
}
