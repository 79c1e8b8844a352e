// The chart point of two records or words: the course and glide deviations together.
#![tactic(auto)]

ghost use Rattle.std.specs.Prelude.{◌≡◌, eqb};
ghost use Rattle.chart.specs.Chart.{difference_in, difference_of, joined, are_course_and_glide, chart_of};
ghost use Rattle.chart.specs.Points.{DifferenceOf, PointOf};
ghost use Rattle.chart.specs.Words.{chart_point, PointOfWords};
ghost use Rattle.readings.specs.Readings.{reading_of};

use chart::ChartPoint;
use readings::{Reading, Shown};
use records::{Body, Record};
use refusals::Refusal;

// The number of a reading in depth difference.
fn difference_in(reading: Reading) -> Option<f64>
    ensures { result ≡ difference_in reading }
{
    match reading {
        Reading::Degrees(_) => None,
        Reading::DepthDifference(x) => Some(x),
        Reading::Millivolts(_) => None,
        Reading::Frequency(_) => None,
        Reading::Setting(_) => None,
    }
}

// The depth difference that a body reads, ready or test.
fn difference_of(body: Body) -> Option<f64>
    ensures operations { result ≡ difference_of (reading_of body) }
    ensures values { DifferenceOf body result }
{
    let shown = record_readings::reading_of(body);
    match shown {
        Shown::Ready(reading) => difference_in(reading),
        Shown::Test(reading) => difference_in(reading),
        Shown::Absent => None,
    }
}

// The point of a course and a glide difference.
fn joined(course: Option<f64>, glide: Option<f64>) -> Result<ChartPoint, Refusal>
    ensures { result ≡ joined course glide }
{
    Ok(ChartPoint {
        course: course.ok_or(Refusal::Reach)?,
        glide: glide.ok_or(Refusal::Reach)?,
    })
}

// Whether the first is a course body and the second a glide body.
fn are_course_and_glide(first: Body, second: Body) -> bool
    ensures { result ≡ are_course_and_glide first second }
{
    matches!(first, Body::IlsCourse { .. }) & matches!(second, Body::IlsGlide { .. })
}

// Whether two sources are the same.
fn same_source(first: u8, second: u8) -> bool
    ensures { result ≡ eqb first second }
{
    first == second
}

// The chart point of a course record and a glide record of one source, or the first refusal of 2, 4 and 8.
pub fn chart_of(first: Record, second: Record) -> Result<ChartPoint, Refusal>
    ensures operations { result ≡ chart_of first second }
    ensures values { PointOf first second result }
{
    let course = first.body;
    let glide = second.body;
    if !are_course_and_glide(course, glide) {
        return Err(Refusal::Label);
    }
    if !same_source(first.source, second.source) {
        return Err(Refusal::Code);
    }
    joined(difference_of(course), difference_of(glide))
}

// The chart point of a course word and a glide word, or the first refusal of the first word's, the second word's, 2, 4 and 8.
pub fn chart_point(first: u32, second: u32) -> Result<ChartPoint, Refusal>
    ensures operations { result ≡ chart_point first second }
    ensures values { PointOfWords first second result }
{
    let course = decoder::decode(first)?;
    let glide = decoder::decode(second)?;
    chart_of(course, glide)
}
