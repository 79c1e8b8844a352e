// Counts printed as figures, in millionths.
#![tactic(auto)]

ghost use Rattle.std.specs.Prelude.{◌≡◌};
ghost use Rattle.quantities.specs.Nearest.{millionths_of};

use quantities::Quantity;
use records::{AzimuthCount, CourseCount, GlideCount, MlsCount};

// An azimuth count as a figure, in millionths of a degree.
pub fn azimuth_millionths(count: AzimuthCount) -> i64
    ensures { result ≡ millionths_of Quantity.Azimuth count.0 }
{
    quantities::millionths(Quantity::Azimuth, count.0)
}

// A course count as a figure, in millionths of modulation depth difference.
pub fn course_millionths(count: CourseCount) -> i64
    ensures { result ≡ millionths_of Quantity.Course count.0 }
{
    quantities::millionths(Quantity::Course, count.0)
}

// A glide count as a figure, in millionths of modulation depth difference.
pub fn glide_millionths(count: GlideCount) -> i64
    ensures { result ≡ millionths_of Quantity.Glide count.0 }
{
    quantities::millionths(Quantity::Glide, count.0)
}

// A count of the MLS azimuth deviation as a figure, in millionths of a millivolt.
pub fn mls_azimuth_millionths(count: MlsCount) -> i64
    ensures { result ≡ millionths_of Quantity.MlsAzimuth count.0 }
{
    quantities::millionths(Quantity::MlsAzimuth, count.0)
}

// A count of the MLS glide deviation as a figure, in millionths of a millivolt.
pub fn mls_glide_millionths(count: MlsCount) -> i64
    ensures { result ≡ millionths_of Quantity.MlsGlide count.0 }
{
    quantities::millionths(Quantity::MlsGlide, count.0)
}
