// The doubles of readings: a count as degrees, as depth difference or as millivolts, in f64.
#![tactic(auto)]

ghost use Rattle.std.specs.Prelude.{◌≡◌, pos, ◌*ℤ◌};
ghost use Rattle.doubles.specs.Exact.{IsExactly};
ghost use Rattle.doubles.specs.Nearest.{IsNearest};
ghost use Rattle.doubles.specs.Doubles.{degrees_of, course_of, glide_of, millivolts_of};

use records::{AzimuthCount, CourseCount, GlideCount, MlsCount};

// VOR azimuth of a count, in degrees: exactly count x 45 / 1024.
pub fn azimuth_degrees(count: AzimuthCount) -> f64
    ensures operations { result ≡ degrees_of count.0 }
    ensures value { IsExactly result (count.0 *ℤ pos 45) 1024 }
{
    let number = count.0;
    (number as f64) * 45.0 / 1024.0
}

// ILS course of a count, in depth difference: one division of the count by 10240, which gives the double nearest to count / 10240.
pub fn course_difference(count: CourseCount) -> f64
    ensures operations { result ≡ course_of count.0 }
    ensures nearest { IsNearest result count.0 10240 }
{
    let number = count.0;
    (number as f64) / 10240.0
}

// ILS glide of a count, in depth difference: one division of the count by 5120, which gives the double nearest to count / 5120.
pub fn glide_difference(count: GlideCount) -> f64
    ensures operations { result ≡ glide_of count.0 }
    ensures nearest { IsNearest result count.0 5120 }
{
    let number = count.0;
    (number as f64) / 5120.0
}

// MLS deviation of a count, in millivolts: exactly count x 75 / 1024.
pub fn mls_millivolts(count: MlsCount) -> f64
    ensures operations { result ≡ millivolts_of count.0 }
    ensures value { IsExactly result (count.0 *ℤ pos 75) 1024 }
{
    let number = count.0;
    (number as f64) * 75.0 / 1024.0
}
