#![tactic(auto)]

ghost use Rattle.std.specs.Prelude.{◌≡◌, ◌≤◌, ◌<◌, ◌^◌};
ghost use Rattle.rounding.specs.Parts.{with_sign};
ghost use Rattle.quantities.specs.Scale.{thirteen_bits, mls_scale, scale_of, on_circle, last_count, widest, Sound};
ghost use Rattle.quantities.specs.Nearest.{line_nearest, wrap, farthest, circle_nearest, nearest_count, millionths_of};

// The five measured quantities: VOR azimuth, ILS course and glide deviation, MLS azimuth and glide deviation.
#[derive(Clone, Copy, PartialEq, Eq, Debug)]
pub enum Quantity {
    Azimuth,
    Course,
    Glide,
    MlsAzimuth,
    MlsGlide,
}

// A step of numerator / denominator millionths, and the legal counts from -below to above.
#[derive(Clone, Copy, PartialEq, Eq, Debug)]
pub struct Scale {
    pub numerator: u64,
    pub denominator: u64,
    pub below: u64,
    pub above: u64,
}

// A step with the counts of 13 bits.
fn thirteen_bits(numerator: u64, denominator: u64) -> Scale
    ensures { result ≡ thirteen_bits numerator denominator }
{
    Scale {
        numerator,
        denominator,
        below: 4096,
        above: 4095,
    }
}

// The MLS step, with the counts of 16 bits.
fn mls_scale() -> Scale
    ensures { result ≡ mls_scale }
{
    Scale {
        numerator: 75_000_000,
        denominator: 1024,
        below: 32768,
        above: 32767,
    }
}

// The step and the legal counts of a quantity.
pub fn scale_of(quantity: Quantity) -> Scale
    ensures { result ≡ scale_of quantity }
{
    match quantity {
        Quantity::Azimuth => thirteen_bits(45_000_000, 1024),
        Quantity::Course => thirteen_bits(1_000_000, 10240),
        Quantity::Glide => thirteen_bits(1_000_000, 5120),
        Quantity::MlsAzimuth => mls_scale(),
        Quantity::MlsGlide => mls_scale(),
    }
}

// The number of this size and sign.
fn with_sign(negative: bool, size: u64) -> i64
    requires { size < 2 ^ 63 }
    ensures { result ≡ with_sign negative size }
{
    let number = size as i64;
    if negative {
        return 0 - number;
    }
    number
}

// The greatest legal count of a sign.
fn last_count(scale: Scale, negative: bool) -> u64
    ensures { result ≡ last_count scale negative }
{
    if negative {
        return scale.below;
    }
    scale.above
}

// The count of this size and sign, which 16 bits hold.
fn count_with_sign(negative: bool, size: u64) -> i16
    requires { size ≤ widest negative }
    ensures { result ≡ with_sign negative size }
{
    let number = with_sign(negative, size);
    number as i16
}

// The nearest legal count on a line.
fn nearest_on_line(scale: Scale, negative: bool, size: u64) -> Option<i16>
    requires { Sound scale }
    ensures { result ≡ line_nearest scale negative size }
{
    let last = last_count(scale, negative);
    let numerator = scale.numerator;
    let denominator = scale.denominator;
    if (2 * last + 1) * numerator / (2 * denominator) < size {
        return None;
    }
    let rounded = rounding::round_half_even(size * denominator, numerator);
    Some(count_with_sign(negative, rounded.min(last)))
}

// The size of the farthest azimuth of a sign.
fn farthest_azimuth(negative: bool) -> u64
    ensures { result ≡ farthest negative }
{
    if negative {
        return 180_000_000;
    }
    359_999_999
}

// A count of any size, less whole turns.
fn wrapped(scale: Scale, negative: bool, size: u64) -> i16
    requires { Sound scale }
    ensures { result ≡ wrap scale negative size }
{
    let last = last_count(scale, negative);
    let turn = scale.below + scale.above + 1;
    let count = size % turn;
    if count <= last {
        return count_with_sign(negative, count);
    }
    count_with_sign(!negative, turn - count)
}

// The nearest legal count on the circle.
fn nearest_on_circle(scale: Scale, negative: bool, size: u64) -> Option<i16>
    requires { Sound scale }
    ensures { result ≡ circle_nearest scale negative size }
{
    let numerator = scale.numerator;
    let denominator = scale.denominator;
    if farthest_azimuth(negative) < size {
        return None;
    }
    let rounded = rounding::round_half_even(size * denominator, numerator);
    Some(wrapped(scale, negative, rounded))
}

// Whether a quantity is an angle, measured round the circle.
fn is_on_circle(quantity: Quantity) -> bool
    ensures { result ≡ on_circle quantity }
{
    matches!(quantity, Quantity::Azimuth)
}

// The legal count nearest to a figure in millionths, a tie to the even one.
pub fn nearest_count(quantity: Quantity, figure: i64) -> Option<i16>
    ensures { result ≡ nearest_count quantity figure }
{
    let scale = scale_of(quantity);
    let negative = rounding::is_negative(figure);
    let size = rounding::magnitude(figure);
    if is_on_circle(quantity) {
        return nearest_on_circle(scale, negative, size);
    }
    nearest_on_line(scale, negative, size)
}

// The value of a count, rounded to the nearest millionth, a tie to the even one.
pub fn millionths(quantity: Quantity, count: i16) -> i64
    ensures { result ≡ millionths_of quantity count }
{
    let scale = scale_of(quantity);
    let numerator = scale.numerator;
    let denominator = scale.denominator;
    let number = count as i64;
    let size = rounding::round_half_even(rounding::magnitude(number) * numerator, denominator);
    with_sign(rounding::is_negative(number), size)
}
