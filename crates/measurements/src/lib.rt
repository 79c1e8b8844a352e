// The quantity and the count that a record measures.
#![tactic(auto)]

ghost use Rattle.std.specs.Prelude.{◌≡◌};
ghost use Rattle.measurements.specs.Measurements.{value_measurement, measurement_of};

use quantities::Quantity;
use records::Body;
use views::{Value, View};

// The quantity and the count of a value; a frequency and a setting have none.
fn value_measurement(value: Value) -> Option<(Quantity, i16)>
    ensures { result ≡ value_measurement value }
{
    match value {
        Value::Azimuth(count) => Some((Quantity::Azimuth, count.0)),
        Value::Course(count) => Some((Quantity::Course, count.0)),
        Value::Glide(count) => Some((Quantity::Glide, count.0)),
        Value::MlsAzimuth(count) => Some((Quantity::MlsAzimuth, count.0)),
        Value::MlsGlide(count) => Some((Quantity::MlsGlide, count.0)),
        Value::Frequency(_) => None,
        Value::Setting(_) => None,
    }
}

// The quantity and the count that a body holds, under every status.
pub fn measurement_of(body: Body) -> Option<(Quantity, i16)>
    ensures { result ≡ measurement_of body }
{
    match views::view_of(body) {
        View::Value(_, value) => value_measurement(value),
        View::Part(_, _) => None,
    }
}
