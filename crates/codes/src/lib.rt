// The codes of a word's fields beside its status: marker, category and flag.
#![tactic(auto)]

ghost use Rattle.std.specs.Prelude.{◌≡◌, ◌<◌};
ghost use Rattle.codes.specs.Codes.{marker_of, marker_code, marker_listed, category_of, category_code, flag_bit};

// The marker beacon that a VOR azimuth word reports.
#[derive(Clone, Copy, PartialEq, Eq, Debug)]
pub enum Marker {
    None,
    Outer,
    Middle,
    Inner,
}

// The ILS category. `NotStated` is our reading of a code that document 002 prints unreadably.
#[derive(Clone, Copy, PartialEq, Eq, Debug)]
pub enum Category {
    NotStated,
    I,
    II,
    III,
}

// Whether bits 11 to 13 are the code of a marker.
pub fn is_marker(code: u32) -> bool
    ensures { result ≡ marker_listed code }
{
    (code == 0) | ((code == 1) | ((code == 2) | (code == 4)))
}

// The marker that a code means; of a number in no list `unlistedMarker`.
pub fn marker_of(code: u32) -> Marker
    ensures { result ≡ marker_of code }
{
    match code {
        0 => Marker::None,
        1 => Marker::Outer,
        2 => Marker::Middle,
        _ => Marker::Inner,
    }
}

// The code of a marker.
pub fn marker_code(marker: Marker) -> u32
    ensures value { result ≡ marker_code marker }
    ensures upper_bound { result < 8 }
{
    match marker {
        Marker::None => 0,
        Marker::Outer => 1,
        Marker::Middle => 2,
        Marker::Inner => 4,
    }
}

// The category that a code means; of a number above 3 `unlistedCategory`.
pub fn category_of(code: u32) -> Category
    ensures { result ≡ category_of code }
{
    match code {
        0 => Category::NotStated,
        1 => Category::I,
        2 => Category::II,
        _ => Category::III,
    }
}

// The code of a category.
pub fn category_code(category: Category) -> u32
    ensures value { result ≡ category_code category }
    ensures upper_bound { result < 4 }
{
    match category {
        Category::NotStated => 0,
        Category::I => 1,
        Category::II => 2,
        Category::III => 3,
    }
}

// The bit of a flag.
pub fn flag_bit(flag: bool) -> u32
    ensures value { result ≡ flag_bit flag }
    ensures upper_bound { result < 2 }
{
    flag as u32
}
