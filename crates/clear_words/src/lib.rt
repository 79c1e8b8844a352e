// Words of a known kind whose zero bits are zero: the kind's rules, and what the word holds.
#![tactic(auto)]

ghost use Rattle.std.specs.Prelude.{◌≡◌, ◌<◌, ◌≤◌, cond, eqb};
ghost use Rattle.bits.specs.Fields.{bits};
ghost use Rattle.statuses.specs.Statuses.{binary_status};
ghost use Rattle.decode.specs.Decode.{decode_clear};

use records::{AzimuthCount, Body, CourseCount, GlideCount, Kind, MlsCount, Record};
use refusals::Refusal;
use statuses::Status;

// The rule of a part: bits 30 and 31 are the part's code.
fn part_judgement(code: u32, word: u32) -> Result<(), Refusal>
    ensures { result ≡ cond (eqb (bits 30 31 word) code) (Ok tt) (Err Refusal.Code) }
{
    judgements::kept_if(word / 536870912 % 4 == code, Refusal::Code)
}

// The status of a binary word, in bits 30 and 31.
fn status_in(word: u32) -> Status
    ensures { result ≡ binary_status (bits 30 31 word) }
{
    statuses::binary_status(word / 536870912 % 4)
}

// The flag in a bit.
fn flag_in<const BIT: u32>(word: u32) -> bool
    requires { (0 < BIT) × (BIT ≤ 32) }
    ensures { result ≡ eqb (bits BIT BIT word) 1 }
{
    (word >> (BIT - 1)) % 2 == 1
}

// The setting in bits 20 to 28.
fn setting_in(word: u32) -> u16
    ensures { result ≡ bits 20 28 word }
{
    (word / 524288 % 512) as u16
}

// The content of parts 2 to 4, in bits 14 to 29.
fn content_in(word: u32) -> u16
    ensures { result ≡ bits 14 29 word }
{
    (word / 8192 % 65536) as u16
}

// A word of each kind whose zero bits are zero: its rules, and the fields that the kind has.
fn vor_azimuth(word: u32) -> Result<Record, Refusal>
    ensures { result ≡ decode_clear Kind.VorAzimuth word }
{
    let code = word / 1024 % 8;
    judgements::judged(
        judgements::kept_if(codes::is_marker(code), Refusal::Code),
        word,
        Body::VorAzimuth {
            status: status_in(word),
            marker: codes::marker_of(code),
            count: AzimuthCount(bits::signed_field::<13>(word)),
        },
    )
}

fn ils_course(word: u32) -> Result<Record, Refusal>
    ensures { result ≡ decode_clear Kind.IlsCourse word }
{
    judgements::judged(
        Ok(()),
        word,
        Body::IlsCourse {
            status: status_in(word),
            inhibit: flag_in::<11>(word),
            count: CourseCount(bits::signed_field::<13>(word)),
        },
    )
}

fn ils_glide(word: u32) -> Result<Record, Refusal>
    ensures { result ≡ decode_clear Kind.IlsGlide word }
{
    judgements::judged(
        Ok(()),
        word,
        Body::IlsGlide {
            status: status_in(word),
            inhibit: flag_in::<11>(word),
            count: GlideCount(bits::signed_field::<13>(word)),
        },
    )
}

fn mls_azimuth_deviation(word: u32) -> Result<Record, Refusal>
    ensures { result ≡ decode_clear Kind.MlsAzimuthDeviation word }
{
    judgements::judged(
        Ok(()),
        word,
        Body::MlsAzimuthDeviation {
            status: status_in(word),
            inhibit: flag_in::<11>(word),
            clearance: flag_in::<12>(word),
            count: MlsCount(bits::signed_field::<16>(word)),
        },
    )
}

fn mls_glide_deviation(word: u32) -> Result<Record, Refusal>
    ensures { result ≡ decode_clear Kind.MlsGlideDeviation word }
{
    judgements::judged(
        Ok(()),
        word,
        Body::MlsGlideDeviation {
            status: status_in(word),
            inhibit: flag_in::<11>(word),
            clearance: flag_in::<12>(word),
            count: MlsCount(bits::signed_field::<16>(word)),
        },
    )
}

fn selected_azimuth(word: u32) -> Result<Record, Refusal>
    ensures { result ≡ decode_clear Kind.SelectedAzimuth word }
{
    judgements::judged(
        judgements::kept_if(word / 524288 % 512 <= 359, Refusal::Value),
        word,
        Body::SelectedAzimuth {
            status: status_in(word),
            manual: flag_in::<19>(word),
            degrees: setting_in(word),
        },
    )
}

fn greatest_glide_angle(word: u32) -> Result<Record, Refusal>
    ensures { result ≡ decode_clear Kind.GreatestGlideAngle word }
{
    judgements::judged(
        judgements::kept_if(bits::is_odd(word / 524288 % 512), Refusal::AngleParity),
        word,
        Body::GreatestGlideAngle {
            status: status_in(word),
            tenths: (word / 524288 % 256) as u16,
        },
    )
}

fn selected_glide_angle(word: u32) -> Result<Record, Refusal>
    ensures { result ≡ decode_clear Kind.SelectedGlideAngle word }
{
    judgements::judged(
        Ok(()),
        word,
        Body::SelectedGlideAngle {
            status: status_in(word),
            manual: flag_in::<19>(word),
            tenths: setting_in(word),
        },
    )
}

fn part_1(word: u32) -> Result<Record, Refusal>
    ensures { result ≡ decode_clear Kind.Part1 word }
{
    judgements::judged(
        part_judgement(0, word),
        word,
        Body::Part1 {
            word_number: (word / 8192 % 256) as u8,
            content: (word / 2097152 % 256) as u8,
        },
    )
}

fn part_2(word: u32) -> Result<Record, Refusal>
    ensures { result ≡ decode_clear Kind.Part2 word }
{
    judgements::judged(
        part_judgement(1, word),
        word,
        Body::Part2 {
            content: content_in(word),
        },
    )
}

fn part_3(word: u32) -> Result<Record, Refusal>
    ensures { result ≡ decode_clear Kind.Part3 word }
{
    judgements::judged(
        part_judgement(2, word),
        word,
        Body::Part3 {
            content: content_in(word),
        },
    )
}

fn part_4(word: u32) -> Result<Record, Refusal>
    ensures { result ≡ decode_clear Kind.Part4 word }
{
    judgements::judged(
        part_judgement(3, word),
        word,
        Body::Part4 {
            parity_good: flag_in::<11>(word),
            content: content_in(word),
        },
    )
}

// A word of a known kind whose zero bits are zero.
pub fn decode_clear(kind: Kind, word: u32) -> Result<Record, Refusal>
    ensures { result ≡ decode_clear kind word }
{
    match kind {
        Kind::VorAzimuth => vor_azimuth(word),
        Kind::VorFrequency => frequency_words::vor_frequency(word),
        Kind::IlsCourse => ils_course(word),
        Kind::IlsGlide => ils_glide(word),
        Kind::IlsFrequency => frequency_words::ils_frequency(word),
        Kind::MlsFrequency => frequency_words::mls_frequency(word),
        Kind::MlsAzimuthDeviation => mls_azimuth_deviation(word),
        Kind::MlsGlideDeviation => mls_glide_deviation(word),
        Kind::SelectedAzimuth => selected_azimuth(word),
        Kind::GreatestGlideAngle => greatest_glide_angle(word),
        Kind::SelectedGlideAngle => selected_glide_angle(word),
        Kind::Part1 => part_1(word),
        Kind::Part2 => part_2(word),
        Kind::Part3 => part_3(word),
        Kind::Part4 => part_4(word),
    }
}
