// The header of a field: a tag of one byte and a length of two, high byte first.
#![tactic(auto)]

ghost use Rattle.std.specs.Prelude.{◌≡◌, drop};
ghost use Rattle.fields.specs.Start.{tag_of, kind_of_tag, length_allowed, depth_allowed, judged, start_of};

use fields::FieldKind;
use refusals::Refusal;

// The tag of a kind of field.
pub fn tag_of(kind: FieldKind) -> u8
    ensures { result ≡ tag_of kind }
{
    match kind {
        FieldKind::Word => 0x10,
        FieldKind::Figure => 0x11,
        FieldKind::Note => 0x12,
        FieldKind::Group => 0x20,
    }
}

// The kind of field that a tag stands for. The four tags are numbered from 0 to 3 without a jump that depends on the tag.
fn kind_of_tag(tag: u8) -> Option<FieldKind>
    ensures { result ≡ kind_of_tag tag }
{
    let known = ((tag == 0x10) | (tag == 0x11)) | ((tag == 0x12) | (tag == 0x20));
    if !known {
        return None;
    }
    match tag % 16 + tag / 32 * 3 {
        0 => Some(FieldKind::Word),
        1 => Some(FieldKind::Figure),
        2 => Some(FieldKind::Note),
        _ => Some(FieldKind::Group),
    }
}

// Whether a field of this kind may have this length.
fn length_allowed(kind: FieldKind, length: usize) -> bool
    ensures { result ≡ length_allowed kind length }
{
    match kind {
        FieldKind::Word => length == 4,
        FieldKind::Figure => length == 9,
        FieldKind::Note | FieldKind::Group => true,
    }
}

// Whether a field of this kind may stand at this depth.
fn depth_allowed(kind: FieldKind, depth: u8) -> bool
    ensures { result ≡ depth_allowed kind depth }
{
    match kind {
        FieldKind::Word | FieldKind::Figure | FieldKind::Note => true,
        FieldKind::Group => depth < 4,
    }
}

// A whole header: the tag's kind, the length, the number of bytes after the header, and the depth.
fn judge(
    found: Option<FieldKind>,
    length: usize,
    left: usize,
    depth: u8,
) -> Result<Option<(FieldKind, usize)>, Refusal>
    ensures { result ≡ judged found length left depth }
{
    let kind = found.ok_or(Refusal::Tag)?;
    if left < length {
        return Err(Refusal::Truncated);
    }
    if !length_allowed(kind, length) {
        return Err(Refusal::Length);
    }
    if !depth_allowed(kind, depth) {
        return Err(Refusal::Depth);
    }
    Ok(Some((kind, length)))
}

// What stands at a place in a run of bytes, as part of a run at this depth.
pub fn start_at(run: &[u8], at: usize, depth: u8) -> Result<Option<(FieldKind, usize)>, Refusal>
    ensures { result ≡ start_of depth (drop at run.now) }
{
    if run.len() <= at {
        return Ok(None);
    }
    let left = run.len() - at;
    if left < 3 {
        return Err(Refusal::Truncated);
    }
    let length = run[at + 1] as usize * 256 + run[at + 2] as usize;
    judge(kind_of_tag(run[at]), length, left - 3, depth)
}
