//! The fields of a description.

ghost use Rattle.capture_desc.specs.WellFormed.{IsWellFormed, count};
ghost use Rattle.picture_model.specs.Described.{chroma_first, chroma_row_of, describes, field_height, field_number, field_of};
ghost use Rattle.picture_model.specs.Described.{fields_before, is_both, layout_of, picture_row, vbi_skip, vbi_stride};
ghost use Rattle.std.specs.Prelude.{◌≡◌, true, ◌<◌, ◌≤◌, IfSome, length};

use capture_desc::{Desc, Fields, Numbers};
use pixel_layout::Parity;

/// Whether both fields are described (this project's own form).
pub fn is_both(fields: Fields) -> bool
    ensures { result ≡ is_both fields }
{
    match fields {
        Fields::Top | Fields::Bottom => false,
        Fields::Both => true,
    }
}

/// Whether this field is described (this project's own form).
pub fn describes(fields: Fields, field: Parity) -> bool
    ensures { result ≡ describes fields field }
{
    match (fields, field) {
        (Fields::Both, _) | (Fields::Top, Parity::Top) | (Fields::Bottom, Parity::Bottom) => true,
        (Fields::Top, Parity::Bottom) | (Fields::Bottom, Parity::Top) => false,
    }
}

/// The picture rows of a field: half of the picture's where both are described, none where this one isn't (this project's
/// own form).
pub fn field_height(desc: &Desc, field: Parity) -> u32
    ensures { result ≡ field_height desc.now field }
{
    if !describes(desc.fields, field) {
        0
    } else if is_both(desc.fields) {
        desc.height / 2
    } else {
        desc.height
    }
}

/// The picture row that is row `number` of a field: where both are described, the top field has the even rows (bttv's
/// interlaced frames). Rows are counted from 0.
pub fn picture_row(fields: Fields, field: Parity, number: u32) -> u64
    ensures { result ≡ picture_row (is_both fields) field number }
{
    let number = u64::from(number);
    match (fields, field) {
        (Fields::Both, Parity::Top) => 2 * number,
        (Fields::Both, Parity::Bottom) => 2 * number + 1,
        (Fields::Top | Fields::Bottom, _) => number,
    }
}

// How many described fields come before this one.
fn fields_before(fields: Fields, field: Parity) -> usize
    ensures value { result ≡ fields_before fields field }
    ensures below { result < count fields }
{
    match (fields, field) {
        (Fields::Both, Parity::Bottom) => 1,
        _ => 0,
    }
}

// The number given for a described field, or 0.
fn field_number(numbers: &Option<Numbers>, fields: Fields, field: Parity) -> u32
    requires { IfSome numbers.now (λ ns. length ns ≡ count fields) }
    ensures { result ≡ field_number numbers.now fields field }
{
    match numbers {
        Some(numbers) => numbers.as_slice()[fields_before(fields, field)],
        None => 0,
    }
}

// The field of a picture row.
fn field_of(fields: Fields, row: u32) -> Parity
    ensures { result ≡ field_of fields row }
{
    match fields {
        Fields::Top => Parity::Top,
        Fields::Bottom => Parity::Bottom,
        Fields::Both => {
            if row % 2 == 0 {
                Parity::Top
            } else {
                Parity::Bottom
            }
        }
    }
}

// The row of a field whose chroma is the first that is kept.
fn chroma_first(desc: &Desc, field: Parity) -> u32
    requires { IsWellFormed desc.now }
    ensures { result ≡ chroma_first desc.now field }
{
    field_number(&desc.chroma_first, desc.fields, field)
}

/// The row of planes 2 and 3 that takes the chroma of a picture row, or None where it isn't kept (this project's own form).
pub fn chroma_row(desc: &Desc, row: u32) -> Option<u32>
    requires { IsWellFormed desc.now }
    ensures value { result ≡ chroma_row_of desc.now row }
    ensures within { IfSome result (λ kept. kept ≤ row) }
    ensures planar { IfSome result (λ _. (layout_of desc.now).planar ≡ true) }
{
    let first = chroma_first(desc, field_of(desc.fields, row));
    desc.format
        .chroma_row_from(is_both(desc.fields), first, row)
}

/// The VBI lines that a field passes over before its first (bttv's VBI buffers begin at a line of their own).
pub fn vbi_skip(desc: &Desc, field: Parity) -> u32
    requires { IsWellFormed desc.now }
    ensures { result ≡ vbi_skip desc.now field }
{
    field_number(&desc.vbi_skip, desc.fields, field)
}

/// The bytes from one VBI line to the next: where nothing else is given, those of a line.
pub fn vbi_stride(desc: &Desc) -> u32
    ensures { result ≡ vbi_stride desc.now }
{
    desc.vbi_stride.unwrap_or(desc.vbi_bytes)
}
