//! What the command `damage` prints: which rows of a capture's fields are whole lines. The form of the text is this
//! project's own rule.

ghost use Rattle.arrayvec.specs.ArrayString.{array_string_len};
ghost use Rattle.std.specs.Prelude.{◌≡◌, ◌+◌, ◌++◌, ◌≤◌, Some, codes, count_by, length, option_map};
ghost use Rattle.std.specs.List.{flat_map};
ghost use Rattle.picture_model.specs.Described.{field_height, rows_of};
ghost use Rattle.command_texts.specs.DamageTexts.{bad_line, bad_rows, by_field, damage_text, field_name, field_text, whole_text};

use capture_desc::{Desc, Fields};
use picture_model::{field_height, picture_row};
use pixel_layout::Parity;
use risc_listing::{Lines, push_number};

fn field_name(field: Parity) -> &'static str
    ensures name { result.now ≡ field_name field }
    ensures short { length result.now ≤ 6 }
{
    match field {
        Parity::Top => "top",
        Parity::Bottom => "bottom",
    }
}

// Appends the line of a row that is not whole.
fn push_bad_row(text: &mut Lines, row: u64)
    requires { array_string_len text.old + 25 ≤ 65536 }
    ensures bytes { text.new.bytes ≡ text.old.bytes ++ bad_line row }
    ensures long { array_string_len text.new ≤ array_string_len text.old + 25 }
{
    text.push_str("bad");
    push_number(text, row);
    text.push_str("\n");
}

// Appends a line for each row of a field that is not whole; the marks are those of its first rows.
fn push_bad_rows(text: &mut Lines, desc: &Desc, field: Parity, marks: &[bool])
    requires rows { length marks.now ≤ field_height desc.now field }
    requires few { length marks.now ≤ 1024 }
    requires room { array_string_len text.old + 25600 ≤ 65536 }
    ensures bytes { text.new.bytes ≡ text.old.bytes ++ flat_map bad_line (bad_rows (rows_of desc.now field) marks.now) }
    ensures long { array_string_len text.new ≤ array_string_len text.old + 25600 }
{
    for (number, &is_whole) in marks.iter().enumerate() {
        if !is_whole {
            let row = picture_row(desc.fields, field, number as u32);
            push_bad_row(text, row);
        }
    }
}

fn count_whole(marks: &[bool]) -> usize
    ensures { result ≡ count_by (λ is_whole. is_whole) marks.now }
{
    marks.iter().filter(|is_whole| **is_whole).count()
}

// Appends the line of how many rows of a field are whole.
fn push_counts(text: &mut Lines, field: Parity, marks: &[bool])
    requires { array_string_len text.old + 60 ≤ 65536 }
    ensures bytes { text.new.bytes ≡ text.old.bytes ++ (field_name field ++ (codes " " ++ (whole_text marks.now ++ codes "\n"))) }
    ensures long { array_string_len text.new ≤ array_string_len text.old + 60 }
{
    text.push_str(field_name(field));
    push_number(text, count_whole(marks) as u64);
    text.push_str(" of");
    push_number(text, marks.len() as u64);
    text.push_str("\n");
}

// Appends what is printed of a field that had a signal.
fn push_marks(text: &mut Lines, desc: &Desc, field: Parity, marks: &[bool])
    requires few { field_height desc.now field ≤ 1024 }
    requires room { array_string_len text.old + 25660 ≤ 65536 }
    ensures bytes { text.new.bytes ≡ text.old.bytes ++ field_text field (rows_of desc.now field) (Some marks.now) }
    ensures long { array_string_len text.new ≤ array_string_len text.old + 25660 }
{
    push_counts(text, field, marks);
    let shown = marks.len().min(field_height(desc, field) as usize);
    push_bad_rows(text, desc, field, &marks[..shown]);
}

// Appends what is printed of a field.
fn push_field(text: &mut Lines, desc: &Desc, field: Parity, marks: Option<&[bool]>)
    requires few { field_height desc.now field ≤ 1024 }
    requires room { array_string_len text.old + 25660 ≤ 65536 }
    ensures bytes { text.new.bytes ≡ text.old.bytes ++ field_text field (rows_of desc.now field) (option_map (λ m. m.now) marks.entry) }
    ensures long { array_string_len text.new ≤ array_string_len text.old + 25660 }
{
    match marks {
        Some(marks) => push_marks(text, desc, field, marks),
        None => {
            text.push_str(field_name(field));
            text.push_str(" none\n");
        }
    }
}

/// Appends what `damage` prints of a capture (this project's own rule), from the marks of the rows of its fields. A mark is
/// true where the row is a whole line; a field that had no signal has None. For each described field, top first, there is a
/// line `top none` without a signal, else a line `top M of N`, where M of N marked rows are whole, and a line `bad R`
/// for each other picture row R, counted from 0, in rising order. The bottom field has lines `bottom` in the same
/// way. Of two fields the top one has the picture rows of even number. A picture of a valid description has at most 1,024
/// rows, so that the text has room; it takes no memory.
pub fn push_damage(text: &mut Lines, desc: &Desc, top: Option<&[bool]>, bottom: Option<&[bool]>)
    requires few { desc.now.height ≤ 1024 }
    requires room { array_string_len text.old + 51320 ≤ 65536 }
    ensures { text.new.bytes
        ≡ text.old.bytes ++ damage_text desc.now (by_field (option_map (λ m. m.now) top.entry) (option_map (λ m. m.now) bottom.entry)) }
{
    if desc.fields != Fields::Bottom {
        push_field(text, desc, Parity::Top, top);
    }
    if desc.fields != Fields::Top {
        push_field(text, desc, Parity::Bottom, bottom);
    }
}
