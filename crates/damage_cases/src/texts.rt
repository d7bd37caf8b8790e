//! Texts of rows that are whole.

use capture_desc::{Desc, read_desc};
use command_texts::push_damage;
use risc_listing::Lines;
use std::test::Fail;

const ONE_FIELD: &str =
    "format = \"y8\"\nwidth = 8\nheight = 2\nfields = \"top\"\npages = [0x20000]\n";

const LOWER_FIELD: &str =
    "format = \"y8\"\nwidth = 8\nheight = 4\nfields = \"bottom\"\npages = [0x20000]\n";

const BOTH_FIELDS: &str =
    "format = \"y8\"\nwidth = 8\nheight = 8\nfields = \"both\"\npages = [0x20000]\n";

// Whether this is printed of the rows of both fields.
fn tells(desc: &Desc, top: Option<&[bool]>, bottom: Option<&[bool]>, want: &str) -> bool {
    if desc.height > 1024 {
        return false;
    }
    let mut text = Lines::new();
    push_damage(&mut text, desc, top, bottom);
    text.as_str() == want
}

#[test]
fn a_field_alone_has_the_rows_of_its_picture(rt: HostRuntime) -> Result<(), Fail> {
    let desc = read_desc(rt.alloc(), ONE_FIELD.as_bytes())?;
    let first = Some([false, true].as_slice());
    assert!(rt; tells(&desc, first, None, "top 1 of 2\nbad 0\n"));
    let whole = Some([true, true].as_slice());
    assert!(rt; tells(&desc, whole, None, "top 2 of 2\n"));
    assert!(rt; tells(&desc, None, None, "top none\n"));
    Ok(())
}

#[test]
fn a_lower_field_is_told_alone(rt: HostRuntime) -> Result<(), Fail> {
    let desc = read_desc(rt.alloc(), LOWER_FIELD.as_bytes())?;
    let top = Some([true].as_slice());
    let bottom = Some([true, false, true, false].as_slice());
    assert!(rt; tells(&desc, top, bottom, "bottom 2 of 4\nbad 1\nbad 3\n"));
    Ok(())
}

// The top field has picture rows 0, 2, 4 and 6, the bottom field 1, 3, 5 and 7.
#[test]
fn rows_of_two_fields_are_told_as_those_of_the_picture(rt: HostRuntime) -> Result<(), Fail> {
    let desc = read_desc(rt.alloc(), BOTH_FIELDS.as_bytes())?;
    let top = Some([false, true, false, true].as_slice());
    let bottom = Some([true, false, true, false].as_slice());
    let bad = "top 2 of 4\nbad 0\nbad 4\nbottom 2 of 4\nbad 3\nbad 7\n";
    assert!(rt; tells(&desc, top, bottom, bad));
    let none = Some([false; 4].as_slice());
    let half = "top none\nbottom 0 of 4\nbad 1\nbad 3\nbad 5\nbad 7\n";
    assert!(rt; tells(&desc, None, none, half));
    Ok(())
}
