//! How many lines of a field are before its rows.
ghost use Rattle.std.specs.Prelude.{◌≡◌};
ghost use Rattle.capture_desc.specs.WellFormed.{IsWellFormed};
ghost use Rattle.damage_map.specs.Before.{before_rows, lines_before};

use capture_desc::Desc;
use picture_model::vbi_skip;
use pixel_layout::Parity;

/// How many lines are before the rows of each field: its VBI lines with those that are skipped before them, and the
/// skipped lines.
#[derive(Clone, Copy)]
pub struct LinesBefore {
    /// Of the top field.
    pub top: usize,
    /// Of the bottom field.
    pub bottom: usize,
}

fn lines_before(desc: &Desc, field: Parity) -> usize
    requires { IsWellFormed desc.now }
    ensures { result ≡ lines_before desc.now field }
{
    let vbi_lines = match desc.vbi_lines {
        0 => 0,
        lines => vbi_skip(desc, field) as usize + lines as usize,
    };
    vbi_lines + usize::from(desc.skip_lines)
}

/// Those of a description.
pub(crate) fn before_rows(desc: &Desc) -> LinesBefore
    requires { IsWellFormed desc.now }
    ensures { result ≡ before_rows desc.now }
{
    LinesBefore {
        top: lines_before(desc, Parity::Top),
        bottom: lines_before(desc, Parity::Bottom),
    }
}
