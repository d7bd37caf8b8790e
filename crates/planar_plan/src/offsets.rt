//! Where the planes of a description begin, counted once.

ghost use Rattle.std.specs.Prelude.{◌≡◌, ◌≤◌};
ghost use Rattle.planar_plan.specs.Frames.{AreOffsets, Begins, kept_offset};
ghost use Rattle.planar_plan.specs.Sizes.{IsPlane, IsSized};

use crate::places::offset;
use capture_desc::Desc;

// Where each plane begins. A plane that the format doesn't have is kept at 0.
#[derive(Clone, Copy)]
pub(crate) struct PlaneOffsets {
    one: u64,
    two: u64,
    three: u64,
}

// Where a plane begins, counted anew; 0 where the format doesn't have the plane.
fn counted(desc: &Desc, plane: u32) -> u64
    requires sized { IsSized desc.now }
    requires plane { (1 ≤ plane) × (plane ≤ 3) }
    ensures { IsPlane desc.now plane → Begins desc.now plane result }
{
    if plane == 1 || desc.format.is_planar() {
        offset(desc, plane)
    } else {
        0
    }
}

impl PlaneOffsets {
    // Those of a description. The rows of its chroma are counted here, and for no row again.
    pub(crate) fn of(desc: &Desc) -> PlaneOffsets
        requires { IsSized desc.now }
        ensures { AreOffsets desc.now result }
    {
        PlaneOffsets {
            one: counted(desc, 1),
            two: counted(desc, 2),
            three: counted(desc, 3),
        }
    }

    // Where a plane begins.
    pub(crate) fn begin(&self, plane: u32) -> u64
        ensures { result ≡ kept_offset self.now plane }
    {
        match plane {
            1 => self.one,
            2 => self.two,
            _ => self.three,
        }
    }
}
