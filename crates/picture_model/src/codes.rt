//! The control codes of a field.

ghost use Rattle.picture_model.specs.Programs.{data_code, vertical};
ghost use Rattle.std.specs.Prelude.{◌≡◌};

use pixel_layout::Parity;
use risc_word::Code;

/// The vertical code of a field, which opens it: VRE for the top field, VRO for the bottom one.
pub fn vertical(field: Parity) -> Code
    ensures { result ≡ vertical field }
{
    match field {
        Parity::Top => Code::Vre,
        Parity::Bottom => Code::Vro,
    }
}

/// The code that announces the data of a picture: FM3 where they are planar, FM1 where they are packed.
pub fn data_code(planar: bool) -> Code
    ensures { result ≡ data_code planar }
{
    if planar { Code::Fm3 } else { Code::Fm1 }
}
