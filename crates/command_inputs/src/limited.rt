//! Files that may have so many bytes and no more, read whole.

ghost use Rattle.std.specs.Prelude.{◌≡◌, ◌<◌, ◌≤◌, ◌^◌, [], ◌∷◌, vec_len, IfOk};
ghost use Rattle.capture_desk.specs.Desks.{IsAllowed};
ghost use Rattle.command_steps.specs.Inputs.{OfInput};
ghost use Rattle.command_steps.specs.Reading.{Takes};
ghost use Rattle.command_inputs.specs.Limits.{a_limited};

use capture_desk::Desk;
use capture_file::{FileFault, FileKind, Input};
use command_steps::read_whole;
use command_texts::Refusal;
use std::alloc::Global;

/// Reads a whole file, up to one byte beyond the most bytes that it may have: `Malformed` at that byte where it has more.
pub fn read_limited<D: Desk>(
    alloc: Global,
    name: &str,
    most: usize,
    file: Input,
    desk: &mut D,
) -> Result<Vec<u8>, Refusal>
    requires allowed { IsAllowed name.now (D.seen desk.old).told.may_open }
    requires few { most < 2 ^ 32 }
    ensures short { IfOk result (λ bytes. vec_len bytes ≤ most) }
    ensures whole { IfOk result (λ bytes. OfInput name.now (D.seen desk.old).told.inputs (λ content. bytes.items ≡ content)) }
    ensures takes { Takes (a_limited most file name.now ∷ []) result (D.seen desk.old) (D.seen desk.new) }
{
    let bytes = read_whole(alloc, name, most, desk)?;
    if bytes.len() > most {
        let fault = FileFault {
            at: most as u64,
            kind: FileKind::TooLong,
        };
        return Err(Refusal::Malformed(file, fault));
    }
    Ok(bytes)
}
