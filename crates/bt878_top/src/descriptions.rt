//! The command that generates a description's stream.

ghost use Rattle.std.specs.Prelude.{◌≤◌, IfOk};
ghost use Rattle.bt878_contract.specs.Tasks.{IsProduct, inputs_of};
ghost use Rattle.bt878_top.specs.Products.{product_of};
ghost use Rattle.capture_desk.specs.Desks.{IsAllowed};
ghost use Rattle.command_steps.specs.Reading.{Takes};

use crate::contents::Frames;
use crate::produced::{Outputs, Produced};
use bt878_words::Task;
use capture_desk::Desk;
use command_inputs::check_file;
use command_texts::{Refusal, made_text};
use field_stream::Made;
use std::alloc::Global;

/// `make DESC SEED FRAMES STREAM`: writes a generated stream of so many frames of the description, and prints
/// how many fields and data entries it has.
pub fn make<'a, D: Desk>(
    alloc: Global,
    desc: &'a str,
    seed: u64,
    frames: u8,
    stream: &'a str,
    desk: &mut D,
) -> Result<Produced<'a>, Refusal>
    requires desc { IsAllowed desc.now (D.seen desk.old).told.may_open }
    requires frames { (1 ≤ frames) × (frames ≤ 16) }
    ensures takes { Takes (inputs_of (Task.Make desc.entry seed frames stream.entry)) result (D.seen desk.old) (D.seen desk.new) }
    ensures makes { IfOk result
        (λ produced. IsProduct (Task.Make desc.entry seed frames stream.entry) (D.seen desk.old).told.inputs (product_of produced)) }
{
    let checked = check_file(alloc, desc, desk)?;
    let counts = Made::of(checked.frame(), frames);
    let text = made_text(counts.fields, counts.entries);
    Ok(Produced::Files {
        outputs: Outputs::Stream {
            name: stream,
            checked,
            seed,
            frames: Frames::new(frames),
        },
        text,
    })
}
