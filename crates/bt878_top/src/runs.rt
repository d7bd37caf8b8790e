//! The commands that run a program over a stream: each reads what gives the program, plays the stream on its machine, and
//! makes the report. All memory is taken before the stream is opened.

ghost use Rattle.std.specs.Prelude.{[], IfOk};
ghost use Rattle.bt878_contract.specs.Tasks.{IsProduct, inputs_of};
ghost use Rattle.bt878_top.specs.Products.{product_of};
ghost use Rattle.capture_desk.specs.Desks.{IsAllowed};
ghost use Rattle.command_steps.specs.Outputs.{Finishes};
ghost use Rattle.command_steps.specs.Reading.{Takes};
ghost use Rattle.damage_map.specs.Maps.{rows_of};
ghost use Rattle.command_texts.specs.DamageTexts.{damage_text};

use crate::machines::{machine_of_description, machine_of_ring, map_of};
use crate::produced::{Outputs, Produced, say_alone};
use bt878_words::Task;
use capture_desk::Desk;
use command_inputs::{Loaded, accept, buffer_file, check_file, frame_file, ring_file};
use command_texts::{Answer, Refusal, push_damage};
use damage_map::Track;
use machine_watch::Watched;
use page_ram::PageRam;
use pixel_layout::Parity;
use program_build::Checked;
use risc_listing::Lines;
use std::alloc::Global;
use stream_play::{Played, machine_of, play_and_tell, play_file};

/// `run PROG STREAM IMAGE`: runs the program over the stream, writes the image of its memory and prints its report.
pub fn run<'a, D: Desk>(
    alloc: Global,
    program: &'a str,
    stream: &'a str,
    image: &'a str,
    desk: &mut D,
) -> Result<Produced<'a>, Refusal>
    requires program { IsAllowed program.now (D.seen desk.old).told.may_open }
    requires stream { IsAllowed stream.now (D.seen desk.old).told.may_open }
    ensures takes { Takes (inputs_of (Task.Run program.entry stream.entry image.entry)) result (D.seen desk.old) (D.seen desk.new) }
    ensures makes { IfOk result
        (λ produced. IsProduct (Task.Run program.entry stream.entry image.entry) (D.seen desk.old).told.inputs (product_of produced)) }
{
    let Loaded { accepted, fill } = accept(alloc, program, desk)?;
    let machine = Watched::new(machine_of(alloc, accepted, fill)?, ());
    let Played { player, text } = play_and_tell(alloc, machine, stream, desk)?;
    Ok(Produced::Files {
        outputs: Outputs::Image {
            name: image,
            machine: player.into_machine(),
        },
        text,
    })
}

/// `capture DESC STREAM PROG IMAGE`: runs the program of the description over the stream, writes the program
/// and the image of its memory, and prints its report.
pub fn capture<'a, D: Desk>(
    alloc: Global,
    desc: &'a str,
    stream: &'a str,
    program: &'a str,
    image: &'a str,
    desk: &mut D,
) -> Result<Produced<'a>, Refusal>
    requires desc { IsAllowed desc.now (D.seen desk.old).told.may_open }
    requires stream { IsAllowed stream.now (D.seen desk.old).told.may_open }
    ensures takes { Takes (inputs_of (Task.Capture desc.entry stream.entry program.entry image.entry)) result (D.seen desk.old)
        (D.seen desk.new) }
    ensures makes { IfOk result (λ produced.
        IsProduct (Task.Capture desc.entry stream.entry program.entry image.entry) (D.seen desk.old).told.inputs (product_of produced)) }
{
    let checked = check_file(alloc, desc, desk)?;
    let fill = checked.fill();
    let machine = Watched::new(machine_of_description(alloc, checked)?, ());
    let Played { player, text } = play_and_tell(alloc, machine, stream, desk)?;
    Ok(Produced::Files {
        outputs: Outputs::ProgramAndImage {
            program,
            fill,
            image,
            machine: player.into_machine(),
        },
        text,
    })
}

/// `ring RING STREAM PROG IMAGE`: runs the program of the ring over the stream, writes the program and the
/// image of its memory, and prints how many blocks were ended and the report.
pub fn ring<'a, D: Desk>(
    alloc: Global,
    ring: &'a str,
    stream: &'a str,
    program: &'a str,
    image: &'a str,
    desk: &mut D,
) -> Result<Produced<'a>, Refusal>
    requires ring { IsAllowed ring.now (D.seen desk.old).told.may_open }
    requires stream { IsAllowed stream.now (D.seen desk.old).told.may_open }
    ensures takes { Takes (inputs_of (Task.Ring ring.entry stream.entry program.entry image.entry)) result (D.seen desk.old)
        (D.seen desk.new) }
    ensures makes { IfOk result (λ produced.
        IsProduct (Task.Ring ring.entry stream.entry program.entry image.entry) (D.seen desk.old).told.inputs (product_of produced)) }
{
    let ring = ring_file(alloc, ring, desk)?;
    let fill = ring.fill();
    let machine = machine_of_ring(alloc, ring)?;
    let Played { player, text } = play_and_tell(alloc, machine, stream, desk)?;
    Ok(Produced::Files {
        outputs: Outputs::ProgramAndImage {
            program,
            fill,
            image,
            machine: player.into_machine(),
        },
        text,
    })
}

/// Prints which rows of each described field are whole. Its text is on the stack, so it is never inlined: a function touches its
/// stack frame page by page where it begins.
#[inline(never)]
pub fn say_rows<D: Desk>(checked: &Checked, map: &Watched<PageRam, Track>, desk: &mut D) -> Answer
    ensures { Finishes [] (damage_text checked.now (λ field. rows_of field map.now)) result (D.seen desk.old) (D.seen desk.new) }
{
    let mut text = Lines::new();
    push_damage(
        &mut text,
        checked.frame().desc(),
        map.watch().rows(Parity::Top),
        map.watch().rows(Parity::Bottom),
    );
    say_alone(text.as_str(), desk)
}

/// `damage DESC STREAM`: runs the program of the description over the stream, and prints for each described field
/// which of its rows are whole lines at its last signal.
pub fn damage<'a, D: Desk>(
    alloc: Global,
    desc: &'a str,
    stream: &'a str,
    desk: &mut D,
) -> Result<Produced<'a>, Refusal>
    requires desc { IsAllowed desc.now (D.seen desk.old).told.may_open }
    requires stream { IsAllowed stream.now (D.seen desk.old).told.may_open }
    ensures takes { Takes (inputs_of (Task.Damage desc.entry stream.entry)) result (D.seen desk.old) (D.seen desk.new) }
    ensures makes { IfOk result
        (λ produced. IsProduct (Task.Damage desc.entry stream.entry) (D.seen desk.old).told.inputs (product_of produced)) }
{
    let checked = check_file(alloc, desc, desk)?;
    let map = play_file(alloc, map_of(alloc, &checked)?, stream, desk)?;
    Ok(Produced::Damaged { checked, map })
}

/// `chain DESC1 DESC2 STREAM IMAGE`: runs the chain of both descriptions over the stream, whose patches choose
/// which of the two each slot shows, writes the image of its memory and prints its report.
pub fn chain<'a, D: Desk>(
    alloc: Global,
    first: &'a str,
    second: &'a str,
    stream: &'a str,
    image: &'a str,
    desk: &mut D,
) -> Result<Produced<'a>, Refusal>
    requires first { IsAllowed first.now (D.seen desk.old).told.may_open }
    requires second { IsAllowed second.now (D.seen desk.old).told.may_open }
    requires stream { IsAllowed stream.now (D.seen desk.old).told.may_open }
    ensures takes { Takes (inputs_of (Task.Chain first.entry second.entry stream.entry image.entry)) result (D.seen desk.old)
        (D.seen desk.new) }
    ensures makes { IfOk result (λ produced.
        IsProduct (Task.Chain first.entry second.entry stream.entry image.entry) (D.seen desk.old).told.inputs (product_of produced)) }
{
    let frame = frame_file(alloc, first, desk)?;
    let buffer = buffer_file(alloc, &frame, second, desk)?;
    let Played { player, text } = play_and_tell(alloc, buffer, stream, desk)?;
    Ok(Produced::Files {
        outputs: Outputs::ChainImage {
            name: image,
            buffer: player,
        },
        text,
    })
}
