//! The command that traces a run.

ghost use Rattle.std.specs.Prelude.{◌≡◌, [], IfOk};
ghost use Rattle.bt878_contract.specs.Tasks.{IsProduct, inputs_of};
ghost use Rattle.bt878_top.specs.Products.{product_of};
ghost use Rattle.capture_desk.specs.Desks.{IsAllowed, Puts, SayCounts, after_say};
ghost use Rattle.command_steps.specs.Outputs.{Finishes};
ghost use Rattle.command_steps.specs.Reading.{Takes};
ghost use Rattle.trace_play.specs.Playing.{text_left};

use crate::produced::Produced;
use bt878_words::Task;
use capture_desk::{Desk, Failed, say_all};
use command_inputs::{Loaded, accept};
use command_texts::{Answer, Refusal};
use kept_stream::keep_stream;
use page_ram::PageRam;
use risc_listing::Lines;
use std::alloc::Global;
use stream_play::machine_of;
use trace_play::StreamTrace;

/// `trace PROG STREAM`: prints what each step of the stream does with the program, and the report. The stream is read whole
/// and kept, and printing takes no more memory.
pub fn trace<'a, D: Desk>(
    alloc: Global,
    program: &'a str,
    stream: &'a str,
    desk: &mut D,
) -> Result<Produced<'a>, Refusal>
    requires program { IsAllowed program.now (D.seen desk.old).told.may_open }
    requires stream { IsAllowed stream.now (D.seen desk.old).told.may_open }
    ensures takes { Takes (inputs_of (Task.Trace program.entry stream.entry)) result (D.seen desk.old) (D.seen desk.new) }
    ensures makes { IfOk result
        (λ produced. IsProduct (Task.Trace program.entry stream.entry) (D.seen desk.old).told.inputs (product_of produced)) }
{
    let Loaded { accepted, fill } = accept(alloc, program, desk)?;
    let kept = keep_stream(alloc, stream, desk)?;
    let machine = machine_of(alloc, accepted, fill)?;
    Ok(Produced::Traced(StreamTrace::new(machine, kept)))
}

/// Prints a trace piece by piece. Its piece of text is on the stack, so it is never inlined: a function touches its stack frame
/// page by page where it begins.
#[inline(never)]
fn say_pieces<D: Desk>(trace: &mut StreamTrace<PageRam>, desk: &mut D) -> Result<(), Failed>
    ensures says { Puts (text_left trace.old) result after_say (D.seen desk.old).told (D.seen desk.new).told }
    ensures counts { SayCounts (text_left trace.old) result (D.seen desk.old) (D.seen desk.new) }
{
    let mut lines = Lines::new();
    let mut more = true;
    while more {
        lines.clear();
        more = trace.fill(&mut lines);
        say_all(desk, lines.as_str().as_bytes())?;
    }
    Ok(())
}

/// Prints a trace as the text of Done.
pub fn say_trace<D: Desk>(trace: &mut StreamTrace<PageRam>, desk: &mut D) -> Answer
    ensures { Finishes [] (text_left trace.old) result (D.seen desk.old) (D.seen desk.new) }
{
    match say_pieces(trace, desk) {
        Ok(()) => Answer::Done,
        Err(_) => Answer::WriteFault,
    }
}
