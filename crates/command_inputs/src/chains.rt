//! The second description file of a chain, read and checked with the first.

ghost use Rattle.std.specs.Prelude.{◌≡◌, [], ◌∷◌, IfErr, IfOk, OnOk};
ghost use Rattle.capture_desk.specs.Desks.{IsAllowed};
ghost use Rattle.command_inputs.specs.Chains.{IsPairedBy, IsRefusedPair, a_second_with};
ghost use Rattle.command_steps.specs.Reading.{Takes};
ghost use Rattle.slot_chain.specs.Pairs.{first_of_two};
ghost use Rattle.slot_chain.specs.Promises.{IsPair};

use crate::descriptions::frame_file;
use capture_desk::Desk;
use command_texts::Refusal;
use page_ram::PageRam;
use planar_plan::Frame;
use slot_chain::{DoubleBuffer, DoubleBufferError};
use std::alloc::Global;

/// Makes the chain of two frames.
fn pair(alloc: Global, first: &Frame, second: &Frame) -> Result<DoubleBuffer<PageRam>, Refusal>
    ensures first { IfOk result (λ buffer. buffer ≡ first_of_two first.now second.now) }
    ensures pair { OnOk result (IsPair first.now second.now) }
    ensures refused { IfErr result (IsRefusedPair first.now second.now) }
{
    match DoubleBuffer::new(alloc, first, second) {
        Ok(buffer) => Ok(buffer),
        Err(DoubleBufferError::Fault(fault)) => Err(Refusal::BadChain(fault)),
        Err(DoubleBufferError::Memory) => Err(Refusal::NoMemory),
    }
}

/// Reads the second description file of a chain and makes the chain of both before its first step: the refusals of
/// `frame_file`, and then `BadChain` with the first fault of the two (this project's own rules).
pub fn buffer_file<D: Desk>(
    alloc: Global,
    first: &Frame,
    name: &str,
    desk: &mut D,
) -> Result<DoubleBuffer<PageRam>, Refusal>
    requires { IsAllowed name.now (D.seen desk.old).told.may_open }
    ensures pairs { IfOk result (IsPairedBy first.now name.now (D.seen desk.old).told.inputs) }
    ensures takes { Takes (a_second_with first.now name.now ∷ []) result (D.seen desk.old) (D.seen desk.new) }
{
    let second = frame_file(alloc, name, desk)?;
    pair(alloc, first, &second)
}
