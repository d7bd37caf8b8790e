//! Streams that are read whole and kept.
#![tactic(auto)]

ghost use Rattle.std.specs.Prelude.{◌≡◌, ◌+◌, ◌++◌, [], ◌∷◌, Err, IfOk, List, MatchResult, drop, false, length, ℕ};
ghost use Rattle.capture_desk.specs.Desks.{IsAllowed};
ghost use Rattle.capture_file.specs.Readers.{PlacedAt, Uses, after_answer, resumed};
ghost use Rattle.capture_file.specs.Streams.{steps_of};
ghost use Rattle.command_steps.specs.Inputs.{OfInput};
ghost use Rattle.command_steps.specs.Reading.{Takes};
ghost use Rattle.kept_stream.specs.Kept.{HoldsKept, a_kept_stream, longest_kept};

use capture_desk::Desk;
use capture_file::{FileFault, Got, Input, Step, StepReader};
use command_steps::read_whole;
use command_texts::Refusal;
use std::alloc::Global;
use std::marker::Model;

/// The most bytes of a stream that is kept.
pub const LONGEST_KEPT: usize = 67_108_864;

/// The bytes of a whole stream, of BFS1 or BFS2.
#[derive(Drop)]
pub struct KeptStream {
    bytes: Vec<u8>,
}

impl Model for KeptStream {
    ghost use Rattle.kept_stream.specs.Kept.{HoldsKept};
    ghost use Rattle.std.specs.Prelude.{List, ℕ};

    ghost Value = { List ℕ };

    ghost view = { λ stream. stream.bytes.items };

    ghost invariant = { λ stream. HoldsKept stream.bytes.items };
}

impl KeptStream {
    /// Its bytes.
    #[inline]
    pub fn as_bytes(&self) -> &[u8]
        ensures bytes { result.now ≡ self.now }
        ensures whole { HoldsKept self.now }
    {
        &self.bytes
    }
}

/// Uses the front of a piece, as `take` does, quick where a data push or turns are there, as mostly.
#[inline(always)]
fn use_front(reader: &mut StepReader, piece: &[u8]) -> (usize, Got)
    ensures whole { (more : List ℕ) →
        resumed reader.old (piece.now ++ more) ≡ after_answer result.1 (resumed reader.new (drop result.0 piece.now ++ more)) }
    ensures used { Uses result.1 result.0 (length piece.now) }
    ensures moves { (before : ℕ) → PlacedAt reader.old.phase reader.old.place before →
        PlacedAt reader.new.phase reader.new.place (before + result.0) }
{
    if let Some((queue, entry)) = reader.take_push(piece) {
        return (6, Got::Step(Step::Push(queue, entry)));
    }
    if let Some(count) = reader.take_turns(piece) {
        return (5, Got::Step(Step::Turns(count)));
    }
    reader.take(piece)
}

/// The first fault of a stream, if it has one.
fn judge(bytes: &[u8]) -> Result<(), FileFault>
    ensures { MatchResult result (λ _. HoldsKept bytes.now) (λ fault. steps_of longest_kept false bytes.now ≡ Err fault) }
{
    let mut reader = StepReader::new(LONGEST_KEPT as u64);
    let mut at = 0;
    while at < bytes.len() {
        let (used, got) = use_front(&mut reader, &bytes[at..]);
        at += used;
        if let Got::Bad(fault) = got {
            return Err(fault);
        }
    }
    reader.close()
}

/// Reads a whole stream file, of BFS1 or BFS2. Its first fault is reported as `Malformed`; it is too long where a byte is at
/// 67,108,864 and no fault is lower (this project's own rule).
pub fn keep_stream<D: Desk>(alloc: Global, name: &str, desk: &mut D) -> Result<KeptStream, Refusal>
    requires { IsAllowed name.now (D.seen desk.old).told.may_open }
    ensures kept { IfOk result (λ stream. OfInput name.now (D.seen desk.old).told.inputs (λ content. content ≡ stream)) }
    ensures whole { IfOk result HoldsKept }
    ensures takes { Takes (a_kept_stream name.now ∷ []) result (D.seen desk.old) (D.seen desk.new) }
{
    let bytes = read_whole(alloc, name, LONGEST_KEPT, desk)?;
    match judge(&bytes) {
        Ok(()) => Ok(KeptStream { bytes }),
        Err(fault) => Err(Refusal::Malformed(Input::Stream, fault)),
    }
}
