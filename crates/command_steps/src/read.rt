//! Inputs, read to their ends.

ghost use Rattle.std.specs.Prelude.{◌≡◌, ◌+◌, ◌-◌, ◌<◌, ◌≤◌, ◌^◌, ◌++◌, [], ◌∷◌, length, take, IfErr, IfOk, IsTrue};
ghost use Rattle.capture_desk.specs.declared.calls.Call.TheVariants as Call;
ghost use Rattle.capture_desk.specs.Desks.{IsAllowed, ReadCounts, Tells, after_read, moved_by};
ghost use Rattle.command_steps.specs.Inputs.{Always, OfInput, OfRest, ReadsBy, StopsAtRead, a_raw, apart};
ghost use Rattle.command_steps.specs.Reading.{AreAllReads, AreReads, Calls, IsPiece, Opened, OpensBy, Takes};

use crate::keeps::Keeps;
use capture_desk::{Desk, Failed, OpenFault};
use command_texts::Refusal;
use std::alloc::Global;

/// The most bytes that one read asks for.
pub const PIECE: usize = 65_536;

/// Opens an input.
pub fn open<D: Desk>(name: &str, desk: &mut D) -> Result<(), Refusal>
    requires { IsAllowed name.now (D.seen desk.old).told.may_open }
    ensures opened { Opened name.now result (D.seen desk.old) (D.seen desk.new) }
    ensures writes { (D.seen desk.new).writes ≡ (D.seen desk.old).writes }
    ensures quiet { IfOk result (λ _. (D.seen desk.new).reads ≡ (D.seen desk.old).reads) }
    ensures calls { Calls (OpensBy name.now result) (D.seen desk.old) (D.seen desk.new) }
{
    match desk.open_in(name) {
        Ok(()) => Ok(()),
        Err(OpenFault::Missing) => Err(Refusal::ReadFault),
        Err(OpenFault::Failed) => Err(Refusal::ReadFault),
    }
}

/// Reads a piece of the open input, of at most `most` bytes, into the front of a buffer, and answers its length.
pub fn read_into<D: Desk>(buffer: &mut [u8], most: usize, desk: &mut D) -> Result<usize, Failed>
    requires open { IsTrue (D.seen desk.old).told.input_open }
    requires some { 0 < most }
    requires room { most ≤ length buffer.old }
    ensures few { IfOk result (λ n. n ≤ most) }
    ensures piece { IfOk result (λ n. OfRest (D.seen desk.old).told.rest (λ rest. IsPiece n rest buffer.new)) }
    ensures told { IfOk result (λ n. (D.seen desk.new).told ≡ after_read n (D.seen desk.old).told) }
    ensures same { IfErr result (λ _. (D.seen desk.new).told ≡ (D.seen desk.old).told) }
    ensures counts { ReadCounts result (D.seen desk.old) (D.seen desk.new) }
    ensures calls { Tells (Call.Read most (moved_by result) ∷ []) (D.seen desk.old).calls (D.seen desk.new).calls }
{
    desk.read(&mut buffer[..most])
}

/// Reads the open input until it ends or one byte more than `most` was read, and gives each piece to its
/// keeper. Each read asks for a piece, or for what is left up to that byte (this project's own rule).
fn keep_rest<D: Desk, K: Keeps>(
    alloc: Global,
    most: usize,
    desk: &mut D,
    keeper: &mut K,
    buffer: &mut [u8],
) -> Result<(), Refusal>
    requires open { IsTrue (D.seen desk.old).told.input_open }
    requires few { most < 2 ^ 32 }
    requires room { length buffer.old ≡ 65536 }
    ensures bytes { IfOk result
        (λ _. OfRest (D.seen desk.old).told.rest (λ rest. K.kept keeper.new ≡ K.kept keeper.old ++ take (most + 1) rest)) }
    ensures told { apart (D.seen desk.new).told ≡ apart (D.seen desk.old).told }
    ensures stops { IfErr result (λ refusal. StopsAtRead refusal (D.seen desk.old) (D.seen desk.new)) }
    ensures writes { (D.seen desk.new).writes ≡ (D.seen desk.old).writes }
    ensures quiet { ReadsBy result (D.seen desk.old) (D.seen desk.new) }
    ensures calls { Calls (AreReads (λ at. Always []) most 0) (D.seen desk.old) (D.seen desk.new) }
    ensures through { IfOk result (λ _. Calls (AreAllReads (λ at. Always []) most 0) (D.seen desk.old) (D.seen desk.new)) }
{
    let mut at = 0;
    while at <= most {
        let piece = (most + 1 - at).min(PIECE);
        let count = match read_into(buffer, piece, desk) {
            Ok(count) => count,
            Err(_) => return Err(Refusal::ReadFault),
        };
        if count == 0 {
            return Ok(());
        }
        keeper.keep(alloc, &buffer[..count])?;
        at += count;
    }
    Ok(())
}

/// Gives the pieces of the open input to their keeper, by a buffer that is taken first.
fn keep_opened<D: Desk, K: Keeps>(
    alloc: Global,
    most: usize,
    desk: &mut D,
    keeper: &mut K,
) -> Result<(), Refusal>
    requires open { IsTrue (D.seen desk.old).told.input_open }
    requires few { most < 2 ^ 32 }
    ensures bytes { IfOk result
        (λ _. OfRest (D.seen desk.old).told.rest (λ rest. K.kept keeper.new ≡ K.kept keeper.old ++ take (most + 1) rest)) }
    ensures told { apart (D.seen desk.new).told ≡ apart (D.seen desk.old).told }
    ensures stops { IfErr result (λ refusal. StopsAtRead refusal (D.seen desk.old) (D.seen desk.new)) }
    ensures writes { (D.seen desk.new).writes ≡ (D.seen desk.old).writes }
    ensures quiet { ReadsBy result (D.seen desk.old) (D.seen desk.new) }
    ensures calls { Calls (AreReads (λ at. Always []) most 0) (D.seen desk.old) (D.seen desk.new) }
    ensures through { IfOk result (λ _. Calls (AreAllReads (λ at. Always []) most 0) (D.seen desk.old) (D.seen desk.new)) }
{
    let mut buffer = vec![in alloc; 0; PIECE]?;
    keep_rest(alloc, most, desk, keeper, &mut buffer)
}

/// Reads an input until it ends or one byte more than `most` was read, and gives each piece to its keeper. No memory is
/// taken before the input is open, so one that isn't there is a read fault even where no memory is left.
pub fn read_pieces<D: Desk, K: Keeps>(
    alloc: Global,
    name: &str,
    most: usize,
    desk: &mut D,
    keeper: &mut K,
) -> Result<(), Refusal>
    requires allowed { IsAllowed name.now (D.seen desk.old).told.may_open }
    requires few { most < 2 ^ 32 }
    ensures bytes { IfOk result (λ _.
        OfInput name.now (D.seen desk.old).told.inputs (λ content. K.kept keeper.new ≡ K.kept keeper.old ++ take (most + 1) content)) }
    ensures takes { Takes (a_raw name.now most ∷ []) result (D.seen desk.old) (D.seen desk.new) }
{
    open(name, desk)?;
    keep_opened(alloc, most, desk, keeper)
}

/// Reads an input until it ends or one byte more than `most` was read.
pub fn read_whole<D: Desk>(
    alloc: Global,
    name: &str,
    most: usize,
    desk: &mut D,
) -> Result<Vec<u8>, Refusal>
    requires allowed { IsAllowed name.now (D.seen desk.old).told.may_open }
    requires few { most < 2 ^ 32 }
    ensures bytes { IfOk result
        (λ bytes. OfInput name.now (D.seen desk.old).told.inputs (λ content. bytes.items ≡ take (most + 1) content)) }
    ensures takes { Takes (a_raw name.now most ∷ []) result (D.seen desk.old) (D.seen desk.new) }
{
    let mut bytes = Vec::new(alloc);
    read_pieces(alloc, name, most, desk, &mut bytes)?;
    Ok(bytes)
}
