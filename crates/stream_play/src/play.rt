//! A stream, handed to a player as it is read.

ghost use Rattle.std.specs.Prelude.{◌≡◌, ◌+◌, ◌*◌, ◌≤◌, drop, length, take, IfErr, IfNone, IfOk, IfSome, IsTrue, None, Some, true};
ghost use Rattle.capture_file.specs.Readers.{fresh, front_record, resumed};
ghost use Rattle.capture_file.specs.Records.{StepFits};
ghost use Rattle.capture_file.specs.declared.Step.TheVariants as Step;
ghost use Rattle.command_steps.specs.Inputs.{OfRest, ReadsBy, apart};
ghost use Rattle.command_steps.specs.Reading.{AreAllReads, AreReads, Calls};
ghost use Rattle.stream_play.specs.Plays.{EndsWell, Handed, HandedAll, HandedFront, HandedPart, IsOther, IsAtFault, MayStand, PlaysAll};
ghost use Rattle.stream_play.specs.Plays.{ReadsForm, StopsPlaying, longest_stream};
ghost use Rattle.stream_play.specs.Runs.{HoldsNoFault};

use crate::player::Player;
use capture_desk::Desk;
use capture_file::{FileFault, Got, Input, PAIR, Step, StepReader};
use command_steps::{PIECE, read_into};
use command_texts::Refusal;
use fifo_model::{Entry, Queue};
use std::mem::replace;

/// The most bytes of a stream.
const LONGEST_STREAM: u64 = 4_294_967_295;

/// The most pairs of records that are handed on at once.
const MOST_PAIRS: usize = 512;

/// The bytes of a data push.
const PUSH: usize = 6;

/// Hands a record to the player.
#[inline]
fn hand<P: Player>(player: &mut P, step: Step)
    requires fits { StepFits step }
    requires stands { MayStand P.has_slots step }
    ensures { player.new ≡ P.act step player.old }
{
    match step {
        Step::Push(queue, entry) => player.push(queue, entry),
        Step::Control(code) => player.push_control(code),
        Step::Turns(count) => player.turns(count),
        Step::Host(write) => player.host(write),
        Step::Patch(slot, buffer) => player.patch(slot, buffer),
    }
}

/// Hands pairs of records, plain entries of the queue and the turns behind them, that lie whole at the front of a piece to the player,
/// as many as it takes at once, and answers how many bytes they have. `dwords` is room for their DWORDs, side by side.
#[inline(always)]
fn hand_pairs<P: Player>(
    player: &mut P,
    reader: &mut StepReader,
    queue: Queue,
    piece: &[u8],
    dwords: &mut [u8],
) -> usize
    requires form { ReadsForm P.has_slots reader.old }
    ensures form { ReadsForm P.has_slots reader.new }
    ensures handed { HandedPart P.act result player.old reader.old piece.now player.new reader.new }
{
    let room = player.plain_room(queue) as usize;
    if room == 0 {
        return 0;
    }
    let most = dwords.len().min(4 * room);
    let dwords = &mut dwords[..most];
    let (count, turns) = reader.take_pairs(queue, piece, dwords);
    if count == 0 {
        return 0;
    }
    player.push_plain(queue, &dwords[..4 * count], turns);
    PAIR * count
}

/// Hands a data push to the player, with the turns that lie whole at the front of the bytes behind its record, and answers
/// how many bytes the record of the turns has, 0 where they are no whole record of turns.
#[inline(always)]
fn hand_push<P: Player>(
    player: &mut P,
    reader: &mut StepReader,
    queue: Queue,
    entry: Entry,
    rest: &[u8],
) -> usize
    requires form { ReadsForm P.has_slots reader.old }
    requires fits { StepFits (Step.Push queue entry) }
    ensures form { ReadsForm P.has_slots reader.new }
    ensures handed { HandedPart P.act result (P.act (Step.Push queue entry) player.old) reader.old rest.now player.new reader.new }
{
    match reader.take_turns(rest) {
        Some(count) => {
            player.push_and_turns(queue, entry, count);
            5
        }
        None => {
            player.push(queue, entry);
            0
        }
    }
}

/// Whether two pairs of the queue of the push at the front of a piece may follow behind so many bytes. One alone, as in a planar
/// line, isn't worth the question. Behind a push with no turns the entry waits in the queue, so a run can't begin there.
#[inline(always)]
fn may_go_on(piece: &[u8], used: usize) -> bool
    requires { used ≤ length piece.now }
{
    used > PUSH && piece.get(used) == piece.first() && piece.get(used + PAIR) == piece.first()
}

/// Hands pairs of records that lie whole at the front of a piece, pushes to whichever queue with turns behind them, to the player, one
/// after the other, and answers how many bytes they have. So the DWORDs of a planar line come, which change the queue.
#[inline(always)]
fn hand_mixed<P: Player>(player: &mut P, reader: &mut StepReader, piece: &[u8]) -> usize
    requires form { ReadsForm P.has_slots reader.old }
    ensures form { ReadsForm P.has_slots reader.new }
    ensures handed { HandedPart P.act result player.old reader.old piece.now player.new reader.new }
{
    let mut at = 0;
    while let Some((queue, entry, turns)) = reader.take_pair(&piece[at..]) {
        player.push_and_turns(queue, entry, turns);
        at += PAIR;
    }
    at
}

/// Hands data pushes that lie whole at the front of a piece, with no turns between them, to a player that loses them, and answers how many
/// bytes they have.
#[inline(always)]
fn hand_lost<P: Player>(player: &mut P, reader: &mut StepReader, piece: &[u8]) -> usize
    requires form { ReadsForm P.has_slots reader.old }
    requires loses { P.loses player.old ≡ true }
    ensures form { ReadsForm P.has_slots reader.new }
    ensures handed { HandedPart P.act result player.old reader.old piece.now player.new reader.new }
{
    let (count, lost) = reader.take_pushes(piece);
    player.push_lost(lost);
    PUSH * count
}

/// Hands the records behind so many bytes of a piece to the player, and answers how many bytes they have. The bytes before them
/// begin with a push to the queue. Pairs of this queue are taken at once, and others one by one. Where the push had no turns behind it,
/// pushes that are lost are taken at once.
#[inline(always)]
fn hand_behind<P: Player>(
    player: &mut P,
    reader: &mut StepReader,
    queue: Queue,
    piece: &[u8],
    used: usize,
    dwords: &mut [u8],
) -> usize
    requires form { ReadsForm P.has_slots reader.old }
    requires within { used ≤ length piece.now }
    ensures form { ReadsForm P.has_slots reader.new }
    ensures handed { HandedPart P.act result player.old reader.old (drop used piece.now) player.new reader.new }
{
    if may_go_on(piece, used) {
        hand_pairs(player, reader, queue, &piece[used..], dwords)
    } else if used > PUSH {
        hand_mixed(player, reader, &piece[used..])
    } else if player.loses_all() {
        hand_lost(player, reader, &piece[used..])
    } else {
        0
    }
}

/// Hands the data push, with the turns and the pairs behind it, or the turns that lie whole at the front of a piece to the player, and
/// answers how many bytes their records have.
#[inline(always)]
fn hand_plain<P: Player>(
    player: &mut P,
    reader: &mut StepReader,
    piece: &[u8],
    dwords: &mut [u8],
) -> Option<usize>
    requires form { ReadsForm P.has_slots reader.old }
    ensures form { ReadsForm P.has_slots reader.new }
    ensures handed { IfSome result (λ used. HandedFront P.act (Some used) player.old reader.old piece.now player.new reader.new) }
    ensures none { IfNone result ((player.new ≡ player.old) × (reader.new ≡ reader.old)) }
    ensures other { IfNone result (IsOther (front_record reader.old piece.now)) }
{
    if let Some((queue, entry)) = reader.take_push(piece) {
        let used = PUSH + hand_push(player, reader, queue, entry, &piece[PUSH..]);
        return Some(used + hand_behind(player, reader, queue, piece, used, dwords));
    }
    if let Some(count) = reader.take_turns(piece) {
        player.turns(count);
        return Some(5);
    }
    None
}

/// Hands the data pushes and the turns at the front of a piece to the player, up to another record or the end of the piece, and
/// answers how many bytes their records have.
#[inline(never)]
fn hand_run<P: Player>(player: &mut P, reader: &mut StepReader, piece: &[u8]) -> usize
    requires form { ReadsForm P.has_slots reader.old }
    ensures form { ReadsForm P.has_slots reader.new }
    ensures handed { HandedPart P.act result player.old reader.old piece.now player.new reader.new }
    ensures other { IsOther (front_record reader.new (drop result piece.now)) }
{
    // in a place of this function's own, where its counts are at hand
    let mut own = replace(reader, StepReader::new(LONGEST_STREAM));
    let mut dwords = [0; 4 * MOST_PAIRS];
    let mut at = 0;
    while let Some(used) = hand_plain(player, &mut own, &piece[at..], &mut dwords) {
        at += used;
    }
    *reader = own;
    at
}

/// Hands the record at the front of a piece to the player, and answers how many bytes of the piece it
/// took; none where the piece ends before a record does.
#[inline(never)]
fn hand_record<P: Player>(
    player: &mut P,
    reader: &mut StepReader,
    piece: &[u8],
) -> Result<Option<usize>, FileFault>
    requires form { ReadsForm P.has_slots reader.old }
    ensures form { ReadsForm P.has_slots reader.new }
    ensures handed { IfOk result (λ used. HandedFront P.act used player.old reader.old piece.now player.new reader.new) }
    ensures fault { IfErr result (λ fault. IsAtFault reader.old piece.now fault) }
    ensures sound { IfOk result (λ used. used ≡ None → EndsWell (resumed reader.old piece.now)) }
{
    let (used, got) = reader.take(piece);
    match got {
        Got::Step(step) => {
            hand(player, step);
            Ok(Some(used))
        }
        Got::End => Ok(Some(used)),
        Got::More => Ok(None),
        Got::Bad(fault) => Err(fault),
    }
}

/// Hands the records at the front of a piece to the player, and answers how many bytes of the piece
/// they took; none where the piece ends before a record does.
fn hand_front<P: Player>(
    player: &mut P,
    reader: &mut StepReader,
    piece: &[u8],
) -> Result<Option<usize>, FileFault>
    requires form { ReadsForm P.has_slots reader.old }
    ensures form { ReadsForm P.has_slots reader.new }
    ensures handed { IfOk result (λ used. HandedFront P.act used player.old reader.old piece.now player.new reader.new) }
    ensures fault { IfErr result (λ fault. IsAtFault reader.old piece.now fault) }
    ensures sound { IfOk result (λ used. used ≡ None → EndsWell (resumed reader.old piece.now)) }
{
    let run = hand_run(player, reader, piece);
    if run > 0 {
        Ok(Some(run))
    } else {
        hand_record(player, reader, piece)
    }
}

/// Hands a piece to the player, record by record, up to its end or the stream's first fault.
fn hand_piece<P: Player>(
    player: &mut P,
    reader: &mut StepReader,
    piece: &[u8],
) -> Result<(), FileFault>
    requires form { ReadsForm P.has_slots reader.old }
    ensures form { ReadsForm P.has_slots reader.new }
    ensures handed { IfOk result (λ _. Handed P.act player.old reader.old piece.now player.new reader.new) }
    ensures place { IfOk result (λ _. reader.new.place ≡ reader.old.place + length piece.now) }
    ensures fault { IfErr result (λ fault. IsAtFault reader.old piece.now fault) }
    ensures sound { IfOk result (λ _. EndsWell (resumed reader.old piece.now)) }
{
    let mut at = 0;
    while let Some(used) = hand_front(player, reader, &piece[at..])? {
        at += used;
    }
    Ok(())
}

/// Hands the rest of the open input to the player, up to its end or a byte beyond the longest stream.
fn hand_all<D: Desk, P: Player>(
    player: &mut P,
    reader: &mut StepReader,
    desk: &mut D,
    buffer: &mut [u8],
) -> Result<(), Refusal>
    requires open { IsTrue (D.seen desk.old).told.input_open }
    requires room { length buffer.old ≡ 65536 }
    requires begins { reader.old ≡ fresh longest_stream P.has_slots }
    ensures handed { IfOk result
        (λ _. OfRest (D.seen desk.old).told.rest (λ bytes. HandedAll P.act P.has_slots bytes player.old player.new reader.new)) }
    ensures stops { IfErr result
        (λ refusal. StopsPlaying P.has_slots (D.seen desk.old).told.rest refusal (D.seen desk.old) (D.seen desk.new)) }
    ensures told { apart (D.seen desk.new).told ≡ apart (D.seen desk.old).told }
    ensures writes { (D.seen desk.new).writes ≡ (D.seen desk.old).writes }
    ensures quiet { ReadsBy result (D.seen desk.old) (D.seen desk.new) }
    ensures calls { Calls
        (AreReads (λ at. OfRest (D.seen desk.old).told.rest (λ bytes. HoldsNoFault P.has_slots (take at bytes))) longest_stream 0)
        (D.seen desk.old) (D.seen desk.new) }
    ensures through { IfOk result (λ _.
        Calls (AreAllReads (λ at. OfRest (D.seen desk.old).told.rest (λ bytes. HoldsNoFault P.has_slots (take at bytes))) longest_stream 0)
        (D.seen desk.old) (D.seen desk.new)) }
{
    let mut place: u64 = 0;
    while place <= LONGEST_STREAM {
        let piece = (LONGEST_STREAM + 1 - place).min(PIECE as u64) as usize;
        let count = match read_into(buffer, piece, desk) {
            Ok(count) => count,
            Err(_) => return Err(Refusal::ReadFault),
        };
        if count == 0 {
            return Ok(());
        }
        if let Err(fault) = hand_piece(player, reader, &buffer[..count]) {
            return Err(Refusal::Malformed(Input::Stream, fault));
        }
        place += count as u64;
    }
    Ok(())
}

/// Plays the stream that is open to its end.
pub fn play<D: Desk, P: Player>(
    player: &mut P,
    desk: &mut D,
    buffer: &mut [u8],
) -> Result<(), Refusal>
    requires open { IsTrue (D.seen desk.old).told.input_open }
    requires room { length buffer.old ≡ 65536 }
    ensures played { IfOk result
        (λ _. OfRest (D.seen desk.old).told.rest (λ bytes. PlaysAll P.act P.has_slots bytes player.old player.new)) }
    ensures stops { IfErr result
        (λ refusal. StopsPlaying P.has_slots (D.seen desk.old).told.rest refusal (D.seen desk.old) (D.seen desk.new)) }
    ensures told { apart (D.seen desk.new).told ≡ apart (D.seen desk.old).told }
    ensures writes { (D.seen desk.new).writes ≡ (D.seen desk.old).writes }
    ensures quiet { ReadsBy result (D.seen desk.old) (D.seen desk.new) }
    ensures calls { Calls
        (AreReads (λ at. OfRest (D.seen desk.old).told.rest (λ bytes. HoldsNoFault P.has_slots (take at bytes))) longest_stream 0)
        (D.seen desk.old) (D.seen desk.new) }
    ensures through { IfOk result (λ _.
        Calls (AreAllReads (λ at. OfRest (D.seen desk.old).told.rest (λ bytes. HoldsNoFault P.has_slots (take at bytes))) longest_stream 0)
        (D.seen desk.old) (D.seen desk.new)) }
{
    let mut reader = P::reader(LONGEST_STREAM);
    hand_all(player, &mut reader, desk, buffer)?;
    match reader.close() {
        Ok(()) => Ok(()),
        Err(fault) => Err(Refusal::Malformed(Input::Stream, fault)),
    }
}
