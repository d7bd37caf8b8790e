//! A reader of streams that come in pieces.

ghost use Rattle.capture_file.specs.Readers.{AnswerFits, Closed, Failed, Opening, Records, Counts, IsReader, PlacedAt, Stays, Uses};
ghost use Rattle.capture_file.specs.Readers.{after_answer, behind_word, closed_by, closed_taken, ending_in};
ghost use Rattle.capture_file.specs.Readers.{fresh, record_taken, resumed, room, taken, taking, word_taken, Takes, front_record};
ghost use Rattle.capture_file.specs.Pairs.{AreAll, IsBetween, NoPair, TakesPairs};
ghost use Rattle.capture_file.specs.Pushes.{NoPlainPush, TakesPushes};
ghost use Rattle.capture_file.specs.Records.{FoundFits, HasFour, Passes, Spans, StepFits, Sums, push_in, turns_in};
ghost use Rattle.capture_file.specs.declared.FileFault.{FileFault};
ghost use Rattle.capture_file.specs.declared.records.Found.TheVariants.{Cut};
ghost use Rattle.capture_file.specs.Streams.{Bad, fault_at, most_turns, number_at, reading, record_at, stream_of, turns_of};
ghost use Rattle.std.specs.Prelude.{◌≡◌, ◌≤◌, ◌<◌, ◌+◌, ◌-◌, ◌*◌, ◌^◌, ◌++◌, List, ℕ, [], None, IfSome, IfNone, take, drop, length, true};
ghost use Rattle.std.specs.Prelude.{false, ◌∷◌};
ghost use Rattle.fifo_model.specs.declared.Entry.{Entry as EntryOf};
ghost use Rattle.fifo_model.specs.declared.Queue.{Queue as QueueOf};
ghost use Rattle.fifo_model.specs.Queues.{lane_bytes};
ghost use Rattle.machine_model.specs.PlainEntries.{plain_entry};

use super::pairs::{any_pair_at, copy_pairs};
use super::pushes::count_pushes;
use super::records::{Form, Found, MOST_TURNS, find, find_push, find_turns, form_named, number};
use super::{FileFault, FileKind, Step};
use fifo_model::{Entry, Queue};
use irq_status::HostWrite;
use std::marker::Model;

/// What the front of a piece gave.
#[derive(Clone, Copy, Debug, PartialEq)]
pub enum Got {
    /// A record ended, or the first word of BFS2 or BFS3.
    Step(Step),
    /// The end record.
    End,
    /// The piece is used up.
    More,
    /// The stream is at fault.
    Bad(FileFault),
}

/// What a reader is at.
#[derive(Clone, Copy)]
pub enum State {
    /// In the first word.
    Opening,
    /// Where a record begins, with nothing held.
    Between(Form),
    /// In a record.
    Within(Form),
    /// After the end record.
    Closed,
    /// After a fault.
    Failed(FileFault),
}

/// The bytes of a first word or a record that has not ended.
#[derive(Drop)]
struct Held {
    bytes: [u8; 6],
    count: usize,
}

impl Model for Held {
    ghost Value = { List ℕ };

    ghost view = { λ h. take h.count h.bytes };

    ghost invariant = { λ h. h.count ≤ 6 };
}

impl Held {
    fn none() -> Held
        ensures { result ≡ [] }
    {
        Held {
            bytes: [0; 6],
            count: 0,
        }
    }

    fn clear(&mut self)
        ensures { self.new ≡ [] }
    {
        self.count = 0;
    }

    fn len(&self) -> usize
        ensures { result ≡ length self.now }
    {
        self.count
    }

    fn as_slice(&self) -> &[u8]
        ensures { result.now ≡ self.now }
    {
        &self.bytes[..self.count]
    }

    fn fill(&mut self, more: &[u8])
        ensures { self.new ≡ take 6 (self.old ++ more.now) }
    {
        let count = more.len().min(6 - self.count);
        self.bytes[self.count..self.count + count].copy_from_slice(&more[..count]);
        self.count += count;
    }
}

#[inline]
fn fault(at: u64, kind: FileKind) -> FileFault
    ensures { result ≡ fault_at at kind }
{
    FileFault { at, kind }
}

/// The bytes of a piece that are below a limit.
#[inline]
fn below(piece: &[u8], room: u64) -> &[u8]
    ensures { result.now ≡ take room piece.now }
{
    if piece.len() as u64 <= room {
        piece
    } else {
        &piece[..room as usize]
    }
}

/// Ends a reader at a fault, up to which so many bytes were used.
fn fail(state: &mut State, held: &mut Held, used: usize, fault: FileFault) -> (usize, Got)
    ensures state { state.new ≡ State.Failed fault }
    ensures held { held.new ≡ [] }
    ensures answer { (result.0 ≡ used) × (result.1 ≡ Got.Bad fault) }
{
    held.clear();
    *state = State::Failed(fault);
    (used, Got::Bad(fault))
}

/// The turns so far and those of a step.
fn turns_with(turns: u32, step: &Step) -> u32
    requires { turns + turns_of step.now ≤ most_turns }
    ensures { result ≡ turns + turns_of step.now }
{
    match step {
        Step::Turns(count) => turns + *count,
        _ => turns,
    }
}

/// The record that the bytes of an earlier piece and these begin.
fn find_across(form: Form, turns: u32, held: &mut Held, more: &[u8]) -> Found
    requires cut { record_at form turns held.old ≡ Cut }
    requires few { turns ≤ most_turns }
    ensures found { result ≡ record_at form turns (held.old ++ more.now) }
    ensures kept { result ≡ Cut → held.new ≡ held.old ++ more.now }
    ensures spans { Spans result (length held.old + length more.now) }
    ensures passes { Passes result (length held.old) }
    ensures sums { Sums result turns }
    ensures fits { FoundFits result }
{
    held.fill(more);
    find(form, turns, held.as_slice())
}

/// The first word that the bytes of an earlier piece and these begin.
fn number_across(held: &mut Held, more: &[u8]) -> Option<u32>
    ensures found { result ≡ number_at (held.old ++ more.now) }
    ensures kept { result ≡ None → held.new ≡ held.old ++ more.now }
    ensures spans { HasFour result (length held.old + length more.now) }
{
    held.fill(more);
    number(held.as_slice())
}

/// Reads a stream that comes in pieces, a record at a time.
#[derive(Drop)]
pub struct StepReader {
    limit: u64,
    room: u64,
    turns: u32,
    chained: bool,
    state: State,
    held: Held,
}

impl Model for StepReader {
    ghost use Rattle.std.specs.Prelude.{◌-◌, ◌≤◌};
    ghost use Rattle.capture_file.specs.Readers.{Reader, IsReader, HoldsAt, phase_of};

    ghost Value = { Reader };

    ghost view = { λ s.
        record {
          limit = s.limit;
          chained = s.chained;
          phase = phase_of s.state;
          place = s.limit - s.room;
          turns = s.turns;
          held = s.held;
        } };

    ghost invariant = { λ s.
        (s.room ≤ s.limit)
        × HoldsAt s.state s.held
        × IsReader
        (record {
          limit = s.limit;
          chained = s.chained;
          phase = phase_of s.state;
          place = s.limit - s.room;
          turns = s.turns;
          held = s.held;
        }) };
}

impl StepReader {
    fn opening(limit: u64, chained: bool) -> StepReader
        ensures { result ≡ fresh limit chained }
    {
        StepReader {
            limit,
            room: limit,
            turns: 0,
            chained,
            state: State::Opening,
            held: Held::none(),
        }
    }

    /// A reader of BFS1 and BFS2 streams of at most `limit` bytes.
    #[tactic(auto, unfolding(crate::specs::Readers::resumed))]
    pub fn new(limit: u64) -> StepReader
        ensures made { result ≡ fresh limit false }
        ensures whole { (bytes : List ℕ) → resumed result bytes ≡ stream_of limit false bytes }
    {
        StepReader::opening(limit, false)
    }

    /// A reader of BFS3 streams of at most `limit` bytes.
    #[tactic(auto, unfolding(crate::specs::Readers::resumed))]
    pub fn chained(limit: u64) -> StepReader
        ensures made { result ≡ fresh limit true }
        ensures whole { (bytes : List ℕ) → resumed result bytes ≡ stream_of limit true bytes }
    {
        StepReader::opening(limit, true)
    }

    /// The data push that lies whole at the front of a piece.
    #[inline(always)]
    #[tactic(auto, unfolding(crate::specs::Readers::taken))]
    fn push_front(&mut self, piece: &[u8]) -> Option<(Queue, Entry)>
        ensures found { result ≡ push_in (front_record self.old piece.now) }
        ensures some { IfSome result (λ push. taking 6 (Got.Step (Step.Push push.0 push.1)) self.new ≡ taken self.old piece.now) }
        ensures fits { IfSome result (λ push. StepFits (Step.Push push.0 push.1)) }
        ensures none { IfNone result (self.new ≡ self.old) }
        ensures valid { IsReader self.old }
    {
        let _limit = &self.limit;
        if let Some(push) = find_push(piece)
            && let State::Between(_) = self.state
            && piece.len() as u64 <= self.room
        {
            self.room -= 6;
            return Some(push);
        }
        None
    }

    /// The count of turns that lies whole at the front of a piece.
    #[inline(always)]
    #[tactic(auto, unfolding(crate::specs::Readers::taken))]
    fn turns_front(&mut self, piece: &[u8]) -> Option<u32>
        ensures found { result ≡ turns_in (front_record self.old piece.now) }
        ensures some { IfSome result (λ count. taking 5 (Got.Step (Step.Turns count)) self.new ≡ taken self.old piece.now) }
        ensures none { IfNone result (self.new ≡ self.old) }
        ensures valid { IsReader self.old }
    {
        let _limit = &self.limit;
        if let State::Between(_) = self.state
            && piece.len() as u64 <= self.room
            && let Some(count) = find_turns(self.turns, piece)
        {
            self.room -= 5;
            self.turns += count;
            return Some(count);
        }
        None
    }

    /// Goes on where a record begins or is under way, and keeps what is cut.
    fn take_record(&mut self, form: Form, piece: &[u8]) -> (usize, Got)
        requires { self.old.phase ≡ Records form }
        ensures exact { taking result.0 result.1 self.new ≡ record_taken form self.old piece.now }
        ensures fits { AnswerFits result.1 }
        ensures within { result.0 ≤ length piece.now }
    {
        let room = self.room;
        let before = self.held.len();
        let start = self.limit - room - before as u64;
        match find_across(form, self.turns, &mut self.held, below(piece, room)) {
            Found::Cut => {
                if piece.len() as u64 > room {
                    let fault = fault(self.limit, FileKind::TooLong);
                    return fail(&mut self.state, &mut self.held, room as usize + 1, fault);
                }
                self.room -= piece.len() as u64;
                if !piece.is_empty() {
                    self.state = State::Within(form);
                }
                (piece.len(), Got::More)
            }
            Found::Wrong(from, to, kind) => {
                let fault = fault(start + u64::from(from), kind);
                let used = usize::from(to) - before;
                fail(&mut self.state, &mut self.held, used, fault)
            }
            Found::Last => {
                self.held.clear();
                self.room -= 1;
                self.state = State::Closed;
                (1, Got::End)
            }
            Found::Whole(step, len) => {
                let used = usize::from(len) - before;
                self.held.clear();
                self.room -= used as u64;
                self.state = State::Between(form);
                self.turns = turns_with(self.turns, &step);
                (used, Got::Step(step))
            }
        }
    }

    /// Goes on in the first word.
    fn take_word(&mut self, piece: &[u8]) -> (usize, Got)
        requires { self.old.phase ≡ Opening }
        ensures exact { taking result.0 result.1 self.new
            ≡ word_taken (number_at (self.old.held ++ take (room self.old) piece.now)) self.old piece.now }
        ensures fits { AnswerFits result.1 }
    {
        let room = self.room;
        let before = self.held.len();
        match number_across(&mut self.held, below(piece, room)) {
            None => {
                if piece.len() as u64 > room {
                    let fault = fault(self.limit, FileKind::TooLong);
                    return fail(&mut self.state, &mut self.held, room as usize + 1, fault);
                }
                self.room -= piece.len() as u64;
                (piece.len(), Got::More)
            }
            Some(word) => {
                let used = 4 - before;
                match form_named(self.chained, word) {
                    None => {
                        let fault = fault(0, FileKind::Magic);
                        fail(&mut self.state, &mut self.held, used, fault)
                    }
                    Some(form) => {
                        self.held.clear();
                        self.room = self.limit - 4;
                        self.state = State::Between(form);
                        self.after_word(form, used, &piece[used..])
                    }
                }
            }
        }
    }

    /// Goes on behind the first word, of which so many bytes were used.
    fn after_word(&mut self, form: Form, used: usize, rest: &[u8]) -> (usize, Got)
        requires begun { self.old.phase ≡ Records form }
        requires few { used + length rest.now < 2 ^ 64 }
        ensures exact { taking result.0 result.1 self.new ≡ behind_word form used self.old rest.now }
        ensures fits { AnswerFits result.1 }
    {
        match form {
            Form::Bfs1 => {
                let (more, got) = self.take_record(form, rest);
                (used + more, got)
            }
            Form::Bfs2 | Form::Bfs3 => (used, Got::Step(Step::Host(HostWrite::Trigger(0)))),
        }
    }

    /// Goes on behind the end record.
    fn take_end(&mut self, piece: &[u8]) -> (usize, Got)
        requires { self.old.phase ≡ Closed }
        ensures exact { taking result.0 result.1 self.new ≡ closed_taken self.old piece.now }
        ensures fits { AnswerFits result.1 }
    {
        if piece.is_empty() {
            return (0, Got::More);
        }
        let kind = if 0 < self.room {
            FileKind::AfterEnd
        } else {
            FileKind::TooLong
        };
        let fault = fault(self.limit - self.room, kind);
        fail(&mut self.state, &mut self.held, 1, fault)
    }

    /// Goes on with a piece.
    #[tactic(auto, unfolding(crate::specs::Readers::taken))]
    fn advance(&mut self, piece: &[u8]) -> (usize, Got)
        ensures exact { taking result.0 result.1 self.new ≡ taken self.old piece.now }
        ensures fits { AnswerFits result.1 }
        ensures valid { IsReader self.old }
    {
        match self.state {
            State::Opening => self.take_word(piece),
            State::Between(form) | State::Within(form) => self.take_record(form, piece),
            State::Closed => self.take_end(piece),
            State::Failed(fault) => (0, Got::Bad(fault)),
        }
    }

    /// Uses bytes from the front of the piece until a record ends, the stream is at fault or the piece
    /// is used up, and answers how many. After a fault it answers the same fault, and uses none.
    pub fn take(&mut self, piece: &[u8]) -> (usize, Got)
        ensures exact { taking result.0 result.1 self.new ≡ taken self.old piece.now }
        ensures whole { (more : List ℕ) → resumed self.old (piece.now ++ more)
            ≡ after_answer result.1 (resumed self.new (drop result.0 piece.now ++ more)) }
        ensures used { Uses result.1 result.0 (length piece.now) }
        ensures place { Counts result.1 (self.old.place + result.0) self.new.place }
        ensures moves { (before : ℕ) → PlacedAt self.old.phase self.old.place before
            → PlacedAt self.new.phase self.new.place (before + result.0) }
        ensures stays { Stays result.1 self.new.phase }
        ensures again { (fault : FileFault) → self.old.phase ≡ Failed fault
            → (result.0 ≡ 0) × (result.1 ≡ Got.Bad fault) × (self.new ≡ self.old) }
        ensures sound { result.1 ≡ Got.More → (fault : FileFault) → (resumed self.old piece.now).ending ≡ Bad fault → ⊥ }
        ensures fits { AnswerFits result.1 }
    {
        self.advance(piece)
    }

    /// Takes a data push whose record, of 6 bytes, lies whole at the front of the piece. There is none
    /// where another record is there, where a record is under way, or where the piece passes the
    /// limit. Then the reader stays as it was, and `take` goes on.
    #[inline(always)]
    pub fn take_push(&mut self, piece: &[u8]) -> Option<(Queue, Entry)>
        ensures found { result ≡ push_in (front_record self.old piece.now) }
        ensures some { IfSome result (λ push. Takes (Step.Push push.0 push.1) 6 self.old piece.now self.new) }
        ensures none { IfNone result (self.new ≡ self.old) }
    {
        self.push_front(piece)
    }

    /// Takes a count of turns whose record, of 5 bytes, lies whole at the front of the piece. There is
    /// none where `take_push` has none, and where the turns so far would be too many.
    #[inline(always)]
    pub fn take_turns(&mut self, piece: &[u8]) -> Option<u32>
        ensures found { result ≡ turns_in (front_record self.old piece.now) }
        ensures some { IfSome result (λ count. Takes (Step.Turns count) 5 self.old piece.now self.new) }
        ensures none { IfNone result (self.new ≡ self.old) }
    {
        self.turns_front(piece)
    }

    /// Takes pairs of records, a data push to the queue with the status PixelsValid and one turn or more behind it, that lie whole at
    /// the front of the piece, and copies their DWORDs, four bytes for each, one behind the other: how many pairs, of 11 bytes each, and
    /// the sum of their turns. It takes all that are there and have room. None where a record is under way, or where the limit is
    /// within the piece.
    #[inline]
    pub fn take_pairs(&mut self, queue: Queue, piece: &[u8], dwords: &mut [u8]) -> (usize, u32)
        ensures taken { (pairs : List (ℕ × ℕ)) × TakesPairs queue result.0 result.1 dwords.new self.old piece.now self.new pairs }
        ensures room { 4 * result.0 ≤ length dwords.new }
        ensures all { IsBetween self.old piece.now → AreAll queue self.new.turns result.0 piece.now (length dwords.new) }
        ensures none { (IsBetween self.old piece.now → ⊥) → result.0 ≡ 0 }
    {
        if let State::Between(_) = self.state
            && piece.len() as u64 <= self.room
        {
            let (count, turns) = copy_pairs(queue, MOST_TURNS - self.turns, piece, dwords);
            self.room -= 11 * count as u64;
            self.turns += turns;
            return (count, turns);
        }
        (0, 0)
    }

    /// Takes one pair of records, a data push to whichever queue with the status PixelsValid and one turn or more behind it, that lies
    /// whole at the front of the piece, of 11 bytes: the queue, the entry and its turns. None where a record is under way, or where the
    /// limit is within the piece.
    #[inline(always)]
    pub fn take_pair(&mut self, piece: &[u8]) -> Option<(Queue, Entry, u32)>
        ensures taken { IfSome result (λ pair. TakesPairs pair.0 1 pair.2 (lane_bytes pair.1.dword) self.old piece.now self.new
            ((pair.1.dword, pair.2) ∷ [])) }
        ensures plain { IfSome result (λ pair. pair.1 ≡ plain_entry pair.1.dword) }
        ensures none { IfNone result (self.new ≡ self.old) }
        ensures all { IfNone result (IsBetween self.old piece.now → (queue : Queue) → NoPair queue self.old.turns piece.now) }
    {
        let State::Between(_) = self.state else {
            return None;
        };
        if piece.len() as u64 > self.room {
            return None;
        }
        let (queue, entry, turns) = any_pair_at(MOST_TURNS - self.turns, piece)?;
        self.room -= 11;
        self.turns += turns;
        Some((queue, entry, turns))
    }

    /// Takes data pushes with the status PixelsValid, to whichever queues, whose records, of 6 bytes each, lie whole at the front of the
    /// piece: how many, and how many to queues 1, 2 and 3. It takes all that are there. None where a record is under way, or where the
    /// limit is within the piece.
    #[inline]
    pub fn take_pushes(&mut self, piece: &[u8]) -> (usize, [usize; 3])
        ensures taken { (pushes : List (QueueOf × EntryOf)) × TakesPushes result.0 result.1 self.old piece.now self.new pushes }
        ensures all { IsBetween self.old piece.now → NoPlainPush (drop (6 * result.0) piece.now) }
        ensures none { (IsBetween self.old piece.now → ⊥) → result.0 ≡ 0 }
    {
        if let State::Between(_) = self.state
            && piece.len() as u64 <= self.room
        {
            let (count, counts) = count_pushes(piece);
            self.room -= 6 * count as u64;
            return (count, counts);
        }
        (0, [0; 3])
    }

    fn closing(&self) -> Result<(), FileFault>
        ensures value { result ≡ closed_by self.now.place (ending_in self.now.phase) }
        ensures valid { IsReader self.now }
    {
        match self.state {
            State::Opening | State::Between(_) | State::Within(_) => {
                Err(fault(self.limit - self.room, FileKind::Short))
            }
            State::Closed => Ok(()),
            State::Failed(fault) => Err(fault),
        }
    }

    /// Whether the bytes used are a whole stream. Where they end before the end record, the fault is
    /// `Short`, and its place is their number.
    pub fn close(&self) -> Result<(), FileFault>
        ensures value { result ≡ closed_by self.now.place (ending_in self.now.phase) }
        ensures rest { resumed self.now [] ≡ reading [] (ending_in self.now.phase) }
    {
        self.closing()
    }
}
