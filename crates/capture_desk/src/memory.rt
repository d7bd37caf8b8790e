//! The desk over memory.
ghost use Rattle.std.specs.Prelude.{All, IfOk, IsTrue, MatchOption, None, [], drop, is_some, length, map, option_copied, take, true, ℕ};
ghost use Rattle.std.specs.Prelude.{◌++◌, ◌+◌, ◌<◌, ◌∷◌, ◌≡◌, ◌≤◌};
ghost use Rattle.capture_desk.specs.declared.memory.Slot.{Slot};
ghost use Rattle.capture_desk.specs.Inside.{IsFirstInput, IsFirstSlot, entry, kept};
ghost use Rattle.capture_desk.specs.Desks.{Appends, IsAllowed, is_among, Makes, OpenCounts, Opens, ReadCounts, Reads, Told, CallCounts};
ghost use Rattle.capture_desk.specs.Desks.{after_create, after_finish, after_say, after_write, named, output_named};
ghost use Rattle.capture_desk.specs.Memory.{Memory, add_answer, added, all_told, seen_of, append_answer, called, created_by, filled};
ghost use Rattle.capture_desk.specs.Memory.{finished, held, is_failing, names_of, new_memory, open_answer};
ghost use Rattle.capture_desk.specs.Memory.{opened, passed, read_answer, read_failed, read_on, rest_of, spoke, spoken, write_answer};
ghost use Rattle.capture_desk.specs.Memory.{write_failed, wrote};

use crate::bounded::Bounded;
use crate::desk::{Desk, Failed, OpenFault};
use crate::octets::Octets;
use std::alloc::{AllocError, Global};
use std::marker::Model;

// The first input of a name.
fn input_of(inputs: &[(Octets, Octets)], name: &[u8]) -> Option<usize>
    ensures { MatchOption result (named name.now inputs.now ≡ None) (λ i. IsFirstInput name.now inputs.now i) }
{
    for (i, input) in inputs.iter().enumerate() {
        if input.0.as_slice() == name {
            return Some(i);
        }
    }
    None
}

// The first slot of a name.
fn slot_of(slots: &[Slot], name: &[u8]) -> Option<usize>
    ensures { MatchOption result (named name.now (map entry slots.now) ≡ None) (λ i. IsFirstSlot name.now slots.now i) }
{
    for (i, slot) in slots.iter().enumerate() {
        if slot.name.as_slice() == name {
            return Some(i);
        }
    }
    None
}

// The place of an output that may be created.
#[derive(Drop)]
struct Slot {
    name: Octets,
    made: bool,
    held: Bounded,
}

// An input, and how many of its bytes are not read yet.
#[derive(Clone, Copy)]
struct Place {
    input: usize,
    left: usize,
}

/// A desk over memory that tells everything.
///
/// Its calls are numbered together, from 1, and those with the given numbers fail. A call moves at most
/// `longest` bytes, and an output or the text never passes `room` bytes: an append to a full one fails.
#[derive(Drop)]
pub struct MemDesk {
    inputs: Vec<(Octets, Octets)>,
    opens: Vec<Octets>,
    slots: Vec<Slot>,
    text: Bounded,
    failing: Vec<u64>,
    longest: usize,
    calls: u64,
    reading: Option<Place>,
    writing: Option<usize>,
    read_faults: u64,
    write_faults: u64,
    failed: bool,
}

impl Model for MemDesk {
    ghost use Rattle.capture_desk.specs.Memory.{Memory};

    ghost Value = { Memory };

    ghost use Rattle.capture_desk.specs.Inside.{memory_of, IsWhole};

    ghost view = { memory_of };

    ghost invariant = { IsWhole };
}

impl Slot {
    // Makes the output, or makes it empty.
    fn make(&mut self)
        ensures { self.new ≡ record self.old { made = true; held = record self.old.held { bytes = [] } } }
    {
        self.made = true;
        self.held.clear();
    }

    fn output(&self) -> Option<&[u8]>
        ensures { option_copied result ≡ kept self.now.made self.now.held.bytes }
    {
        if self.made {
            Some(self.held.as_slice())
        } else {
            None
        }
    }

    fn append(&mut self, piece: &[u8])
        requires { length self.old.held.bytes + length piece.now ≤ self.old.held.room }
        ensures { self.new ≡ record self.old { held = record self.old.held { bytes = self.old.held.bytes ++ piece.now } } }
    {
        self.held.append(piece);
    }
}

// A slot for each name, with all the memory that it may use.
fn slots_for(alloc: Global, names: Vec<Octets>, room: usize) -> Result<Vec<Slot>, AllocError>
    ensures entries { IfOk result (λ slots. map entry slots.items ≡ map (λ name. (name, None)) names.items) }
    ensures rooms { IfOk result (λ slots. All (λ (slot : Slot). slot.held.room ≡ room) slots.items) }
{
    let mut slots = Vec::with_capacity(alloc, names.len())?;
    for name in names {
        let held = Bounded::new(alloc, room)?;
        slots.push(Slot {
            name,
            made: false,
            held,
        })?;
    }
    Ok(slots)
}

// Copies the first bytes into the front of a buffer.
fn copy_front(buf: &mut [u8], bytes: &[u8], n: usize)
    requires { (n ≤ length buf.old) × (n ≤ length bytes.now) }
    ensures { buf.new ≡ take n bytes.now ++ drop n buf.old }
{
    buf[..n].copy_from_slice(&bytes[..n]);
}

impl MemDesk {
    /// A desk with these inputs, each its name and its bytes, and with the names that may be opened and
    /// created; of equal names the first counts. The calls whose numbers, counted from 1, are in
    /// `failing` fail, and a call moves at most `longest` bytes, which is 1 at least. All its memory is
    /// taken here: `room` bytes for each name that may be created and for the text. The error is out
    /// of memory.
    pub fn new(
        alloc: Global,
        inputs: Vec<(Octets, Octets)>,
        opens: Vec<Octets>,
        creates: Vec<Octets>,
        failing: Vec<u64>,
        longest: usize,
        room: usize,
    ) -> Result<MemDesk, AllocError>
        requires { 1 ≤ longest }
        ensures { IfOk result (λ desk. desk ≡ new_memory inputs.items opens.items creates.items failing.items longest room) }
    {
        let slots = slots_for(alloc, creates, room)?;
        let text = Bounded::new(alloc, room)?;
        Ok(MemDesk {
            inputs,
            opens,
            slots,
            text,
            failing,
            longest,
            calls: 0,
            reading: None,
            writing: None,
            read_faults: 0,
            write_faults: 0,
            failed: false,
        })
    }

    /// The bytes of the output of this name, where there is one.
    pub fn output(&self, name: &str) -> Option<&[u8]>
        ensures { option_copied result ≡ output_named name.now self.now.outputs }
    {
        match slot_of(&self.slots, name.as_bytes()) {
            None => None,
            Some(i) => self.slots[i].output(),
        }
    }

    /// The text that was printed.
    pub fn said(&self) -> &[u8]
        ensures { result.now ≡ self.now.text }
    {
        self.text.as_slice()
    }

    /// The counts of faults: of reads, and of writes.
    pub fn faults(&self) -> [u64; 2]
        ensures { result ≡ self.now.read_faults ∷ self.now.write_faults ∷ [] }
    {
        [self.read_faults, self.write_faults]
    }

    // Numbers a call, and answers whether it fails.
    fn next_fails(&mut self) -> bool
        ensures after { self.new ≡ called self.old }
        ensures fails { result ≡ is_failing self.old }
    {
        self.calls = self.calls.saturating_add(1);
        self.failed = false;
        self.failing.contains(&self.calls)
    }

    fn count_read_fault(&mut self)
        ensures { self.new ≡ read_failed self.old }
    {
        self.read_faults = self.read_faults.saturating_add(1);
        self.failed = true;
    }

    fn count_write_fault(&mut self)
        ensures { self.new ≡ write_failed self.old }
    {
        self.write_faults = self.write_faults.saturating_add(1);
        self.failed = true;
    }

    fn open_step(&mut self, name: &[u8]) -> Result<(), OpenFault>
        ensures answer { result ≡ open_answer name.now self.old }
        ensures after { self.new ≡ opened name.now self.old }
    {
        if self.next_fails() {
            self.count_read_fault();
            return Err(OpenFault::Failed);
        }
        match input_of(&self.inputs, name) {
            None => Err(OpenFault::Missing),
            Some(input) => {
                let left = self.inputs[input].1.as_slice().len();
                self.reading = Some(Place { input, left });
                Ok(())
            }
        }
    }

    // What is left of the open input.
    fn rest(&self) -> &[u8]
        requires { IsTrue (is_some self.now.rest) }
        ensures { result.now ≡ rest_of self.now }
    {
        match self.reading {
            None => unreachable!(),
            Some(place) => {
                let bytes = self.inputs[place.input].1.as_slice();
                &bytes[bytes.len() - place.left..]
            }
        }
    }

    fn pass(&mut self, n: usize)
        requires open { IsTrue (is_some self.old.rest) }
        requires within { n ≤ length (rest_of self.old) }
        ensures { self.new ≡ passed n self.old }
    {
        match self.reading {
            None => unreachable!(),
            Some(place) => {
                self.reading = Some(Place {
                    input: place.input,
                    left: place.left - n,
                });
            }
        }
    }

    fn read_step(&mut self, buf: &mut [u8]) -> Result<usize, Failed>
        requires open { IsTrue (is_some self.old.rest) }
        requires some { 0 < length buf.old }
        ensures answer { result ≡ read_answer (length buf.old) self.old }
        ensures after { self.new ≡ read_on (length buf.old) self.old }
        ensures moved { buf.new ≡ filled buf.old self.old }
        ensures end { IfOk result (λ n. n ≡ 0 → rest_of self.old ≡ []) }
    {
        if self.next_fails() {
            self.count_read_fault();
            return Err(Failed);
        }
        let rest = self.rest();
        let n = self.longest.min(buf.len()).min(rest.len());
        copy_front(buf, rest, n);
        self.pass(n);
        Ok(n)
    }

    fn create_step(&mut self, name: &[u8]) -> Result<(), Failed>
        requires { IsTrue (is_among name.now (names_of self.old.outputs)) }
        ensures answer { result ≡ write_answer self.old }
        ensures after { self.new ≡ created_by name.now self.old }
    {
        if self.next_fails() {
            self.count_write_fault();
            return Err(Failed);
        }
        match slot_of(&self.slots, name) {
            None => unreachable!(),
            Some(i) => {
                self.slots[i].make();
                self.writing = Some(i);
                Ok(())
            }
        }
    }

    fn finish_step(&mut self) -> Result<(), Failed>
        ensures answer { result ≡ write_answer self.old }
        ensures after { self.new ≡ finished self.old }
    {
        if self.next_fails() {
            self.count_write_fault();
            return Err(Failed);
        }
        self.writing = None;
        Ok(())
    }

    // Appends to the open output.
    fn add(&mut self, bytes: &[u8]) -> Result<usize, Failed>
        requires open { IsTrue (is_some self.old.writing) }
        requires some { 0 < length bytes.now }
        ensures answer { result ≡ add_answer (length bytes.now) (held self.old.writing self.old.outputs) self.old }
        ensures after { self.new ≡ added bytes.now self.old }
        ensures moves { IfOk result (λ n. (0 < n) × (n ≤ length bytes.now)) }
    {
        let Some(i) = self.writing else {
            unreachable!()
        };
        let left = self.slots[i].held.left();
        if left == 0 {
            self.count_write_fault();
            return Err(Failed);
        }
        let n = self.longest.min(bytes.len()).min(left);
        self.slots[i].append(&bytes[..n]);
        Ok(n)
    }

    // Appends to the text.
    fn speak(&mut self, bytes: &[u8]) -> Result<usize, Failed>
        requires some { 0 < length bytes.now }
        ensures answer { result ≡ add_answer (length bytes.now) self.old.text self.old }
        ensures after { self.new ≡ spoken bytes.now self.old }
        ensures moves { IfOk result (λ n. (0 < n) × (n ≤ length bytes.now)) }
    {
        let left = self.text.left();
        if left == 0 {
            self.count_write_fault();
            return Err(Failed);
        }
        let n = self.longest.min(bytes.len()).min(left);
        self.text.append(&bytes[..n]);
        Ok(n)
    }

    fn write_step(&mut self, bytes: &[u8]) -> Result<usize, Failed>
        requires open { IsTrue (is_some self.old.writing) }
        requires some { 0 < length bytes.now }
        ensures answer { result ≡ append_answer (length bytes.now) (held self.old.writing self.old.outputs) self.old }
        ensures after { self.new ≡ wrote bytes.now self.old }
        ensures moves { IfOk result (λ n. (0 < n) × (n ≤ length bytes.now)) }
    {
        if self.next_fails() {
            self.count_write_fault();
            return Err(Failed);
        }
        self.add(bytes)
    }

    fn say_step(&mut self, bytes: &[u8]) -> Result<usize, Failed>
        requires some { 0 < length bytes.now }
        ensures answer { result ≡ append_answer (length bytes.now) self.old.text self.old }
        ensures after { self.new ≡ spoke bytes.now self.old }
        ensures moves { IfOk result (λ n. (0 < n) × (n ≤ length bytes.now)) }
    {
        if self.next_fails() {
            self.count_write_fault();
            return Err(Failed);
        }
        self.speak(bytes)
    }
}

impl Desk for MemDesk {
    ghost seen = { seen_of };

    fn open_in(&mut self, name: &str) -> Result<(), OpenFault>
        requires allowed { IsAllowed name.now (all_told self.old).may_open }
        ensures opens { Opens name.now result (all_told self.old) (all_told self.new) }
        ensures counts { OpenCounts result (seen_of self.old) (seen_of self.new) }
        ensures answer { result ≡ open_answer name.now self.old }
        ensures after { self.new ≡ opened name.now self.old }
    {
        self.open_step(name.as_bytes())
    }

    fn read(&mut self, buf: &mut [u8]) -> Result<usize, Failed>
        requires open { IsTrue (all_told self.old).input_open }
        requires room { 0 < length buf.old }
        ensures reads { Reads buf.old buf.new result (all_told self.old) (all_told self.new) }
        ensures counts { ReadCounts result (seen_of self.old) (seen_of self.new) }
        ensures answer { result ≡ read_answer (length buf.old) self.old }
        ensures after { self.new ≡ read_on (length buf.old) self.old }
        ensures moved { buf.new ≡ filled buf.old self.old }
    {
        self.read_step(buf)
    }

    fn create_out(&mut self, name: &str) -> Result<(), Failed>
        requires allowed { IsAllowed name.now (all_told self.old).may_create }
        ensures creates { Makes result (after_create name.now (all_told self.old)) (all_told self.old) (all_told self.new) }
        ensures counts { CallCounts result (seen_of self.old) (seen_of self.new) }
        ensures answer { result ≡ write_answer self.old }
        ensures after { self.new ≡ created_by name.now self.old }
    {
        self.create_step(name.as_bytes())
    }

    fn write(&mut self, bytes: &[u8]) -> Result<usize, Failed>
        requires open { IsTrue (all_told self.old).output_open }
        requires some { 0 < length bytes.now }
        ensures appends { Appends bytes.now result after_write (all_told self.old) (all_told self.new) }
        ensures counts { CallCounts result (seen_of self.old) (seen_of self.new) }
        ensures answer { result ≡ append_answer (length bytes.now) (held self.old.writing self.old.outputs) self.old }
        ensures after { self.new ≡ wrote bytes.now self.old }
    {
        self.write_step(bytes)
    }

    fn finish(&mut self) -> Result<(), Failed>
        requires open { IsTrue (all_told self.old).output_open }
        ensures closes { Makes result (after_finish (all_told self.old)) (all_told self.old) (all_told self.new) }
        ensures counts { CallCounts result (seen_of self.old) (seen_of self.new) }
        ensures answer { result ≡ write_answer self.old }
        ensures after { self.new ≡ finished self.old }
    {
        self.finish_step()
    }

    fn say(&mut self, bytes: &[u8]) -> Result<usize, Failed>
        requires some { 0 < length bytes.now }
        ensures says { Appends bytes.now result after_say (all_told self.old) (all_told self.new) }
        ensures counts { CallCounts result (seen_of self.old) (seen_of self.new) }
        ensures answer { result ≡ append_answer (length bytes.now) self.old.text self.old }
        ensures after { self.new ≡ spoke bytes.now self.old }
    {
        self.say_step(bytes)
    }
}
