//! A desk that keeps the calls of another.
ghost use Rattle.std.specs.Prelude.{◌≡◌, [], ◌∷◌, IfOk, Some, option_map};
ghost use Rattle.capture_desk.specs.Desks.{Tells, joined, moved_by};

use crate::calls::Call;
use crate::desk::{Desk, Failed, OpenFault};
use crate::octets::Octets;
use std::alloc::{AllocError, Global};
use std::collections::VecDeque;
use std::marker::Model;

/// Puts a call before those that were made before it; calls of `say` one after the other are one run.
fn keep(calls: &mut VecDeque<Call>, call: Call) -> Result<(), AllocError>
    ensures { IfOk result (λ _. calls.new.items ≡ joined call calls.old.items) }
{
    if let (Call::Say, Some(Call::Say)) = (&call, calls.front()) {
        return Ok(());
    }
    match calls.push_front(call) {
        Ok(()) => Ok(()),
        Err(_) => Err(AllocError),
    }
}

// The calls of a desk, the last one first. Out of memory all are let go, and none is kept from then on.
#[derive(Drop)]
struct CallLog {
    calls: Option<VecDeque<Call>>,
}

impl Model for CallLog {
    ghost use Rattle.std.specs.Prelude.{List, Option, option_map};
    ghost use Rattle.capture_desk.specs.declared.calls.Call.{Call};

    ghost Value = { Option (List Call) };

    ghost view = { λ log. option_map (λ calls. calls.items) log.calls };
}

impl CallLog {
    fn note(&mut self, call: Call)
        ensures { Tells (call ∷ []) self.old self.new }
    {
        if let Some(calls) = &mut self.calls {
            if keep(calls, call).is_err() {
                self.calls = None;
            }
        }
    }
}

/// A desk that keeps the calls of another and tells them, as long as there is memory for them.
#[derive(Drop)]
pub struct LoggedDesk<D: Desk + Drop> {
    alloc: Global,
    desk: D,
    log: CallLog,
}

impl<D: Desk + Drop> LoggedDesk<D> {
    /// A desk that passes all calls on to another, and has kept none yet.
    pub fn new(alloc: Global, desk: D) -> LoggedDesk<D>
        ensures desk { result.desk ≡ desk }
        ensures log { result.log ≡ Some [] }
    {
        LoggedDesk {
            alloc,
            desk,
            log: CallLog {
                calls: Some(VecDeque::new(alloc)),
            },
        }
    }

    /// The desk that the calls were passed on to.
    pub fn desk(&self) -> &D
        ensures { result.now ≡ self.now.desk }
    {
        &self.desk
    }

    /// The calls, the last one first, where they were kept.
    pub fn calls(&self) -> Option<&VecDeque<Call>>
        ensures { option_map (λ calls. calls.now.items) result ≡ self.now.log }
    {
        self.log.calls.as_ref()
    }

    // Keeps that an input of this name was to be opened, and whether it was.
    fn note_open(&mut self, name: &str, done: bool)
        ensures desk { self.new.desk ≡ self.old.desk }
        ensures noted { Tells (Call.OpenIn name.now done ∷ []) self.old.log self.new.log }
    {
        match Octets::from_list(self.alloc, name.as_bytes()) {
            Ok(name) => self.log.note(Call::OpenIn(name, done)),
            Err(_) => self.log.calls = None,
        }
    }

    // Keeps that an output of this name was to be created, and whether it was.
    fn note_create(&mut self, name: &str, done: bool)
        ensures desk { self.new.desk ≡ self.old.desk }
        ensures noted { Tells (Call.CreateOut name.now done ∷ []) self.old.log self.new.log }
    {
        match Octets::from_list(self.alloc, name.as_bytes()) {
            Ok(name) => self.log.note(Call::CreateOut(name, done)),
            Err(_) => self.log.calls = None,
        }
    }
}

impl<D: Desk + Drop> Desk for LoggedDesk<D> {
    ghost seen = { λ logged. record (D.seen logged.desk) { calls = logged.log } };

    fn open_in(&mut self, name: &str) -> Result<(), OpenFault> {
        let opened = self.desk.open_in(name);
        self.note_open(name, opened.is_ok());
        opened
    }

    fn read(&mut self, buf: &mut [u8]) -> Result<usize, Failed> {
        let size = buf.len();
        let read = self.desk.read(buf);
        self.log.note(Call::Read(size, moved(&read)));
        read
    }

    fn create_out(&mut self, name: &str) -> Result<(), Failed> {
        let created = self.desk.create_out(name);
        self.note_create(name, created.is_ok());
        created
    }

    fn write(&mut self, bytes: &[u8]) -> Result<usize, Failed> {
        self.desk.write(bytes)
    }

    fn finish(&mut self) -> Result<(), Failed> {
        let finished = self.desk.finish();
        self.log.note(Call::Finish(finished.is_ok()));
        finished
    }

    fn say(&mut self, bytes: &[u8]) -> Result<usize, Failed> {
        let said = self.desk.say(bytes);
        self.log.note(Call::Say);
        said
    }
}

// How many bytes a read moved, where it didn't fail.
fn moved(read: &Result<usize, Failed>) -> Option<usize>
    ensures { result ≡ moved_by read.now }
{
    match read {
        Ok(count) => Some(*count),
        Err(_) => None,
    }
}
