//! A machine that marks which rows of its fields are whole lines.

ghost use Rattle.std.specs.Prelude.{◌≡◌, ◌∷◌, [], IfOk, false, option_map, replicate};
ghost use Rattle.damage_map.specs.Maps.{rows_of};
ghost use Rattle.damage_map.specs.Tracks.{track_notes, untold};
ghost use Rattle.dma_machine.specs.Facts.{report_of};
ghost use Rattle.irq_status.specs.Writes.{IsWrite};
ghost use Rattle.machine_model.specs.Steps.{Control, Host, Push, Turn, control_pushed_as, pushed_as};
ghost use Rattle.machine_watch.specs.Watches.{watched, watching};
ghost use Rattle.sync_status.specs.Statuses.{is_control, kind_of};

use crate::track::Track;
use dma_machine::{Machine, Report};
use fifo_model::{Entry, Pushed, Queue};
use irq_status::HostWrite;
use machine_watch::Watched;
use page_ram::Ram;
use pixel_layout::Parity;
use program_build::Checked;
use risc_word::Code;
use std::alloc::{AllocError, Global};
use std::marker::Model;

/// A machine that runs the program of a description, watched by a `Track` of its fields. Contracts see both. It has the
/// calls of a machine and its rows; what plays whole streams takes a `Watched` with the `Track` itself.
#[derive(Drop)]
pub struct Mapped<R: Ram> {
    watched: Watched<R, Track>,
}

impl<R: Ram> Model for Mapped<R> {
    ghost use Rattle.damage_map.specs.Maps.{Map};

    ghost Value = { Map };

    ghost view = { λ m. m.watched };
}

impl<R: Ram> Mapped<R> {
    /// A machine of which nothing is known yet: it is to be in its first state, and its program that of the description.
    pub fn new(
        alloc: Global,
        machine: Machine<R>,
        checked: &Checked,
    ) -> Result<Mapped<R>, AllocError>
    where
        R: Drop,
        ensures { IfOk result (λ mapped. mapped ≡ watching machine (untold checked.now)) }
    {
        Ok(Mapped {
            watched: Watched::new(machine, Track::new(alloc, checked)?),
        })
    }

    /// A push of a data entry, as `Machine::push`.
    pub fn push(&mut self, queue: Queue, entry: Entry) -> Pushed
        requires { is_control (kind_of entry.status) ≡ false }
        ensures state { self.new ≡ watched track_notes (Push queue entry ∷ []) self.old }
        ensures answer { result ≡ pushed_as queue self.old.machine }
    {
        self.watched.push(queue, entry)
    }

    /// A push of a control code, as `Machine::push_control`.
    pub fn push_control(&mut self, code: Code) -> Pushed
        ensures state { self.new ≡ watched track_notes (Control code ∷ []) self.old }
        ensures answer { result ≡ control_pushed_as self.old.machine }
    {
        self.watched.push_control(code)
    }

    /// One turn, as `Machine::turn`.
    pub fn turn(&mut self)
        ensures { self.new ≡ watched track_notes (Turn ∷ []) self.old }
    {
        self.watched.turn();
    }

    /// So many turns, one after the other.
    pub fn turns(&mut self, count: u32)
        ensures { self.new ≡ watched track_notes (replicate count Turn) self.old }
    {
        self.watched.turns(count);
    }

    /// A register write of the host, as `Machine::host`.
    pub fn host(&mut self, write: HostWrite)
        requires { IsWrite write }
        ensures { self.new ≡ watched track_notes (Host write ∷ []) self.old }
    {
        self.watched.host(write);
    }

    /// The counts and INT_STAT of the machine.
    pub fn report(&self) -> Report
        ensures { result ≡ report_of self.now.machine }
    {
        self.watched.report()
    }

    /// The memory of the machine.
    pub fn ram(&self) -> &R
        ensures { R.memory result.now ≡ self.now.machine.memory }
    {
        self.watched.ram()
    }

    /// For each row of a described field whether it is a whole line, at the field's last signal. None exactly where it
    /// had no signal so far.
    pub fn rows(&self, field: Parity) -> Option<&[bool]>
        ensures { option_map (λ rows. rows.now) result ≡ rows_of field self.now }
    {
        self.watched.watch().rows(field)
    }
}
