// The machine of docs/MACHINE.md over plain lists, as far as rows depend on it. It is slow, and shares nothing with the
// machine that it is compared with.

use crate::lanes::{Lane, is_control, is_end, valid_bytes};
use crate::programs::{Event, Field, Instruction, Subject};
use crate::rows::{Log, Taking, is_whole};
use risc_word::Code;
use std::alloc::{AllocError, Global};

#[derive(Clone, Copy, PartialEq, Eq)]
enum Job {
    Idle,
    Waits(Code),
    Runs,
}

#[derive(Clone, Copy, PartialEq, Eq)]
enum Skip {
    Nothing,
    ToEol,
    ToSync,
}

/// What is left of the instruction that runs, for a queue.
#[derive(Clone, Copy)]
struct Rest {
    count: u32,
    needs_sol: bool,
}

const NO_REST: Rest = Rest {
    count: 0,
    needs_sol: false,
};

pub fn number_of(code: Code) -> u8 {
    match code {
        Code::Vre => 4,
        Code::Fm1 => 6,
        Code::Vro => 12,
        Code::Fm3 => 14,
    }
}

/// What happened since the last opening of a field, and which of its rows were whole at its last signal.
#[derive(Drop)]
pub struct History {
    log: Log,
    pub told: Option<[bool; 2]>,
}

impl History {
    fn new(alloc: Global) -> History {
        History {
            log: Log::new(alloc),
            told: None,
        }
    }
}

/// The machine of a subject's program.
#[derive(Drop)]
pub struct Plain {
    alloc: Global,
    subject: Subject,
    lanes: [Lane; 3],
    fifo_on: bool,
    risc_on: bool,
    trigger: usize,
    next: usize,
    place: usize,
    ends_line: bool,
    skip: Skip,
    job: Job,
    rests: [Rest; 3],
    pub top: History,
    pub bottom: History,
}

impl Plain {
    pub fn new(alloc: Global, subject: Subject) -> Plain {
        Plain {
            alloc,
            subject,
            lanes: [
                Lane::new(alloc, 70),
                Lane::new(alloc, 35),
                Lane::new(alloc, 35),
            ],
            fifo_on: true,
            risc_on: true,
            trigger: 1,
            next: 0,
            place: 0,
            ends_line: false,
            skip: Skip::Nothing,
            job: Job::Idle,
            rests: [NO_REST; 3],
            top: History::new(alloc),
            bottom: History::new(alloc),
        }
    }

    // the decoder

    pub fn push(&mut self, event: Event) -> Result<(), AllocError> {
        match event {
            _ if !self.fifo_on => Ok(()),
            Event::Data(queue, status) => match self.lanes.get_mut(queue) {
                Some(lane) if !lane.is_full() => lane.enter(status),
                _ => Ok(()),
            },
            Event::Control(code) => self.push_control(number_of(code)),
        }
    }

    fn push_control(&mut self, status: u8) -> Result<(), AllocError> {
        if self.lanes.iter().any(|lane| lane.is_full()) {
            return Ok(());
        }
        for lane in self.lanes.iter_mut() {
            lane.enter(status)?;
        }
        Ok(())
    }

    // the host

    pub fn enable(&mut self, fifo: bool, risc: bool) {
        if !fifo {
            for lane in self.lanes.iter_mut() {
                lane.empty();
            }
        }
        if risc && !self.risc_on {
            self.next = 0;
            self.skip = Skip::Nothing;
            self.job = Job::Idle;
        }
        self.fifo_on = fifo;
        self.risc_on = risc;
    }

    pub fn set_trigger(&mut self, entries: usize) {
        self.trigger = entries;
    }

    // the controller

    pub fn turn(&mut self) -> Result<(), AllocError> {
        match self.job {
            _ if !self.risc_on => Ok(()),
            Job::Idle => self.fetch(),
            Job::Waits(code) => {
                self.wait(number_of(code));
                Ok(())
            }
            Job::Runs => self.run(),
        }
    }

    fn fetch(&mut self) -> Result<(), AllocError> {
        let Some(instruction) = self.subject.instructions.get(self.next).copied() else {
            return Ok(());
        };
        self.place = self.next;
        self.next = self.next.saturating_add(1);
        match instruction {
            Instruction::Jump(place) => {
                self.next = place;
                self.signal()
            }
            Instruction::Sync(code) => {
                self.skip = Skip::Nothing;
                self.job = Job::Waits(code);
                self.open();
                Ok(())
            }
            Instruction::Move {
                sol,
                eol,
                luma,
                chroma,
            } => {
                self.begin(sol, eol, [luma, chroma, chroma]);
                Ok(())
            }
        }
    }

    fn begin(&mut self, sol: bool, eol: bool, counts: [u32; 3]) {
        if self.skip != Skip::Nothing {
            if eol && self.skip == Skip::ToEol {
                self.skip = Skip::Nothing;
            }
            return;
        }
        for (rest, count) in self.rests.iter_mut().zip(counts) {
            rest.count = count;
            rest.needs_sol = sol && count > 0;
        }
        self.ends_line = eol;
        self.job = Job::Runs;
    }

    fn wait(&mut self, awaited: u8) {
        for lane in self.lanes.iter_mut() {
            if lane.head().is_some_and(|status| !is_control(status)) {
                lane.leave();
                return;
            }
        }
        if self.lanes.iter().any(|lane| lane.head().is_none()) {
            return;
        }
        if self.lanes.iter().all(|lane| lane.head() == Some(awaited)) {
            self.job = Job::Idle;
        }
        for lane in self.lanes.iter_mut() {
            lane.leave();
        }
    }

    fn run(&mut self) -> Result<(), AllocError> {
        if self.rests.iter().all(|rest| rest.count == 0) {
            self.job = Job::Idle;
            self.top.log.retired.push(self.place)?;
            self.bottom.log.retired.push(self.place)?;
            return Ok(());
        }
        match self.ready_queue() {
            Some(queue) => self.burst(queue),
            None => Ok(()),
        }
    }

    /// The lowest queue that has a rest and is ready.
    fn ready_queue(&self) -> Option<usize> {
        self.lanes.iter().zip(self.rests.iter()).position(|(lane, rest)| rest.count > 0
            && lane.is_ready(self.trigger))
    }

    fn burst(&mut self, queue: usize) -> Result<(), AllocError> {
        for _ in 0..self.trigger {
            if self.job == Job::Runs {
                self.serve(queue)?;
            }
        }
        Ok(())
    }

    /// One application to the front of a queue, where the queue has a rest and a front.
    fn serve(&mut self, queue: usize) -> Result<(), AllocError> {
        let (Some(lane), Some(rest)) = (self.lanes.get_mut(queue), self.rests.get(queue).copied())
        else {
            return Ok(());
        };
        let Some(status) = lane.head() else {
            return Ok(());
        };
        let is_sol = lane.is_untouched_sol();
        if rest.count == 0 {
            return Ok(());
        }
        if is_control(status) {
            self.give_up(Skip::ToSync);
        } else if rest.needs_sol && !is_sol {
            lane.leave();
        } else if is_sol && !rest.needs_sol {
            self.give_up_line();
        } else if valid_bytes(status) == 0 {
            lane.leave();
        } else {
            return self.take(queue, status);
        }
        Ok(())
    }

    fn take(&mut self, queue: usize, status: u8) -> Result<(), AllocError> {
        let (Some(lane), Some(rest)) = (self.lanes.get_mut(queue), self.rests.get_mut(queue)) else {
            return Ok(());
        };
        let count = rest
            .count
            .min(valid_bytes(status).saturating_sub(lane.taken));
        let taking = Taking {
            place: self.place,
            queue,
            entry: lane.front,
            count,
        };
        rest.count = rest.count.saturating_sub(count);
        rest.needs_sol = false;
        lane.taken = lane.taken.saturating_add(count);
        if lane.taken == valid_bytes(status) {
            lane.leave();
            if is_end(status) && rest.count > 0 {
                self.give_up_line();
            }
        }
        self.top.log.takings.push(taking)?;
        self.bottom.log.takings.push(taking)?;
        Ok(())
    }

    fn give_up(&mut self, skip: Skip) {
        self.job = Job::Idle;
        self.skip = skip;
    }

    fn give_up_line(&mut self) {
        let skip = if self.ends_line {
            Skip::Nothing
        } else {
            Skip::ToEol
        };
        self.give_up(skip);
    }

    // the fields

    fn open(&mut self) {
        let place = self.place;
        if place == self.subject.top.opening {
            self.top.log.clear();
        }
        if place == self.subject.bottom.opening {
            self.bottom.log.clear();
        }
    }

    fn signal(&mut self) -> Result<(), AllocError> {
        let place = self.place;
        let Subject { top, bottom, .. } = self.subject;
        if place == top.closing {
            self.top.told = Some(self.rows_of(&self.top.log, top)?);
        }
        if place == bottom.closing {
            self.bottom.told = Some(self.rows_of(&self.bottom.log, bottom)?);
        }
        Ok(())
    }

    /// Which rows of a field are whole now.
    fn rows_of(&self, log: &Log, field: Field) -> Result<[bool; 2], AllocError> {
        let [one, two, three] = &self.lanes;
        let entered = [
            one.entered.as_slice(),
            two.entered.as_slice(),
            three.entered.as_slice(),
        ];
        let first = is_whole(self.alloc, log, field.first, entered)?;
        let second = is_whole(self.alloc, log, field.second, entered)?;
        Ok([first, second])
    }
}
