// Drawn streams: frames that arrive with entries dropped, doubled, cut and broken off, while turns are taken and the host
// writes. Each step goes to the machine and to the plain one.

use crate::plain::Plain;
use crate::programs::Event;
use damage_map::Mapped;
use fifo_model::{Entry, Queue};
use irq_status::HostWrite;
use page_ram::MapRam;
use pixel_layout::Parity;
use std::alloc::AllocError;
use sync_status::{Status, StatusKind, kind};

/// How seldom an entry is damaged where none is.
pub const CLEAN: u32 = 1_000_000;

/// A simple generator of numbers.
#[derive(Clone, Copy)]
pub struct Dice(u32);

impl Dice {
    pub fn new(seed: u32) -> Dice {
        Dice(seed.wrapping_mul(2_654_435_769).wrapping_add(1))
    }

    /// A number below `sides`, or 0 where there are none.
    pub fn roll(&mut self, sides: u32) -> u32 {
        self.0 = self.0.wrapping_mul(1_664_525).wrapping_add(1_013_904_223);
        (self.0 >> 8).checked_rem(sides).unwrap_or(0)
    }

    fn is_one_in(&mut self, sides: u32) -> bool {
        self.roll(sides) == 0
    }
}

/// Both machines, and what the host did.
#[derive(Drop)]
pub struct Pair {
    pub mapped: Mapped<MapRam>,
    pub plain: Plain,
    pub restarts: u32,
    pub losses: u32,
    pub differs: bool,
}

fn queue_of(number: usize) -> Queue {
    match number {
        0 => Queue::One,
        1 => Queue::Two,
        _ => Queue::Three,
    }
}

fn push_data(mapped: &mut Mapped<MapRam>, queue: usize, nibble: u8) {
    if nibble < 16 {
        let status = Status::of(nibble);
        if !matches!(kind(status), StatusKind::Control(_)) {
            let entry = Entry {
                status,
                dword: 0x3322_1100,
            };
            mapped.push(queue_of(queue), entry);
        }
    }
}

fn is_told(rows: Option<&[bool]>, told: Option<[bool; 2]>) -> bool {
    match (rows, told) {
        (Some(rows), Some(told)) => rows == told.as_slice(),
        (None, None) => true,
        _ => false,
    }
}

impl Pair {
    pub fn new(mapped: Mapped<MapRam>, plain: Plain) -> Pair {
        Pair {
            mapped,
            plain,
            restarts: 0,
            losses: 0,
            differs: false,
        }
    }

    /// Whether both have the same of both fields.
    fn compare(&mut self) {
        let agrees = is_told(self.mapped.rows(Parity::Top), self.plain.top.told)
            && is_told(self.mapped.rows(Parity::Bottom), self.plain.bottom.told);
        self.differs = self.differs || !agrees;
    }

    fn push(&mut self, event: Event) -> Result<(), AllocError> {
        self.plain.push(event)?;
        match event {
            Event::Data(queue, status) => push_data(&mut self.mapped, queue, status),
            Event::Control(code) => {
                self.mapped.push_control(code);
            }
        }
        Ok(())
    }

    pub fn turns(&mut self, count: u32) -> Result<(), AllocError> {
        for _ in 0..count {
            self.mapped.turn();
            self.plain.turn()?;
            self.compare();
        }
        Ok(())
    }

    fn enable(&mut self, fifo: bool, risc: bool) {
        self.mapped.host(HostWrite::Enable { fifo, risc });
        self.plain.enable(fifo, risc);
    }

    fn set_trigger(&mut self, number: u32) {
        let (number, entries) = match number {
            0 => (0, 4),
            1 => (1, 8),
            2 => (2, 16),
            _ => (3, 32),
        };
        self.mapped.host(HostWrite::Trigger(number));
        self.plain.set_trigger(entries);
    }

    /// The host empties the queues, restarts the controller, does both, or sets the trigger point.
    fn host(&mut self, dice: &mut Dice) -> Result<(), AllocError> {
        let (fifo, risc) = match dice.roll(4) {
            0 => (false, true),
            1 => (true, false),
            2 => (false, false),
            _ => {
                self.set_trigger(dice.roll(4));
                return Ok(());
            }
        };
        self.reenable(dice, fifo, risc)
    }

    /// The host takes away enables, and sets them again after at most two turns.
    fn reenable(&mut self, dice: &mut Dice, fifo: bool, risc: bool) -> Result<(), AllocError> {
        self.enable(fifo, risc);
        self.turns(dice.roll(3))?;
        self.enable(true, true);
        self.restarts = self.restarts.saturating_add(u32::from(!risc));
        self.losses = self.losses.saturating_add(u32::from(!fifo));
        Ok(())
    }
}

/// The status of a line's end with 1 to 4 valid bytes.
fn drawn_end(dice: &mut Dice) -> u8 {
    match dice.roll(4) {
        0 => 1,
        1 => 5,
        2 => 9,
        _ => 13,
    }
}

/// Whether the lines under way on the three queues are broken off, and how seldom an entry is damaged.
#[derive(Clone, Copy)]
struct Conditions {
    broken: [bool; 3],
    calm: u32,
}

/// Pushes a damaged entry: doubled, cut, out of its line, behind one that is too many, or lost and sent again. Answers
/// whether its line is broken off there.
fn damage(pair: &mut Pair, dice: &mut Dice, queue: usize, status: u8) -> Result<bool, AllocError> {
    let (before, status) = match dice.roll(9) {
        0 => return Ok(false),
        1 => return Ok(true),
        2 => (Some(status), status),
        3 => (None, drawn_end(dice)),
        4 => (None, 0),
        5 => (None, 2),
        6 => (Some(3), status),
        7 => (Some(0), status),
        _ => {
            pair.push(Event::Data(queue, status))?;
            pair.reenable(dice, false, true)?;
            (None, status)
        }
    };
    if let Some(before) = before {
        pair.push(Event::Data(queue, before))?;
    }
    pair.push(Event::Data(queue, status))?;
    Ok(false)
}

/// Pushes an event, which is damaged once in `calm` times. What is left of a line that was broken off doesn't come.
fn arrive(
    pair: &mut Pair,
    dice: &mut Dice,
    event: Event,
    conditions: &mut Conditions,
) -> Result<(), AllocError> {
    let hit = dice.is_one_in(conditions.calm);
    match event {
        Event::Data(queue, status) => {
            let Some(broken) = conditions.broken.get_mut(queue) else {
                return Ok(());
            };
            *broken = *broken && status != 2;
            if *broken {
                return Ok(());
            }
            if hit {
                *broken = damage(pair, dice, queue, status)?;
                return Ok(());
            }
        }
        Event::Control(_) if hit && dice.is_one_in(3) => return Ok(()),
        Event::Control(_) => {}
    }
    pair.push(event)
}

/// A frame arrives, of whose entries one in `calm` is damaged; after each come some turns, below `pace`, and one in 60
/// times the host writes.
pub fn arrive_frame(
    pair: &mut Pair,
    dice: &mut Dice,
    frame: &[Event],
    calm: u32,
    pace: u32,
) -> Result<(), AllocError> {
    let mut conditions = Conditions {
        broken: [false; 3],
        calm,
    };
    for event in frame {
        arrive(pair, dice, *event, &mut conditions)?;
        pair.turns(dice.roll(pace))?;
        if calm < CLEAN && dice.is_one_in(60) {
            pair.host(dice)?;
        }
    }
    Ok(())
}
