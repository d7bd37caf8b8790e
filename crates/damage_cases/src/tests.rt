use crate::maps::mapped;
use crate::plain::Plain;
use crate::programs::{Event, Subject, packed, planar};
use crate::streams::{CLEAN, Dice, Pair, arrive_frame};
use std::alloc::{AllocError, Global};
use std::process::Abort;
use std::test::Fail;

/// How many fields of the streams had, at the end, each row whole, some row not whole, and no signal; and how often the
/// host restarted the controller and emptied the queues.
#[derive(Clone, Copy)]
struct Seen {
    whole: u32,
    broken: u32,
    unsignalled: u32,
    restarts: u32,
    losses: u32,
}

const NOTHING: Seen = Seen {
    whole: 0,
    broken: 0,
    unsignalled: 0,
    restarts: 0,
    losses: 0,
};

impl Seen {
    fn count(&mut self, told: Option<[bool; 2]>) {
        match told {
            Some(rows) if rows[0] && rows[1] => self.whole = self.whole.saturating_add(1),
            Some(_) => self.broken = self.broken.saturating_add(1),
            None => self.unsignalled = self.unsignalled.saturating_add(1),
        }
    }

    fn add(&mut self, pair: &Pair) {
        self.count(pair.plain.top.told);
        self.count(pair.plain.bottom.told);
        self.restarts = self.restarts.saturating_add(pair.restarts);
        self.losses = self.losses.saturating_add(pair.losses);
    }

    /// Whether each kind of ending was met often enough to count.
    fn has_variety(&self) -> bool {
        self.whole >= 10
            && self.broken >= 10
            && self.unsignalled >= 10
            && self.restarts >= 10
            && self.losses >= 10
    }
}

/// How seldom an entry of a stream is damaged.
fn calm_of(dice: &mut Dice, seed: u32) -> u32 {
    if seed % 8 == 0 {
        CLEAN
    } else {
        dice.roll(40).saturating_add(12)
    }
}

/// A stream of one frame or two.
fn play_frames(pair: &mut Pair, frame: &[Event], seed: u32) -> Result<(), AllocError> {
    let mut dice = Dice::new(seed);
    let calm = calm_of(&mut dice, seed);
    for _ in 0..dice.roll(2).saturating_add(1) {
        let pace = dice.roll(12).saturating_add(2);
        arrive_frame(pair, &mut dice, frame, calm, pace)?;
    }
    pair.turns(300)
}

fn play(alloc: Global, subject: Subject, seed: u32) -> Result<Pair, Fail> {
    let mapped = mapped(alloc, subject.description)?;
    let mut pair = Pair::new(mapped, Plain::new(alloc, subject));
    play_frames(&mut pair, subject.frame, seed)?;
    Ok(pair)
}

/// Plays so many streams and counts what was seen.
fn play_all(rt: &impl Abort, alloc: Global, subject: Subject, streams: u32) -> Result<Seen, Fail> {
    let mut seen = NOTHING;
    for seed in 0..streams {
        let pair = play(alloc, subject, seed)?;
        assert!(rt; !pair.differs, "stream {seed}");
        seen.add(&pair);
    }
    Ok(seen)
}

#[test]
fn rows_of_drawn_packed_streams_are_told(rt: HostRuntime) -> Result<(), Fail> {
    let seen = play_all(&rt, rt.alloc(), packed(), 1_000)?;
    assert!(rt; seen.has_variety());
    Ok(())
}

#[test]
fn rows_of_drawn_planar_streams_are_told(rt: HostRuntime) -> Result<(), Fail> {
    let seen = play_all(&rt, rt.alloc(), planar(), 1_000)?;
    assert!(rt; seen.has_variety());
    Ok(())
}
