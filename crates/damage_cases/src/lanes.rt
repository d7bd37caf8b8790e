// A queue of the plain machine: all entries that entered it, and how far they were removed.

use std::alloc::{AllocError, Global};

pub const SOL: u8 = 2;

pub const PXV: u8 = 0;

/// The valid bytes of an entry of this status: 0 of a control code and of a reserved entry.
pub fn valid_bytes(status: u8) -> u32 {
    match status {
        0 | 1 | 2 => 4,
        5 => 1,
        9 => 2,
        13 => 3,
        _ => 0,
    }
}

pub fn is_end(status: u8) -> bool {
    matches!(status, 1 | 5 | 9 | 13)
}

pub fn is_control(status: u8) -> bool {
    matches!(status, 4 | 6 | 12 | 14)
}

/// The statuses of the entries that entered, the place of the front among them, the bytes taken of it, and how many
/// entries the queue holds at most.
#[derive(Drop)]
pub struct Lane {
    pub entered: Vec<u8>,
    pub front: usize,
    pub taken: u32,
    room: usize,
}

impl Lane {
    pub fn new(alloc: Global, room: usize) -> Lane {
        Lane {
            entered: Vec::new(alloc),
            front: 0,
            taken: 0,
            room,
        }
    }

    fn held(&self) -> usize {
        self.entered.len().saturating_sub(self.front)
    }

    pub fn is_full(&self) -> bool {
        self.held() >= self.room
    }

    pub fn enter(&mut self, status: u8) -> Result<(), AllocError> {
        self.entered.push(status)?;
        Ok(())
    }

    /// The status of the front.
    pub fn head(&self) -> Option<u8> {
        self.entered.get(self.front).copied()
    }

    /// The front is removed.
    pub fn leave(&mut self) {
        self.front = self.front.saturating_add(1);
        self.taken = 0;
    }

    pub fn empty(&mut self) {
        self.front = self.entered.len();
        self.taken = 0;
    }

    /// Whether it holds so many entries, or an end or a control code.
    pub fn is_ready(&self, trigger: usize) -> bool {
        let ends = |status: &u8| is_end(*status) || is_control(*status);
        self.held() >= trigger || self.entered.iter().skip(self.front).any(ends)
    }

    pub fn is_untouched_sol(&self) -> bool {
        self.head() == Some(SOL) && self.taken == 0
    }
}
