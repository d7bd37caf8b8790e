//! Bytes that never pass their room, for which all memory is taken at once.
ghost use Rattle.std.specs.Prelude.{◌≡◌, ℕ, ◌+◌, ◌-◌, ◌≤◌, [], ◌++◌, length, IfOk};
ghost use Rattle.capture_desk.specs.Bounds.{Bounds};

use std::alloc::{AllocError, Global};
use std::marker::Model;

#[derive(Drop)]
pub(crate) struct Bounded {
    bytes: Vec<u8>,
    room: usize,
}

impl Model for Bounded {
    ghost use Rattle.std.specs.Prelude.{◌≤◌, vec_len, vec_capacity};
    ghost use Rattle.capture_desk.specs.Bounds.{Bounds};

    ghost Value = { Bounds };

    ghost view = { λ b. record { bytes = b.bytes.items; room = b.room } };

    ghost invariant = { λ b. (vec_len b.bytes ≤ b.room) × (b.room ≤ vec_capacity b.bytes) };
}

impl Bounded {
    pub(crate) fn new(alloc: Global, room: usize) -> Result<Bounded, AllocError>
        ensures { IfOk result (λ b. b ≡ record { bytes = []; room = room }) }
    {
        Ok(Bounded {
            bytes: Vec::with_capacity(alloc, room)?,
            room,
        })
    }

    pub(crate) fn as_slice(&self) -> &[u8]
        ensures { result.now ≡ self.now.bytes }
    {
        self.bytes.as_slice()
    }

    // How many more bytes fit.
    pub(crate) fn left(&self) -> usize
        ensures { result + length self.now.bytes ≡ self.now.room }
    {
        self.room - self.bytes.len()
    }

    pub(crate) fn clear(&mut self)
        ensures { self.new ≡ record self.old { bytes = [] } }
    {
        self.bytes.clear();
    }

    pub(crate) fn append(&mut self, piece: &[u8])
        requires { length self.old.bytes + length piece.now ≤ self.old.room }
        ensures { self.new ≡ record self.old { bytes = self.old.bytes ++ piece.now } }
    {
        match self.bytes.extend_from_slice(piece) {
            Ok(()) => {}
            Err(_) => unreachable!(),
        }
    }
}
