//! What keeps the bytes of an input.

ghost use Rattle.std.specs.Prelude.{◌≡◌, ℕ, List, ◌++◌, IfOk};

use std::alloc::{AllocError, Global};

/// What keeps bytes that it is given piece by piece, one piece behind the other. Contracts see all that it keeps.
pub trait Keeps {
    ghost kept: { Self → List ℕ };

    /// Keeps a piece behind the others. The error is out of memory.
    fn keep(&mut self, alloc: Global, piece: &[u8]) -> Result<(), AllocError>
        ensures { IfOk result (λ _. kept self.new ≡ kept self.old ++ piece.now) };
}

impl Keeps for Vec<u8> {
    ghost kept = { λ bytes. bytes.items };

    fn keep(&mut self, _alloc: Global, piece: &[u8]) -> Result<(), AllocError> {
        self.extend_from_slice(piece)
    }
}
