//! Why two descriptions make no double buffer.

ghost use Rattle.std.specs.Prelude.{◌≡◌};
ghost use Rattle.slot_chain.specs.declared.faults.DoubleBufferError.TheVariants.{Memory};

use chain_model::ChainFault;
use std::alloc::{AllocError, AllocFailed};

/// Why no double buffer was made.
#[derive(Clone, Copy, Debug, PartialEq, Eq)]
pub enum DoubleBufferError {
    /// The first fault of the two descriptions.
    Fault(ChainFault),
    /// Out of memory.
    Memory,
}

impl From<AllocError> for DoubleBufferError {
    ghost from_gives = { λ _ error. error ≡ Memory };

    fn from(_error: AllocError) -> DoubleBufferError {
        DoubleBufferError::Memory
    }
}

impl<T: Drop> From<AllocFailed<T>> for DoubleBufferError {
    ghost from_gives = { λ _ error. error ≡ Memory };

    fn from(_error: AllocFailed<T>) -> DoubleBufferError {
        DoubleBufferError::Memory
    }
}
