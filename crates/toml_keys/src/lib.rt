//! Readers of the keys of a TOML table whose form is fixed: what is at a key, or why it is at fault. A caller names
//! the key of a fault.
#![tactic(auto)]

mod table;
mod values;

ghost use Rattle.std.specs.Prelude.{◌≡◌};
ghost use Rattle.toml_keys.specs.declared.KeyError.TheVariants.{Bad, Memory};

use std::alloc::AllocError;
pub use table::{KnownKeys, TableError, read_table, unknown_key};
pub use values::{Member, Words, list, number, number_or, required_number, value_at, word};

/// Why a key is at fault (this project's own rules), in the order in which it is checked.
#[derive(Clone, Copy, Debug, PartialEq, Eq)]
pub enum KeyFault {
    /// A key that has to be there is not.
    Missing,
    /// The key's value, a member of it or a member's member has another TOML type.
    WrongKind,
    /// The value is none of the words or numbers that it may be, or has not as many members as it may have.
    OutOfRange,
}

/// Why nothing was read at a key.
#[derive(Clone, Copy, Debug, PartialEq, Eq)]
pub enum KeyError {
    /// The key is at fault.
    Bad(KeyFault),
    /// Out of memory.
    Memory,
}

impl From<AllocError> for KeyError {
    ghost from_gives = { λ _ error. error ≡ Memory };

    fn from(_error: AllocError) -> KeyError {
        KeyError::Memory
    }
}

impl From<KeyFault> for KeyError {
    ghost from_gives = { λ fault error. error ≡ Bad fault };

    fn from(fault: KeyFault) -> KeyError {
        KeyError::Bad(fault)
    }
}
