//! Where files come from and where they go: a trait of desks, one over memory, one over the system, and
//! one that keeps the calls of another.
#![tactic(auto)]

mod append;
mod bounded;
mod calls;
mod desk;
mod host;
mod logged;
mod memory;
mod octets;
mod system;

pub use crate::append::{put, say_all};
pub use crate::calls::Call;
pub use crate::desk::{Desk, Failed, OpenFault};
pub use crate::host::Host;
pub use crate::logged::LoggedDesk;
pub use crate::memory::MemDesk;
pub use crate::octets::Octets;
pub use crate::system::OsDesk;
