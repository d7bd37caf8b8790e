//! Chains: a standing loop of slots that the host patches while it runs, each slot to a part of its own or on to the next
//! slot; and double buffering, a chain of two slots whose parts are the fragments of two descriptions (this project's own
//! form).
#![tactic(auto)]

mod buffer;
mod chain;
mod faults;
mod fragments;
pub mod laws;
mod making;
mod memory;
mod wheel;

pub use buffer::DoubleBuffer;
pub use chain::Chain;
pub use chain_model::PartWords;
pub use faults::DoubleBufferError;
pub use fragments::fragment;
pub use making::ChainError;
