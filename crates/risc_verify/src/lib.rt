//! The verifier of RISC programs (Bt878 data sheet, "RISC instructions"): it accepts exactly the programs
//! whose path, without end, has no fault. What a fault is, is this project's own rule.
#![tactic(auto)]

mod judge;
mod memo;
mod program;
mod spans;
mod steps;
mod walk;

ghost use Rattle.risc_verify.specs.Rounds.{PathsComeRound};

pub use machine_model::Cause;
pub use program::{Accepted, Program};
pub use spans::{SpanPlace, Spans};
pub use steps::Steps;
pub use walk::{Rejected, Why, verify};

/// A law: where `2 * words + 1` places of a path are fine, every place is.
pub fn a_path_comes_round()
    ensures { PathsComeRound }
{}
