//! Laws of damage maps: what a track keeps of a field's rows, what was taken for them and where their bytes are.
#![tactic(auto)]

pub mod laws;
