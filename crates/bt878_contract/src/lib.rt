//! What the words ask for, and what is promised of each answer: definitions in `specs/`, and in `proofs/`
//! that each promise follows from the one that states all.
#![tactic(auto)]
