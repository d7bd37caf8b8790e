//! Which rows of a captured field are whole lines, apart from any code (this project's own rules). The definitions are
//! in `specs/`.
#![tactic(auto)]

pub mod laws;
