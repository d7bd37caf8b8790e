//! Tests of the desk that ships over a host that tells all that it holds.
#![tactic(auto)]

#[cfg(test)]
mod shelf;
#[cfg(test)]
mod tests;
