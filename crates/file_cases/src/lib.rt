//! Tests of the files, of listings and the assembler, and of the desks that files come from, called as their users call
//! them: worked programs, streams and listings.
#![tactic(auto)]

#[cfg(test)]
mod desks;
#[cfg(test)]
mod files;
#[cfg(test)]
mod listings;
#[cfg(test)]
mod piecewise;
#[cfg(test)]
mod round_trips;
#[cfg(test)]
mod texts;
#[cfg(test)]
mod worked;
