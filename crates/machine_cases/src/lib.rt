//! Tests of the machine and of what it stands on, of machines that are watched or traced, of chains of slots and of double
//! buffers, called as their users call them: worked words, queues, memories, programs and streams.
#![tactic(auto)]

#[cfg(test)]
mod buffers;
#[cfg(test)]
mod chunks;
#[cfg(test)]
mod machine;
#[cfg(test)]
mod memory;
#[cfg(test)]
mod paths;
#[cfg(test)]
mod queues;
#[cfg(test)]
mod scatters;
#[cfg(test)]
mod slots;
#[cfg(test)]
mod statuses;
#[cfg(test)]
mod traces;
#[cfg(test)]
mod watched;
#[cfg(test)]
mod words;
