//! Tests that cross crates: worked cases through the top call, on desks in memory.
#![tactic(auto)]

#[cfg(test)]
mod buffers;
#[cfg(test)]
mod calls;
#[cfg(test)]
mod cases;
#[cfg(test)]
mod description_tests;
#[cfg(test)]
mod descriptions;
#[cfg(test)]
mod desks;
#[cfg(test)]
mod failing;
#[cfg(test)]
mod left;
#[cfg(test)]
mod memory;
#[cfg(test)]
mod order;
#[cfg(test)]
mod painting;
#[cfg(test)]
mod programs;
#[cfg(test)]
mod runtime;
#[cfg(test)]
mod shown;
#[cfg(test)]
mod tests;
#[cfg(test)]
mod tracing;
#[cfg(test)]
mod words;
