//! Tests of damage maps: worked streams, and drawn ones, compared with a plain reading of which rows are whole.
#![tactic(auto)]

#[cfg(test)]
mod lanes;
#[cfg(test)]
mod maps;
#[cfg(test)]
mod plain;
#[cfg(test)]
mod programs;
#[cfg(test)]
mod rows;
#[cfg(test)]
mod streams;
#[cfg(test)]
mod tests;
#[cfg(test)]
mod texts;
#[cfg(test)]
mod worked;
