//! Tests of what is made of descriptions and ring files, called as their users call them: worked texts, plans, programs and streams.
#![tactic(auto)]

#[cfg(test)]
mod descriptions;
#[cfg(test)]
mod fields;
#[cfg(test)]
mod layouts;
#[cfg(test)]
mod plans;
#[cfg(test)]
mod programs;
#[cfg(test)]
mod rings;
#[cfg(test)]
mod streams;
#[cfg(test)]
mod vbi_lines;
