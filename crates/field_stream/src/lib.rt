//! The generator of streams: the pushes of whole frames of a description, with drawn bytes.
#![tactic(auto)]

mod counts;
mod draft;
mod generator;
mod laws;
mod lines;
mod stream;
mod template;

pub use counts::Made;
pub use laws::the_smallest_stream;
pub use lines::line_entries;
pub use stream::make;
