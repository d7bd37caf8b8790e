//! What a call of the program comes to, why a command is refused, and all texts that are printed.
#![tactic(auto)]

mod answer;
mod check_text;
mod damage_text;
mod refusal;
mod short;
mod texts;

pub use answer::Answer;
pub use check_text::CheckText;
pub use damage_text::push_damage;
pub use refusal::Refusal;
pub use short::{ShortText, blocks_text, built_text, made_text, push_report, report_text};
pub use texts::{ACCEPTED, HELP, NO_MEMORY, RefusalText, VERSION, refusal_text, usage_text};
