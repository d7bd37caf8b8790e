//! Refusals, reported as the last act.

ghost use Rattle.std.specs.Prelude.{◌≡◌};
ghost use Rattle.command_texts.specs.Texts.{answer_text};
ghost use Rattle.command_steps.specs.Outputs.{Refused, SaysAtOnce};

use bt878_words::UsageFault;
use capture_desk::{Desk, say_all};
use command_texts::{Answer, NO_MEMORY, Refusal, refusal_text, usage_text};
use std::alloc::Global;

/// Prints a text as the last act: a fault of the desk changes nothing more.
fn say_last<D: Desk>(text: &[u8], desk: &mut D)
    ensures { SaysAtOnce text.now (D.seen desk.old) (D.seen desk.new) }
{
    let _ = say_all(desk, text);
}

/// Prints the text of a refusal, and answers it. Out of memory for that text, it prints and answers `NoMemory`.
pub fn refuse<D: Desk>(alloc: Global, refusal: Refusal, desk: &mut D) -> Answer
    ensures { Refused refusal result (D.seen desk.old) (D.seen desk.new) }
{
    match refusal_text(alloc, &refusal) {
        Ok(text) => {
            say_last(text.as_bytes(), desk);
            drop(text);
            refusal.into_answer()
        }
        Err(_) => {
            say_last(NO_MEMORY.as_bytes(), desk);
            Answer::NoMemory
        }
    }
}

/// Prints the text of a fault of the words, and answers it. It takes no memory.
pub fn refuse_words<D: Desk>(fault: UsageFault, desk: &mut D) -> Answer
    ensures answer { result ≡ Answer.Usage fault }
    ensures says { SaysAtOnce (answer_text (Answer.Usage fault)) (D.seen desk.old) (D.seen desk.new) }
{
    say_last(usage_text(fault).as_bytes(), desk);
    Answer::Usage(fault)
}
