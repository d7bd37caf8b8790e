//! Outputs, written one after the other, and a text that is printed last.

ghost use Rattle.std.specs.Prelude.{All, IsTrue, List, MatchResult, ℕ, ◌≡◌};
ghost use Rattle.capture_desk.specs.Desks.{IsAllowed, Puts, WriteCounts, after_write};
ghost use Rattle.command_steps.specs.Outputs.{DeliveryCounts, Finishes, IsDeliveryOf, IsFileOf, IsFilePart, IsPart, after_file, delivered};
ghost use Rattle.command_steps.specs.Outputs.{files_of, names_of};
ghost use Rattle.command_steps.specs.Reading.{Calls};

use capture_desk::{Desk, Failed, say_all};
use command_texts::Answer;

/// What an output holds, which is put to it piece by piece.
pub trait Content {
    ghost bytes: { Self → List ℕ };

    /// Puts all bytes to the open output, up to a write that fails.
    fn put<D: Desk>(&self, desk: &mut D) -> Result<(), Failed>
        requires open { IsTrue (D.seen desk.old).told.output_open }
        ensures puts { Puts (bytes self.now) result after_write (D.seen desk.old).told (D.seen desk.new).told }
        ensures counts { WriteCounts result (D.seen desk.old) (D.seen desk.new) };
}

/// An output: its name, and what it holds.
#[derive(Drop)]
pub struct Output<'a, C> {
    /// Its name, as the words of the command line have it.
    pub name: &'a str,
    /// What is written to it.
    pub content: C,
}

/// Writes an output: it is created, written and finished.
fn write_output<C: Content, D: Desk>(name: &str, content: &C, desk: &mut D) -> Result<(), Failed>
    requires { IsAllowed name.now (D.seen desk.old).told.may_create }
    ensures left { MatchResult result
        (λ _. (D.seen desk.new).told ≡ after_file (name.now, C.bytes content.now) (D.seen desk.old).told)
        (λ _. IsFilePart name.now (C.bytes content.now) (D.seen desk.old).told (D.seen desk.new).told) }
    ensures counts { DeliveryCounts result (D.seen desk.old) (D.seen desk.new) }
    ensures calls { Calls (IsFileOf name.now result) (D.seen desk.old) (D.seen desk.new) }
{
    desk.create_out(name)?;
    content.put(desk)?;
    desk.finish()
}

/// Writes outputs, one after the other, and then prints a text. Where a call fails, it is the last.
fn deliver<C: Content, D: Desk>(
    outputs: &[Output<'_, C>],
    text: &str,
    desk: &mut D,
) -> Result<(), Failed>
    requires { All (λ output. IsAllowed output.name.now (D.seen desk.old).told.may_create) outputs.now }
    ensures left { MatchResult result
        (λ _. (D.seen desk.new).told ≡ delivered (files_of C.bytes outputs.now) text.now (D.seen desk.old).told)
        (λ _. IsPart (files_of C.bytes outputs.now) text.now (D.seen desk.old).told (D.seen desk.new).told) }
    ensures counts { DeliveryCounts result (D.seen desk.old) (D.seen desk.new) }
    ensures calls { Calls (IsDeliveryOf (names_of (files_of C.bytes outputs.now)) text.now result) (D.seen desk.old) (D.seen desk.new) }
{
    for output in outputs {
        write_output(output.name, &output.content, desk)?;
    }
    say_all(desk, text.as_bytes())
}

/// Writes the outputs of a command, one after the other, prints its text, and answers `Done`. Where a call
/// fails it answers `WriteFault`, and no call follows.
pub fn finish<C: Content, D: Desk>(outputs: &[Output<'_, C>], text: &str, desk: &mut D) -> Answer
    requires { All (λ output. IsAllowed output.name.now (D.seen desk.old).told.may_create) outputs.now }
    ensures { Finishes (files_of C.bytes outputs.now) text.now result (D.seen desk.old) (D.seen desk.new) }
{
    match deliver(outputs, text, desk) {
        Ok(()) => Answer::Done,
        Err(_) => Answer::WriteFault,
    }
}
