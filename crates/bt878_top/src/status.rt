//! The call with its exit status.

ghost use Rattle.std.specs.Prelude.{◌≡◌};
ghost use Rattle.bt878_words.specs.Words.{task_of};
ghost use Rattle.bt878_contract.specs.Tasks.{Answers, AreNames, names_read, names_written};
ghost use Rattle.bt878_top.specs.Statuses.{EndsWith};
ghost use Rattle.command_texts.specs.declared.answer.Answer.TheVariants.{Done};

use crate::call::bt878;
use capture_desk::Desk;
use std::alloc::Global;

/// Does what the words after the program's name ask for, as `bt878`, and answers the exit status.
pub fn exit_status<D: Desk>(alloc: Global, words: &[&str], desk: &mut D) -> u8
    requires opens { AreNames (names_read (task_of words.now)) (D.seen desk.old).told.may_open }
    requires creates { AreNames (names_written (task_of words.now)) (D.seen desk.old).told.may_create }

    // The status is that of an answer for which everything holds that `bt878` promises of it.
    ensures ends { EndsWith (task_of words.now) result (D.seen desk.old) (D.seen desk.new) }

    // Status 0 is Done alone, and so all that is promised at Done.
    ensures done { (result ≡ 0) → Answers (task_of words.now) Done (D.seen desk.old) (D.seen desk.new) }
{
    bt878(alloc, words, desk).status()
}
