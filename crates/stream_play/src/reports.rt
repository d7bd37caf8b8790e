//! What is printed of a player once its stream was played.

ghost use Rattle.std.specs.Prelude.{◌≡◌, ℕ, List};
ghost use Rattle.command_texts.specs.Texts.{blocks_text as told_blocks, report_text as told_report};
ghost use Rattle.dma_machine.specs.Facts.{report_of};

use command_texts::{ShortText, blocks_text, report_text};
use machine_watch::Watched;
use page_ram::Ram;
use ring_machine::BlockCount;
use slot_chain::DoubleBuffer;

/// A player of which a text is printed once its stream was played. Contracts see the bytes of that text.
pub trait Reports {
    ghost told: { Self → List ℕ };

    /// The text. It takes no memory.
    fn text(&self) -> ShortText
        ensures { result ≡ told self.now };
}

/// The text of a machine is its report.
impl<R: Ram> Reports for Watched<R, ()> {
    ghost told = { λ w. told_report (report_of w.machine) };

    fn text(&self) -> ShortText {
        report_text(&self.report())
    }
}

/// The text of a ring's machine is how many blocks were ended, and its report.
impl<R: Ram> Reports for Watched<R, BlockCount> {
    ghost told = { λ w. told_blocks w.kept.blocks (report_of w.machine) };

    fn text(&self) -> ShortText {
        blocks_text(self.watch().blocks(), &self.report())
    }
}

/// The text of a chain is the report of its machine.
impl<R: Ram> Reports for DoubleBuffer<R> {
    ghost told = { λ b. told_report (report_of b.live.machine) };

    fn text(&self) -> ShortText {
        report_text(&self.report())
    }
}
