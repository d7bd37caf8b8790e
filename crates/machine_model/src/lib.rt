//! What a RISC program does, apart from any code: its path, when it is sound, the machine and its steps.
//! The types that the definitions and the code share are here; the definitions are in `specs/`.
#![tactic(auto)]

pub mod laws;

use fifo_model::Queue;
use risc_word::{Code, Ctl, Instr};

/// How many words a program may have (this project's own limit).
pub const MAX_WORDS: u32 = 1_048_576;

/// Why a place of a program's path isn't fine.
#[derive(Clone, Copy, Debug, PartialEq, Eq)]
pub enum Cause {
    /// No word, or not all words of the instruction, are there.
    Cut,
    /// The opcode is reserved.
    Reserved(u8),
    /// A SYNC names no control code.
    SyncCode(u8),
    /// A JUMP leads to that address, where the program has no word.
    JumpOut(u32),
    /// A WRITEC has no write to go on from.
    NoTarget,
    /// A written range passes the end of the address space.
    Wrap,
    /// The byte at that address isn't granted: the first such of the range.
    Ungranted(u32),
}

/// What the machine passes over after an instruction was given up (this project's own rule).
#[derive(Clone, Copy, Debug, PartialEq, Eq)]
pub enum Skipping {
    /// Nothing.
    Nothing,
    /// The instructions up to and with the line's last.
    ToEol,
    /// The instructions before the next SYNC.
    ToSync,
}

/// What a running instruction still asks of one queue.
#[derive(Clone, Copy, Debug, PartialEq, Eq)]
pub struct Demand {
    /// Bytes still to take.
    pub rest: u16,
    /// Where the next byte goes, up to 2^32; none where the queue isn't written.
    pub address: Option<u64>,
    /// The next entry must begin a line.
    pub needs_sol: bool,
}

/// What a running instruction still asks of the three queues.
#[derive(Clone, Copy, Debug, PartialEq, Eq)]
pub struct Demands {
    /// Of queue 1, which has the packed data or the luma.
    pub one: Demand,
    /// Of queue 2, which has chroma.
    pub two: Demand,
    /// Of queue 3, which has chroma.
    pub three: Demand,
}

/// What the machine is at.
#[derive(Clone, Copy, Debug, PartialEq, Eq)]
pub enum Job {
    /// About to fetch an instruction.
    Idle,
    /// In a SYNC, until its code comes.
    Waiting { ctl: Ctl, resync: bool, code: Code },
    /// In a data instruction.
    Running { instr: Instr, demands: Demands },
}

/// What one turn of the machine did. A turn of a running instruction makes a burst of applications to the
/// fronts of one queue; their rules are this project's own.
#[derive(Clone, Copy, Debug, PartialEq, Eq)]
pub enum Did {
    /// Nothing: RISC is disabled, a SYNC waits for entries, or no queue of which the instruction asks is ready.
    Still,
    /// A JUMP was executed.
    Jumped,
    /// A SYNC began to wait.
    Synced,
    /// A data instruction was passed over in a skip.
    Passed,
    /// A data instruction began.
    Begun,
    /// While a SYNC waits, a front entry that is no control code was discarded.
    Dropped,
    /// The awaited control code came.
    Matched,
    /// Another control code came, and was discarded.
    Missed,
    /// A data instruction ended, with all that it asked for.
    Retired,
    /// Entries of this queue were taken or discarded, and the instruction runs on.
    Moved(Queue),
    /// The instruction was given up at an entry of this queue, perhaps after others were taken or discarded.
    GivenUp(Queue),
}

/// What one turn did, and at which instruction. The three flags speak of all entries that the turn met.
#[derive(Clone, Copy, Debug, PartialEq, Eq)]
pub struct Seen {
    /// What the turn did.
    pub did: Did,
    /// The address of the instruction that was fetched, waits or runs; pc where RISC is disabled.
    pub at: u32,
    /// Bytes were taken.
    pub took: bool,
    /// The last entry of a line was taken to its end.
    pub ended: bool,
    /// A reserved entry was discarded by an instruction that didn't await the start of a line.
    pub reserved: bool,
}
