//! The instructions of the Bt878's RISC programs and the words that stand for them
//! (Bt878 data sheet, "RISC instructions"; Linux bttv, `bt848.h`).
#![tactic(auto)]

mod fields;
mod reading;
mod spelling;

ghost use Rattle.risc_word.specs.Parts.{instr_ctl, instr_ends, instr_off};
ghost use Rattle.risc_word.specs.Words.{code_number, code_numbered, control_fits, counts_fit, fits};
ghost use Rattle.std.specs.Prelude.{◌≡◌};

pub use reading::decode;
pub use spelling::{encode, encoding_is_read_back};

/// A control code of the FIFO: the codes that a SYNC can wait for.
#[derive(Clone, Copy, Debug, PartialEq, Eq)]
pub enum Code {
    /// Vertical reset, even: the top field follows.
    Vre,
    /// Vertical reset, odd: the bottom field follows.
    Vro,
    /// Packed data follow.
    Fm1,
    /// Planar data follow.
    Fm3,
}

impl Code {
    /// The code of a number of four bits: 4, 6, 12 or 14. None exactly where it is none of these.
    #[inline]
    pub fn of(nibble: u8) -> Option<Code>
        ensures { result ≡ code_numbered nibble }
    {
        match nibble {
            4 => Some(Code::Vre),
            6 => Some(Code::Fm1),
            12 => Some(Code::Vro),
            14 => Some(Code::Fm3),
            _ => None,
        }
    }

    /// The number of the code.
    #[inline]
    pub fn nibble(self) -> u8
        ensures { result ≡ code_number self }
    {
        match self {
            Code::Vre => 4,
            Code::Fm1 => 6,
            Code::Vro => 12,
            Code::Fm3 => 14,
        }
    }
}

/// The control bits of an instruction, applied when it retires.
#[derive(Clone, Copy, Debug, PartialEq, Eq)]
pub struct Ctl {
    /// Sets RISCI.
    pub irq: bool,
    /// RISC status bits to set, four of them.
    pub set: u8,
    /// RISC status bits to clear, four of them.
    pub reset: u8,
}

impl Ctl {
    fn fits(self) -> bool
        ensures { result ≡ control_fits self }
    {
        self.set < 16 && self.reset < 16
    }
}

/// Where a data instruction is in its line.
#[derive(Clone, Copy, Debug, PartialEq, Eq)]
pub struct Ends {
    /// The first instruction of the line.
    pub sol: bool,
    /// The last instruction of the line.
    pub eol: bool,
}

/// Control bits that change nothing: no interrupt, and the RISC status stays.
pub const NO_CONTROL: Ctl = Ctl {
    irq: false,
    set: 0,
    reset: 0,
};

/// The place of an instruction that neither begins nor ends a line.
pub const NO_ENDS: Ends = Ends {
    sol: false,
    eol: false,
};

/// An instruction. Counts are bytes, addresses are those of bytes in memory; `off` has a bit for each
/// lane of a DWORD that is not written, bit k for lane k (this project's own rule).
#[derive(Clone, Copy, Debug, PartialEq, Eq)]
pub enum Instr {
    /// Writes `count` bytes of queue 1 from `addr` on.
    Write {
        ctl: Ctl,
        ends: Ends,
        off: u8,
        count: u16,
        addr: u32,
    },
    /// Takes `count` bytes of queue 1 and writes nothing.
    Skip {
        ctl: Ctl,
        ends: Ends,
        count: u16,
    },
    /// Writes `count` bytes of queue 1 where the write before it stopped.
    WriteC {
        ctl: Ctl,
        ends: Ends,
        off: u8,
        count: u16,
    },
    /// Goes on at `target`.
    Jump {
        ctl: Ctl,
        target: u32,
    },
    /// Waits for `code` at the front of the queues.
    Sync {
        ctl: Ctl,
        resync: bool,
        code: Code,
    },
    /// Writes `counts[q]` bytes of queue q + 1 from `addrs[q]` on.
    Write123 {
        ctl: Ctl,
        ends: Ends,
        off: u8,
        counts: [u16; 3],
        addrs: [u32; 3],
    },
    /// Takes `counts[q]` bytes of queue q + 1 and writes nothing.
    Skip123 {
        ctl: Ctl,
        ends: Ends,
        counts: [u16; 3],
    },
    /// Writes `counts[0]` bytes of queue 1 from `addr` on and takes `counts[1]` and `counts[2]` bytes of
    /// queues 2 and 3.
    Write1S23 {
        ctl: Ctl,
        ends: Ends,
        off: u8,
        counts: [u16; 3],
        addr: u32,
    },
}

impl Instr {
    /// Whether `set`, `reset` and `off` are below 16 and the counts below 4,096.
    pub fn fits(&self) -> bool
        ensures { result ≡ fits self.now }
    {
        match self {
            Instr::Write {
                ctl,
                off,
                count,
                ..
            }
            | Instr::WriteC {
                ctl,
                off,
                count,
                ..
            } => { ctl.fits() && *off < 16 && *count < 4096 }
            Instr::Skip { ctl, count, .. } => ctl.fits() && *count < 4096,
            Instr::Jump { ctl, .. } | Instr::Sync { ctl, .. } => ctl.fits(),
            Instr::Write123 {
                ctl,
                off,
                counts,
                ..
            }
            | Instr::Write1S23 {
                ctl,
                off,
                counts,
                ..
            } => { ctl.fits() && *off < 16 && counts_fit(counts) }
            Instr::Skip123 { ctl, counts, .. } => ctl.fits() && counts_fit(counts),
        }
    }

    /// The control bits.
    #[inline]
    pub fn ctl(&self) -> Ctl
        ensures { result ≡ instr_ctl self.now }
    {
        match *self {
            Instr::Write { ctl, .. }
            | Instr::Skip { ctl, .. }
            | Instr::WriteC { ctl, .. }
            | Instr::Jump { ctl, .. }
            | Instr::Sync { ctl, .. }
            | Instr::Write123 { ctl, .. }
            | Instr::Skip123 { ctl, .. }
            | Instr::Write1S23 { ctl, .. } => ctl,
        }
    }

    /// Where the instruction is in its line. A JUMP and a SYNC are in none: neither first nor last.
    #[inline]
    pub fn ends(&self) -> Ends
        ensures { result ≡ instr_ends self.now }
    {
        match *self {
            Instr::Write { ends, .. }
            | Instr::Skip { ends, .. }
            | Instr::WriteC { ends, .. }
            | Instr::Write123 { ends, .. }
            | Instr::Skip123 { ends, .. }
            | Instr::Write1S23 { ends, .. } => ends,
            Instr::Jump { .. } | Instr::Sync { .. } => NO_ENDS,
        }
    }

    /// The lanes of a DWORD that are not written, bit k for lane k. 0 for an instruction that writes nothing.
    #[inline]
    pub fn off(&self) -> u8
        ensures { result ≡ instr_off self.now }
    {
        match *self {
            Instr::Write { off, .. }
            | Instr::WriteC { off, .. }
            | Instr::Write123 { off, .. }
            | Instr::Write1S23 { off, .. } => off,
            Instr::Skip { .. } | Instr::Jump { .. } | Instr::Sync { .. } | Instr::Skip123 { .. } =>
                0,
        }
    }
}

fn counts_fit(counts: &[u16; 3]) -> bool
    ensures { result ≡ counts_fit counts.now }
{
    counts.iter().all(|count| *count < 4096)
}

/// Why no instruction is at a word.
#[derive(Clone, Copy, Debug, PartialEq, Eq)]
pub enum WordFault {
    /// The opcode is reserved.
    Reserved(u8),
    /// A SYNC names no control code.
    SyncCode(u8),
    /// The program ends before the instruction does.
    Cut,
}
