//! The interrupt status register.
#![tactic(auto)]

ghost use Rattle.std.specs.Prelude.{◌≡◌, ℕ, ◌+◌, ◌-◌, ◌*◌, ◌/◌, ◌%◌, ◌^◌, ◌<◌, bit_and, bit_or, [], ◌∷◌};
ghost use Rattle.irq_status.specs.Register.{IsKnown, acknowledged, applied, fbus, fdsr, ocerr, raised, risc_status, risci};

use bitflags::{Flag, Flags};
use risc_word::Ctl;
use std::marker::Model;

/// A write of the host to a register.
#[derive(Clone, Copy, Debug, PartialEq, Eq)]
pub enum HostWrite {
    /// INT_STAT: clears those of RISCI, FBUS, FDSR and OCERR that are 1 in the mask.
    Ack(u32),
    /// GPIO_DMA_CTL: the two enables.
    Enable { fifo: bool, risc: bool },
    /// GPIO_DMA_CTL: the packed trigger point, 0 to 3 for 4, 8, 16 and 32 entries.
    Trigger(u8),
}

// Any 32 bits, as a set of flags.
#[derive(Clone, Copy, Drop)]
struct StatusBits(u32);

const FLAGS: &'static [Flag<StatusBits>] = &[
    Flag {
        name: "RISCI",
        value: StatusBits(1 << 11),
    },
    Flag {
        name: "FBUS",
        value: StatusBits(1 << 12),
    },
    Flag {
        name: "FDSR",
        value: StatusBits(1 << 14),
    },
    Flag {
        name: "OCERR",
        value: StatusBits(1 << 18),
    },
    Flag {
        name: "RISCS",
        value: StatusBits(15 << 28),
    },
];

impl Flags for StatusBits {
    type Bits = u32;

    ghost use Rattle.std.specs.Prelude.{⊤, [], ◌∷◌, codes, ◌*◌, ◌^◌};

    ghost exact = { ⊤ };

    ghost table = { (codes "RISCI", 2 ^ 11) ∷ (codes "FBUS", 2 ^ 12) ∷ (codes "FDSR", 2 ^ 14) ∷ (codes "OCERR", 2 ^ 18)
        ∷ (codes "RISCS", 15 * 2 ^ 28) ∷ [] };

    ghost set_of = { λ status. status.0 };

    #[inline]
    fn flags<'a>() -> &'a [Flag<StatusBits>] {
        FLAGS
    }

    #[inline]
    fn bits(&self) -> u32 {
        self.0
    }

    #[inline]
    fn from_bits_retain(bits: u32) -> StatusBits {
        StatusBits(bits)
    }
}

/// The register INT_STAT, or some of its bits (Bt878 data sheet, "Interrupt Status"): RISCI, FBUS, FDSR
/// and OCERR, and the RISC status in bits 31 to 28. It has no other bits.
#[derive(Clone, Copy)]
pub struct IntStat {
    bits: StatusBits,
}

impl Model for IntStat {
    ghost use Rattle.std.specs.Prelude.{ℕ};

    ghost Value = { ℕ };

    ghost use Rattle.irq_status.specs.Register.{IsKnown};

    ghost view = { λ status. status.bits.0 };

    ghost invariant = { λ status. IsKnown status.bits.0 };

    ghost inverse = { λ register. record { bits = record { 0 = register } } };
}

/// The RISC program asked for an interrupt.
pub const RISCI: IntStat = IntStat {
    bits: StatusBits(1 << 11),
};

/// A FIFO queue overran.
pub const FBUS: IntStat = IntStat {
    bits: StatusBits(1 << 12),
};

/// The data and the program's line lengths lost step.
pub const FDSR: IntStat = IntStat {
    bits: StatusBits(1 << 14),
};

/// The RISC engine met no instruction that it can run, and halted.
pub const OCERR: IntStat = IntStat {
    bits: StatusBits(1 << 18),
};

/// RISCI, FBUS, FDSR and OCERR: bits 11, 12, 14 and 18 (Bt878 data sheet, "Interrupt Status").
pub fn interrupt_bits() -> [IntStat; 4]
    ensures { result ≡ risci ∷ fbus ∷ fdsr ∷ ocerr ∷ [] }
{
    [RISCI, FBUS, FDSR, OCERR]
}

// The bits that the host can clear.
const INTERRUPTS: u32 = (1 << 11) | (1 << 12) | (1 << 14) | (1 << 18);

impl IntStat {
    /// The register with no bit set.
    #[inline]
    pub fn none() -> IntStat
        ensures { result ≡ 0 }
    {
        IntStat {
            bits: StatusBits(0),
        }
    }

    /// Sets the bits.
    #[inline]
    pub fn raise(&mut self, bits: IntStat)
        ensures { self.new ≡ raised self.old bits }
    {
        self.bits.insert(bits.bits);
    }

    /// Clears those of RISCI, FBUS, FDSR and OCERR that are 1 in the mask, as a write of the mask to
    /// INT_STAT does. The RISC status stays.
    #[inline]
    pub fn ack(&mut self, mask: u32)
        ensures { self.new ≡ acknowledged self.old mask }
    {
        self.bits.remove(StatusBits(mask & INTERRUPTS));
    }

    /// Applies the control bits of an instruction.
    #[inline]
    pub fn apply(&mut self, ctl: Ctl)
        requires set { ctl.set < 16 }
        requires reset { ctl.reset < 16 }
        ensures { self.new ≡ applied ctl self.old }
    {
        self.bits.remove(StatusBits(u32::from(ctl.reset) << 28));
        self.bits.insert(StatusBits(u32::from(ctl.set) << 28));
        if ctl.irq {
            self.bits.insert(RISCI.bits);
        }
    }

    /// The register's 32 bits.
    #[inline]
    pub fn word(&self) -> u32
        ensures value { result ≡ self.now }
        ensures known { IsKnown result }
        ensures fits { result < 2 ^ 32 }
    {
        self.bits.0
    }
}
