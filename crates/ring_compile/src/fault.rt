//! Why a text describes no ring.
ghost use Rattle.std.specs.Prelude.{◌≡◌};
ghost use Rattle.ring_compile.specs.declared.fault.RingError.TheVariants.{Bad, Memory};
ghost use Rattle.ring_compile.specs.Files.{is_known, name_of};

use capture_desc::KeyText;
use std::alloc::AllocError;
use toml_keys::KnownKeys;

/// A key of a ring file (this project's own form), in the order in which the keys are checked.
#[derive(Clone, Copy, Debug, PartialEq, Eq)]
pub enum RingKey {
    /// `blocks`: the blocks of the ring, 2 to 16. Required.
    Blocks,
    /// `lines`: the lines of each block, 1 to 64. Required.
    Lines,
    /// `line_bytes`: the bytes of a line, 5 to 4,092. Required.
    LineBytes,
    /// `base`: the address of the program, by default 4,096.
    Base,
    /// `pages`: the addresses of at most 4,096 pages that take the lines, in their order. Required.
    Pages,
    /// `fill`: the byte that memory holds at first, by default 0.
    Fill,
}

impl RingKey {
    /// The key as it is written.
    pub fn name(self) -> &'static str
        ensures { result.now ≡ name_of self }
    {
        match self {
            RingKey::Blocks => "blocks",
            RingKey::Lines => "lines",
            RingKey::LineBytes => "line_bytes",
            RingKey::Base => "base",
            RingKey::Pages => "pages",
            RingKey::Fill => "fill",
        }
    }
}

impl KnownKeys for RingKey {
    ghost is_known = { is_known };

    fn is_known(name: &str) -> bool {
        matches!(
            name,
            "blocks" | "lines" | "line_bytes" | "base" | "pages" | "fill"
        )
    }
}

/// Why a text is no ring file, in the order in which the faults are checked (this project's own rules). Places in the
/// list of pages are counted from 0.
#[derive(Debug, Drop)]
pub enum RingFault {
    /// No TOML document.
    NotToml,
    /// A key that no ring file has: of several the least in byte order.
    Unknown(KeyText),
    /// A key that has to be there is not.
    Missing(RingKey),
    /// The key's value or a member of it has another TOML type.
    WrongKind(RingKey),
    /// The key's value is none of the numbers that it may be, or has more members than it may have.
    OutOfRange(RingKey),
    /// The first page that is no multiple of 4,096.
    PageUnaligned(u32),
    /// The first page that is in the list before.
    PageTwice(u32),
    /// The lines need so many pages, and so many are there.
    TooFewPages { need: u64, have: u64 },
    /// The base is no multiple of 4, or the program ends beyond 2^32.
    ProgramBase,
    /// The program shares a byte with a page.
    ProgramOnPage,
}

/// Why no ring was read.
#[derive(Debug, Drop)]
pub enum RingError {
    /// The text is no ring file.
    Bad(RingFault),
    /// Out of memory.
    Memory,
}

impl From<AllocError> for RingError {
    ghost from_gives = { λ _ error. error ≡ Memory };

    fn from(_error: AllocError) -> RingError {
        RingError::Memory
    }
}

impl From<RingFault> for RingError {
    ghost from_gives = { λ fault error. error ≡ Bad fault };

    fn from(fault: RingFault) -> RingError {
        RingError::Bad(fault)
    }
}
