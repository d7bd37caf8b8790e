//! The lines of a listing, how they are read back, and when lines begin a listing.
#![tactic(auto)]

ghost use Rattle.machine_model.specs.Paths.{RiscProgram};
ghost use Rattle.risc_listing.specs.Listings.{listing};
ghost use Rattle.risc_text.specs.Assembly.{BeginsListing, FewLinesMissing, IsListed, are_lines};
ghost use Rattle.risc_text.specs.Drafts.{draft_of, drafted};
ghost use Rattle.std.specs.Prelude.{◌≡◌, ◌↔◌, IsTrue, List, Some, ℕ};

use risc_word::Instr;

/// The name after the address of a line.
#[derive(Clone, Copy, Debug, PartialEq, Eq)]
pub enum Name {
    Write,
    Skip,
    WriteC,
    Jump,
    Sync,
    Write123,
    Skip123,
    Write1S23,
    /// A word that begins no instruction.
    Word,
}

/// What a line of a listing has.
#[derive(Clone, Copy, Debug, PartialEq, Eq)]
pub enum Line {
    /// The address of the first word.
    Base(u32),
    /// The address of a span, whose words follow.
    Span(u32),
    /// The address at which the path begins, where there are spans.
    Entry(u32),
    /// An instruction. Its address is that of the next word.
    Instr(Instr),
    /// A word that begins no instruction.
    Word(u32),
    /// An address and a length in bytes: memory that the program may write.
    Chunk(u32, u32),
    /// The byte that fills this memory at first.
    Fill(u8),
}

/// At most one pair of a program and a fill has a given listing. The function does nothing; its contract
/// is the law.
pub fn one_program_has_a_listing()
    ensures { (program other : RiscProgram) (fill more : ℕ) → IsListed program fill → IsListed other more
        → listing program fill ≡ listing other more → (program ≡ other) × (fill ≡ more) }
{}

/// Every listing is read back to its program and fill. The function does nothing; its contract is the law.
pub fn listings_are_read_back()
    ensures { (program : RiscProgram) (fill : ℕ) → IsListed program fill
        → drafted (listing program fill) ≡ Some (draft_of program (Some fill)) }
{}

/// Whole lines begin some listing exactly where there are none, or they are a listing, or become one with a last
/// line `fill 00`, or are the lines of spans with which a program can go on. The function does nothing; its contract
/// is the law.
pub fn few_lines_are_missing()
    ensures { (lines : List ℕ) → IsTrue (are_lines lines) → BeginsListing lines ↔ FewLinesMissing lines }
{}
