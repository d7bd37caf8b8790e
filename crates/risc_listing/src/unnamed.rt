//! The bits of an instruction's words that no field names (Bt878 data sheet, "RISC instructions"; the
//! planar counts are this project's own).

ghost use Rattle.risc_listing.specs.Unnamed.{are_unnamed_zero_in_counts, are_unnamed_zero_in_data, are_unnamed_zero_in_jump};
ghost use Rattle.risc_listing.specs.Unnamed.{are_unnamed_zero_in_skip, are_unnamed_zero_in_sync};
ghost use Rattle.std.specs.Prelude.{◌≡◌, ◌&&◌, ◌==◌, slice_index};

use bit_field::Field;

/// Which instruction a first word begins.
pub type Opcode = Field<28, 4>;

// The bit below the line ends.
type Spare = Field<25, 1>;

// The lanes' bits, where an instruction writes nothing.
type Lanes = Field<12, 4>;

// The line ends and the bit below them, where an instruction moves no data.
type NoEnds = Field<25, 3>;

// The lower half, where it has neither a count nor a control code.
type LowerHalf = Field<0, 16>;

// What is between RESYNC and the control code.
type BelowResync = Field<4, 11>;

// The bits above each of two counts.
type AboveSecondCount = Field<12, 4>;

type AboveThirdCount = Field<28, 4>;

/// Whether the bits that no field names are 0 in the first word of an instruction that writes data.
#[inline(always)]
pub fn are_unnamed_zero_in_data(word: u32) -> bool
    ensures { result ≡ are_unnamed_zero_in_data word }
{
    Spare::get(word) == 0
}

/// The same of an instruction that takes data and writes nothing.
#[inline(always)]
pub fn are_unnamed_zero_in_skip(word: u32) -> bool
    ensures { result ≡ are_unnamed_zero_in_skip word }
{
    are_unnamed_zero_in_data(word) && Lanes::get(word) == 0
}

/// The same of a JUMP.
#[inline(always)]
pub fn are_unnamed_zero_in_jump(word: u32) -> bool
    ensures { result ≡ are_unnamed_zero_in_jump word }
{
    NoEnds::get(word) == 0 && LowerHalf::get(word) == 0
}

/// The same of a SYNC, whose second word is all unnamed.
#[inline(always)]
pub fn are_unnamed_zero_in_sync(first: u32, second: u32) -> bool
    ensures { result ≡ (are_unnamed_zero_in_sync first && second == 0) }
{
    NoEnds::get(first) == 0 && BelowResync::get(first) == 0 && second == 0
}

/// The same of the word with the counts of queues 2 and 3.
#[inline(always)]
pub fn are_unnamed_zero_in_counts(word: u32) -> bool
    ensures { result ≡ are_unnamed_zero_in_counts word }
{
    AboveSecondCount::get(word) == 0 && AboveThirdCount::get(word) == 0
}

/// The word numbered `at`, counted from 0, or 0 past the last.
#[inline(always)]
pub fn word_or_zero(words: &[u32], at: usize) -> u32
    ensures { result ≡ slice_index words.now at }
{
    if at < words.len() { words[at] } else { 0 }
}
