// Program files of tests.

use std::alloc::{AllocError, Global};
use test_kit::{ONE_LINE, brp};

/// A program file.
pub enum Program {
    /// Words from 1000 on, with the page at 20000 and the fill 0.
    OnPage(&'static [u32]),
    /// A base, the words from there on, chunks with their addresses and lengths, and a fill.
    Fields(u32, &'static [u32], &'static [(u32, u32)], u8),
    /// The bytes of a file of several spans, or of one that is malformed.
    Bytes(&'static [u8]),
}

impl Program {
    pub fn bytes(&self, alloc: Global) -> Result<Vec<u8>, AllocError> {
        match *self {
            Program::OnPage(words) => on_page(alloc, words),
            Program::Fields(base, words, chunks, fill) => brp(alloc, base, words, chunks, fill),
            Program::Bytes(bytes) => Vec::from_slice(alloc, bytes),
        }
    }
}

/// The file of words from 1000 on, with the page at 20000 and the fill 0.
pub fn on_page(alloc: Global, words: &[u32]) -> Result<Vec<u8>, AllocError> {
    brp(alloc, 0x1000, words, &[(0x20000, 4096)], 0)
}

/// How many bytes the file of `ONE_LINE` has.
pub const ONE_LINE_LENGTH: usize = 53;

/// The words of `ONE_LINE`, for a chunk at 20004.
pub const ON_CHUNK: &[u32] = &[
    0x80008004, 0, 0x80000006, 0, 0x1c000008, 0x20004, 0x71e10000, 0x1000,
];

/// The file of `ONE_LINE`.
pub fn one_line(alloc: Global) -> Result<Vec<u8>, AllocError> {
    on_page(alloc, &ONE_LINE)
}

/// The file of a program without words.
pub fn no_words(alloc: Global) -> Result<Vec<u8>, AllocError> {
    on_page(alloc, &[])
}
