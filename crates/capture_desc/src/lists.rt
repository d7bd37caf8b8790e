//! Lists that a description and its faults hold. Contracts see each as a list.
ghost use Rattle.std.specs.Prelude.{◌≡◌, IfOk};

use std::alloc::{AllocError, Global};
use std::marker::Model;

/// A list of numbers of 32 bits: strides or offsets in bytes, addresses of pages.
#[derive(Drop)]
pub struct Numbers {
    numbers: Vec<u32>,
}

impl Model for Numbers {
    ghost use Rattle.std.specs.Prelude.{ℕ, List};

    ghost Value = { List ℕ };

    ghost view = { λ n. n.numbers.items };
}

impl Numbers {
    /// Keeps a list, without a copy.
    pub fn from_vec(numbers: Vec<u32>) -> Numbers
        ensures { result ≡ numbers.items }
    {
        Numbers { numbers }
    }

    /// Keeps a copy of a list.
    pub fn from_list(alloc: Global, numbers: &[u32]) -> Result<Numbers, AllocError>
        ensures { IfOk result (λ kept. kept ≡ numbers.now) }
    {
        let numbers = Vec::from_slice(alloc, numbers)?;
        Ok(Numbers { numbers })
    }

    /// The list.
    pub fn as_slice(&self) -> &[u32]
        ensures { result.now ≡ self.now }
    {
        &self.numbers
    }
}

/// Chunks of memory in the order of the picture's bytes, each as its address and its length in bytes.
#[derive(Drop)]
pub struct ChunkList {
    pairs: Vec<(u32, u32)>,
}

impl Model for ChunkList {
    ghost use Rattle.std.specs.Prelude.{ℕ, List};

    ghost Value = { List (ℕ × ℕ) };

    ghost view = { λ c. c.pairs.items };
}

impl ChunkList {
    /// Keeps a list, without a copy.
    pub fn from_vec(pairs: Vec<(u32, u32)>) -> ChunkList
        ensures { result ≡ pairs.items }
    {
        ChunkList { pairs }
    }

    /// Keeps a copy of a list of addresses and lengths.
    pub fn from_list(alloc: Global, pairs: &[(u32, u32)]) -> Result<ChunkList, AllocError>
        ensures { IfOk result (λ kept. kept ≡ pairs.now) }
    {
        let pairs = Vec::from_slice(alloc, pairs)?;
        Ok(ChunkList { pairs })
    }

    /// The list.
    pub fn as_slice(&self) -> &[(u32, u32)]
        ensures { result.now ≡ self.now }
    {
        &self.pairs
    }
}

/// The bytes of a key that a description may not have.
#[derive(Debug, Drop)]
pub struct KeyText {
    bytes: Vec<u8>,
}

impl Model for KeyText {
    ghost use Rattle.std.specs.Prelude.{ℕ, List};

    ghost Value = { List ℕ };

    ghost view = { λ k. k.bytes.items };
}

impl KeyText {
    /// Keeps a copy of the bytes.
    pub fn from_list(alloc: Global, bytes: &[u8]) -> Result<KeyText, AllocError>
        ensures { IfOk result (λ kept. kept ≡ bytes.now) }
    {
        let bytes = Vec::from_slice(alloc, bytes)?;
        Ok(KeyText { bytes })
    }

    /// The bytes.
    pub fn as_slice(&self) -> &[u8]
        ensures { result.now ≡ self.now }
    {
        &self.bytes
    }
}
