//! The generator of bytes.

ghost use Rattle.std.specs.Prelude.{◌≡◌, ◌<◌, ◌≤◌};
ghost use Rattle.field_stream.specs.Generator.{IsDrawn, drawn, first_number, lanes, number_after};

use std::marker::Model;

const MODULUS: u32 = 65_537;

// What the lanes that aren't valid hold.
const FREE: u8 = 0xff;

// After so many bytes the generator is at its first number again.
const TURN: usize = 65_536;

// The bytes of a turn, and of a line that begins in it and ends in the next.
const BYTES: usize = 69_632;

// The bytes that are drawn from a first number on, and how many of a turn were drawn. Contracts see the
// number that the generator is at.
#[derive(Drop)]
pub(crate) struct Generator {
    bytes: [u8; BYTES],
    first: u32,
    at: usize,
}

impl Model for Generator {
    ghost use Rattle.std.specs.Prelude.{ℕ, ◌<◌};
    ghost use Rattle.field_stream.specs.Generator.{IsDrawn, number_after};

    ghost Value = { ℕ };

    ghost view = { λ g. number_after g.first g.at };

    ghost invariant = { λ g. IsDrawn g.first g.bytes × (g.at < 65536) × (g.first < 65537) };
}

// The bytes that are drawn from a number on.
fn bytes_from(first: u32) -> [u8; BYTES]
    requires { first < 65537 }
    ensures { IsDrawn first result }
{
    let mut number = first;
    let mut bytes = [0; BYTES];
    for byte in bytes.iter_mut() {
        number = (75 * number + 74) % MODULUS;
        *byte = (number % 256) as u8;
    }
    bytes
}

impl Generator {
    // The generator at the first number of a seed.
    pub(crate) fn new(seed: u64) -> Generator
        ensures { result ≡ first_number seed }
    {
        let first = (seed % u64::from(MODULUS)) as u32;
        Generator {
            bytes: bytes_from(first),
            first,
            at: 0,
        }
    }

    // The four bytes behind so many others.
    #[inline]
    pub(crate) fn four_behind(&self, others: usize) -> [u8; 4]
        requires { others ≤ 4092 }
        ensures { result ≡ drawn (number_after self.now others) 4 }
    {
        let at = self.at + others;
        [
            self.bytes[at],
            self.bytes[at + 1],
            self.bytes[at + 2],
            self.bytes[at + 3],
        ]
    }

    // Passes so many bytes.
    #[inline]
    pub(crate) fn pass(&mut self, count: usize)
        requires { count ≤ 4096 }
        ensures { self.new ≡ number_after self.old count }
    {
        self.at = (self.at + count) % TURN;
    }

    // Draws the valid lanes of an entry, and answers its four lanes.
    #[inline]
    pub(crate) fn draw(&mut self, valid: u8) -> [u8; 4]
        requires { (1 ≤ valid) × (valid ≤ 4) }
        ensures lanes { result ≡ lanes self.old valid }
        ensures number { self.new ≡ number_after self.old valid }
    {
        let [a, b, c, d] = self.four_behind(0);
        self.pass(usize::from(valid));
        match valid {
            1 => [a, FREE, FREE, FREE],
            2 => [a, b, FREE, FREE],
            3 => [a, b, c, FREE],
            _ => [a, b, c, d],
        }
    }
}
