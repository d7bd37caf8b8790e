// A host in memory that tells all.
ghost use Rattle.std.specs.Prelude.{◌≡◌, ◌+◌, ◌<◌, ◌≤◌, ◌++◌, [], ◌∷◌, IfOk, None, Some, drop, if◌then◌else◌, length, take};
ghost use Rattle.capture_desk.specs.Hosts.{AppendsFirst, CreatesFile, OpensFile, ReadsFile, Store};

use capture_desk::Host;
use std::alloc::Global;
use std::io;
use std::io::ErrorKind;

/// What a call answers that fails.
fn fault() -> io::Error {
    io::Error::from(ErrorKind::Other)
}

/// An input, an output that may be created, and a text. Each call moves at most `longest` bytes, and
/// those fail that come after the first `left`.
#[derive(Drop)]
pub struct Shelf<'a> {
    input: &'a str,
    bytes: &'a [u8],
    output: &'a str,
    made: bool,
    held: Vec<u8>,
    text: Vec<u8>,
    longest: usize,
    left: u64,
}

/// The unread rest of the input.
#[derive(Drop)]
pub struct Rest<'a> {
    bytes: &'a [u8],
}

/// The open output.
#[derive(Drop)]
pub struct Slot<'a> {
    name: &'a str,
}

// Moves the first bytes into the front of a buffer.
fn copy_front(buf: &mut [u8], bytes: &[u8], n: usize)
    requires { (n ≤ length buf.old) × (n ≤ length bytes.now) }
    ensures { buf.new ≡ take n bytes.now ++ drop n buf.old }
{
    buf[..n].copy_from_slice(&bytes[..n]);
}

impl<'a> Shelf<'a> {
    /// A shelf with this input, and with an output of this name that isn't there yet.
    pub fn new(
        alloc: Global,
        input: (&'a str, &'a [u8]),
        output: &'a str,
        longest: usize,
        left: u64,
    ) -> Shelf<'a>
        ensures input { (result.input.now ≡ input.entry.0.now) × (result.bytes.now ≡ input.entry.1.now) }
        ensures text { result.text.items ≡ [] }
    {
        Shelf {
            input: input.0,
            bytes: input.1,
            output,
            made: false,
            held: Vec::new(alloc),
            text: Vec::new(alloc),
            longest: longest.max(1),
            left,
        }
    }

    // Whether the next call fails.
    fn next_fails(&mut self) -> bool
        ensures { self.new ≡ record self.old { left = self.new.left } }
    {
        let fails = self.left == 0;
        self.left = self.left.saturating_sub(1);
        fails
    }
}

impl<'a> Host for Shelf<'a> {
    type Input = Rest<'a>;

    type Output = Slot<'a>;

    ghost store = { λ shelf. record {
      inputs = Some ((shelf.input.now, shelf.bytes.now) ∷ []);
      outputs = Some ((shelf.output.now, if shelf.made then Some shelf.held.items else None) ∷ []);
      said = Some shelf.text.items;
    } };

    ghost rest = { λ rest. Some rest.bytes.now };

    ghost label = { λ slot. Some slot.name.now };

    fn open(&mut self, name: &str) -> io::Result<Rest<'a>> {
        if self.next_fails() || self.input != name {
            return Err(fault());
        }
        Ok(Rest { bytes: self.bytes })
    }

    fn read(&mut self, file: &mut Rest<'a>, buf: &mut [u8]) -> io::Result<usize> {
        if self.next_fails() {
            return Err(fault());
        }
        let n = self.longest.max(1).min(buf.len()).min(file.bytes.len());
        copy_front(buf, file.bytes, n);
        file.bytes = &file.bytes[n..];
        Ok(n)
    }

    fn create(&mut self, name: &str) -> io::Result<Slot<'a>> {
        if self.next_fails() || self.output != name {
            return Err(fault());
        }
        self.made = true;
        self.held.clear();
        Ok(Slot { name: self.output })
    }

    fn write(&mut self, file: &mut Slot<'a>, bytes: &[u8]) -> io::Result<usize> {
        if self.next_fails() || self.output != file.name || !self.made {
            return Err(fault());
        }
        let n = self.longest.min(bytes.len());
        self.held.extend_from_slice(&bytes[..n])?;
        Ok(n)
    }

    fn flush(&mut self, _file: &mut Slot<'a>) -> io::Result<()> {
        if self.next_fails() {
            return Err(fault());
        }
        Ok(())
    }

    fn say(&mut self, bytes: &[u8]) -> io::Result<usize> {
        if self.next_fails() {
            return Err(fault());
        }
        let n = self.longest.min(bytes.len());
        self.text.extend_from_slice(&bytes[..n])?;
        Ok(n)
    }
}
