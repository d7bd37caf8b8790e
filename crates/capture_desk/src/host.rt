//! The system under a desk: its files and its standard output.
ghost use Rattle.std.specs.Prelude.{List, None, Option, length, ℕ, ◌<◌, ◌≡◌};
ghost use Rattle.std.specs.Io.KnownBytes.{Keeps, ReadConsumes, WriteAppends};
ghost use Rattle.capture_desk.specs.Hosts.{AppendsFirst, CreatesFile, OpensFile, ReadsFile, Store, nothing_told, with_said, with_written};

use std::io::{Read, Write};
use std::rt::Files;
use std::{fs, io};

/// A system's files by name, and its standard output.
///
/// Proofs see a host as what it tells of them. A call that fails changes nothing of that. A host that
/// tells its inputs promises that each opening of a name gives the same bytes (this project's own rules).
pub trait Host {
    /// A file that was opened to be read.
    type Input: Drop;
    /// A file that was created.
    type Output: Drop;

    // What the host tells of the files and of the text on the standard output.
    ghost store: { Self → Store } = { λ _. nothing_told };

    // The unread rest of an input.
    ghost rest: { Self.Input → Option (List ℕ) } = { λ _. None };

    // The name of an output.
    ghost label: { Self.Output → Option (List ℕ) } = { λ _. None };

    /// Opens the file of this name at its beginning.
    fn open(&mut self, name: &str) -> io::Result<Self::Input>
        ensures opens { OpensFile name.now (store self.old) rest result }
        ensures keeps { store self.new ≡ store self.old };

    /// Moves the next bytes of a file into the front of `buf`, and answers how many. Zero is the end.
    fn read(&mut self, file: &mut Self::Input, buf: &mut [u8]) -> io::Result<usize>
        requires room { 0 < length buf.old }
        ensures reads { ReadsFile buf.old buf.new result (rest file.old) (rest file.new) }
        ensures keeps { store self.new ≡ store self.old };

    /// Makes an empty file of this name, in place of an old one.
    fn create(&mut self, name: &str) -> io::Result<Self::Output>
        ensures creates { CreatesFile name.now label result (store self.old) (store self.new) };

    /// Appends the first bytes to a file, and answers how many.
    fn write(&mut self, file: &mut Self::Output, bytes: &[u8]) -> io::Result<usize>
        ensures appends { AppendsFirst bytes.now result (with_written (label file.old)) (store self.old) (store self.new) }
        ensures same { label file.new ≡ label file.old };

    /// Hands on all that was written to a file.
    fn flush(&mut self, file: &mut Self::Output) -> io::Result<()>
        ensures keeps { store self.new ≡ store self.old }
        ensures same { label file.new ≡ label file.old };

    /// Appends the first bytes to the standard output, and answers how many.
    fn say(&mut self, bytes: &[u8]) -> io::Result<usize>
        ensures says { AppendsFirst bytes.now result with_said (store self.old) (store self.new) };
}

/// The system that the program runs on. It tells nothing, since no contract of the standard library states
/// what is under a name. Each call is one of the library's, and its clauses state what they can of it.
impl<R: Files + Print> Host for &R {
    type Input = R::File;

    type Output = R::File;

    fn open(&mut self, name: &str) -> io::Result<R::File> {
        fs::open(*self, name)
    }

    fn read(&mut self, file: &mut R::File, buf: &mut [u8]) -> io::Result<usize>
        requires room { 0 < length buf.old }
        ensures reads { ReadsFile buf.old buf.new result None None }
        ensures consumes { ReadConsumes (R.File.remaining file.old) (R.File.remaining file.new) result buf.new }
    {
        file.read(buf)
    }

    fn create(&mut self, name: &str) -> io::Result<R::File> {
        fs::create(*self, name)
    }

    fn write(&mut self, file: &mut R::File, bytes: &[u8]) -> io::Result<usize>
        ensures appends { AppendsFirst bytes.now result (with_written None) nothing_told nothing_told }
        ensures holds { WriteAppends (R.File.contents file.old) (R.File.contents file.new) result bytes.now }
    {
        file.write(bytes)
    }

    fn flush(&mut self, file: &mut R::File) -> io::Result<()>
        ensures holds { Keeps (R.File.contents file.old) (R.File.contents file.new) }
    {
        file.flush()
    }

    fn say(&mut self, bytes: &[u8]) -> io::Result<usize> {
        (**self).write_some(bytes)
    }
}
