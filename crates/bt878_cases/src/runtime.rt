// A system in memory: its files are lists of bytes, and so is its standard output.
ghost use Rattle.std.specs.Prelude.{◌≡◌, ◌≤◌, IfOk, Some, length};

use crate::desks::Limits;
use capture_desk::{MemDesk, Octets};
use std::alloc::{Allocator, Global};
use std::cell::{Cell, RefCell};
use std::fmt::Display;
use std::fs::{Metadata, OpenFile, OpenOptions};
use std::io;
use std::io::{Empty, ErrorKind, Read, Seek, SeekFrom, Write};
use std::rt::Files;

/// What a call answers that fails.
fn fault() -> io::Error {
    io::Error::from(ErrorKind::Other)
}

/// What a call answers that isn't there.
fn unsupported() -> io::Error {
    io::Error::from(ErrorKind::Unsupported)
}

/// What a write answers that fails: an error, or that it took no byte.
fn refused(number: u64) -> io::Result<usize>
    ensures { IfOk result (λ n. n ≡ 0) }
{
    if number.is_multiple_of(2) {
        Ok(0)
    } else {
        Err(fault())
    }
}

/// Appends the first bytes to what is held, as far as the limits go.
fn append(held: &mut Vec<u8>, bytes: &[u8], limits: Limits) -> io::Result<usize>
    ensures { IfOk result (λ n. n ≤ length bytes.now) }
{
    let left = limits.room().saturating_sub(held.len());
    if left == 0 {
        return Err(fault());
    }
    let n = limits.longest().min(bytes.len()).min(left);
    held.extend_from_slice(&bytes[..n])?;
    Ok(n)
}

/// Files that may be read, files that were created, and a text. Its calls have the limits of a desk: those
/// with the numbers in `failing` fail, counted from 1.
#[derive(Drop)]
pub struct Disk<'a> {
    alloc: Global,
    names: &'a [&'a str],
    contents: &'a [&'a [u8]],
    limits: Limits<'a>,
    calls: Cell<u64>,
    outputs: RefCell<Vec<(Octets, Vec<u8>)>>,
    text: RefCell<Vec<u8>>,
}

impl<'a> Disk<'a> {
    /// A disk with files of these names and contents, as far as both go.
    pub fn new(
        alloc: Global,
        names: &'a [&'a str],
        contents: &'a [&'a [u8]],
        limits: Limits<'a>,
    ) -> Disk<'a> {
        Disk {
            alloc,
            names,
            contents,
            limits,
            calls: Cell::new(0),
            outputs: RefCell::new(Vec::new(alloc)),
            text: RefCell::new(Vec::new(alloc)),
        }
    }

    /// The number of the next call, and whether it fails.
    fn next_call(&self) -> (u64, bool) {
        let number = self.calls.get().saturating_add(1);
        self.calls.set(number);
        (number, self.limits.fails(number))
    }

    /// The bytes of the file of this name.
    fn file(&self, name: &str) -> io::Result<&'a [u8]> {
        for (other, bytes) in self.names.iter().zip(self.contents) {
            if *other == name {
                return Ok(*bytes);
            }
        }
        Err(io::Error::from(ErrorKind::NotFound))
    }

    /// Makes an empty output of this name, and answers its place.
    fn create(&self, name: &str) -> io::Result<usize> {
        let mut outputs = self.outputs.try_borrow_mut().map_err(|_| fault())?;
        for (place, output) in outputs.iter_mut().enumerate() {
            if output.0.as_slice() == name.as_bytes() {
                output.1.clear();
                return Ok(place);
            }
        }
        let place = outputs.len();
        let name = Octets::from_list(self.alloc, name.as_bytes())?;
        outputs.push((name, Vec::new(self.alloc)))?;
        Ok(place)
    }

    /// Appends to the output at a place.
    fn write_at(&self, place: usize, bytes: &[u8]) -> io::Result<usize>
        ensures { IfOk result (λ n. n ≤ length bytes.now) }
    {
        let mut outputs = self.outputs.try_borrow_mut().map_err(|_| fault())?;
        match outputs.get_mut(place) {
            Some(output) => append(&mut output.1, bytes, self.limits),
            None => Err(fault()),
        }
    }

    /// Whether the output of this name has these bytes, or isn't there where there are none.
    fn has(&self, name: &str, bytes: Option<&[u8]>) -> bool {
        let Ok(outputs) = self.outputs.try_borrow() else {
            return false;
        };
        for output in outputs.iter() {
            if output.0.as_slice() == name.as_bytes() {
                return bytes == Some(output.1.as_slice());
            }
        }
        bytes.is_none()
    }

    /// Whether the text is this.
    fn says(&self, said: &[u8]) -> bool {
        match self.text.try_borrow() {
            Ok(text) => text.as_slice() == said,
            Err(_) => false,
        }
    }

    /// Whether the text and these outputs are those of a desk.
    pub fn is_as(&self, desk: &MemDesk, outputs: &[&str]) -> bool {
        for name in outputs {
            if !self.has(name, desk.output(name)) {
                return false;
            }
        }
        self.says(desk.said())
    }
}

/// A runtime with the files and the standard output of a disk.
#[derive(Clone, Copy)]
pub struct Runtime<'d, 'a> {
    disk: &'d Disk<'a>,
}

impl<'d, 'a> Runtime<'d, 'a> {
    pub fn new(disk: &'d Disk<'a>) -> Runtime<'d, 'a> {
        Runtime { disk }
    }
}

/// An open file: its unread rest where it is read, and its place where it is written.
#[derive(Drop)]
pub struct MemFile<'d, 'a> {
    disk: &'d Disk<'a>,
    rest: &'a [u8],
    place: Option<usize>,
}

impl<'d, 'a> Read for MemFile<'d, 'a> {
    ghost remaining = { λ file. Some file.rest.now };

    fn read(&mut self, buf: &mut [u8]) -> io::Result<usize> {
        let (_, fails) = self.disk.next_call();
        if fails {
            return Err(fault());
        }
        let n = self
            .disk
            .limits
            .longest()
            .min(buf.len())
            .min(self.rest.len());
        let (front, rest) = self.rest.split_at(n);
        buf[..n].copy_from_slice(front);
        self.rest = rest;
        Ok(n)
    }
}

impl<'d, 'a> Write for MemFile<'d, 'a> {
    fn write(&mut self, bytes: &[u8]) -> io::Result<usize> {
        let (number, fails) = self.disk.next_call();
        if fails {
            return refused(number);
        }
        match self.place {
            Some(place) => self.disk.write_at(place, bytes),
            None => Err(fault()),
        }
    }

    fn flush(&mut self) -> io::Result<()> {
        let (_, fails) = self.disk.next_call();
        if fails { Err(fault()) } else { Ok(()) }
    }
}

impl<'d, 'a> Seek for MemFile<'d, 'a> {
    fn seek(&mut self, _to: SeekFrom) -> io::Result<u64> {
        Err(unsupported())
    }
}

impl<'d, 'a> OpenFile for MemFile<'d, 'a> {
    fn metadata(&self) -> io::Result<Metadata> {
        Err(unsupported())
    }

    fn set_len(&self, _size: u64) -> io::Result<()> {
        Err(unsupported())
    }

    fn sync_all(&self) -> io::Result<()> {
        Err(unsupported())
    }

    fn sync_data(&self) -> io::Result<()> {
        Err(unsupported())
    }
}

impl<'d, 'a> Files for Runtime<'d, 'a> {
    type File = MemFile<'d, 'a>;

    type Dir = Empty;

    fn open_file(&self, how: &OpenOptions, path: &str) -> io::Result<MemFile<'d, 'a>> {
        let disk = self.disk;
        let (_, fails) = disk.next_call();
        if fails {
            return Err(fault());
        }
        if how.asks_write() {
            let place = Some(disk.create(path)?);
            let rest = &[];
            return Ok(MemFile { disk, rest, place });
        }
        let rest = disk.file(path)?;
        let place = None;
        Ok(MemFile { disk, rest, place })
    }

    fn open_dir(&self, _path: &str) -> io::Result<Empty> {
        Err(unsupported())
    }

    fn metadata(&self, _path: &str) -> io::Result<Metadata> {
        Err(unsupported())
    }

    fn symlink_metadata(&self, _path: &str) -> io::Result<Metadata> {
        Err(unsupported())
    }

    fn copy(&self, _from: &str, _to: &str) -> io::Result<u64> {
        Err(unsupported())
    }

    fn rename(&self, _from: &str, _to: &str) -> io::Result<()> {
        Err(unsupported())
    }

    fn remove_file(&self, _path: &str) -> io::Result<()> {
        Err(unsupported())
    }

    fn create_dir(&self, _path: &str) -> io::Result<()> {
        Err(unsupported())
    }

    fn remove_dir(&self, _path: &str) -> io::Result<()> {
        Err(unsupported())
    }

    fn remove_dir_all<B: Allocator>(&self, _alloc: B, _path: &str) -> io::Result<()> {
        Err(unsupported())
    }
}

impl<'d, 'a> Print for Runtime<'d, 'a> {
    fn print<D: Display + Drop>(&self, _value: D) -> io::Result<()> {
        Err(unsupported())
    }

    fn println<D: Display + Drop>(&self, _value: D) -> io::Result<()> {
        Err(unsupported())
    }

    fn write_all(&self, _bytes: &[u8]) -> io::Result<()> {
        Err(unsupported())
    }

    fn write_some(&self, bytes: &[u8]) -> io::Result<usize> {
        let (number, fails) = self.disk.next_call();
        if fails {
            return refused(number);
        }
        let mut text = self.disk.text.try_borrow_mut().map_err(|_| fault())?;
        append(&mut text, bytes, self.disk.limits)
    }
}
