// Desks in memory with the files of a command.
ghost use Rattle.std.specs.Prelude.{◌≡◌, ◌≤◌, [], ◌∷◌, ◌++◌, IfOk, Some};
ghost use Rattle.bt878_words.specs.Words.{texts};
ghost use Rattle.capture_desk.specs.Memory.{all_told};

use crate::cases::Parts;
use crate::descriptions::{Keys, PLAIN};
use capture_desk::{MemDesk, Octets};
use std::alloc::{AllocError, Global};

/// The bytes of some parts.
pub fn joined(alloc: Global, parts: Parts) -> Result<Vec<u8>, AllocError> {
    let mut bytes = Vec::new(alloc);
    for (count, part) in parts {
        for _ in 0..*count {
            bytes.extend_from_slice(part)?;
        }
    }
    Ok(bytes)
}

/// Whether these are the bytes of some parts.
pub fn are_parts(bytes: &[u8], parts: Parts) -> bool {
    let mut rest = bytes;
    for (count, part) in parts {
        for _ in 0..*count {
            match rest.strip_prefix(*part) {
                Some(after) => rest = after,
                None => return false,
            }
        }
    }
    rest.is_empty()
}

/// Appends a name to a list.
fn add_name(list: &mut Vec<Octets>, alloc: Global, name: &str) -> Result<(), AllocError>
    ensures { IfOk result (λ _. list.new.items ≡ list.old.items ++ name.now ∷ []) }
{
    list.push(Octets::from_list(alloc, name.as_bytes())?)?;
    Ok(())
}

/// A list of these names.
fn list_of(alloc: Global, names: &[&str]) -> Result<Vec<Octets>, AllocError>
    ensures { IfOk result (λ list. list.items ≡ texts names.now) }
{
    let mut list = Vec::new(alloc);
    for name in names {
        add_name(&mut list, alloc, name)?;
    }
    Ok(list)
}

/// A file: its name and its bytes.
fn file(alloc: Global, name: &str, bytes: &[u8]) -> Result<(Octets, Octets), AllocError> {
    let name = Octets::from_list(alloc, name.as_bytes())?;
    Ok((name, Octets::from_list(alloc, bytes)?))
}

/// The files of these names and contents, as far as both go.
fn files(
    alloc: Global,
    names: &[&str],
    contents: &[&[u8]],
) -> Result<Vec<(Octets, Octets)>, AllocError> {
    let mut files = Vec::new(alloc);
    for (name, bytes) in names.iter().zip(contents) {
        files.push(file(alloc, name, bytes)?)?;
    }
    Ok(files)
}

/// A call of a higher number than those of all commands whose calls move many bytes.
const LATE: u64 = 100;

/// The limits of a desk: its calls with the numbers in `failing` fail, a call moves at most
/// `longest` bytes, and an output takes at most `room` bytes.
#[derive(Clone, Copy)]
pub struct Limits<'a> {
    failing: &'a [u64],
    longest: usize,
    room: usize,
}

impl<'a> Limits<'a> {
    pub fn new(failing: &'a [u64], longest: usize, room: usize) -> Limits<'a> {
        Limits {
            failing,
            longest,
            room,
        }
    }

    /// Whether a command makes few calls: they move many bytes, or an early one fails.
    pub fn are_brief(&self) -> bool {
        self.longest > 1 || self.failing.first().is_some_and(|first| *first < LATE)
    }

    /// Whether the call of this number fails.
    pub fn fails(&self, number: u64) -> bool {
        self.failing.contains(&number)
    }

    /// The most bytes that a call moves.
    pub fn longest(&self) -> usize
        ensures { 1 ≤ result }
    {
        self.longest.max(1)
    }

    /// The most bytes that an output takes.
    pub fn room(&self) -> usize {
        self.room
    }
}

/// A desk on which these inputs may be opened, with these contents, and these outputs may be
/// created. Where there are fewer contents than inputs, the last inputs are missing.
#[tactic(auto, using(crate::proofs::Names::names_of_new))]
pub fn desk_of(
    alloc: Global,
    inputs: &[&str],
    contents: &[&[u8]],
    outputs: &[&str],
    limits: Limits,
) -> Result<MemDesk, AllocError>
    ensures opens { IfOk result (λ desk. (all_told desk).may_open ≡ Some (texts inputs.now)) }
    ensures creates { IfOk result (λ desk. (all_told desk).may_create ≡ Some (texts outputs.now)) }
{
    let files = files(alloc, inputs, contents)?;
    let opens = list_of(alloc, inputs)?;
    let creates = list_of(alloc, outputs)?;
    let failing = Vec::from_slice(alloc, limits.failing)?;
    let longest = limits.longest();
    MemDesk::new(alloc, files, opens, creates, failing, longest, limits.room)
}

fn add_line(text: &mut Vec<u8>, key: &str, value: &str) -> Result<(), AllocError> {
    for part in [key, " = ", value, "\n"] {
        text.extend_from_slice(part.as_bytes())?;
    }
    Ok(())
}

/// The plain description with other values, or none, in place of some of its own.
pub fn described(alloc: Global, changes: Keys) -> Result<Vec<u8>, AllocError> {
    let mut text = Vec::new(alloc);
    for (key, value) in PLAIN {
        if !changes.iter().any(|change| change.0 == *key) {
            add_line(&mut text, key, value)?;
        }
    }
    for (key, value) in changes {
        if !value.is_empty() {
            add_line(&mut text, key, value)?;
        }
    }
    Ok(text)
}
