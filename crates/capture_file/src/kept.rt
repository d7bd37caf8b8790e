//! Program files that are kept while they are read.

ghost use Rattle.std.specs.Prelude.{◌≡◌, ◌+◌, ◌*◌, ◌%◌, ◌^◌, ◌<◌, ◌≤◌, ◌++◌, [], IfOk, IfSome, IsTrue, OnOk, length};
ghost use Rattle.byteorder.specs.Endian.{little_bytes};
ghost use Rattle.machine_model.specs.Paths.{max_words};
ghost use Rattle.capture_file.specs.Programs.{Gives, IsHead, name_of, numbers_spelled, program_of};
ghost use Rattle.capture_file.specs.declared.program.ProgramForm.TheVariants.{Based};

use super::program::{
    Layout, Placed, ProgramError, ProgramFile, ProgramForm, Rest, append_words, read_behind,
    read_program,
};
use super::writing::append_numbers;
use risc_verify::Spans;
use std::alloc::{AllocError, Global};
use std::marker::Model;

// How many bytes are before the words, where these are one after another.
const HEAD: usize = 12;

/// The bytes of a program file that is read piece by piece. Where its words are one after another they are kept as words,
/// which become those of the program with no copy. Contracts see the bytes.
#[derive(Drop)]
pub struct ProgramBytes {
    // the bytes before the words, or none
    head: Vec<u8>,
    words: Vec<u32>,
    rest: Vec<u8>,
}

impl Model for ProgramBytes {
    ghost use Rattle.std.specs.Prelude.{List, ℕ, ◌++◌};
    ghost use Rattle.capture_file.specs.Programs.{numbers_spelled};

    ghost Value = { List ℕ };

    ghost view = { λ bytes. bytes.head.items ++ (numbers_spelled bytes.words.items ++ bytes.rest.items) };
}

// What is before the words, where these are one after another.
#[derive(Clone, Copy)]
struct Head {
    layout: Layout,
    start: u32,
    count: u32,
}

// The layout of the form whose words are one after another.
fn layout_based(form: ProgramForm) -> Option<Layout>
    ensures { IfSome result (λ layout. form ≡ Based layout) }
{
    match form {
        ProgramForm::Based(layout) => Some(layout),
        ProgramForm::Spanned => None,
    }
}

// What these bytes have before the words, if they have that and no more.
fn head_of(bytes: &[u8]) -> Option<Head>
    ensures { IfSome result (λ head. IsHead bytes.now head.layout head.start head.count) }
{
    let file = Rest {
        size: bytes.len(),
        bytes,
    };
    let Ok((form, rest)) = file.form() else {
        return None;
    };
    let layout = layout_based(form)?;
    let Ok((start, rest)) = rest.base() else {
        return None;
    };
    match rest.word_count(start) {
        Ok((count, rest)) if rest.bytes.is_empty() => Some(Head {
            layout,
            start,
            count,
        }),
        _ => None,
    }
}

// Whether these first bytes of a file are those of one whose words are one after another.
fn begins_with_head(bytes: &[u8]) -> bool
    ensures { IsTrue result → 12 ≤ length bytes.now }
{
    HEAD <= bytes.len() && (bytes.starts_with(b"BRP1") || bytes.starts_with(b"BRP2"))
}

// Keeps a piece as words, and what is behind the last whole one as bytes.
fn push_words(words: &mut Vec<u32>, rest: &mut Vec<u8>, piece: &[u8]) -> Result<(), AllocError>
    requires { rest.old.items ≡ [] }
    ensures { OnOk result
        (numbers_spelled words.new.items ++ rest.new.items ≡ numbers_spelled words.old.items ++ piece.now) }
{
    let count = piece.len() / 4;
    append_words(words, count, piece)?;
    rest.extend_from_slice(&piece[4 * count..])?;
    Ok(())
}

impl ProgramBytes {
    /// No bytes.
    pub fn new(alloc: Global) -> ProgramBytes
        ensures { result ≡ [] }
    {
        ProgramBytes {
            head: Vec::new(alloc),
            words: Vec::new(alloc),
            rest: Vec::new(alloc),
        }
    }

    /// Appends a piece.
    pub fn push(&mut self, piece: &[u8]) -> Result<(), AllocError>
        ensures { OnOk result (self.new ≡ self.old ++ piece.now) }
    {
        if !self.rest.is_empty() {
            self.rest.extend_from_slice(piece)?;
        } else if !self.head.is_empty() {
            push_words(&mut self.words, &mut self.rest, piece)?;
        } else if self.words.is_empty() && begins_with_head(piece) {
            self.head.extend_from_slice(&piece[..HEAD])?;
            push_words(&mut self.words, &mut self.rest, &piece[HEAD..])?;
        } else {
            self.rest.extend_from_slice(piece)?;
        }
        Ok(())
    }
}

// The bytes that are kept so, in a row.
fn joined(front: Vec<u8>, words: Vec<u32>, rest: Vec<u8>) -> Result<Vec<u8>, AllocError>
    ensures { IfOk result (λ bytes. bytes.items ≡ front.items ++ (numbers_spelled words.items ++ rest.items)) }
{
    if front.is_empty() && words.is_empty() {
        return Ok(rest);
    }
    let mut bytes = front;
    append_numbers(&mut bytes, &words)?;
    bytes.extend_from_slice(&rest)?;
    Ok(bytes)
}

// What is behind the words of a program of so many.
fn behind_words(alloc: Global, words: &[u32], rest: &[u8]) -> Result<Vec<u8>, AllocError>
    ensures bytes { IfOk result (λ bytes. bytes.items ≡ numbers_spelled words.now ++ rest.now) }
{
    let mut bytes = Vec::new(alloc);
    append_numbers(&mut bytes, words)?;
    bytes.extend_from_slice(rest)?;
    Ok(bytes)
}

// The program of a file that has so many words behind its head.
fn read_based(
    alloc: Global,
    head: Head,
    front: &[u8],
    words: Vec<u32>,
    rest: &[u8],
) -> Result<ProgramFile, ProgramError>
    requires head { IsHead front.now head.layout head.start head.count }
    requires words { head.count ≤ length words.items }
    ensures { Gives (λ x. x) result (program_of (front.now ++ (numbers_spelled words.items ++ rest.now))) }
{
    let count = head.count as usize;
    let behind = behind_words(alloc, &words[count..], rest)?;
    let size = HEAD + 4 * count + behind.len();
    let mut words = words;
    words.truncate(count);
    let placed = Placed {
        start: head.start,
        spans: Spans::one(head.start, words),
    };
    let rest = Rest {
        size,
        bytes: &behind,
    };
    read_behind(alloc, ProgramForm::Based(head.layout), placed, rest)
}

/// The program that these bytes hold, or their first fault, as `read_program` answers of them.
pub fn read_kept(alloc: Global, file: ProgramBytes) -> Result<ProgramFile, ProgramError>
    ensures { Gives (λ x. x) result (program_of file) }
{
    let ProgramBytes {
        head: front,
        words,
        rest,
    } = file;
    match head_of(&front) {
        Some(head) if head.count as usize <= words.len() => {
            read_based(alloc, head, &front, words, &rest)
        }
        _ => {
            let bytes = joined(front, words, rest)?;
            read_program(alloc, &bytes)
        }
    }
}
