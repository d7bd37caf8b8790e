//! The listing of a RISC program: each instruction in words, the memory that the program may write, and
//! the byte that fills it at first. The form of the lines is this project's own rule.
#![tactic(auto)]

ghost use Rattle.arrayvec.specs.ArrayString.{array_string_len};
ghost use Rattle.machine_model.specs.Paths.{end_of, span};
ghost use Rattle.risc_listing.specs.Listings.{all_word_lines, base_line, chunk_line, entry_line, fill_line, listing, span_line};
ghost use Rattle.risc_listing.specs.Listings.{span_lines, word_lines};
ghost use Rattle.std.specs.List.{flat_map};
ghost use Rattle.std.specs.Prelude.{All, ◌≡◌, ◌+◌, ◌*◌, ◌<◌, ◌^◌, ◌≤◌, ◌++◌, List, drop, length, string_bytes, ℕ, IfOk};

mod digits;
mod first_line;
mod lines;
mod unnamed;

use arrayvec::ArrayString;
pub use digits::space_and_address;
use first_line::push_line;
use lines::LONGEST_LINE;
pub use lines::{InstrLine, code_name, push_at, push_count, push_digit, push_number};
use page_table::{PageSet, is_page};
use risc_verify::{Program, Spans};
use std::alloc::{AllocError, Global};
use std::fmt::Write;

/// How many bytes of lines are made at once, at most.
pub const ROOM: usize = 65_536;

/// No instruction has more words.
pub const LONGEST_INSTR: usize = 5;

/// Lines that are made at once.
pub type Lines = ArrayString<ROOM>;

/// Appends lines of the words from the address `base` on, as many as surely have room, beginning with the word numbered
/// `from`, counted from 0. It answers the number of the first word that has no line yet. Where there is another word, and
/// room for another line, it appends at least one. It takes no memory.
pub fn push_words(text: &mut Lines, base: u32, words: &[u32], from: usize) -> usize
    requires from { from ≤ length words.now }
    requires ends { base + 4 * length words.now ≤ 2 ^ 32 }
    ensures lines { text.new.bytes ++ word_lines (base + 4 * result) 0 (drop result words.now)
        ≡ text.old.bytes ++ word_lines (base + 4 * from) 0 (drop from words.now) }
    ensures within { (from ≤ result) × (result ≤ length words.now) }
    ensures more { array_string_len text.old + 98 ≤ 65536 → from < length words.now → from < result }
{
    let mut next = from;
    while next < words.len() && text.len() <= ROOM - LONGEST_LINE {
        next += push_line(text, base + 4 * next as u32, &words[next..]);
    }
    next
}

/// Appends lines as `push_words`, but only those that stay the same whatever words follow, so perhaps none. It answers
/// the number of the first word that has no line yet. It takes no memory.
pub fn push_settled(text: &mut Lines, base: u32, words: &[u32], from: usize) -> usize
    requires from { from ≤ length words.now }
    requires ends { base + 4 * length words.now ≤ 2 ^ 32 }
    ensures lines { (later : List ℕ) → text.new.bytes ++ word_lines (base + 4 * result) 0 (drop result (words.now ++ later))
        ≡ text.old.bytes ++ word_lines (base + 4 * from) 0 (drop from (words.now ++ later)) }
    ensures within { (from ≤ result) × (result ≤ length words.now) }
{
    let mut told = from;
    while words.len() - told >= LONGEST_INSTR && text.len() <= ROOM - LONGEST_LINE {
        told += push_line(text, base + 4 * told as u32, &words[told..]);
    }
    told
}

/// Appends the first line of a listing by the base.
pub fn push_base(text: &mut Lines, base: u32)
    requires { array_string_len text.old + 98 ≤ 65536 }
    ensures { text.new.bytes ≡ text.old.bytes ++ base_line base }
{
    text.push_str("base");
    push_at(text, base);
    text.push_str("\n");
}

/// Appends the first line of a span, which has its address.
pub fn push_span(text: &mut Lines, at: u32)
    requires { array_string_len text.old + 98 ≤ 65536 }
    ensures { text.new.bytes ≡ text.old.bytes ++ span_line at }
{
    text.push_str("span");
    push_at(text, at);
    text.push_str("\n");
}

/// Appends the line behind the last span, which has the entry.
pub fn push_entry(text: &mut Lines, entry: u32)
    requires { array_string_len text.old + 98 ≤ 65536 }
    ensures { text.new.bytes ≡ text.old.bytes ++ entry_line entry }
{
    text.push_str("entry");
    push_at(text, entry);
    text.push_str("\n");
}

fn put_chunk(text: &mut String, at: u32, len: u32) -> Result<(), AllocError>
    ensures { IfOk result (λ _. string_bytes text.new ≡ string_bytes text.old ++ chunk_line (record { at = at; len = len })) }
{
    if is_page(at, len) {
        writeln!(text, "page {at:08x}")
    } else {
        writeln!(text, "chunk {at:08x} {len}")
    }
}

fn put_chunks(text: &mut String, chunks: &PageSet) -> Result<(), AllocError>
    ensures { IfOk result (λ _. string_bytes text.new ≡ string_bytes text.old ++ flat_map chunk_line chunks.now) }
{
    for &(at, len) in chunks.as_slice() {
        put_chunk(text, at, len)?;
    }
    Ok(())
}

/// The last lines of a listing: the granted chunks in rising order, and the byte that fills memory at
/// first. The error is out of memory.
pub fn memory_lines(alloc: Global, chunks: &PageSet, fill: u8) -> Result<Vec<u8>, AllocError>
    ensures { IfOk result (λ text. text.items ≡ flat_map chunk_line chunks.now ++ fill_line fill) }
{
    let mut text = String::new(alloc);
    put_chunks(&mut text, chunks)?;
    writeln!(text, "fill {fill:02x}")?;
    Ok(text.into_bytes())
}

/// Appends the lines of the words from an address on. The error is out of memory.
pub fn put_words(text: &mut Vec<u8>, base: u32, words: &[u32]) -> Result<(), AllocError>
    requires { base + 4 * length words.now ≤ 2 ^ 32 }
    ensures { IfOk result (λ _. text.new.items ≡ text.old.items ++ word_lines base 0 words.now) }
{
    let mut lines = Lines::new();
    let mut next = 0;
    while next < words.len() {
        lines.clear();
        next = push_words(&mut lines, base, words, next);
        text.extend_from_slice(lines.as_str().as_bytes())?;
    }
    Ok(())
}

// Appends the lines of a span.
fn put_span(text: &mut Vec<u8>, at: u32, words: &[u32]) -> Result<(), AllocError>
    requires { at + 4 * length words.now ≤ 2 ^ 32 }
    ensures { IfOk result (λ _. text.new.items ≡ text.old.items ++ span_lines (span at words.now)) }
{
    let mut line = Lines::new();
    push_span(&mut line, at);
    text.extend_from_slice(line.as_str().as_bytes())?;
    put_words(text, at, words)
}

// Appends the lines of spans.
fn put_spans(text: &mut Vec<u8>, spans: &Spans) -> Result<(), AllocError>
    requires { All (λ s. end_of s ≤ 2 ^ 32) spans.now }
    ensures { IfOk result (λ _. text.new.items ≡ text.old.items ++ flat_map span_lines spans.now) }
{
    for number in 0..spans.len() {
        put_span(text, spans.at(number), spans.words_of(number))?;
    }
    Ok(())
}

// Appends the lines of all words, by the base or span by span.
fn put_all_words(text: &mut Vec<u8>, program: &Program) -> Result<(), AllocError>
    ensures { IfOk result (λ _. text.new.items ≡ text.old.items ++ all_word_lines program.now) }
{
    let mut line = Lines::new();
    if program.begins_at_base() {
        push_base(&mut line, program.base());
        text.extend_from_slice(line.as_str().as_bytes())?;
        return put_words(text, program.base(), program.words());
    }
    put_spans(text, program.spans())?;
    push_entry(&mut line, program.base());
    text.extend_from_slice(line.as_str().as_bytes())
}

/// The listing of a program whose memory is filled with `fill` at first, as the bytes of its lines: the
/// instructions behind the base, or span by span with the entry behind them; the granted chunks in rising order; the
/// fill. A word with a bit that no field of its instruction names has a line `word`, and so has a word where no
/// instruction is. The error is out of memory. It is for callers of the library: the program prints a listing
/// piece by piece.
pub fn list(alloc: Global, program: &Program, fill: u8) -> Result<Vec<u8>, AllocError>
    ensures { IfOk result (λ text. text.items ≡ listing program.now fill) }
{
    let mut text = Vec::new(alloc);
    put_all_words(&mut text, program)?;
    text.extend_from_slice(&memory_lines(alloc, program.grants(), fill)?)?;
    Ok(text)
}
