//! How a text agrees with the listing of a program.

ghost use Rattle.machine_model.specs.Paths.{IsProgram, end_of, span};
ghost use Rattle.risc_asm.specs.Verdicts.{Agrees, EndAgrees, WithoutLines};
ghost use Rattle.risc_listing.specs.Listings.{all_word_lines, base_line, entry_line, span_lines, word_lines};
ghost use Rattle.std.specs.List.{flat_map};
ghost use Rattle.std.specs.Prelude.{All, ◌≡◌, ◌≢◌, ◌+◌, ◌*◌, ◌≤◌, ◌<◌, ◌^◌, ◌++◌, IfOk, drop, length, slice_index, take};

use risc_listing::{Lines, memory_lines, push_base, push_entry, push_span, push_words};
use risc_verify::{Program, Spans};
use std::alloc::{AllocError, Global};

/// How a text agrees with a listing.
#[derive(Clone, Copy)]
pub enum Agreement {
    /// It differs, and so many bytes agree. Where these are all bytes of the text, more lines are missing.
    Alike(usize),
    /// It is the listing.
    Whole,
}

// How many bytes of a text are in front of another.
fn alike(text: &[u8], other: &[u8]) -> usize
    ensures within { (result ≤ length text.now) × (result ≤ length other.now) }
    ensures same { take result text.now ≡ take result other.now }
    ensures longest { result < length text.now → result < length other.now → slice_index text.now result ≢ slice_index other.now result }
{
    let mut at = 0;
    while at < text.len() && at < other.len() && text[at] == other[at] {
        at += 1;
    }
    at
}

// The text after the bytes of a piece of lines, where it begins with them, and else its bytes from the first on that
// differs.
fn after_piece<'a>(text: &'a [u8], piece: &[u8]) -> Result<&'a [u8], &'a [u8]>
    ensures { WithoutLines piece.now text.now result }
{
    match text.strip_prefix(piece) {
        Some(rest) => Ok(rest),
        None => Err(&text[alike(text, piece)..]),
    }
}

/// The same of the lines of words from `base` on, from the word numbered `from` on.
pub fn after_words<'a>(
    text: &'a [u8],
    base: u32,
    words: &[u32],
    from: usize,
) -> Result<&'a [u8], &'a [u8]>
    requires within { from ≤ length words.now }
    requires ends { base + 4 * length words.now ≤ 2 ^ 32 }
    ensures { WithoutLines (word_lines (base + 4 * from) 0 (drop from words.now)) text.now result }
{
    let mut lines = Lines::new();
    let mut rest = text;
    let mut next = from;
    while next < words.len() {
        lines.clear();
        next = push_words(&mut lines, base, words, next);
        rest = match after_piece(rest, lines.as_str().as_bytes()) {
            Ok(left) => left,
            Err(left) => return Err(left),
        };
    }
    Ok(rest)
}

// The same of the lines of a span.
fn after_span<'a>(text: &'a [u8], at: u32, words: &[u32]) -> Result<&'a [u8], &'a [u8]>
    requires { at + 4 * length words.now ≤ 2 ^ 32 }
    ensures { WithoutLines (span_lines (span at words.now)) text.now result }
{
    let mut line = Lines::new();
    push_span(&mut line, at);
    match after_piece(text, line.as_str().as_bytes()) {
        Ok(rest) => after_words(rest, at, words, 0),
        Err(left) => Err(left),
    }
}

// The same of the lines of spans.
fn after_spans<'a>(text: &'a [u8], spans: &Spans) -> Result<&'a [u8], &'a [u8]>
    requires { All (λ s. end_of s ≤ 2 ^ 32) spans.now }
    ensures { WithoutLines (flat_map span_lines spans.now) text.now result }
{
    let mut rest = text;
    for number in 0..spans.len() {
        rest = match after_span(rest, spans.at(number), spans.words_of(number)) {
            Ok(left) => left,
            Err(left) => return Err(left),
        };
    }
    Ok(rest)
}

// The same of the base and the lines of words behind it.
fn after_base<'a>(text: &'a [u8], base: u32, words: &[u32]) -> Result<&'a [u8], &'a [u8]>
    requires { base + 4 * length words.now ≤ 2 ^ 32 }
    ensures { WithoutLines (base_line base ++ word_lines base 0 words.now) text.now result }
{
    let mut line = Lines::new();
    push_base(&mut line, base);
    match after_piece(text, line.as_str().as_bytes()) {
        Ok(rest) => after_words(rest, base, words, 0),
        Err(left) => Err(left),
    }
}

// The same of the lines of spans and the entry behind them.
fn after_entry<'a>(text: &'a [u8], spans: &Spans, entry: u32) -> Result<&'a [u8], &'a [u8]>
    requires { All (λ s. end_of s ≤ 2 ^ 32) spans.now }
    ensures { WithoutLines (flat_map span_lines spans.now ++ entry_line entry) text.now result }
{
    let mut line = Lines::new();
    push_entry(&mut line, entry);
    match after_spans(text, spans) {
        Ok(rest) => after_piece(rest, line.as_str().as_bytes()),
        Err(left) => Err(left),
    }
}

// The same of the lines of all words of a program.
fn after_all_words<'a>(text: &'a [u8], program: &Program) -> Result<&'a [u8], &'a [u8]>
    ensures value { WithoutLines (all_word_lines program.now) text.now result }
    ensures made { IsProgram program.now }
{
    if program.begins_at_base() {
        after_base(text, program.base(), program.words())
    } else {
        after_entry(text, program.spans(), program.base())
    }
}

// How the end of a text agrees with the last lines.
fn compare_end(text: &[u8], lines: &[u8]) -> Agreement
    ensures { EndAgrees text.now lines.now result }
{
    if text == lines {
        Agreement::Whole
    } else {
        Agreement::Alike(alike(text, lines))
    }
}

/// How a text agrees with the listing of a program.
pub fn compare(
    alloc: Global,
    text: &[u8],
    program: &Program,
    fill: u8,
) -> Result<Agreement, AllocError>
    ensures value { IfOk result (λ a. Agrees text.now program.now fill a) }
    ensures made { IfOk result (λ _. IsProgram program.now) }
    ensures fill { IfOk result (λ _. fill < 256) }
{
    let rest = match after_all_words(text, program) {
        Ok(rest) => rest,
        Err(left) => return Ok(Agreement::Alike(text.len() - left.len())),
    };
    let last = memory_lines(alloc, program.grants(), fill)?;
    Ok(match compare_end(rest, &last) {
        Agreement::Alike(number) => Agreement::Alike(text.len() - rest.len() + number),
        Agreement::Whole => Agreement::Whole,
    })
}
