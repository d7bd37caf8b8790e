//! The first line at fault.

ghost use Rattle.risc_asm.specs.Answers.{HasWrongLine, IsBetween};
ghost use Rattle.risc_asm.specs.Verdicts.{IsBegun};
ghost use Rattle.risc_text.specs.Assembly.{BeginsListing, are_lines, has_no_newline, line_count};
ghost use Rattle.std.specs.Prelude.{◌≡◌, ◌≢◌, ◌+◌, ◌-◌, ◌/◌, ◌≤◌, ◌<◌, ◌==◌, if◌then◌else◌, IfOk, IfSome, IsTrue, None, drop, length};
ghost use Rattle.std.specs.Prelude.{slice_index, take, true, ℕ};

use super::judge::{Verdict, judge};
use std::alloc::{AllocError, Global};

// So many lines after the place of a difference may still begin a listing: words that are listed one by one
// may become an instruction of five.
const NEAR: u8 = 5;

/// How many whole lines a text has.
pub fn count_lines(text: &[u8]) -> u64
    ensures value { result ≡ line_count text.now }
    ensures within { result ≤ length text.now }
{
    let mut number = 0;
    for byte in text {
        if *byte == b'\n' {
            number += 1;
        }
    }
    number
}

// The first newline between two places.
fn first_newline(text: &[u8], from: usize, to: usize) -> Option<usize>
    requires { to ≤ length text.now }
    ensures some { IfSome result (λ at. (from ≤ at) × (at < to) × (slice_index text.now at ≡ 10)) }
    ensures none { result ≡ None → (k : ℕ) → from ≤ k → k < to → slice_index text.now k ≢ 10 }
{
    for at in from..to {
        if text[at] == b'\n' {
            return Some(at);
        }
    }
    None
}

// The last newline between two places.
fn last_newline(text: &[u8], from: usize, to: usize) -> Option<usize>
    requires { to ≤ length text.now }
    ensures some { IfSome result (λ at. (from ≤ at) × (at < to) × (slice_index text.now at ≡ 10)) }
    ensures none { result ≡ None → (k : ℕ) → from ≤ k → k < to → slice_index text.now k ≢ 10 }
    ensures last { IfSome result (λ at. (k : ℕ) → at < k → k < to → slice_index text.now k ≢ 10) }
{
    let mut end = to;
    while end > from {
        end -= 1;
        if text[end] == b'\n' {
            return Some(end);
        }
    }
    None
}

/// How many bytes the whole lines of a text have.
pub fn whole_lines(text: &[u8]) -> usize
    ensures within { result ≤ length text.now }
    ensures whole { are_lines (take result text.now) ≡ true }
    ensures plain { has_no_newline (drop result text.now) ≡ true }
{
    match last_newline(text, 0, text.len()) {
        Some(at) => at + 1,
        None => 0,
    }
}

// The end of a line strictly between two places, where there is one: the next after a third if it can be.
fn line_end_between(text: &[u8], low: usize, high: usize, near: usize) -> Option<usize>
    requires order { (low ≤ near) × (near < high) }
    requires within { high ≤ length text.now }
    ensures some { IfSome result (λ end. (low < end) × (end < high) × (are_lines (take end text.now) ≡ true)) }
    ensures none { result ≡ None → (k : ℕ) → low ≤ k → k + 1 < high → slice_index text.now k ≢ 10 }
{
    if let Some(at) = first_newline(text, near, high - 1) {
        return Some(at + 1);
    }
    match last_newline(text, low, near) {
        Some(at) => Some(at + 1),
        None => None,
    }
}

// The places of whole lines nearer to each other, with one between them that was checked.
fn narrow(
    alloc: Global,
    lines: &[u8],
    low: usize,
    high: usize,
    end: usize,
) -> Result<(usize, usize), AllocError>
    requires between { IsBetween lines.now low high }
    requires order { (low < end) × (end < high) }
    requires whole { are_lines (take end lines.now) ≡ true }
    ensures between { IfOk result (λ x. IsBetween lines.now x.0 x.1) }
    ensures nearer { IfOk result (λ x. x.1 - x.0 < high - low) }
{
    match judge(alloc, &lines[..end])? {
        Verdict::Wrong(_) => Ok((low, end)),
        Verdict::Begun => Ok((end, high)),
        Verdict::Whole(_) => Ok((end, high)),
    }
}

// Where a line's end is looked for between two places: right after the first so many times, then in the
// middle.
fn probe(low: usize, high: usize, near: u8) -> usize
    requires { low < high }
    ensures value { result ≡ (if near == 0 then low + (high - low) / 2 else low) }
{
    if near == 0 {
        low + (high - low) / 2
    } else {
        low
    }
}

// Where the last line begins that has a byte before a place.
fn line_begin(text: &[u8], at: usize) -> usize
    requires { at ≤ length text.now }
    ensures within { result ≤ at }
    ensures whole { are_lines (take result text.now) ≡ true }
{
    match last_newline(text, 0, at) {
        Some(before) => before + 1,
        None => 0,
    }
}

/// The number of the first line with which lines begin no listing, counted from 1, where their first
/// `begun` bytes begin one. Lines near that place are tried first. The error is out of memory.
pub fn first_wrong(alloc: Global, lines: &[u8], begun: usize) -> Result<u64, AllocError>
    requires whole { are_lines lines.now ≡ true }
    requires begun { IsBegun lines.now begun }
    requires wrong { BeginsListing lines.now → ⊥ }
    ensures { IfOk result (λ k. HasWrongLine lines.now k) }
{
    let mut low = line_begin(lines, begun);
    let mut high = lines.len();
    let mut near = NEAR;
    while let Some(end) = line_end_between(lines, low, high, probe(low, high, near)) {
        let places = narrow(alloc, lines, low, high, end)?;
        low = places.0;
        high = places.1;
        near = near.saturating_sub(1);
    }
    Ok(count_lines(&lines[..low]) + 1)
}
