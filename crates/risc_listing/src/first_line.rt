//! The line of the instruction or the word that words begin with.

ghost use Rattle.arrayvec.specs.ArrayString.{array_string_len};
ghost use Rattle.risc_listing.specs.Listings.{line_of, spelled, words_of};
ghost use Rattle.risc_listing.specs.Unnamed.{TellsPlain};
ghost use Rattle.std.specs.Prelude.{◌≡◌, ◌+◌, ◌≤◌, ◌++◌, length, slice_index, IfSome};

use crate::lines::{
    push_head, push_instr_line, push_skip, push_skip_123, push_sync, push_word_line, push_write,
    push_write_1_s_23, push_write_123, push_write_c,
};
use crate::unnamed::{
    Opcode, are_unnamed_zero_in_counts, are_unnamed_zero_in_data, are_unnamed_zero_in_jump,
    are_unnamed_zero_in_skip, are_unnamed_zero_in_sync, word_or_zero,
};
use arrayvec::ArrayString;
use risc_word::{Instr, decode};

// The instruction that the words begin with and its length, where they are exactly its canonical encoding.
// `is_plain` is whether each bit that no field names is 0.
#[inline(always)]
fn spelled(words: &[u32], is_plain: bool) -> Option<(Instr, usize)>
    requires { TellsPlain is_plain words.now }
    ensures value { result ≡ spelled words.now }
    ensures within { IfSome result (λ read. (1 ≤ read.1) × (read.1 ≤ length words.now)) }
{
    let Ok((instr, number)) = decode(words, 0) else {
        return None;
    };
    if is_plain {
        Some((instr, usize::from(number)))
    } else {
        None
    }
}

// Appends the line of the instruction or the word that words begin with, and answers how many words
// the line is of.
#[inline(always)]
fn push_spelled<const CAP: usize>(
    text: &mut ArrayString<CAP>,
    at: u32,
    words: &[u32],
    is_plain: bool,
) -> usize
    requires plain { TellsPlain is_plain words.now }
    requires some { 1 ≤ length words.now }
    requires room { array_string_len text.old + 98 ≤ CAP }
    ensures text { text.new.bytes ≡ text.old.bytes ++ line_of at (slice_index words.now 0) (spelled words.now) }
    ensures number { result ≡ words_of (spelled words.now) }
    ensures within { (1 ≤ result) × (result ≤ length words.now) }
    ensures long { array_string_len text.new ≤ array_string_len text.old + 98 }
{
    match spelled(words, is_plain) {
        Some((instr, number)) => {
            push_instr_line(text, at, &instr);
            number
        }
        None => {
            push_word_line(text, at, words[0]);
            1
        }
    }
}

// The same, for an instruction of another opcode than the one that is looked for.
#[inline(never)]
fn push_other<const CAP: usize>(
    text: &mut ArrayString<CAP>,
    at: u32,
    words: &[u32],
    is_plain: bool,
) -> usize
    requires plain { TellsPlain is_plain words.now }
    requires some { 1 ≤ length words.now }
    requires room { array_string_len text.old + 98 ≤ CAP }
    ensures text { text.new.bytes ≡ text.old.bytes ++ line_of at (slice_index words.now 0) (spelled words.now) }
    ensures number { result ≡ words_of (spelled words.now) }
    ensures within { (1 ≤ result) × (result ≤ length words.now) }
    ensures long { array_string_len text.new ≤ array_string_len text.old + 98 }
{
    push_spelled(text, at, words, is_plain)
}

// The same where a WRITE is looked for, whose text is made in place.
#[inline(always)]
fn push_first_write<const CAP: usize>(
    text: &mut ArrayString<CAP>,
    at: u32,
    words: &[u32],
    is_plain: bool,
) -> usize
    requires plain { TellsPlain is_plain words.now }
    requires some { 1 ≤ length words.now }
    requires room { array_string_len text.old + 98 ≤ CAP }
    ensures text { text.new.bytes ≡ text.old.bytes ++ line_of at (slice_index words.now 0) (spelled words.now) }
    ensures number { result ≡ words_of (spelled words.now) }
    ensures within { (1 ≤ result) × (result ≤ length words.now) }
    ensures long { array_string_len text.new ≤ array_string_len text.old + 98 }
{
    match spelled(words, is_plain) {
        Some(
            (
                Instr::Write {
                    ctl,
                    ends,
                    off,
                    count,
                    addr,
                },
                number,
            ),
        ) => {
            push_head(text, at);
            push_write(text, ctl, ends, off, count, addr);
            text.push_str("\n");
            number
        }
        Some(_) => push_other(text, at, words, is_plain),
        None => {
            push_word_line(text, at, words[0]);
            1
        }
    }
}

// The same where a SKIP is looked for.
#[inline(always)]
fn push_first_skip<const CAP: usize>(
    text: &mut ArrayString<CAP>,
    at: u32,
    words: &[u32],
    is_plain: bool,
) -> usize
    requires plain { TellsPlain is_plain words.now }
    requires some { 1 ≤ length words.now }
    requires room { array_string_len text.old + 98 ≤ CAP }
    ensures text { text.new.bytes ≡ text.old.bytes ++ line_of at (slice_index words.now 0) (spelled words.now) }
    ensures number { result ≡ words_of (spelled words.now) }
    ensures within { (1 ≤ result) × (result ≤ length words.now) }
    ensures long { array_string_len text.new ≤ array_string_len text.old + 98 }
{
    match spelled(words, is_plain) {
        Some((Instr::Skip { ctl, ends, count }, number)) => {
            push_head(text, at);
            push_skip(text, ctl, ends, count);
            text.push_str("\n");
            number
        }
        Some(_) => push_other(text, at, words, is_plain),
        None => {
            push_word_line(text, at, words[0]);
            1
        }
    }
}

// The same where a WRITEC is looked for.
#[inline(always)]
fn push_first_write_c<const CAP: usize>(
    text: &mut ArrayString<CAP>,
    at: u32,
    words: &[u32],
    is_plain: bool,
) -> usize
    requires plain { TellsPlain is_plain words.now }
    requires some { 1 ≤ length words.now }
    requires room { array_string_len text.old + 98 ≤ CAP }
    ensures text { text.new.bytes ≡ text.old.bytes ++ line_of at (slice_index words.now 0) (spelled words.now) }
    ensures number { result ≡ words_of (spelled words.now) }
    ensures within { (1 ≤ result) × (result ≤ length words.now) }
    ensures long { array_string_len text.new ≤ array_string_len text.old + 98 }
{
    match spelled(words, is_plain) {
        Some(
            (
                Instr::WriteC {
                    ctl,
                    ends,
                    off,
                    count,
                },
                number,
            ),
        ) => {
            push_head(text, at);
            push_write_c(text, ctl, ends, off, count);
            text.push_str("\n");
            number
        }
        Some(_) => push_other(text, at, words, is_plain),
        None => {
            push_word_line(text, at, words[0]);
            1
        }
    }
}

// The same where a SYNC is looked for.
#[inline(always)]
fn push_first_sync<const CAP: usize>(
    text: &mut ArrayString<CAP>,
    at: u32,
    words: &[u32],
    is_plain: bool,
) -> usize
    requires plain { TellsPlain is_plain words.now }
    requires some { 1 ≤ length words.now }
    requires room { array_string_len text.old + 98 ≤ CAP }
    ensures text { text.new.bytes ≡ text.old.bytes ++ line_of at (slice_index words.now 0) (spelled words.now) }
    ensures number { result ≡ words_of (spelled words.now) }
    ensures within { (1 ≤ result) × (result ≤ length words.now) }
    ensures long { array_string_len text.new ≤ array_string_len text.old + 98 }
{
    match spelled(words, is_plain) {
        Some((Instr::Sync { ctl, resync, code }, number)) => {
            push_head(text, at);
            push_sync(text, ctl, resync, code);
            text.push_str("\n");
            number
        }
        Some(_) => push_other(text, at, words, is_plain),
        None => {
            push_word_line(text, at, words[0]);
            1
        }
    }
}

// The same where a WRITE123 is looked for.
#[inline(always)]
fn push_first_write_123<const CAP: usize>(
    text: &mut ArrayString<CAP>,
    at: u32,
    words: &[u32],
    is_plain: bool,
) -> usize
    requires plain { TellsPlain is_plain words.now }
    requires some { 1 ≤ length words.now }
    requires room { array_string_len text.old + 98 ≤ CAP }
    ensures text { text.new.bytes ≡ text.old.bytes ++ line_of at (slice_index words.now 0) (spelled words.now) }
    ensures number { result ≡ words_of (spelled words.now) }
    ensures within { (1 ≤ result) × (result ≤ length words.now) }
    ensures long { array_string_len text.new ≤ array_string_len text.old + 98 }
{
    match spelled(words, is_plain) {
        Some(
            (
                Instr::Write123 {
                    ctl,
                    ends,
                    off,
                    counts,
                    addrs,
                },
                number,
            ),
        ) => {
            push_head(text, at);
            push_write_123(text, ctl, ends, off, &counts, &addrs);
            text.push_str("\n");
            number
        }
        Some(_) => push_other(text, at, words, is_plain),
        None => {
            push_word_line(text, at, words[0]);
            1
        }
    }
}

// The same where a SKIP123 is looked for.
#[inline(always)]
fn push_first_skip_123<const CAP: usize>(
    text: &mut ArrayString<CAP>,
    at: u32,
    words: &[u32],
    is_plain: bool,
) -> usize
    requires plain { TellsPlain is_plain words.now }
    requires some { 1 ≤ length words.now }
    requires room { array_string_len text.old + 98 ≤ CAP }
    ensures text { text.new.bytes ≡ text.old.bytes ++ line_of at (slice_index words.now 0) (spelled words.now) }
    ensures number { result ≡ words_of (spelled words.now) }
    ensures within { (1 ≤ result) × (result ≤ length words.now) }
    ensures long { array_string_len text.new ≤ array_string_len text.old + 98 }
{
    match spelled(words, is_plain) {
        Some((Instr::Skip123 { ctl, ends, counts }, number)) => {
            push_head(text, at);
            push_skip_123(text, ctl, ends, &counts);
            text.push_str("\n");
            number
        }
        Some(_) => push_other(text, at, words, is_plain),
        None => {
            push_word_line(text, at, words[0]);
            1
        }
    }
}

// The same where a WRITE1S23 is looked for.
#[inline(always)]
fn push_first_write_1_s_23<const CAP: usize>(
    text: &mut ArrayString<CAP>,
    at: u32,
    words: &[u32],
    is_plain: bool,
) -> usize
    requires plain { TellsPlain is_plain words.now }
    requires some { 1 ≤ length words.now }
    requires room { array_string_len text.old + 98 ≤ CAP }
    ensures text { text.new.bytes ≡ text.old.bytes ++ line_of at (slice_index words.now 0) (spelled words.now) }
    ensures number { result ≡ words_of (spelled words.now) }
    ensures within { (1 ≤ result) × (result ≤ length words.now) }
    ensures long { array_string_len text.new ≤ array_string_len text.old + 98 }
{
    match spelled(words, is_plain) {
        Some(
            (
                Instr::Write1S23 {
                    ctl,
                    ends,
                    off,
                    counts,
                    addr,
                },
                number,
            ),
        ) => {
            push_head(text, at);
            push_write_1_s_23(text, ctl, ends, off, &counts, addr);
            text.push_str("\n");
            number
        }
        Some(_) => push_other(text, at, words, is_plain),
        None => {
            push_word_line(text, at, words[0]);
            1
        }
    }
}

/// Appends the line of the instruction or the word that words begin with, and answers how many words the line is of. Each
/// opcode has a branch of its own, which makes this fast.
#[inline(always)]
pub fn push_line<const CAP: usize>(text: &mut ArrayString<CAP>, at: u32, words: &[u32]) -> usize
    requires some { 1 ≤ length words.now }
    requires room { array_string_len text.old + 98 ≤ CAP }
    ensures text { text.new.bytes ≡ text.old.bytes ++ line_of at (slice_index words.now 0) (spelled words.now) }
    ensures number { result ≡ words_of (spelled words.now) }
    ensures within { (1 ≤ result) × (result ≤ length words.now) }
    ensures long { array_string_len text.new ≤ array_string_len text.old + 98 }
{
    let first = words[0];
    match Opcode::get(first) {
        1 => push_first_write(text, at, words, are_unnamed_zero_in_data(first)),
        2 => push_first_skip(text, at, words, are_unnamed_zero_in_skip(first)),
        5 => push_first_write_c(text, at, words, are_unnamed_zero_in_data(first)),
        7 => push_spelled(text, at, words, are_unnamed_zero_in_jump(first)),
        8 => push_first_sync(
            text,
            at,
            words,
            are_unnamed_zero_in_sync(first, word_or_zero(words, 1)),
        ),
        9 => {
            let counts = are_unnamed_zero_in_counts(word_or_zero(words, 1));
            push_first_write_123(text, at, words, are_unnamed_zero_in_data(first) && counts)
        }
        10 => {
            let counts = are_unnamed_zero_in_counts(word_or_zero(words, 1));
            push_first_skip_123(text, at, words, are_unnamed_zero_in_skip(first) && counts)
        }
        11 => {
            let counts = are_unnamed_zero_in_counts(word_or_zero(words, 1));
            push_first_write_1_s_23(text, at, words, are_unnamed_zero_in_data(first) && counts)
        }
        _ => push_spelled(text, at, words, false),
    }
}
