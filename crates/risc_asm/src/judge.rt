//! Whether a text begins a listing, or is one: what was read of it is listed again.

ghost use Rattle.machine_model.specs.Paths.{IsProgram};
ghost use Rattle.risc_asm.specs.Drafts.{seen};
ghost use Rattle.risc_asm.specs.Limits.{IsWithinLimits, follows, rising};
ghost use Rattle.risc_asm.specs.Verdicts.{IsBegun, IsDraftOfBase, IsDraftOfSpans, IsToldBy, Judges};
ghost use Rattle.risc_text.specs.Drafts.{drafted};
ghost use Rattle.std.specs.Prelude.{◌≡◌, ◌+◌, ◌*◌, ◌≤◌, ◌<◌, ◌^◌, IfOk, None, Some, [], length};

use super::compare::{Agreement, compare};
use super::draft::{Draft, read_draft};
use super::programs::{program_meant, program_of};
use capture_file::ProgramFile;
use machine_model::MAX_WORDS;
use page_table::{ADDRESSES, MAX_CHUNKS};
use risc_verify::{Program, Spans};
use std::alloc::{AllocError, Global};

/// What a text is.
#[derive(Drop)]
pub enum Verdict {
    /// No listing begins with it, and one with so many of its bytes: those before the place where it
    /// differs from what was read of it, where there is one.
    Wrong(usize),
    /// It begins a listing, and is none.
    Begun,
    /// It is the listing of this program with its fill.
    Whole(ProgramFile),
}

// How many bytes of a text surely begin a listing: as many as agree with that of a program.
fn begun(alloc: Global, text: &[u8], program: &Program) -> Result<usize, AllocError>
    ensures { IfOk result (λ number. IsBegun text.now number) }
{
    let agreement = compare(alloc, text, program, 0)?;
    Ok(match agreement {
        Agreement::Whole => text.len(),
        Agreement::Alike(number) => number,
    })
}

// Whether a chunk can come after others that end before `from`, and apart from words up to `end`.
fn follows(chunk: (u32, u32), from: u64, base: u32, end: u64) -> bool
    ensures { result ≡ follows chunk from base end }
{
    let (at, len) = chunk;
    let (begin, past) = (u64::from(at), u64::from(at) + u64::from(len));
    from <= begin && begin < past && (past <= u64::from(base) || end <= begin)
}

// How many chunks rise from the first on, apart from the words.
#[tactic(auto, unfolding(crate::specs::Limits::rising))]
fn rising(chunks: &[(u32, u32)], base: u32, end: u64) -> usize
    ensures value { result ≡ rising 0 base end chunks.now }
    ensures within { result ≤ length chunks.now }
{
    let (mut from, mut number, mut left) = (0, 0, chunks);
    while let [chunk, rest @ ..] = left {
        if !follows(*chunk, from, base, end) {
            return number;
        }
        from = u64::from(chunk.0) + u64::from(chunk.1);
        number += 1;
        left = rest;
    }
    number
}

// As many of the words and of the chunks as a program can have, where its base is right.
fn within_limits(base: u32, words: Vec<u32>, chunks: Vec<(u32, u32)>) -> (Vec<u32>, Vec<(u32, u32)>)
    ensures { IsWithinLimits base words.items chunks.items result.0.items result.1.items }
{
    let room = (ADDRESSES - u64::from(base)) / 4;
    let most = MAX_WORDS.min(room as u32) as usize;
    let (mut words, mut chunks) = (words, chunks);
    words.truncate(most);
    let end = u64::from(base) + 4 * words.len() as u64;
    let number = rising(&chunks, base, end);
    chunks.truncate(number.min(MAX_CHUNKS));
    (words, chunks)
}

// The same of what lines with a base give.
fn begun_by_base(
    alloc: Global,
    text: &[u8],
    base: u32,
    words: Vec<u32>,
    chunks: Vec<(u32, u32)>,
) -> Result<usize, AllocError>
    ensures { IfOk result (λ number. IsBegun text.now number) }
{
    let (words, chunks) = within_limits(base, words, chunks);
    match program_of(alloc, base, words, &chunks)? {
        Ok(program) => begun(alloc, text, &program),
        Err(_) => Ok(0),
    }
}

// How many bytes of a text surely begin a listing, by what its first lines give.
fn begun_by(alloc: Global, text: &[u8], draft: Draft) -> Result<usize, AllocError>
    ensures { IfOk result (λ number. IsBegun text.now number) }
{
    if draft.spans.len() > 0 {
        return match program_meant(alloc, draft.entry, draft.spans, &draft.chunks)? {
            Some(program) => begun(alloc, text, &program),
            None => Ok(0),
        };
    }
    match draft.base {
        Some(base) => begun_by_base(alloc, text, base, draft.words, draft.chunks),
        None => Ok(0),
    }
}

// Checks a text by the program that its lines give.
fn judge_program(
    alloc: Global,
    text: &[u8],
    program: Program,
    fill: u8,
) -> Result<Verdict, AllocError>
    requires { IsToldBy text.now program fill }
    ensures { IfOk result (λ verdict. Judges text.now verdict) }
{
    let agreement = compare(alloc, text, &program, fill)?;
    Ok(match agreement {
        Agreement::Whole => Verdict::Whole(ProgramFile { program, fill }),
        Agreement::Alike(number) => {
            if number == text.len() {
                Verdict::Begun
            } else {
                Verdict::Wrong(number)
            }
        }
    })
}

// Checks a text whose lines give spans.
fn judge_spans(
    alloc: Global,
    text: &[u8],
    entry: Option<u32>,
    spans: Spans,
    chunks: &[(u32, u32)],
    fill: Option<u8>,
) -> Result<Verdict, AllocError>
    requires drafted { IsDraftOfSpans text.now entry spans chunks.now fill }
    requires spans { 0 < length spans }
    requires some { 0 < length text.now }
    ensures { IfOk result (λ verdict. Judges text.now verdict) }
{
    match program_meant(alloc, entry, spans, chunks)? {
        Some(program) => judge_program(alloc, text, program, fill.unwrap_or(0)),
        None => Ok(Verdict::Wrong(0)),
    }
}

// Checks a text whose lines give a base.
fn judge_base(
    alloc: Global,
    text: &[u8],
    base: u32,
    words: Vec<u32>,
    chunks: Vec<(u32, u32)>,
    fill: Option<u8>,
) -> Result<Verdict, AllocError>
    requires drafted { IsDraftOfBase text.now base words.items chunks.items fill }
    requires some { 0 < length text.now }
    ensures { IfOk result (λ verdict. Judges text.now verdict) }
{
    match program_of(alloc, base, words, &chunks)? {
        Ok(program) => judge_program(alloc, text, program, fill.unwrap_or(0)),
        Err(words) => {
            let number = begun_by_base(alloc, text, base, words, chunks)?;
            Ok(Verdict::Wrong(number))
        }
    }
}

// Checks a text by what its lines give.
fn judge_draft(alloc: Global, text: &[u8], draft: Draft) -> Result<Verdict, AllocError>
    requires drafted { drafted text.now ≡ Some (seen draft) }
    requires some { 0 < length text.now }
    ensures { IfOk result (λ verdict. Judges text.now verdict) }
{
    let Draft {
        base,
        words,
        spans,
        entry,
        chunks,
        fill,
    } = draft;
    if spans.len() > 0 {
        return judge_spans(alloc, text, entry, spans, &chunks, fill);
    }
    match base {
        Some(base) => judge_base(alloc, text, base, words, chunks, fill),
        None => Ok(Verdict::Wrong(0)),
    }
}

/// Whether a text begins a listing, or is one. The error is out of memory.
pub fn judge(alloc: Global, text: &[u8]) -> Result<Verdict, AllocError>
    ensures { IfOk result (λ verdict. Judges text.now verdict) }
{
    if text.is_empty() {
        return Ok(Verdict::Begun);
    }
    let (draft, rest) = read_draft(alloc, text)?;
    if rest.is_empty() {
        return judge_draft(alloc, text, draft);
    }
    Ok(Verdict::Wrong(begun_by(alloc, text, draft)?))
}
