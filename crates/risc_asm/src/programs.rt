//! Programs of what lines give, where there are any.

ghost use Rattle.machine_model.specs.Paths.{begins_at_base, AreApart, IsProgram, IsSpan, RiscProgram, all_words, max_words, one_span};
ghost use Rattle.machine_model.specs.Paths.{shares_byte, span, stands_in, word_among, is_there};
ghost use Rattle.page_table.specs.Grants.{AreGrants, Chunk};
ghost use Rattle.page_table.specs.Taken.{listed};
ghost use Rattle.risc_asm.specs.Programs.{meant};
ghost use Rattle.risc_text.specs.Assembly.{completed, filled, of_spans, with_entry};
ghost use Rattle.std.specs.List.{All};
ghost use Rattle.std.specs.Prelude.{◌≡◌, ◌+◌, ◌*◌, ◌≤◌, ◌<◌, ◌^◌, ◌↔◌, false, true, IfErr, IfOk, IsTrue, Ok, Some, [], length, List, ℕ};

use machine_model::MAX_WORDS;
use page_table::{ADDRESSES, PageFault, PageSet};
use risc_verify::{Program, Spans};
use std::alloc::{AllocError, Global};

// A word that is no instruction. No instruction that has it as its second word has bits for it there but as an address.
const OTHER_WORD: u32 = 4096;

// How many spans a program may have.
const MAX_SPANS: usize = 4096;

// Behind a span of one word at this address or below it another has room.
const LAST_WITH_ROOM: u32 = 0xffff_fff4;

// Whether no chunk shares a byte with a program of so many words.
fn is_apart(base: u32, words: &[u32], grants: &PageSet) -> bool
    requires { length words.now ≤ max_words }
    ensures { IsTrue result ↔ All (λ c. shares_byte (one_span base words.now []) c ≡ false) grants.now }
{
    let end = u64::from(base) + 4 * words.len() as u64;
    !grants.meets(base, end)
}

// The grants of chunks that rise.
fn grants_of(alloc: Global, chunks: &[(u32, u32)]) -> Result<Option<PageSet>, AllocError>
    ensures { IfOk result (λ found. (grants : List Chunk) → AreGrants grants → grants ≡ listed chunks.now → found ≡ Some grants) }
{
    match PageSet::from_chunks(alloc, chunks) {
        Ok(grants) => Ok(Some(grants)),
        Err(PageFault::Memory) => Err(AllocError),
        Err(PageFault::TooMany) => Ok(None),
        Err(PageFault::Unaligned(_)) => Ok(None),
        Err(PageFault::Twice(_)) => Ok(None),
    }
}

/// The program of words one after another from its base on, where there is one, and else the words.
pub fn program_of(
    alloc: Global,
    base: u32,
    words: Vec<u32>,
    chunks: &[(u32, u32)],
) -> Result<Result<Program, Vec<u32>>, AllocError>
    ensures program { IfOk result (λ found. (program : RiscProgram) → IsProgram program → begins_at_base program ≡ true →
        program.base ≡ base → all_words program ≡ words.items → program.grants ≡ listed chunks.now → found ≡ Ok program) }
    ensures words { IfOk result (λ found. IfErr found (λ left. left.items ≡ words.items)) }
    ensures parts { IfOk result
        (λ found. IfOk found (λ program. (program.base ≡ base) × (all_words program ≡ words.items) × (begins_at_base program ≡ true))) }
{
    if base % 4 != 0
        || words.len() > MAX_WORDS as usize
        || u64::from(base) + 4 * words.len() as u64 > ADDRESSES
    {
        return Ok(Err(words));
    }
    let Some(grants) = grants_of(alloc, chunks)? else {
        return Ok(Err(words));
    };
    if is_apart(base, &words, &grants) {
        Ok(Ok(Program::new(base, words, grants)))
    } else {
        Ok(Err(words))
    }
}

// Whether words can be those of a span at an address that isn't below `from`.
fn is_span(from: u64, at: u32, words: &[u32]) -> bool
    ensures { IsTrue result ↔ ((from ≤ at) × IsSpan (span at words.now)) }
{
    from <= u64::from(at)
        && at % 4 == 0
        && words.len() > 0
        && words.len() as u64 <= (ADDRESSES - u64::from(at)) / 4
}

// Whether spans rise and don't touch, and each has a word.
fn are_apart(spans: &Spans) -> bool
    ensures { IsTrue result ↔ AreApart 0 spans.now }
{
    let mut from = 0;
    for number in 0..spans.len() {
        let (at, words) = (spans.at(number), spans.words_of(number));
        if !is_span(from, at, words) {
            return false;
        }
        from = u64::from(at) + 4 * words.len() as u64 + 1;
    }
    true
}

// Whether the span of so many words has a word at an address.
fn stands_in(at: u32, count: usize, address: u32) -> bool
    ensures { (words : List ℕ) → length words ≡ count → result ≡ stands_in (span at words) address }
{
    at <= address && (address - at) % 4 == 0 && (((address - at) / 4) as usize) < count
}

// Whether one of the spans has a word at an address.
fn has_word(spans: &Spans, address: u32) -> bool
    ensures { result ≡ is_there (word_among spans.now address) }
{
    for number in 0..spans.len() {
        if stands_in(spans.at(number), spans.words_of(number).len(), address) {
            return true;
        }
    }
    false
}

// Whether no chunk shares a byte with a span.
fn are_clear(spans: &Spans, grants: &PageSet) -> bool
    requires { AreApart 0 spans.now }
    ensures { IsTrue result ↔ All (λ c. shares_byte (of_spans 0 spans.now) c ≡ false) grants.now }
{
    for number in 0..spans.len() {
        let (at, words) = (spans.at(number), spans.words_of(number));
        let end = u64::from(at) + 4 * words.len() as u64;
        if grants.meets(at, end) {
            return false;
        }
    }
    true
}

// The program of spans from an entry on, where there is one.
fn program_of_spans(
    alloc: Global,
    entry: u32,
    spans: Spans,
    chunks: &[(u32, u32)],
) -> Result<Option<Program>, AllocError>
    ensures { IfOk result (λ found. (program : RiscProgram) → 0 < length spans → IsProgram program → program ≡ record {
      base = entry;
      spans = spans;
      grants = listed chunks.now;
    } → found ≡ Some program) }
{
    if entry % 4 != 0
        || spans.len() > MAX_SPANS
        || spans.words().len() > MAX_WORDS as usize
        || !are_apart(&spans)
        || !has_word(&spans, entry)
    {
        return Ok(None);
    }
    let Some(grants) = grants_of(alloc, chunks)? else {
        return Ok(None);
    };
    if are_clear(&spans, &grants) {
        Ok(Some(Program::of_spans(entry, spans, grants)))
    } else {
        Ok(None)
    }
}

// The spans with a word in the last.
fn filled(spans: Spans) -> Result<Spans, AllocError>
    requires { 0 < length spans }
    ensures { IfOk result (λ new. new ≡ filled spans) }
{
    if spans.words_of(spans.len() - 1).len() > 0 {
        return Ok(spans);
    }
    let mut spans = spans;
    spans.push(OTHER_WORD)?;
    Ok(spans)
}

// The second word of a span as the entry. None, where that would be 2^32.
fn from_second(at: u32, spans: Spans) -> Option<(u32, Spans)>
    ensures { at + 4 < 2 ^ 32 → result ≡ Some (at + 4, spans) }
{
    match at.checked_add(4) {
        Some(entry) => Some((entry, spans)),
        None => None,
    }
}

// An only span that goes on with an entry that isn't its first word. None, where that would be 2^32.
fn of_one(spans: Spans) -> Result<Option<(u32, Spans)>, AllocError>
    requires { length spans ≡ 1 }
    ensures { IfOk result (λ found. (with_entry spans).base < 2 ^ 32 → found ≡ Some ((with_entry spans).base, (with_entry spans).spans)) }
{
    let at = spans.at(0);
    if spans.words_of(0).len() > 1 {
        return Ok(from_second(at, spans));
    }
    let mut spans = spans;
    if at <= LAST_WITH_ROOM {
        spans.begin(at + 8)?;
        spans.push(OTHER_WORD)?;
        return Ok(Some((at, spans)));
    }
    spans.push(OTHER_WORD)?;
    Ok(from_second(at, spans))
}

// The entry and the spans of the program that goes on from spans with as few words and spans as can be.
fn completed(spans: Spans) -> Result<Option<(u32, Spans)>, AllocError>
    requires { 0 < length spans }
    ensures { IfOk result (λ found. (completed spans).base < 2 ^ 32 → found ≡ Some ((completed spans).base, (completed spans).spans)) }
{
    let spans = filled(spans)?;
    if spans.len() == 1 {
        return of_one(spans);
    }
    Ok(Some((spans.at(0), spans)))
}

/// The program of spans and an entry, where there is one. Where no entry is given, it goes on from the spans with as
/// few words and spans as can be.
pub fn program_meant(
    alloc: Global,
    entry: Option<u32>,
    spans: Spans,
    chunks: &[(u32, u32)],
) -> Result<Option<Program>, AllocError>
    requires { 0 < length spans }
    ensures { IfOk result
        (λ found. IsProgram (meant entry spans (listed chunks.now)) → found ≡ Some (meant entry spans (listed chunks.now))) }
{
    match entry {
        Some(entry) => program_of_spans(alloc, entry, spans, chunks),
        None => match completed(spans)? {
            Some((entry, spans)) => program_of_spans(alloc, entry, spans, chunks),
            None => Ok(None),
        },
    }
}
