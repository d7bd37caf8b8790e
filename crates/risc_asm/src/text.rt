//! A text that is given piece by piece and then assembled.

ghost use Rattle.machine_model.specs.Paths.{begins_at_base, IsProgram, all_words};
ghost use Rattle.risc_asm.specs.Answers.{Answers, most_bytes};
ghost use Rattle.risc_asm.specs.Texts.{Holds, IsGrown, TellsMore, front_of, kept, told};
ghost use Rattle.risc_listing.specs.Listings.{chunk_line, fill_line, word_lines};
ghost use Rattle.risc_text.specs.Assembly.{Assembles};
ghost use Rattle.std.specs.List.{flat_map};
ghost use Rattle.std.specs.Prelude.{[], ◌≡◌, ◌+◌, ◌*◌, ◌^◌, ◌≤◌, ◌<◌, ◌++◌, IfOk, IfSome, IsTrue, MatchResult, true, drop, length, take};

use super::compare::after_words;
use super::draft::{Draft, read_draft};
use super::lines::read_named_line;
use super::programs::program_of;
use super::{AsmError, MOST_BYTES, assemble};
use capture_file::ProgramFile;
use machine_model::MAX_WORDS;
use page_table::ADDRESSES;
use risc_listing::{LONGEST_INSTR, Lines, memory_lines, push_base, push_settled, put_words};
use risc_text::Line;
use risc_verify::Program;
use std::alloc::{AllocError, Global};
use std::marker::Model;

// A listing has fewer bytes after the lines of its words, with a piece before that.
const LONGEST_TAIL: usize = 1_048_576;

// Lines that were read and listed again.
#[derive(Drop)]
struct Settled {
    base: u32,
    // The words that were read.
    draft: Draft,
    // So many of them give their lines again, whatever follows.
    number: usize,
    // The bytes of these lines and of the first.
    front: usize,
    // How many bytes after them were read.
    read: usize,
}

// How the first bytes of a text are kept.
#[derive(Drop)]
enum State {
    // There are none yet.
    New,
    // All as they are.
    Plain,
    // Those of lines of words as the words alone.
    Told(Settled),
}

/// A text, given piece by piece. Lines that are those of a listing are kept as their words alone, which takes
/// far less memory. Contracts see its bytes.
#[derive(Drop)]
pub struct Text {
    state: State,
    tail: Vec<u8>,
}

impl Model for Text {
    ghost use Rattle.std.specs.Prelude.{List, ℕ, ◌++◌};
    ghost use Rattle.risc_asm.specs.Texts.{IsKept, kept};

    ghost Value = { List ℕ };

    ghost view = { λ t. kept t.state ++ t.tail.items };

    ghost invariant = { λ t. IsKept t.state };
}

// The first line of a listing from a base on, where a text begins with it.
fn begin_at(alloc: Global, base: u32, text: &[u8]) -> Option<Settled>
    ensures holds { IfSome result (λ s. Holds s) }
    ensures within { IfSome result (λ s. s.front ≤ length text.now) }
    ensures front { IfSome result (λ s. take s.front text.now ≡ front_of s) }
{
    let mut line = Lines::new();
    push_base(&mut line, base);
    let rest = text.strip_prefix(line.as_str().as_bytes())?;
    Some(Settled {
        base,
        draft: Draft::new(alloc),
        number: 0,
        front: text.len() - rest.len(),
        read: 0,
    })
}

// The first line of a listing, where a text begins with one.
fn begin(alloc: Global, text: &[u8]) -> Option<Settled>
    ensures holds { IfSome result (λ s. Holds s) }
    ensures within { IfSome result (λ s. s.front ≤ length text.now) }
    ensures front { IfSome result (λ s. take s.front text.now ≡ front_of s) }
{
    match read_named_line(text) {
        Some((Line::Base(base), _)) => begin_at(alloc, base, text),
        _ => None,
    }
}

// Reads lines of words, and answers how many bytes are left after them.
fn read_words(draft: &mut Draft, text: &[u8]) -> Result<usize, AllocError>
    ensures within { IfOk result (λ left. left ≤ length text.now) }
    ensures words { IfOk result (λ _. IsGrown draft.old.words.items draft.new.words.items) }
{
    let mut rest = text;
    while let [_, _, _, _, _, _, _, _, b' ', fields @ ..] = rest {
        let Some(left) = draft.take_words_line(fields)? else {
            return Ok(rest.len());
        };
        rest = left;
    }
    Ok(rest.len())
}

// Whether a program can have these words.
fn fits(base: u32, words: &[u32]) -> bool
    ensures { IsTrue result → base + 4 * length words.now ≤ 2 ^ 32 }
{
    words.len() <= MAX_WORDS as usize && u64::from(base) + 4 * words.len() as u64 <= ADDRESSES
}

// Reads on behind what was read of the bytes after the lines. Err, with the words as they were, where there are more than
// a program can have.
fn read_on(settled: Settled, tail: &[u8]) -> Result<Result<Settled, Settled>, AllocError>
    requires { Holds settled }
    ensures { IfOk result
        (λ read. MatchResult read (λ s. Holds s × (front_of s ≡ front_of settled)) (λ s. Holds s × (front_of s ≡ front_of settled))) }
{
    let mut settled = settled;
    let Some(rest) = tail.get(settled.read..) else {
        return Ok(Err(settled));
    };
    let number = settled.draft.words.len();
    let left = read_words(&mut settled.draft, rest)?;
    settled.read = tail.len() - left;
    if fits(settled.base, &settled.draft.words) {
        return Ok(Ok(settled));
    }
    settled.draft.words.truncate(number);
    Ok(Err(settled))
}

// Lists words from one on again, in place of other lines, and answers the number of the first word that has no line yet
// and what is behind the lines, where they are at the front of a text.
fn told_again<'a>(
    lines: &mut Lines,
    base: u32,
    words: &[u32],
    number: usize,
    text: &'a [u8],
) -> Option<(usize, &'a [u8])>
    requires within { number ≤ length words.now }
    requires ends { base + 4 * length words.now ≤ 2 ^ 32 }
    ensures { IfSome result (λ x. TellsMore base words.now number x.0 text.now x.1.now × (number < x.0)) }
{
    lines.clear();
    let next = push_settled(lines, base, words, number);
    if next == number {
        return None;
    }
    let rest = text.strip_prefix(lines.as_str().as_bytes())?;
    Some((next, rest))
}

// Lists again all lines that stay what they are, and answers how many bytes they have.
fn settle(settled: Settled, tail: &[u8]) -> (Settled, usize)
    requires { Holds settled }
    ensures holds { Holds result.0 }
    ensures within { result.1 ≤ length tail.now }
    ensures front { front_of result.0 ≡ front_of settled ++ take result.1 tail.now }
{
    let mut settled = settled;
    let mut rest = tail;
    let mut lines = Lines::new();
    while let Some((next, left)) = told_again(
        &mut lines,
        settled.base,
        &settled.draft.words,
        settled.number,
        rest,
    ) {
        let Some(front) = settled.front.checked_add(rest.len() - left.len()) else {
            break;
        };
        settled.number = next;
        settled.front = front;
        rest = left;
    }
    let at = tail.len() - rest.len();
    settled.read = settled.read.saturating_sub(at);
    (settled, at)
}

// The bytes without the first ones.
fn let_go(alloc: Global, bytes: Vec<u8>, at: usize) -> Result<Vec<u8>, AllocError>
    requires { at ≤ length bytes.items }
    ensures { IfOk result (λ left. left.items ≡ drop at bytes.items) }
{
    if at == 0 {
        return Ok(bytes);
    }
    Vec::from_slice(alloc, &bytes[at..])
}

// The first bytes of the lines of words, and others behind them.
fn expand(
    alloc: Global,
    base: u32,
    words: &[u32],
    front: usize,
    tail: &[u8],
) -> Result<Vec<u8>, AllocError>
    requires ends { base + 4 * length words.now ≤ 2 ^ 32 }
    ensures { IfOk result (λ text. text.items ≡ take front (told base words.now) ++ tail.now) }
{
    let mut line = Lines::new();
    push_base(&mut line, base);
    let mut text = Vec::from_slice(alloc, line.as_str().as_bytes())?;
    put_words(&mut text, base, words)?;
    text.truncate(front);
    text.extend_from_slice(tail)?;
    Ok(text)
}

// A text that is kept as it is.
fn plain(alloc: Global, settled: Settled, tail: &[u8]) -> Result<Text, AllocError>
    requires { Holds settled }
    ensures { IfOk result (λ text. text ≡ front_of settled ++ tail.now) }
{
    let tail = expand(
        alloc,
        settled.base,
        &settled.draft.words,
        settled.front,
        tail,
    )?;
    Ok(Text {
        state: State::Plain,
        tail,
    })
}

// Reads what a text has after its lines, and keeps as words what is listed again.
fn advance(alloc: Global, settled: Settled, tail: Vec<u8>) -> Result<Text, AllocError>
    requires { Holds settled }
    ensures { IfOk result (λ text. text ≡ front_of settled ++ tail.items) }
{
    let settled = match read_on(settled, &tail)? {
        Ok(settled) => settled,
        Err(settled) => return plain(alloc, settled, &tail),
    };
    let (settled, at) = settle(settled, &tail);
    let tail = let_go(alloc, tail, at)?;
    if settled.draft.words.len() - settled.number >= LONGEST_INSTR || tail.len() > LONGEST_TAIL {
        return plain(alloc, settled, &tail);
    }
    Ok(Text {
        state: State::Told(settled),
        tail,
    })
}

// Whether a text is what a listing has from the line of a word on.
fn is_end(
    alloc: Global,
    text: &[u8],
    program: &Program,
    from: usize,
    fill: u8,
) -> Result<bool, AllocError>
    requires within { from ≤ length (all_words program.now) }
    requires one { begins_at_base program.now ≡ true }
    ensures end { IfOk result (λ yes. IsTrue yes → text.now ≡ word_lines (program.now.base + 4 * from) 0 (drop from (all_words program.now))
        ++ (flat_map chunk_line program.now.grants ++ fill_line fill)) }
    ensures made { IfOk result (λ yes. IsTrue yes → IsProgram program.now × (fill < 256)) }
{
    let Ok(rest) = after_words(text, program.base(), program.words(), from) else {
        return Ok(false);
    };
    let last = memory_lines(alloc, program.grants(), fill)?;
    Ok(rest == last.as_slice())
}

// The program and the fill, where the text is their listing, and else its bytes.
fn finish(
    alloc: Global,
    settled: Settled,
    tail: &[u8],
) -> Result<Result<ProgramFile, Vec<u8>>, AllocError>
    requires { Holds settled }
    ensures listing { IfOk result (λ found. IfOk found (λ file. Assembles (front_of settled ++ tail.now) file.program file.fill)) }
    ensures few { IfOk result (λ found. IfOk found (λ _. length (front_of settled ++ tail.now) ≤ most_bytes)) }
    ensures bytes { IfOk result (λ found. MatchResult found (λ _. Unit {0}) (λ bytes. bytes.items ≡ front_of settled ++ tail.now)) }
{
    let Settled {
        base,
        draft,
        number,
        front,
        read,
    } = settled;
    let Some(rest) = tail.get(read..) else {
        return Ok(Err(expand(alloc, base, &draft.words, front, tail)?));
    };
    let (end, _) = read_draft(alloc, rest)?;
    let fill = end.fill.unwrap_or(0);
    let program = match program_of(alloc, base, draft.words, &end.chunks)? {
        Ok(program) => program,
        Err(words) => return Ok(Err(expand(alloc, base, &words, front, tail)?)),
    };
    let is_short = front <= MOST_BYTES && tail.len() <= MOST_BYTES - front;
    if is_short && is_end(alloc, tail, &program, number, fill)? {
        return Ok(Ok(ProgramFile { program, fill }));
    }
    Ok(Err(expand(alloc, base, program.words(), front, tail)?))
}

impl Text {
    /// A text of no bytes.
    pub fn new(alloc: Global) -> Text
        ensures { result ≡ [] }
    {
        Text {
            state: State::New,
            tail: Vec::new(alloc),
        }
    }

    /// The text with a piece behind it. The error is out of memory.
    pub fn append(self, alloc: Global, piece: &[u8]) -> Result<Text, AllocError>
        ensures { IfOk result (λ text. text ≡ self ++ piece.now) }
    {
        let Text { state, mut tail } = self;
        tail.extend_from_slice(piece)?;
        match state {
            State::Told(settled) => advance(alloc, settled, tail),
            State::Plain => Ok(Text {
                state: State::Plain,
                tail,
            }),
            State::New => match begin(alloc, &tail) {
                Some(settled) => {
                    let tail = let_go(alloc, tail, settled.front)?;
                    advance(alloc, settled, tail)
                }
                None => Ok(Text {
                    state: State::Plain,
                    tail,
                }),
            },
        }
    }

    /// The program and the fill whose listing the text is, as `assemble` answers of its bytes.
    pub fn assemble(self, alloc: Global) -> Result<ProgramFile, AsmError>
        ensures { Answers self result }
    {
        let Text { state, tail } = self;
        let bytes = match state {
            State::Told(settled) => match finish(alloc, settled, &tail)? {
                Ok(file) => return Ok(file),
                Err(bytes) => bytes,
            },
            State::New | State::Plain => tail,
        };
        assemble(alloc, &bytes)
    }
}
