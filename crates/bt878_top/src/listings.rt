//! The command that lists a program.

ghost use Rattle.std.specs.Prelude.{◌≡◌, ◌+◌, ◌*◌, ◌^◌, ◌≤◌, [], true, false, length, IfOk};
ghost use Rattle.std.specs.List.{All, flat_map};
ghost use Rattle.machine_model.specs.Paths.{begins_at_base, end_of, span};
ghost use Rattle.bt878_contract.specs.Tasks.{IsProduct, inputs_of};
ghost use Rattle.bt878_top.specs.Contents.{listing_with};
ghost use Rattle.bt878_top.specs.Products.{product_of};
ghost use Rattle.capture_desk.specs.Desks.{IsAllowed, Puts, SayCounts, after_say};
ghost use Rattle.command_steps.specs.Outputs.{Finishes};
ghost use Rattle.command_steps.specs.Reading.{Takes};
ghost use Rattle.risc_listing.specs.Listings.{all_word_lines, base_line, entry_line, lines_by, span_line, span_lines, word_lines};

use crate::produced::Produced;
use bt878_words::Task;
use capture_desk::{Desk, Failed, say_all};
use capture_file::ProgramFile;
use command_inputs::read_file;
use command_texts::{Answer, Refusal};
use risc_listing::{Lines, memory_lines, push_base, push_entry, push_span, push_words};
use risc_verify::{Program, Spans};
use std::alloc::Global;

/// A program that is to be listed, and the last lines of its listing: those of its memory.
#[derive(Drop)]
pub struct Listed {
    pub program: Program,
    /// The bytes of the last lines.
    pub memory: Vec<u8>,
}

/// `list PROG`: reads a program file, whose program need not be sound, and takes the memory for its listing: printing it
/// takes no more.
pub fn list<'a, D: Desk>(
    alloc: Global,
    program: &'a str,
    desk: &mut D,
) -> Result<Produced<'a>, Refusal>
    requires { IsAllowed program.now (D.seen desk.old).told.may_open }
    ensures takes { Takes (inputs_of (Task.List program.entry)) result (D.seen desk.old) (D.seen desk.new) }
    ensures makes { IfOk result (λ produced. IsProduct (Task.List program.entry) (D.seen desk.old).told.inputs (product_of produced)) }
{
    let ProgramFile { program, fill } = read_file(alloc, program, desk)?;
    let memory = memory_lines(alloc, program.grants(), fill)?;
    Ok(Produced::Listing(Listed { program, memory }))
}

/// Prints the lines of the words from an address on, piece by piece. Its piece of text is on the stack, so it is never
/// inlined: a function touches its stack frame page by page where it begins.
#[inline(never)]
fn say_words<D: Desk>(base: u32, words: &[u32], desk: &mut D) -> Result<(), Failed>
    requires { base + 4 * length words.now ≤ 2 ^ 32 }
    ensures says { Puts (word_lines base 0 words.now) result after_say (D.seen desk.old).told (D.seen desk.new).told }
    ensures counts { SayCounts (word_lines base 0 words.now) result (D.seen desk.old) (D.seen desk.new) }
{
    let mut lines = Lines::new();
    let mut next = 0;
    while next < words.len() {
        lines.clear();
        next = push_words(&mut lines, base, words, next);
        say_all(desk, lines.as_str().as_bytes())?;
    }
    Ok(())
}

/// Prints the first line of a listing by the base; never inlined either.
#[inline(never)]
fn say_base<D: Desk>(base: u32, desk: &mut D) -> Result<(), Failed>
    ensures says { Puts (base_line base) result after_say (D.seen desk.old).told (D.seen desk.new).told }
    ensures counts { SayCounts (base_line base) result (D.seen desk.old) (D.seen desk.new) }
{
    let mut lines = Lines::new();
    push_base(&mut lines, base);
    say_all(desk, lines.as_str().as_bytes())
}

/// Prints the first line of a span; never inlined either.
#[inline(never)]
fn say_address<D: Desk>(at: u32, desk: &mut D) -> Result<(), Failed>
    ensures says { Puts (span_line at) result after_say (D.seen desk.old).told (D.seen desk.new).told }
    ensures counts { SayCounts (span_line at) result (D.seen desk.old) (D.seen desk.new) }
{
    let mut lines = Lines::new();
    push_span(&mut lines, at);
    say_all(desk, lines.as_str().as_bytes())
}

/// Prints the line behind the last span; never inlined either.
#[inline(never)]
fn say_entry<D: Desk>(entry: u32, desk: &mut D) -> Result<(), Failed>
    ensures says { Puts (entry_line entry) result after_say (D.seen desk.old).told (D.seen desk.new).told }
    ensures counts { SayCounts (entry_line entry) result (D.seen desk.old) (D.seen desk.new) }
{
    let mut lines = Lines::new();
    push_entry(&mut lines, entry);
    say_all(desk, lines.as_str().as_bytes())
}

/// Prints the lines of a span.
fn say_span<D: Desk>(at: u32, words: &[u32], desk: &mut D) -> Result<(), Failed>
    requires { at + 4 * length words.now ≤ 2 ^ 32 }
    ensures says { Puts (span_lines (span at words.now)) result after_say (D.seen desk.old).told (D.seen desk.new).told }
    ensures counts { SayCounts (span_lines (span at words.now)) result (D.seen desk.old) (D.seen desk.new) }
{
    say_address(at, desk)?;
    say_words(at, words, desk)
}

/// Prints the lines of spans, one after the other.
fn say_spans<D: Desk>(spans: &Spans, desk: &mut D) -> Result<(), Failed>
    requires { All (λ s. end_of s ≤ 2 ^ 32) spans.now }
    ensures says { Puts (flat_map span_lines spans.now) result after_say (D.seen desk.old).told (D.seen desk.new).told }
    ensures counts { SayCounts (flat_map span_lines spans.now) result (D.seen desk.old) (D.seen desk.new) }
{
    for number in 0..spans.len() {
        say_span(spans.at(number), spans.words_of(number), desk)?;
    }
    Ok(())
}

/// Prints the lines of spans, and the entry behind them.
fn say_spans_and_entry<D: Desk>(program: &Program, desk: &mut D) -> Result<(), Failed>
    ensures says { Puts (lines_by false program.now) result after_say (D.seen desk.old).told (D.seen desk.new).told }
    ensures counts { SayCounts (lines_by false program.now) result (D.seen desk.old) (D.seen desk.new) }
{
    say_spans(program.spans(), desk)?;
    say_entry(program.base(), desk)
}

/// Prints the base, and the lines of the words behind it.
fn say_base_and_words<D: Desk>(program: &Program, desk: &mut D) -> Result<(), Failed>
    requires { begins_at_base program.now ≡ true }
    ensures says { Puts (lines_by true program.now) result after_say (D.seen desk.old).told (D.seen desk.new).told }
    ensures counts { SayCounts (lines_by true program.now) result (D.seen desk.old) (D.seen desk.new) }
{
    say_base(program.base(), desk)?;
    say_words(program.base(), program.words(), desk)
}

/// Prints the lines of all words of a program, by its base or span by span.
fn say_all_words<D: Desk>(program: &Program, desk: &mut D) -> Result<(), Failed>
    ensures says { Puts (all_word_lines program.now) result after_say (D.seen desk.old).told (D.seen desk.new).told }
    ensures counts { SayCounts (all_word_lines program.now) result (D.seen desk.old) (D.seen desk.new) }
{
    if program.begins_at_base() {
        say_base_and_words(program, desk)
    } else {
        say_spans_and_entry(program, desk)
    }
}

/// Prints the listing of a program. It takes no memory. Where the desk fails, the first bytes of the listing
/// were printed.
fn say_listing<D: Desk>(listed: &Listed, desk: &mut D) -> Result<(), Failed>
    ensures says { Puts (listing_with listed.now.program listed.now.memory.items) result after_say (D.seen desk.old).told
        (D.seen desk.new).told }
    ensures counts { SayCounts (listing_with listed.now.program listed.now.memory.items) result (D.seen desk.old) (D.seen desk.new) }
{
    say_all_words(&listed.program, desk)?;
    say_all(desk, &listed.memory)
}

/// Prints the listing of a program as the text of Done.
pub fn say_whole<D: Desk>(listed: &Listed, desk: &mut D) -> Answer
    ensures { Finishes [] (listing_with listed.now.program listed.now.memory.items) result (D.seen desk.old) (D.seen desk.new) }
{
    match say_listing(listed, desk) {
        Ok(()) => Answer::Done,
        Err(_) => Answer::WriteFault,
    }
}
