//! What is read from the lines that begin with a word.

ghost use Rattle.risc_asm.specs.Drafts.{LineFits};
ghost use Rattle.risc_text.specs.Readers.{Reads, base_line, chunk_line, entry_line, fill_line, named_line, page_line, span_line};
ghost use Rattle.std.specs.Prelude.{◌≡◌, ◌≤◌, ◌<◌, IfSome, length};

use super::readers::{after, read_address, read_eight_places, read_two_digits};
use page_table::PAGE_SIZE;
use risc_text::Line;

#[inline(always)]
#[tactic(auto, unfolding(risc_text::specs::Readers::base_line))]
fn read_base_line(text: &[u8]) -> Option<(Line, &[u8])>
    ensures value { Reads (λ x. (x.0, x.1.now)) result (base_line text.now) }
    ensures rest { IfSome result (λ x. length x.1.now ≤ length text.now) }
    ensures fits { IfSome result (λ x. LineFits x.0) }
{
    let (base, text) = read_address(text)?;
    Some((Line::Base(base), text))
}

#[inline(always)]
#[tactic(auto, unfolding(risc_text::specs::Readers::page_line))]
fn read_page_line(text: &[u8]) -> Option<(Line, &[u8])>
    ensures value { Reads (λ x. (x.0, x.1.now)) result (page_line text.now) }
    ensures rest { IfSome result (λ x. length x.1.now ≤ length text.now) }
    ensures fits { IfSome result (λ x. LineFits x.0) }
{
    let (at, text) = read_address(text)?;
    Some((Line::Chunk(at, PAGE_SIZE), text))
}

#[inline(always)]
#[tactic(auto, unfolding(risc_text::specs::Readers::chunk_line))]
fn read_chunk_line(text: &[u8]) -> Option<(Line, &[u8])>
    ensures value { Reads (λ x. (x.0, x.1.now)) result (chunk_line text.now) }
    ensures rest { IfSome result (λ x. length x.1.now ≤ length text.now) }
    ensures fits { IfSome result (λ x. LineFits x.0) }
{
    let (at, text) = read_address(text)?;
    let (len, text) = read_eight_places(after(text, b" ")?);
    Some((Line::Chunk(at, len), text))
}

#[inline(always)]
#[tactic(auto, unfolding(risc_text::specs::Readers::fill_line))]
fn read_fill_line(text: &[u8]) -> Option<(Line, &[u8])>
    ensures value { Reads (λ x. (x.0, x.1.now)) result (fill_line text.now) }
    ensures rest { IfSome result (λ x. length x.1.now ≤ length text.now) }
    ensures fits { IfSome result (λ x. LineFits x.0) }
{
    let (fill, text) = read_two_digits(after(text, b" ")?)?;
    Some((Line::Fill(fill), text))
}

#[inline(always)]
#[tactic(auto, unfolding(risc_text::specs::Readers::span_line))]
fn read_span_line(text: &[u8]) -> Option<(Line, &[u8])>
    ensures value { Reads (λ x. (x.0, x.1.now)) result (span_line text.now) }
    ensures rest { IfSome result (λ x. length x.1.now ≤ length text.now) }
    ensures fits { IfSome result (λ x. LineFits x.0) }
{
    let (at, text) = read_address(text)?;
    Some((Line::Span(at), text))
}

#[inline(always)]
#[tactic(auto, unfolding(risc_text::specs::Readers::entry_line))]
fn read_entry_line(text: &[u8]) -> Option<(Line, &[u8])>
    ensures value { Reads (λ x. (x.0, x.1.now)) result (entry_line text.now) }
    ensures rest { IfSome result (λ x. length x.1.now ≤ length text.now) }
    ensures fits { IfSome result (λ x. LineFits x.0) }
{
    let (entry, text) = read_address(text)?;
    Some((Line::Entry(entry), text))
}

/// A line without its end that begins with a word, and the text after it.
#[tactic(auto, unfolding(risc_text::specs::Readers::named_line))]
pub fn read_named_line(text: &[u8]) -> Option<(Line, &[u8])>
    ensures value { Reads (λ x. (x.0, x.1.now)) result (named_line text.now) }
    ensures rest { IfSome result (λ x. length x.1.now ≤ length text.now) }
    ensures fits { IfSome result (λ x. LineFits x.0) }
{
    if let Some(rest) = after(text, b"base") {
        read_base_line(rest)
    } else if let Some(rest) = after(text, b"page") {
        read_page_line(rest)
    } else if let Some(rest) = after(text, b"chunk") {
        read_chunk_line(rest)
    } else if let Some(rest) = after(text, b"fill") {
        read_fill_line(rest)
    } else if let Some(rest) = after(text, b"span") {
        read_span_line(rest)
    } else {
        read_entry_line(after(text, b"entry")?)
    }
}
