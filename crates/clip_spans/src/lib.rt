//! Clip rectangles, and the spans of a picture row that they clip.
#![tactic(auto)]

ghost use Rattle.std.specs.Prelude.{◌≡◌, ◌↔◌, ℕ, ◌+◌, ◌*◌, ◌%◌, ◌<◌, ◌≤◌, ◌++◌, List, length, IfOk, IfSome};
ghost use Rattle.std.specs.List.{All};
ghost use Rattle.clip_spans.specs.Clipping.{clipped_at, edge_after, max_rects, meets, next_edge};
ghost use Rattle.clip_spans.specs.Parts.{AreInOrder, IsPart, is_inside, part_of, parts_of, unless_empty};
ghost use Rattle.clip_spans.specs.Runs.{Alternate, AreRunsFrom, AreSpans, spans_of};
ghost use Rattle.clip_spans.specs.declared.ClipFault.TheVariants.{Memory};
ghost use Rattle.clip_spans.specs.declared.Rect.{Rect};
ghost use Rattle.clip_spans.specs.declared.Span.{Span};

use std::alloc::{AllocError, AllocFailed, Global};
use std::marker::Model;

/// The most clip rectangles (this project's own limit).
pub const MAX_RECTS: usize = 64;

// The row where no rectangle begins or ends: the first behind all rows.
const NO_EDGE: u64 = 1 << 32;

/// A clip rectangle: the pixels `x` to `x + w - 1` of the picture rows `y` to `y + h - 1`. It may be
/// empty or lie outside the picture, and its ends may pass 2^32.
#[derive(Clone, Copy, Debug, PartialEq)]
pub struct Rect {
    /// The first pixel of a row, counted from 0 at the left.
    pub x: u32,
    /// The first row, counted from 0 at the top.
    pub y: u32,
    /// The width in pixels.
    pub w: u32,
    /// The height in rows.
    pub h: u32,
}

/// A stretch of a row: the pixels from `from` up to `to`, which is not part of it.
#[derive(Clone, Copy, Debug, PartialEq)]
pub struct Span {
    /// The first pixel.
    pub from: u32,
    /// The first pixel behind it.
    pub to: u32,
    /// Whether the pixels are kept out of the picture.
    pub clipped: bool,
}

/// Why a list of rectangles is not taken.
#[derive(Clone, Copy, Debug, PartialEq)]
pub enum ClipFault {
    /// More than 64 rectangles (this project's own limit).
    TooMany,
    /// Out of memory.
    Memory,
}

impl From<AllocError> for ClipFault {
    ghost from_gives = { λ _ fault. fault ≡ Memory };

    fn from(_error: AllocError) -> ClipFault {
        ClipFault::Memory
    }
}

/// The spans of one row, from left to right. Contracts see the list.
#[derive(Drop)]
pub struct Spans {
    spans: Vec<Span>,
}

impl Model for Spans {
    ghost use Rattle.std.specs.Prelude.{List};
    ghost use Rattle.clip_spans.specs.declared.Span.{Span};

    ghost Value = { List Span };

    ghost view = { λ s. s.spans.items };
}

impl Spans {
    /// The list.
    pub fn as_slice(&self) -> &[Span]
        ensures { result.now ≡ self.now }
    {
        &self.spans
    }
}

/// At most 64 clip rectangles, which may touch and overlap. Contracts see the list.
#[derive(Drop)]
pub struct Clips {
    rects: Vec<Rect>,
}

impl Model for Clips {
    ghost use Rattle.std.specs.Prelude.{◌≤◌, List, length};
    ghost use Rattle.clip_spans.specs.declared.Rect.{Rect};
    ghost use Rattle.clip_spans.specs.Clipping.{max_rects};

    ghost Value = { List Rect };

    ghost view = { λ c. c.rects.items };

    ghost invariant = { λ c. length c.rects.items ≤ max_rects };
}

// A stretch of a row that one rectangle clips.
#[derive(Clone, Copy)]
struct Part {
    from: u32,
    to: u32,
}

fn meets(rect: &Rect, row: u32) -> bool
    ensures { result ≡ meets rect.now row }
{
    rect.y <= row && u64::from(row) < u64::from(rect.y) + u64::from(rect.h)
}

// The first row after a row at which a rectangle begins or ends.
fn edge_after(row: u32, rect: &Rect) -> u64
    ensures { result ≡ edge_after row rect.now }
{
    let row = u64::from(row);
    let begin = u64::from(rect.y);
    let end = begin + u64::from(rect.h);
    if row < begin {
        begin
    } else if row < end {
        end
    } else {
        NO_EDGE
    }
}

fn next_edge(rects: &[Rect], row: u32) -> u64
    ensures { result ≡ next_edge rects.now row }
{
    let mut next = NO_EDGE;
    for rect in rects {
        next = next.min(edge_after(row, rect));
    }
    next
}

// What a rectangle clips of a row, in whole units.
fn part_of(rect: &Rect, row: u32, width: u32, unit: u32) -> Option<Part>
    requires width { width ≤ 1024 }
    requires unit { (1 ≤ unit) × (width % unit ≡ 0) }
    ensures value { result ≡ part_of row width unit rect.now }
{
    if !meets(rect, row) || rect.w == 0 || rect.x >= width {
        return None;
    }
    let end = rect.x.saturating_add(rect.w).min(width);
    Some(Part {
        from: rect.x / unit * unit,
        to: ((end - 1) / unit + 1) * unit,
    })
}

fn parts_of(
    alloc: Global,
    rects: &[Rect],
    row: u32,
    width: u32,
    unit: u32,
) -> Result<Vec<Part>, AllocError>
    requires width { width ≤ 1024 }
    requires unit { (1 ≤ unit) × (width % unit ≡ 0) }
    ensures { IfOk result (λ parts. parts.items ≡ parts_of rects.now row width unit) }
{
    rects
        .iter()
        .filter_map(|rect| part_of(rect, row, width, unit))
        .collect(alloc)
}

// The parts of a row in the order of their beginnings.
fn sorted_parts(
    alloc: Global,
    rects: &[Rect],
    row: u32,
    width: u32,
    unit: u32,
) -> Result<Vec<Part>, AllocError>
    requires width { width ≤ 1024 }
    requires unit { (1 ≤ unit) × (width % unit ≡ 0) }
    ensures order { IfOk result (λ parts. AreInOrder width 0 parts.items) }
    ensures parts { IfOk result (λ parts. (x : ℕ) → x < width → is_inside parts.items x ≡ clipped_at rects.now row unit x) }
{
    let mut parts = parts_of(alloc, rects, row, width, unit)?;
    parts.sort_unstable_by_key(|part| part.from);
    Ok(parts)
}

// Adds a span, unless it has no pixels.
fn add(spans: &mut Vec<Span>, from: u32, to: u32, clipped: bool) -> Result<(), AllocError>
    ensures { IfOk result (λ _. spans.new.items ≡ spans.old.items ++ unless_empty from to clipped) }
{
    if from < to {
        spans.push(Span { from, to, clipped })?;
    }
    Ok(())
}

// Joins parts that touch or overlap, and puts spans that are not clipped between the others. The
// pixels from `start` up to `done` are clipped, and their span is not out yet.
fn merged(alloc: Global, parts: &[Part], width: u32) -> Result<Vec<Span>, AllocError>
    requires { AreInOrder width 0 parts.now }
    ensures { IfOk result (λ spans. AreRunsFrom (is_inside parts.now) width 0 spans.items) }
{
    let mut spans = Vec::new(alloc);
    let mut start = 0;
    let mut done = 0;
    for part in parts {
        if done < part.from {
            add(&mut spans, start, done, true)?;
            add(&mut spans, done, part.from, false)?;
            start = part.from;
        }
        done = done.max(part.to);
    }
    add(&mut spans, start, done, true)?;
    add(&mut spans, done, width, false)?;
    Ok(spans)
}

impl Clips {
    /// Keeps a list of rectangles.
    pub fn new(alloc: Global, rects: &[Rect]) -> Result<Clips, ClipFault>
        ensures many { (result ≡ Err ClipFault.TooMany) ↔ (max_rects < length rects.now) }
        ensures list { IfOk result (λ clips. clips ≡ rects.now) }
    {
        if rects.len() > MAX_RECTS {
            return Err(ClipFault::TooMany);
        }
        let mut kept = Vec::new(alloc);
        kept.extend_from_slice(rects)?;
        Ok(Clips { rects: kept })
    }

    /// The spans of a row of `width` pixels. A unit of `unit` pixels that has a pixel in a rectangle
    /// is clipped as a whole. The ends of the spans are pixels, between units.
    pub fn spans(&self, alloc: Global, row: u32, width: u32, unit: u32) -> Result<Spans, AllocError>
        requires width { (1 ≤ width) × (width ≤ 1024) }
        requires unit { (1 ≤ unit) × (width % unit ≡ 0) }
        ensures spans { IfOk result (AreSpans self.now row width unit) }
        ensures alternate { IfOk result Alternate }
        ensures value { IfOk result (λ spans. spans ≡ spans_of self.now row width unit) }
        ensures few { length self.now ≤ max_rects }
    {
        let parts = sorted_parts(alloc, &self.rects, row, width, unit)?;
        let spans = merged(alloc, &parts, width)?;
        Ok(Spans { spans })
    }

    /// The first row after a row at which a rectangle begins or ends, 2^32 where there is none. The rows up
    /// to it have the spans of this one.
    pub fn next_edge(&self, row: u32) -> u64
        ensures value { result ≡ next_edge self.now row }
        ensures later { row < result }
        ensures spans { (other width unit : ℕ) → row ≤ other → other < result →
            spans_of self.now other width unit ≡ spans_of self.now row width unit }
        ensures few { length self.now ≤ max_rects }
    {
        next_edge(&self.rects, row)
    }
}

/// Each row has exactly one list of spans, its spans alternate, and each rectangle adds at most two of
/// them. The function does nothing; its contract is the law.
pub fn every_row_has_one_list_of_spans()
    ensures list { (rects : List Rect) (row width unit : ℕ) → AreSpans rects row width unit (spans_of rects row width unit) }
    ensures only { (rects : List Rect) (row width unit : ℕ) (spans : List Span) → AreSpans rects row width unit spans →
        spans ≡ spans_of rects row width unit }
    ensures alternate { (rects : List Rect) (row width unit : ℕ) → Alternate (spans_of rects row width unit) }
    ensures few { (rects : List Rect) (row width unit : ℕ) → 1 ≤ unit → width % unit ≡ 0 →
        length (spans_of rects row width unit) ≤ 2 * length rects + 1 }
{}
