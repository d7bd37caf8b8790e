//! How a line is cut into pieces.

ghost use Rattle.std.specs.Prelude.{◌≡◌, ◌+◌, ◌*◌, ◌^◌, ◌<◌, ◌≤◌, ◌∷◌, ◌++◌, [], map, min, IfOk};
ghost use Rattle.std.specs.List.{All};
ghost use Rattle.clip_spans.specs.Runs.{span};
ghost use Rattle.pixel_layout.specs.Layouts.{layout};
ghost use Rattle.page_table.specs.Scattered.{ScatterList, address_at, room_at};
ghost use Rattle.picture_model.specs.Geometry.{max_width};
ghost use Rattle.picture_model.specs.Plans.{address_of, cut, cuts_of, grains_of, in_grains, longest, max_piece, most, most_of, piece_of};
ghost use Rattle.picture_model.specs.Plans.{pieces_of, span_cuts};
ghost use Rattle.planar_plan.specs.Lines.{AreHeld, AreWindows, AreWithin, CanBeCut, CountsFit, IsHeld, IsWindow, Reaches, strip_of};
ghost use Rattle.planar_plan.specs.Lines.{track_of};

use crate::stretch::WholeRow;
use clip_spans::Span;
use page_table::Scatter;
use picture_model::{MAX_PIECE, Piece, PieceKind};
use pixel_layout::Format;
use risc_word::Ends;
use std::alloc::{AllocError, Global};
use std::marker::Model;

/// The pieces of a line, in order. Contracts see the list.
#[derive(Drop)]
pub struct Pieces {
    pieces: Vec<Piece>,
}

impl Model for Pieces {
    ghost use Rattle.std.specs.Prelude.{List};
    ghost use Rattle.picture_model.specs.declared.Piece.{Piece};

    ghost Value = { List Piece };

    ghost view = { λ p. p.pieces.items };
}

impl Pieces {
    /// No pieces.
    pub fn new(alloc: Global) -> Pieces
        ensures { result ≡ [] }
    {
        Pieces {
            pieces: Vec::new(alloc),
        }
    }

    // Keeps a list.
    pub(crate) fn of(pieces: Vec<Piece>) -> Pieces
        ensures { result ≡ pieces.items }
    {
        Pieces { pieces }
    }

    // Puts the pieces of a row with these spans in the place of others.
    pub(crate) fn cut_row(
        &mut self,
        scatter: &Scatter,
        line: &Line,
        spans: &[Span],
    ) -> Result<(), AllocError>
        requires line { CanBeCut scatter.now (strip_of line.now) }
        requires grains { AreWithin line.now.grains spans.now }
        ensures pieces { IfOk result
            (λ _. self.new ≡ pieces_of scatter.now.chunks (strip_of line.now) (cuts_of scatter.now.chunks (strip_of line.now) spans.now)) }
        ensures counts { IfOk result (λ _. All CountsFit self.new) }
    {
        cut_row(scatter, line, spans, &mut self.pieces)
    }

    /// The list.
    pub fn as_slice(&self) -> &[Piece]
        ensures { result.now ≡ self.now }
    {
        &self.pieces
    }
}

/// The spans of the picture rows from one on up to another, which is none of them, counted in what their
/// plans cut. Contracts see both rows and the spans.
#[derive(Drop)]
pub struct RowSpans {
    pub(crate) from: u32,
    pub(crate) to: u64,
    pub(crate) spans: Vec<Span>,
}

impl Model for RowSpans {
    ghost use Rattle.planar_plan.specs.Lines.{SpansOfRows, spans_of_rows};

    ghost Value = { SpansOfRows };

    ghost view = { λ s. spans_of_rows s.from s.to s.spans.items };
}

impl RowSpans {
    /// The spans, which are counted in grains.
    pub fn as_slice(&self) -> &[Span]
        ensures { result.now ≡ self.now.spans }
    {
        &self.spans
    }
}

// What a line moves on a plane: the bytes of a grain, and the offset of the line's first byte, where it
// is written. A grain is what no cut divides: a byte of a packed line, a unit of a planar one.
#[derive(Clone, Copy)]
pub(crate) struct PlaneTrack {
    pub(crate) size: u32,
    pub(crate) start: Option<u64>,
}

// A line: its grains, what its pieces do where it isn't clipped, and its tracks.
#[derive(Clone, Copy)]
pub(crate) struct Line {
    pub(crate) grains: u32,
    pub(crate) kind: PieceKind,
    pub(crate) one: PlaneTrack,
    pub(crate) two: PlaneTrack,
    pub(crate) three: PlaneTrack,
}

// How far a piece may reach on a track: its address there, 0 where it isn't written, and its grains.
#[derive(Clone, Copy)]
struct Reach {
    address: u32,
    grains: u32,
}

// Bytes of one chunk, no more than a piece may have: their offsets from `from` up to `to`, and the address
// of the first.
#[derive(Clone, Copy)]
struct Window {
    from: u64,
    to: u64,
    address: u32,
}

// The bytes of each track that were looked up last.
#[derive(Clone, Copy)]
pub(crate) struct Windows {
    one: Window,
    two: Window,
    three: Window,
}

// Windows without bytes.
fn no_windows() -> Windows
    ensures { (s : ScatterList) → AreWindows s result }
{
    let none = Window {
        from: 0,
        to: 0,
        address: 0,
    };
    Windows {
        one: none,
        two: none,
        three: none,
    }
}

// The grains of a span that are left: the first of them, and how many.
#[derive(Clone, Copy)]
struct Left {
    at: u32,
    rest: u32,
}

// How many of the grains that are left so many bytes hold; a track without bytes sets no limit.
#[inline(always)]
fn held_by(bytes: u32, size: u32, rest: u32) -> u32
    requires { bytes ≤ max_piece }
    ensures grains { result ≡ min rest (most size bytes rest) }
    ensures few { result * size ≤ max_piece }
{
    if u64::from(rest) * u64::from(size) <= u64::from(bytes) {
        rest
    } else {
        bytes / size
    }
}

// A track that is written from an offset on.
#[derive(Clone, Copy)]
struct WrittenTrack {
    size: u32,
    start: u64,
}

impl WrittenTrack {
    // How far a piece may reach, where the window doesn't hold what is left.
    #[inline(never)]
    fn look_up(self, scatter: &Scatter, window: &mut Window, left: Left) -> Reach
        requires len { scatter.now.len ≤ 2 ^ 32 }
        requires some { 1 ≤ left.rest }
        requires held { AreHeld scatter.now (left.at + left.rest) self.size (Some self.start) }
        ensures reach { Reaches left.rest self.size
            (most self.size (min max_piece (room_at scatter.now.chunks (self.start + left.at * self.size))) left.rest)
            (address_at scatter.now.chunks (self.start + left.at * self.size)) result }
        ensures window { IsWindow scatter.now window.new }
    {
        let offset = self.start + u64::from(left.at) * u64::from(self.size);
        let (address, bytes) = scatter.run(offset, MAX_PIECE);
        *window = Window {
            from: offset,
            to: offset + u64::from(bytes),
            address,
        };
        Reach {
            address,
            grains: held_by(bytes, self.size, left.rest),
        }
    }

    // How far a piece may reach.
    #[inline(always)]
    fn reach(self, scatter: &Scatter, window: &mut Window, left: Left) -> Reach
        requires len { scatter.now.len ≤ 2 ^ 32 }
        requires some { 1 ≤ left.rest }
        requires held { AreHeld scatter.now (left.at + left.rest) self.size (Some self.start) }
        requires window { IsWindow scatter.now window.old }
        ensures reach { Reaches left.rest self.size
            (most self.size (min max_piece (room_at scatter.now.chunks (self.start + left.at * self.size))) left.rest)
            (address_at scatter.now.chunks (self.start + left.at * self.size)) result }
        ensures window { IsWindow scatter.now window.new }
    {
        let offset = self.start + u64::from(left.at) * u64::from(self.size);
        let end = offset + u64::from(left.rest) * u64::from(self.size);
        if offset < window.from || window.to < end {
            return self.look_up(scatter, window, left);
        }
        Reach {
            address: window.address + (offset - window.from) as u32,
            grains: left.rest,
        }
    }
}

impl PlaneTrack {
    // How far a piece may reach where the track isn't written.
    #[inline(always)]
    fn unwritten(self, rest: u32) -> Reach
        ensures { Reaches rest self.size (most self.size max_piece rest) 0 result }
    {
        Reach {
            address: 0,
            grains: held_by(MAX_PIECE, self.size, rest),
        }
    }

    // How far a piece may reach.
    #[inline(always)]
    fn reach(self, scatter: &Scatter, window: &mut Window, clipped: bool, left: Left) -> Reach
        requires len { scatter.now.len ≤ 2 ^ 32 }
        requires some { 1 ≤ left.rest }
        requires held { IsHeld scatter.now (left.at + left.rest) (track_of self) }
        requires window { IsWindow scatter.now window.old }
        ensures window { IsWindow scatter.now window.new }
        ensures reach { Reaches left.rest self.size (most_of scatter.now.chunks clipped left.at left.rest (track_of self))
            (address_of scatter.now.chunks clipped self.size self.start left.at) result }
    {
        match self.start {
            Some(start) if !clipped => WrittenTrack {
                size: self.size,
                start,
            }
            .reach(scatter, window, left),
            _ => self.unwritten(left.rest),
        }
    }
}

// The bytes of some grains, which are no more than a piece may have.
#[inline(always)]
#[tactic(auto, using(crate::proofs::Bounds::fewer_grains))]
pub(crate) fn bytes(grains: u32, size: u32, most: u32) -> u16
    requires fewer { grains ≤ most }
    requires few { most * size ≤ max_piece }
    ensures value { result ≡ grains * size }
    ensures few { result < 4096 }
{
    (grains * size) as u16
}

// The longest piece of a span from grain `at` on, and its grains.
#[inline(always)]
fn next_piece(
    scatter: &Scatter,
    line: &Line,
    windows: &mut Windows,
    span: Span,
    at: u32,
) -> (Piece, u32)
    requires line { CanBeCut scatter.now (strip_of line.now) }
    requires before { at < span.to }
    requires within { span.to ≤ line.now.grains }
    requires windows { AreWindows scatter.now windows.old }
    ensures windows { AreWindows scatter.now windows.new }
    ensures grains { result.1 ≡ longest scatter.now.chunks (strip_of line.now) span at }
    ensures piece { result.0 ≡ piece_of scatter.now.chunks (strip_of line.now) (cut at result.1 span.clipped) }
    ensures counts { CountsFit result.0 }
    ensures some { 1 ≤ result.1 }
    ensures inside { at + result.1 ≤ span.to }
{
    let left = Left {
        at,
        rest: span.to - at,
    };
    let clipped = span.clipped;
    let one = line.one.reach(scatter, &mut windows.one, clipped, left);
    let two = line.two.reach(scatter, &mut windows.two, clipped, left);
    let three = line.three.reach(scatter, &mut windows.three, clipped, left);
    let grains = one.grains.min(two.grains).min(three.grains);
    let piece = Piece {
        kind: if span.clipped {
            PieceKind::Skip
        } else {
            line.kind
        },
        ends: Ends {
            sol: at == 0,
            eol: at + grains == line.grains,
        },
        counts: [
            bytes(grains, line.one.size, one.grains),
            bytes(grains, line.two.size, two.grains),
            bytes(grains, line.three.size, three.grains),
        ],
        addrs: [one.address, two.address, three.address],
    };
    (piece, grains)
}

// Adds the pieces of a span, which is counted in grains.
#[inline(always)]
pub(crate) fn cut_span(
    scatter: &Scatter,
    line: &Line,
    windows: &mut Windows,
    span: Span,
    pieces: &mut Vec<Piece>,
) -> Result<(), AllocError>
    requires line { CanBeCut scatter.now (strip_of line.now) }
    requires order { span.from ≤ span.to }
    requires within { span.to ≤ line.now.grains }
    requires windows { AreWindows scatter.now windows.old }
    ensures windows { IfOk result (λ _. AreWindows scatter.now windows.new) }
    ensures pieces { IfOk result (λ _. pieces.new.items
        ≡ pieces.old.items ++ pieces_of scatter.now.chunks (strip_of line.now) (span_cuts scatter.now.chunks (strip_of line.now) span)) }
    ensures counts { All CountsFit pieces.old.items → IfOk result (λ _. All CountsFit pieces.new.items) }
{
    let mut at = span.from;
    while at < span.to {
        let (piece, grains) = next_piece(scatter, line, windows, span, at);
        pieces.push(piece)?;
        at += grains;
    }
    Ok(())
}

// The bytes of a unit on plane 1.
pub(crate) fn unit_bytes(format: Format) -> u32
    ensures value { result ≡ (layout format).bytes }
    ensures few { result ≤ 12 }
{
    format.row_bytes(1, format.unit_pixels())
}

// The grains in so many pixels of a row.
#[tactic(auto, using(pixel_layout::proofs::Sizes::units_fit))]
pub(crate) fn grains_of(format: Format, pixels: u32) -> u32
    requires { pixels ≤ max_width }
    ensures { result ≡ grains_of (layout format) pixels }
{
    let units = pixels / format.unit_pixels();
    if format.is_planar() {
        units
    } else {
        units * unit_bytes(format)
    }
}

fn in_grains(format: Format, span: &Span) -> Span
    requires from { span.now.from ≤ max_width }
    requires to { span.now.to ≤ max_width }
    ensures { result ≡ in_grains (layout format) span.now }
{
    Span {
        from: grains_of(format, span.from),
        to: grains_of(format, span.to),
        clipped: span.clipped,
    }
}

// Spans that are counted in pixels, now in grains.
pub(crate) fn spans_in_grains(
    alloc: Global,
    format: Format,
    spans: &[Span],
) -> Result<Vec<Span>, AllocError>
    requires { AreWithin max_width spans.now }
    ensures { IfOk result (λ grains. grains.items ≡ map (in_grains (layout format)) spans.now) }
{
    let mut grains = Vec::with_capacity(alloc, spans.len())?;
    for span in spans {
        grains.push(in_grains(format, span))?;
    }
    Ok(grains)
}

// Puts the pieces of a line with these spans in the place of others, span by span.
fn cut_spans(
    scatter: &Scatter,
    line: &Line,
    spans: &[Span],
    pieces: &mut Vec<Piece>,
) -> Result<(), AllocError>
    requires line { CanBeCut scatter.now (strip_of line.now) }
    requires grains { AreWithin line.now.grains spans.now }
    ensures pieces { IfOk result (λ _. pieces.new.items
        ≡ pieces_of scatter.now.chunks (strip_of line.now) (cuts_of scatter.now.chunks (strip_of line.now) spans.now)) }
    ensures counts { IfOk result (λ _. All CountsFit pieces.new.items) }
{
    pieces.clear();
    let mut windows = no_windows();
    for span in spans {
        cut_span(scatter, line, &mut windows, *span, pieces)?;
    }
    Ok(())
}

// Puts the pieces of a row with these spans, which are counted in grains, in the place of others.
fn cut_row(
    scatter: &Scatter,
    line: &Line,
    spans: &[Span],
    pieces: &mut Vec<Piece>,
) -> Result<(), AllocError>
    requires line { CanBeCut scatter.now (strip_of line.now) }
    requires grains { AreWithin line.now.grains spans.now }
    ensures pieces { IfOk result (λ _. pieces.new.items
        ≡ pieces_of scatter.now.chunks (strip_of line.now) (cuts_of scatter.now.chunks (strip_of line.now) spans.now)) }
    ensures counts { IfOk result (λ _. All CountsFit pieces.new.items) }
{
    match WholeRow::of(scatter, line) {
        Some(row) => row.cut(spans, pieces),
        None => cut_spans(scatter, line, spans, pieces),
    }
}

// The pieces of a line that is one span.
pub(crate) fn cut_whole(
    alloc: Global,
    scatter: &Scatter,
    line: &Line,
    clipped: bool,
) -> Result<Vec<Piece>, AllocError>
    requires { CanBeCut scatter.now (strip_of line.now) }
    ensures pieces { IfOk result (λ pieces. pieces.items ≡ pieces_of scatter.now.chunks (strip_of line.now)
        (cuts_of scatter.now.chunks (strip_of line.now) (span 0 line.now.grains clipped ∷ []))) }
    ensures counts { IfOk result (λ pieces. All CountsFit pieces.items) }
{
    let mut pieces = Vec::new(alloc);
    let whole = Span {
        from: 0,
        to: line.grains,
        clipped,
    };
    let mut windows = no_windows();
    cut_span(scatter, line, &mut windows, whole, &mut pieces)?;
    Ok(pieces)
}
