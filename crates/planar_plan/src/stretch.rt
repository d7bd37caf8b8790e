//! Lines each span of which is one piece.

ghost use Rattle.std.specs.Prelude.{◌≡◌, ◌↔◌, ◌+◌, ◌*◌, ◌^◌, ◌<◌, ◌≤◌, ◌∷◌, [], None, false, IfOk, IfSome};
ghost use Rattle.std.specs.List.{All, flat_map};
ghost use Rattle.std.specs.Option.{option_to_list};
ghost use Rattle.page_table.specs.Scattered.{ScatterList};
ghost use Rattle.picture_model.specs.Plans.{FitsTrack};
ghost use Rattle.planar_plan.specs.Lines.{AreWithin, CanBeCut, CountsFit, IsHeld, strip_of, track_of};
ghost use Rattle.planar_plan.specs.Stretches.{AreFit, AreStretches, FitsInOne, IsStretch, IsWhole, piece_in, pieces_in, place_on};

use crate::cut::{Line, PlaneTrack, bytes};
use clip_spans::Span;
use page_table::Scatter;
use picture_model::{MAX_PIECE, Piece, PieceKind};
use risc_word::Ends;
use std::alloc::AllocError;
use std::marker::Model;

// Where the bytes of a track are, which lie in one chunk and are no more than a piece may have: the
// address of the first, and the bytes from grain to grain. Both are 0 where the track isn't written.
#[derive(Clone, Copy)]
pub(crate) struct Stretch {
    pub(crate) address: u32,
    pub(crate) step: u32,
}

// A stretch for each track of a line.
#[derive(Clone, Copy)]
pub(crate) struct Stretches {
    pub(crate) one: Stretch,
    pub(crate) two: Stretch,
    pub(crate) three: Stretch,
}

/// A row each span of which is one piece. Contracts see the row and where its bytes are.
#[derive(Drop)]
pub struct WholeRow {
    line: Line,
    stretches: Stretches,
}

impl Model for WholeRow {
    ghost use Rattle.planar_plan.specs.Lines.{strip_of};
    ghost use Rattle.planar_plan.specs.Stretches.{AreFit, WholeLine, whole_line};

    ghost Value = { WholeLine };

    ghost view = { λ row. whole_line row.line row.stretches };

    ghost invariant = { λ row. AreFit (strip_of row.line) row.stretches };
}

// The stretch of a track of so many grains, where it is one.
fn stretch_of(scatter: &Scatter, grains: u32, track: PlaneTrack) -> Option<Stretch>
    requires len { scatter.now.len ≤ 2 ^ 32 }
    requires held { IsHeld scatter.now grains (track_of track) }
    ensures stretch { IfSome result (IsStretch scatter.now.chunks grains (track_of track)) }
    ensures none { result ≡ None → 1 ≤ grains → FitsTrack scatter.now.chunks false 0 grains (track_of track) → ⊥ }
{
    let bytes = u64::from(grains) * u64::from(track.size);
    if grains == 0 || u64::from(MAX_PIECE) < bytes {
        return None;
    }
    let Some(start) = track.start else {
        return Some(Stretch {
            address: 0,
            step: 0,
        });
    };
    let (address, run) = scatter.run(start, MAX_PIECE);
    if u64::from(run) < bytes {
        return None;
    }
    Some(Stretch {
        address,
        step: track.size,
    })
}

// The stretches of a line, where each of its tracks is one.
pub(crate) fn stretches_of(scatter: &Scatter, line: &Line) -> Option<Stretches>
    requires { CanBeCut scatter.now (strip_of line.now) }
    ensures stretches { IfSome result (AreStretches scatter.now.chunks (strip_of line.now)) }
    ensures none { result ≡ None → FitsInOne scatter.now.chunks (strip_of line.now) → ⊥ }
{
    Some(Stretches {
        one: stretch_of(scatter, line.grains, line.one)?,
        two: stretch_of(scatter, line.grains, line.two)?,
        three: stretch_of(scatter, line.grains, line.three)?,
    })
}

// The address of a grain.
#[inline(always)]
#[tactic(auto, using(crate::proofs::Stretching::place_fits))]
fn address_at(stretch: Stretch, at: u32) -> u32
    requires { stretch.address + (at + 1) * stretch.step ≤ 2 ^ 32 }
    ensures { result ≡ stretch.address + at * stretch.step }
{
    stretch.address + at * stretch.step
}

// The piece of a span.
#[inline(always)]
fn piece_in(line: &Line, stretches: &Stretches, span: Span) -> Piece
    requires some { span.from < span.to }
    requires within { span.to ≤ line.now.grains }
    requires fit { AreFit (strip_of line.now) stretches.now }
    ensures piece { result ≡ piece_in line.now stretches.now span }
    ensures counts { CountsFit result }
{
    let grains = span.to - span.from;
    let sol = span.from == 0;
    let eol = span.to == line.grains;
    let counts = [
        bytes(grains, line.one.size, line.grains),
        bytes(grains, line.two.size, line.grains),
        bytes(grains, line.three.size, line.grains),
    ];
    if span.clipped {
        return Piece {
            kind: PieceKind::Skip,
            ends: Ends { sol, eol },
            counts,
            addrs: [0; 3],
        };
    }
    Piece {
        kind: line.kind,
        ends: Ends { sol, eol },
        counts,
        addrs: [
            address_at(stretches.one, span.from),
            address_at(stretches.two, span.from),
            address_at(stretches.three, span.from),
        ],
    }
}

impl WholeRow {
    // The line as one whose spans are each one piece, where it is one.
    pub(crate) fn of(scatter: &Scatter, line: &Line) -> Option<WholeRow>
        requires { CanBeCut scatter.now (strip_of line.now) }
        ensures whole { IfSome result (IsWhole scatter.now.chunks (strip_of line.now)) }
        ensures fits { IfSome result (λ _. FitsInOne scatter.now.chunks (strip_of line.now)) }
        ensures none { result ≡ None → FitsInOne scatter.now.chunks (strip_of line.now) → ⊥ }
    {
        let stretches = stretches_of(scatter, line)?;
        Some(WholeRow {
            line: *line,
            stretches,
        })
    }

    /// The piece of a span, which is counted in grains: none where the span is empty.
    #[inline(always)]
    pub fn piece(&self, span: Span) -> Option<Piece>
        requires within { span.to ≤ self.now.line.grains }
        ensures piece { option_to_list result ≡ pieces_in self.now span }
        ensures none { (result ≡ None) ↔ (span.to ≤ span.from) }
        ensures counts { IfSome result CountsFit }
    {
        if span.from < span.to {
            Some(piece_in(&self.line, &self.stretches, span))
        } else {
            None
        }
    }

    // Puts the pieces of these spans in the place of others.
    pub(crate) fn cut(&self, spans: &[Span], pieces: &mut Vec<Piece>) -> Result<(), AllocError>
        requires { AreWithin self.now.line.grains spans.now }
        ensures pieces { IfOk result (λ _. pieces.new.items ≡ flat_map (pieces_in self.now) spans.now) }
        ensures counts { IfOk result (λ _. All CountsFit pieces.new.items) }
    {
        pieces.clear();
        for span in spans {
            if let Some(piece) = self.piece(*span) {
                pieces.push(piece)?;
            }
        }
        Ok(())
    }
}
