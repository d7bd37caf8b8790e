//! The words of instructions and of the pieces of a line, at the end of those that are there already.

ghost use Rattle.std.specs.Prelude.{◌≡◌, ◌+◌, ◌++◌, ◌≤◌, drop, length, take, true, false, map, IsTrue, OnOk};
ghost use Rattle.std.specs.List.{All, flat_map};
ghost use Rattle.field_compile.specs.Kept.{BeginsWith};
ghost use Rattle.planar_plan.specs.Lines.{AreWithin, CountsFit};
ghost use Rattle.planar_plan.specs.Stretches.{pieces_in};
ghost use Rattle.picture_model.specs.Programs.{instr_of, sync, words_of};
ghost use Rattle.risc_word.specs.Words.{encoded, fits};

use clip_spans::Span;
use planar_plan::{Piece, PieceKind, WholeRow};
use risc_word::{Code, Ends, Instr, NO_CONTROL, encode};
use std::alloc::AllocError;

// The pieces whose words are appended at once.
const GROUP: usize = 64;

// The most words of a row each span of which is one piece: five for each of at most 129 spans, since each of
// at most 64 rectangles adds at most two of them.
pub(crate) const ROW_WORDS: usize = 645;

/// The SYNC that waits for a code and does nothing else. With `resync` what it passes over sets no FDSR
/// (Bt878 data sheet, "SYNC").
pub fn sync(resync: bool, code: Code) -> Instr
    ensures value { result ≡ sync resync code }
    ensures fits { IsTrue (fits result) }
{
    Instr::Sync {
        ctl: NO_CONTROL,
        resync,
        code,
    }
}

/// Appends the words of an instruction. A refusal, which is always out of memory, leaves `out` as it
/// was.
#[inline(always)]
pub fn push_instr(instr: &Instr, out: &mut Vec<u32>) -> Result<(), AllocError>
    requires { IsTrue (fits instr.now) }
    ensures words { OnOk result (out.new.items ≡ out.old.items ++ encoded instr.now) }
    ensures kept { BeginsWith out.old.items out.new.items }
{
    let mut words = [0; 5];
    let number = encode(instr, &mut words);
    out.extend_from_slice(&words[..usize::from(number)])
}

// Writes the words of the instruction that moves a piece of a planar line, and answers their number.
#[inline(always)]
fn encode_planar(piece: &Piece, words: &mut [u32; 5]) -> u8
    requires { CountsFit piece.now }
    ensures words { words.new ≡ encoded (instr_of true piece.now) ++ drop (length (encoded (instr_of true piece.now))) words.old }
    ensures number { result ≡ length (encoded (instr_of true piece.now)) }
{
    let ctl = NO_CONTROL;
    // taken apart, since the compiler moves the two as one number else
    let Ends { sol, eol } = piece.ends;
    let ends = Ends { sol, eol };
    let off = 0;
    let counts = piece.counts;
    let addrs = piece.addrs;
    match piece.kind {
        PieceKind::Write => {
            let instr = Instr::Write123 {
                ctl,
                ends,
                off,
                counts,
                addrs,
            };
            encode(&instr, words)
        }
        PieceKind::WriteLuma => {
            let instr = Instr::Write1S23 {
                ctl,
                ends,
                off,
                counts,
                addr: addrs[0],
            };
            encode(&instr, words)
        }
        PieceKind::Skip => encode(&Instr::Skip123 { ctl, ends, counts }, words),
    }
}

// Writes the words of the instruction that moves a piece of a packed line, and answers their number.
#[inline(always)]
fn encode_packed(piece: &Piece, words: &mut [u32; 5]) -> u8
    requires { CountsFit piece.now }
    ensures words { words.new ≡ encoded (instr_of false piece.now) ++ drop (length (encoded (instr_of false piece.now))) words.old }
    ensures number { result ≡ length (encoded (instr_of false piece.now)) }
{
    let count = piece.counts[0];
    if piece.kind == PieceKind::Skip {
        let instr = Instr::Skip {
            ctl: NO_CONTROL,
            ends: piece.ends,
            count,
        };
        return encode(&instr, words);
    }
    let instr = Instr::Write {
        ctl: NO_CONTROL,
        ends: piece.ends,
        off: 0,
        count,
        addr: piece.addrs[0],
    };
    encode(&instr, words)
}

// Writes the words of a piece, in a planar line or in a packed one, and answers their number.
#[inline(always)]
fn encode_piece(planar: bool, piece: &Piece, words: &mut [u32; 5]) -> u8
    requires { CountsFit piece.now }
    ensures words { words.new ≡ encoded (instr_of planar piece.now) ++ drop (length (encoded (instr_of planar piece.now))) words.old }
    ensures number { result ≡ length (encoded (instr_of planar piece.now)) }
{
    if planar {
        encode_planar(piece, words)
    } else {
        encode_packed(piece, words)
    }
}

// Writes the words of a piece into a buffer, behind those that are there, and answers where they end. The
// places behind them may change too.
#[inline(always)]
fn add_piece(planar: bool, piece: &Piece, words: &mut [u32], at: usize) -> usize
    requires fits { CountsFit piece.now }
    requires room { at + 5 ≤ length words.old }
    ensures words { take result words.new ≡ take at words.old ++ encoded (instr_of planar piece.now) }
    ensures few { result ≤ at + 5 }
{
    let mut spelled = [0; 5];
    let number = encode_piece(planar, piece, &mut spelled);
    words[at..at + 5].copy_from_slice(&spelled);
    at + usize::from(number)
}

// Writes the words of pieces into the front of a buffer, and answers their number.
fn spell_pieces(planar: bool, pieces: &[Piece], words: &mut [u32; 5 * GROUP]) -> usize
    requires few { length pieces.now ≤ 64 }
    requires fit { All CountsFit pieces.now }
    ensures words { take result words.new ≡ words_of (map (instr_of planar) pieces.now) }
    ensures few { result ≤ 320 }
{
    let mut at = 0;
    for piece in pieces {
        at = add_piece(planar, piece, words, at);
    }
    at
}

/// Appends the words of the pieces of a line, in a planar line or in a packed one. After a refusal, which
/// is always out of memory, the old words still precede what was added.
pub fn push_pieces(planar: bool, pieces: &[Piece], out: &mut Vec<u32>) -> Result<(), AllocError>
    requires { All CountsFit pieces.now }
    ensures words { OnOk result (out.new.items ≡ out.old.items ++ words_of (map (instr_of planar) pieces.now)) }
    ensures kept { BeginsWith out.old.items out.new.items }
{
    let mut words = [0; 5 * GROUP];
    let mut at = 0;
    while at < pieces.len() {
        let end = pieces.len().min(at + GROUP);
        let count = spell_pieces(planar, &pieces[at..end], &mut words);
        out.extend_from_slice(&words[..count])?;
        at = end;
    }
    Ok(())
}

// Writes the words of the pieces of a row's spans into the front of a buffer, and answers their number.
#[inline(always)]
fn spell_spans(planar: bool, row: &WholeRow, spans: &[Span], words: &mut [u32; ROW_WORDS]) -> usize
    requires few { length spans.now ≤ 129 }
    requires within { AreWithin row.now.line.grains spans.now }
    ensures words { take result words.new ≡ words_of (map (instr_of planar) (flat_map (pieces_in row.now) spans.now)) }
    ensures few { result ≤ 645 }
{
    let mut at = 0;
    for span in spans {
        if let Some(piece) = row.piece(*span) {
            at = add_piece(planar, &piece, words, at);
        }
    }
    at
}

// The same, with a loop of its own for each form, so that the form isn't asked for at each span.
#[inline(never)]
fn spell_row(planar: bool, row: &WholeRow, spans: &[Span], words: &mut [u32; ROW_WORDS]) -> usize
    requires few { length spans.now ≤ 129 }
    requires within { AreWithin row.now.line.grains spans.now }
    ensures words { take result words.new ≡ words_of (map (instr_of planar) (flat_map (pieces_in row.now) spans.now)) }
    ensures few { result ≤ 645 }
{
    if planar {
        spell_spans(true, row, spans, words)
    } else {
        spell_spans(false, row, spans, words)
    }
}

// Appends the words of the pieces of a row's spans, in a planar row or in a packed one, by a buffer that is
// free to change.
pub(crate) fn push_spans(
    planar: bool,
    row: &WholeRow,
    spans: &[Span],
    words: &mut [u32; ROW_WORDS],
    out: &mut Vec<u32>,
) -> Result<(), AllocError>
    requires few { length spans.now ≤ 129 }
    requires within { AreWithin row.now.line.grains spans.now }
    ensures words { OnOk result
        (out.new.items ≡ out.old.items ++ words_of (map (instr_of planar) (flat_map (pieces_in row.now) spans.now))) }
    ensures kept { BeginsWith out.old.items out.new.items }
{
    let count = spell_row(planar, row, spans, words);
    out.extend_from_slice(&words[..count])
}
