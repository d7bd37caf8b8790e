//! The words of an instruction.

ghost use Rattle.risc_word.specs.Words.{IsInstr, IsReadBack, control_fits, counts_fit, counts_word, data_word, encoded, fits, head_word};
ghost use Rattle.risc_word.specs.Words.{planar_words, sync_word};
ghost use Rattle.std.specs.Prelude.{drop, length, slice_index, IsTrue, ◌+◌, ◌++◌, ◌<◌, ◌≡◌, ◌≤◌};

use super::fields::{
    Count, Eol, Irq, Off, Opcode, Reset, Resync, SecondCount, Set, Sol, SyncCode, ThirdCount,
};
use super::{Code, Ctl, Ends, Instr};

#[inline(always)]
fn head_word(opcode: u32, ctl: Ctl) -> u32
    requires opcode { opcode < 16 }
    requires ctl { IsTrue (control_fits ctl) }
    ensures { result ≡ head_word opcode ctl }
{
    let word = Opcode::put(0, opcode);
    let word = Irq::put(word, u32::from(ctl.irq));
    let word = Reset::put(word, u32::from(ctl.reset));
    Set::put(word, u32::from(ctl.set))
}

#[inline(always)]
fn data_word(opcode: u32, ctl: Ctl, ends: Ends, off: u8, count: u16) -> u32
    requires opcode { opcode < 16 }
    requires ctl { IsTrue (control_fits ctl) }
    requires off { off < 16 }
    requires count { count < 4096 }
    ensures { result ≡ data_word opcode ctl ends off count }
{
    let word = head_word(opcode, ctl);
    let word = Sol::put(word, u32::from(ends.sol));
    let word = Eol::put(word, u32::from(ends.eol));
    let word = Off::put(word, u32::from(off));
    Count::put(word, u32::from(count))
}

fn sync_word(ctl: Ctl, resync: bool, code: Code) -> u32
    requires { IsTrue (control_fits ctl) }
    ensures { result ≡ sync_word ctl resync code }
{
    let word = head_word(8, ctl);
    let word = Resync::put(word, u32::from(resync));
    SyncCode::put(word, u32::from(code.nibble()))
}

#[inline(always)]
fn counts_word(counts: &[u16; 3]) -> u32
    requires { IsTrue (counts_fit counts.now) }
    ensures { result ≡ counts_word (slice_index counts.now 1) (slice_index counts.now 2) }
{
    let word = SecondCount::put(0, u32::from(counts[1]));
    ThirdCount::put(word, u32::from(counts[2]))
}

#[inline(always)]
fn put_words(words: &[u32], out: &mut [u32; 5]) -> u8
    requires { length words.now ≤ 5 }
    ensures words { out.new ≡ words.now ++ drop (length words.now) out.old }
    ensures number { result ≡ length words.now }
{
    out[..words.len()].copy_from_slice(words);
    words.len() as u8
}

#[inline(always)]
fn put_planar(
    opcode: u32,
    ctl: Ctl,
    ends: Ends,
    off: u8,
    counts: &[u16; 3],
    addrs: &[u32],
    out: &mut [u32; 5],
) -> u8
    requires opcode { opcode < 16 }
    requires ctl { IsTrue (control_fits ctl) }
    requires off { off < 16 }
    requires counts { IsTrue (counts_fit counts.now) }
    requires addrs { length addrs.now ≤ 3 }
    ensures words { out.new ≡ planar_words opcode ctl ends off counts.now addrs.now ++ drop (2 + length addrs.now) out.old }
    ensures number { result ≡ 2 + length addrs.now }
{
    out[0] = data_word(opcode, ctl, ends, off, counts[0]);
    out[1] = counts_word(counts);
    out[2..2 + addrs.len()].copy_from_slice(addrs);
    2 + addrs.len() as u8
}

/// Writes the words of an instruction into the front of `out`, leaves the rest of it, and answers their
/// number. Each bit that no field names is 0.
#[inline(always)]
pub fn encode(instr: &Instr, out: &mut [u32; 5]) -> u8
    requires { IsTrue (fits instr.now) }
    ensures words { out.new ≡ encoded instr.now ++ drop (length (encoded instr.now)) out.old }
    ensures number { result ≡ length (encoded instr.now) }
{
    match instr {
        Instr::Write {
            ctl,
            ends,
            off,
            count,
            addr,
        } => put_words(&[data_word(1, *ctl, *ends, *off, *count), *addr], out),
        Instr::Skip { ctl, ends, count } => put_words(&[data_word(2, *ctl, *ends, 0, *count)], out),
        Instr::WriteC {
            ctl,
            ends,
            off,
            count,
        } => put_words(&[data_word(5, *ctl, *ends, *off, *count)], out),
        Instr::Jump { ctl, target } => put_words(&[head_word(7, *ctl), *target], out),
        Instr::Sync { ctl, resync, code } => put_words(&[sync_word(*ctl, *resync, *code), 0], out),
        Instr::Write123 {
            ctl,
            ends,
            off,
            counts,
            addrs,
        } => put_planar(9, *ctl, *ends, *off, counts, addrs, out),
        Instr::Skip123 { ctl, ends, counts } => put_planar(10, *ctl, *ends, 0, counts, &[], out),
        Instr::Write1S23 {
            ctl,
            ends,
            off,
            counts,
            addr,
        } => put_planar(11, *ctl, *ends, *off, counts, &[*addr], out),
    }
}

/// An instruction that was encoded is read back where its words are, whatever is around them. The
/// function does nothing; its contract is the law.
pub fn encoding_is_read_back()
    ensures { (instr : Instr) → IsInstr instr → IsReadBack instr }
{}
