//! The instruction at a word of a program.

ghost use Rattle.bit_field.specs.Bits.{bits};
ghost use Rattle.risc_word.specs.Words.{IsInstr, by_opcode, control_bits, instr_at, jump_at, line_ends, opcode_length, skip_123_at};
ghost use Rattle.risc_word.specs.Words.{skip_at, sync_at, three_counts, write_123_at, write_1_s_23_at, write_at, write_c_at};
ghost use Rattle.std.specs.Prelude.{IfOk, length, slice_index, ◌+◌, ◌≡◌, ◌≤◌};

use super::fields::{
    Count, Eol, Irq, Off, Opcode, Reset, Resync, SecondCount, Set, Sol, SyncCode, ThirdCount,
};
use super::{Code, Ctl, Ends, Instr, WordFault};

type Reading = Result<(Instr, u8), WordFault>;

#[inline(always)]
fn ctl_of(word: u32) -> Ctl
    ensures { result ≡ control_bits word }
{
    Ctl {
        irq: Irq::get(word) == 1,
        set: Set::get(word) as u8,
        reset: Reset::get(word) as u8,
    }
}

#[inline(always)]
fn ends_of(word: u32) -> Ends
    ensures { result ≡ line_ends word }
{
    Ends {
        sol: Sol::get(word) == 1,
        eol: Eol::get(word) == 1,
    }
}

#[inline(always)]
fn counts_of(word: u32, counts: u32) -> [u16; 3]
    ensures { result ≡ three_counts word counts }
{
    [
        Count::get(word) as u16,
        SecondCount::get(counts) as u16,
        ThirdCount::get(counts) as u16,
    ]
}

#[inline(always)]
fn write_of(word: u32, rest: &[u32]) -> Reading
    ensures { result ≡ write_at word rest.now }
{
    match rest {
        [addr, ..] => Ok((
            Instr::Write {
                ctl: ctl_of(word),
                ends: ends_of(word),
                off: Off::get(word) as u8,
                count: Count::get(word) as u16,
                addr: *addr,
            },
            2,
        )),
        [] => Err(WordFault::Cut),
    }
}

#[inline(always)]
fn skip_of(word: u32) -> Reading
    ensures { result ≡ skip_at word }
{
    Ok((
        Instr::Skip {
            ctl: ctl_of(word),
            ends: ends_of(word),
            count: Count::get(word) as u16,
        },
        1,
    ))
}

#[inline(always)]
fn write_c_of(word: u32) -> Reading
    ensures { result ≡ write_c_at word }
{
    Ok((
        Instr::WriteC {
            ctl: ctl_of(word),
            ends: ends_of(word),
            off: Off::get(word) as u8,
            count: Count::get(word) as u16,
        },
        1,
    ))
}

#[inline(always)]
fn jump_of(word: u32, rest: &[u32]) -> Reading
    ensures { result ≡ jump_at word rest.now }
{
    match rest {
        [target, ..] => Ok((
            Instr::Jump {
                ctl: ctl_of(word),
                target: *target,
            },
            2,
        )),
        [] => Err(WordFault::Cut),
    }
}

#[inline(always)]
fn sync_of(word: u32, rest: &[u32]) -> Reading
    ensures { result ≡ sync_at word rest.now }
{
    match rest {
        [_, ..] => {
            let nibble = SyncCode::get(word) as u8;
            match Code::of(nibble) {
                Some(code) => {
                    Ok((
                        Instr::Sync {
                            ctl: ctl_of(word),
                            resync: Resync::get(word) == 1,
                            code,
                        },
                        2,
                    ))
                }
                None => Err(WordFault::SyncCode(nibble)),
            }
        }
        [] => Err(WordFault::Cut),
    }
}

#[inline(always)]
fn write_123_of(word: u32, rest: &[u32]) -> Reading
    ensures { result ≡ write_123_at word rest.now }
{
    match rest {
        [counts, first, second, third, ..] => Ok((
            Instr::Write123 {
                ctl: ctl_of(word),
                ends: ends_of(word),
                off: Off::get(word) as u8,
                counts: counts_of(word, *counts),
                addrs: [*first, *second, *third],
            },
            5,
        )),
        _ => Err(WordFault::Cut),
    }
}

#[inline(always)]
fn skip_123_of(word: u32, rest: &[u32]) -> Reading
    ensures { result ≡ skip_123_at word rest.now }
{
    match rest {
        [counts, ..] => Ok((
            Instr::Skip123 {
                ctl: ctl_of(word),
                ends: ends_of(word),
                counts: counts_of(word, *counts),
            },
            2,
        )),
        [] => Err(WordFault::Cut),
    }
}

#[inline(always)]
fn write_1_s_23_of(word: u32, rest: &[u32]) -> Reading
    ensures { result ≡ write_1_s_23_at word rest.now }
{
    match rest {
        [counts, addr, ..] => Ok((
            Instr::Write1S23 {
                ctl: ctl_of(word),
                ends: ends_of(word),
                off: Off::get(word) as u8,
                counts: counts_of(word, *counts),
                addr: *addr,
            },
            3,
        )),
        _ => Err(WordFault::Cut),
    }
}

#[inline(always)]
fn instr_of(word: u32, rest: &[u32]) -> Reading
    ensures { result ≡ by_opcode (bits 28 4 word) word rest.now }
{
    macro_rules! opcodes {
        (reserved: $($reserved:literal)*; $($opcode:literal => $reading:expr,)*) => {
            match Opcode::get(word) {
                $($opcode => $reading,)*
                $($reserved => Err(WordFault::Reserved($reserved)),)*
                _ => unreachable!(),
            }
        };
    }
    opcodes! {
        reserved: 0 3 4 6 12 13 14 15;
        1 => write_of(word, rest),
        2 => skip_of(word),
        5 => write_c_of(word),
        7 => jump_of(word, rest),
        8 => sync_of(word, rest),
        9 => write_123_of(word, rest),
        10 => skip_123_of(word, rest),
        11 => write_1_s_23_of(word, rest),
    }
}

#[inline(always)]
fn reading_at(words: &[u32], at: usize) -> Reading
    ensures { result ≡ instr_at words.now at }
{
    if at >= words.len() {
        return Err(WordFault::Cut);
    }
    match &words[at..] {
        [word, rest @ ..] => instr_of(*word, rest),
        [] => Err(WordFault::Cut),
    }
}

/// The instruction at word `at`, counted from 0, and its length in words (Bt878 data sheet, "RISC
/// instructions"). Bits that no field names are ignored, and so is the second word of a SYNC. The fault
/// is the first that holds of these: no word is there, the opcode is reserved, a further word is
/// missing, a SYNC names no control code.
#[inline(always)]
pub fn decode(words: &[u32], at: usize) -> Result<(Instr, u8), WordFault>
    ensures value { result ≡ instr_at words.now at }
    ensures instr { IfOk result (λ read. IsInstr read.0) }
    ensures length { IfOk result (λ read. read.1 ≡ opcode_length (bits 28 4 (slice_index words.now at))) }
    ensures within { IfOk result (λ read. (1 ≤ read.1) × (at + read.1 ≤ length words.now)) }
{
    reading_at(words, at)
}
