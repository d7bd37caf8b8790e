//! The words of a ring's program.
ghost use Rattle.std.specs.Prelude.{◌≡◌, ◌++◌, ◌+◌, ◌-◌, ◌*◌, ◌^◌, ◌<◌, ◌≤◌, length, IfOk, IsTrue, OnOk};
ghost use Rattle.picture_model.specs.Programs.{words_of};
ghost use Rattle.risc_word.specs.Words.{control_fits, fits};
ghost use Rattle.ring_model.specs.Rings.{IsRing, block_instrs, closing, last_with, line_instrs, mark};
ghost use Rattle.ring_compile.specs.Kept.{IsFront};
ghost use Rattle.ring_compile.specs.Writes.{control_at, run_length, scattered, write_at};

use crate::ring::Values;
use bit_field::marks;
use field_compile::{push_instr, sync};
use page_table::Scatter;
use risc_word::{Code, Ctl, Ends, Instr, NO_CONTROL};
use std::alloc::{AllocError, Global};

// The signal of a block: an interrupt, and the block's number as the RISC status.
fn mark(block: u8) -> Ctl
    requires { block < 16 }
    ensures value { result ≡ mark block }
    ensures fits { IsTrue (control_fits result) }
{
    let (set, reset) = marks(block);
    Ctl {
        irq: true,
        set,
        reset,
    }
}

// The control bits of the last of some WRITEs or lines, and of another.
fn control_at(last: Ctl, is_last: bool) -> Ctl
    requires { IsTrue (control_fits last) }
    ensures value { result ≡ control_at last is_last }
    ensures fits { IsTrue (control_fits result) }
{
    if is_last { last } else { NO_CONTROL }
}

// The WRITE of a line from byte `at` on, which ends with its page or the line, and how many bytes it has.
fn write_at(values: &Values, scatter: &Scatter, number: u32, last: Ctl, at: u32) -> (Instr, u32)
    requires ring { IsRing values.now }
    requires scatter { scatter.now ≡ scattered values.now }
    requires line { number < values.now.blocks * values.now.lines }
    requires control { IsTrue (control_fits last) }
    requires within { at < values.now.line_bytes }
    ensures instr { result.0 ≡ write_at values.now number last at result.1 }
    ensures bytes { result.1 ≡ run_length values.now number at }
    ensures fits { IsTrue (fits result.0) }
    ensures some { 1 ≤ result.1 }
    ensures inside { at + result.1 ≤ values.now.line_bytes }
{
    let line_bytes = u32::from(values.line_bytes);
    let offset = u64::from(number) * u64::from(line_bytes) + u64::from(at);
    let (addr, count) = scatter.run(offset, line_bytes - at);
    let is_last = at + count == line_bytes;
    let instr = Instr::Write {
        ctl: control_at(last, is_last),
        ends: Ends {
            sol: at == 0,
            eol: is_last,
        },
        off: 0,
        count: count as u16,
        addr,
    };
    (instr, count)
}

// Appends a line, whose last WRITE has these control bits.
fn push_line(
    values: &Values,
    scatter: &Scatter,
    number: u32,
    last: Ctl,
    out: &mut Vec<u32>,
) -> Result<(), AllocError>
    requires ring { IsRing values.now }
    requires scatter { scatter.now ≡ scattered values.now }
    requires line { number < values.now.blocks * values.now.lines }
    requires control { IsTrue (control_fits last) }
    ensures { OnOk result (out.new.items ≡ out.old.items ++ words_of (last_with last (line_instrs values.now number))) }
{
    let mut at = 0;
    while at < u32::from(values.line_bytes) {
        let (instr, count) = write_at(values, scatter, number, last, at);
        push_instr(&instr, out)?;
        at += count;
    }
    Ok(())
}

// Appends a block.
fn push_block(
    values: &Values,
    scatter: &Scatter,
    block: u8,
    out: &mut Vec<u32>,
) -> Result<(), AllocError>
    requires ring { IsRing values.now }
    requires scatter { scatter.now ≡ scattered values.now }
    requires block { block < values.now.blocks }
    ensures { OnOk result (out.new.items ≡ out.old.items ++ words_of (block_instrs values.now block)) }
{
    let first = u32::from(block) * u32::from(values.lines);
    for n in 0..values.lines {
        let last = control_at(mark(block), n + 1 == values.lines);
        push_line(values, scatter, first + u32::from(n), last, out)?;
    }
    Ok(())
}

// The address of the last WRITE, which has two words, of so many words.
fn last_write(base: u32, words: &[u32]) -> u64
    ensures { result ≡ base + 4 * (length words.now - 2) }
{
    u64::from(base) + 4 * (words.len() as u64).saturating_sub(2)
}

/// The words of a ring's program but for its closing, and the addresses of the last WRITEs of its blocks.
pub(crate) fn front_words(
    alloc: Global,
    values: &Values,
    scatter: &Scatter,
) -> Result<(Vec<u32>, Vec<u64>), AllocError>
    requires ring { IsRing values.now }
    requires scatter { scatter.now ≡ scattered values.now }
    ensures { IfOk result (λ front. IsFront values.now front.0.items front.1.items) }
{
    let mut words = Vec::new(alloc);
    let mut last_writes = Vec::new(alloc);
    push_instr(&sync(true, Code::Fm1), &mut words)?;
    for block in 0..values.blocks {
        push_block(values, scatter, block, &mut words)?;
        last_writes.push(last_write(values.base, &words))?;
    }
    Ok((words, last_writes))
}

/// The JUMP to the word behind the SYNC of a program.
pub(crate) fn closing(values: &Values) -> Instr
    requires { values.now.base + 8 < 2 ^ 32 }
    ensures value { result ≡ closing values.now }
    ensures fits { IsTrue (fits result) }
{
    Instr::Jump {
        ctl: NO_CONTROL,
        target: values.base + 8,
    }
}
