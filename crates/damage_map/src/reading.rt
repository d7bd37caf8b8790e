//! What the instruction at an address means for a field.
ghost use Rattle.std.specs.Prelude.{◌≡◌, ℕ, Ok};
ghost use Rattle.machine_model.specs.Paths.{fetch};
ghost use Rattle.damage_map.specs.Tracks.{ends_line, field_of, opens, signals};

use pixel_layout::Parity;
use risc_verify::Program;
use risc_word::Instr;

// Whether an instruction is a SYNC with RESYNC.
fn resyncs(instr: &Instr) -> bool
    ensures { (count : ℕ) → result ≡ opens (Ok (instr.now, count)) }
{
    match instr {
        Instr::Sync { resync, .. } => *resync,
        _ => false,
    }
}

/// Whether a SYNC with RESYNC is there, which opens a field.
pub(crate) fn opens(program: &Program, at: u32) -> bool
    ensures { result ≡ opens (fetch program.now at) }
{
    match program.instr_at(u64::from(at)) {
        Ok((instr, _)) => resyncs(&instr),
        Err(_) => false,
    }
}

fn field_of(status: u8) -> Option<Parity>
    ensures { result ≡ field_of status }
{
    match status {
        1 => Some(Parity::Top),
        2 => Some(Parity::Bottom),
        _ => None,
    }
}

/// The field that a JUMP there signals, by the RISC status that it sets.
pub(crate) fn signals(program: &Program, at: u32) -> Option<Parity>
    ensures { result ≡ signals (fetch program.now at) }
{
    match program.instr_at(u64::from(at)) {
        Ok((Instr::Jump { ctl, .. }, _)) => field_of(ctl.set),
        _ => None,
    }
}

/// Whether the instruction there ends a line.
pub(crate) fn ends_line(program: &Program, at: u32) -> bool
    ensures { result ≡ ends_line (fetch program.now at) }
{
    match program.instr_at(u64::from(at)) {
        Ok((instr, _)) => instr.ends().eol,
        Err(_) => false,
    }
}
