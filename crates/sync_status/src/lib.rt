//! Status codes of FIFO entries, and what they mean for a line under way.
#![tactic(auto)]

ghost use Rattle.std.specs.Prelude.{◌≡◌, ℕ, ◌<◌, ◌≤◌, ◌⊎◌, min};
ghost use Rattle.sync_status.specs.Statuses.{kind_of, valid_bytes, verdict_on, TakesWithin};

use risc_word::Code;
use std::marker::Model;

/// The status nibble that the FIFO keeps beside each DWORD: a number below 16
/// (Bt878 data sheet, "FIFO interface").
#[derive(Clone, Copy, Debug, PartialEq, Eq)]
pub struct Status {
    nibble: u8,
}

impl Model for Status {
    ghost Value = { ℕ };

    ghost view = { λ s. s.nibble };

    ghost invariant = { λ s. s.nibble < 16 };

    ghost inverse = { λ n. record { nibble = n } };
}

/// What a status code means for its entry.
#[derive(Clone, Copy, Debug, PartialEq, Eq)]
pub enum StatusKind {
    /// A control code, without data.
    Control(Code),
    /// The first DWORD of a line.
    Start,
    /// Four more bytes of a line.
    Pixels,
    /// The last DWORD of a line, with that many valid bytes, 1 to 4.
    End(u8),
    /// No code of the chip.
    Reserved,
}

/// What the machine does with a queue's front entry (this project's own rule).
#[derive(Clone, Copy, Debug, PartialEq, Eq)]
pub enum Verdict {
    /// Take that many bytes of it.
    Take(u8),
    /// Drop it and go on.
    Discard,
    /// A control code is in the line.
    Broken,
    /// The line's rest never came: the next line begins.
    Missing,
}

impl Status {
    /// The status with this number.
    #[inline]
    pub fn of(nibble: u8) -> Status
        requires { nibble < 16 }
        ensures { result ≡ nibble }
    {
        Status { nibble }
    }

    /// The number of the status.
    #[inline]
    pub fn nibble(self) -> u8
        ensures number { result ≡ self }
        ensures four_bits { result < 16 }
    {
        self.nibble
    }
}

/// A column of the table of the sixteen codes: the kind of an entry with each, and how many of its lanes are valid.
macro_rules! by_code {
    ($nibble:expr, kind) => {
        by_code!(@ $nibble, 0)
    };
    ($nibble:expr, lanes) => {
        by_code!(@ $nibble, 1)
    };
    (@ $nibble:expr, $column:tt) => {
        match $nibble {
            0 => (StatusKind::Pixels, 4).$column,
            1 => (StatusKind::End(4), 4).$column,
            2 => (StatusKind::Start, 4).$column,
            4 => (StatusKind::Control(Code::Vre), 0).$column,
            5 => (StatusKind::End(1), 1).$column,
            6 => (StatusKind::Control(Code::Fm1), 0).$column,
            9 => (StatusKind::End(2), 2).$column,
            12 => (StatusKind::Control(Code::Vro), 0).$column,
            13 => (StatusKind::End(3), 3).$column,
            14 => (StatusKind::Control(Code::Fm3), 0).$column,
            _ => (StatusKind::Reserved, 0).$column,
        }
    };
}

/// What the status means for its entry (Bt878 data sheet, "FIFO interface"). The kind of a code that
/// the chip does not use is Reserved.
#[inline]
pub fn kind(s: Status) -> StatusKind
    ensures { result ≡ kind_of s }
{
    by_code!(s.nibble, kind)
}

/// How many lanes of the entry hold bytes of the line, from lane 0 on.
#[inline]
pub fn valid(s: Status) -> u8
    ensures bytes { result ≡ valid_bytes s }
    ensures lanes { result ≤ 4 }
{
    by_code!(s.nibble, lanes)
}

/// What a line under way does with the entry at its queue's front, of which `part` bytes were taken
/// already: `need_sol` where the line's first DWORD is awaited, `rest` the bytes that the
/// instruction still asks for (this project's own rule).
#[inline]
pub fn judge(front: Status, need_sol: bool, part: u8, rest: u16) -> Verdict
    requires asked { 1 ≤ rest }
    requires within { (part ≡ 0) ⊎ (part < valid_bytes front) }
    ensures verdict { result ≡ verdict_on (kind_of front) need_sol part rest }
    ensures takes { TakesWithin (valid_bytes front) part rest result }
{
    let lanes = valid(front);
    if lanes == 0 {
        return match kind(front) {
            StatusKind::Control(_) => Verdict::Broken,
            _ => Verdict::Discard,
        };
    }
    let begins = part == 0 && matches!(kind(front), StatusKind::Start);
    if begins == need_sol {
        Verdict::Take(lesser(rest, lanes - part))
    } else if need_sol {
        Verdict::Discard
    } else {
        Verdict::Missing
    }
}

/// The lesser of the bytes that are asked for and the bytes that are left.
#[inline]
fn lesser(rest: u16, left: u8) -> u8
    ensures { result ≡ min rest left }
{
    if rest < u16::from(left) {
        rest as u8
    } else {
        left
    }
}
