//! The lines of a field that are through, each whole or not.
ghost use Rattle.std.specs.Prelude.{◌≡◌, [], drop, IfOk, Option, option_map};
ghost use Rattle.damage_map.specs.Tracks.{noted};

use std::alloc::{AllocError, Global};
use std::marker::Model;
use std::mem::swap;

/// A field has at most 32 VBI lines and 1,024 rows, and 255 lines that are skipped before each.
const MAX_LINES: usize = 1566;

/// For each line whether it is whole. All memory is taken at once.
#[derive(Drop)]
pub(crate) struct Lines {
    whole: Vec<bool>,
}

impl Model for Lines {
    ghost use Rattle.std.specs.Prelude.{◌≤◌, Bool, List, vec_len, vec_capacity};
    ghost use Rattle.damage_map.specs.Tracks.{max_lines};

    ghost Value = { List Bool };

    ghost view = { λ lines. lines.whole.items };

    ghost invariant = { λ lines. (vec_len lines.whole ≤ max_lines) × (max_lines ≤ vec_capacity lines.whole) };
}

impl Lines {
    pub(crate) fn new(alloc: Global) -> Result<Lines, AllocError>
        ensures { IfOk result (λ lines. lines ≡ []) }
    {
        Ok(Lines {
            whole: Vec::with_capacity(alloc, MAX_LINES)?,
        })
    }

    /// Notes one more line, where there is room.
    pub(crate) fn note(&mut self, whole: bool)
        ensures { self.new ≡ noted whole self.old }
    {
        if self.whole.len() < MAX_LINES {
            match self.whole.push(whole) {
                Ok(()) => {}
                Err(_) => unreachable!(),
            }
        }
    }

    pub(crate) fn clear(&mut self)
        ensures { self.new ≡ [] }
    {
        self.whole.clear();
    }

    /// The lines from a number on, counted from 0.
    fn after(&self, first: usize) -> &[bool]
        ensures { result.now ≡ drop first self.now }
    {
        let first = first.min(self.whole.len());
        &self.whole[first..]
    }
}

/// The lines of a field at its last signal, if it had one.
#[derive(Drop)]
pub(crate) struct Told {
    lines: Lines,
    is_told: bool,
}

impl Model for Told {
    ghost use Rattle.std.specs.Prelude.{Bool, List, Option};
    ghost use Rattle.damage_map.specs.Tracks.{told};

    ghost Value = { Option (List Bool) };

    ghost view = { λ t. told t.is_told t.lines };
}

impl Told {
    pub(crate) fn new(alloc: Global) -> Result<Told, AllocError>
        ensures { IfOk result (λ t. t ≡ Option.None) }
    {
        Ok(Told {
            lines: Lines::new(alloc)?,
            is_told: false,
        })
    }

    /// Takes the lines that are through, and leaves none.
    pub(crate) fn tell(&mut self, lines: &mut Lines)
        ensures told { self.new ≡ Option.Some lines.old }
        ensures none { lines.new ≡ [] }
    {
        swap(&mut self.lines, lines);
        lines.clear();
        self.is_told = true;
    }

    /// Those from a number on.
    pub(crate) fn after(&self, first: usize) -> Option<&[bool]>
        ensures { option_map (λ lines. lines.now) result ≡ option_map (drop first) self.now }
    {
        if self.is_told {
            Some(self.lines.after(first))
        } else {
            None
        }
    }
}
