//! Why a text is not assembled: `AsmFault` in words.

ghost use Rattle.std.specs.Prelude.{Some};
ghost use Rattle.risc_asm.specs.Words.{listing_words};

use crate::AsmFault;
use std::fmt;

impl fmt::Display for AsmFault {
    ghost output = { λ fault. Some (listing_words fault) };

    fn fmt<W: fmt::Write>(&self, f: &mut fmt::Formatter<W>) -> fmt::Result {
        match *self {
            AsmFault::Line(number) => write!(f, "line {number}"),
            AsmFault::Short(lines) => write!(f, "short at {lines}"),
            AsmFault::TooLong => write!(f, "too long"),
        }
    }
}
