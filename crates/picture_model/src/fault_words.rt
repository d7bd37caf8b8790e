//! The faults of a geometry: `BuildFault` in words.

ghost use Rattle.std.specs.Prelude.{Some};
ghost use Rattle.picture_model.specs.Words.{geometry_words, need_words};

use crate::BuildFault;
use std::fmt;

/// What a picture needs and what is there, in words.
#[derive(Drop)]
struct NeedWords {
    need: u64,
    have: u64,
}

impl fmt::Display for NeedWords {
    ghost output = { λ words. Some (need_words words.need words.have) };

    fn fmt<W: fmt::Write>(&self, f: &mut fmt::Formatter<W>) -> fmt::Result {
        let need = self.need;
        let have = self.have;
        write!(f, ", need {need}, have {have}")
    }
}

impl fmt::Display for BuildFault {
    ghost output = { λ fault. Some (geometry_words fault) };

    fn fmt<W: fmt::Write>(&self, f: &mut fmt::Formatter<W>) -> fmt::Result {
        match *self {
            BuildFault::WidthRange => write!(f, "width range"),
            BuildFault::HeightRange => write!(f, "height range"),
            BuildFault::WidthOffUnit => write!(f, "width off unit"),
            BuildFault::OddHeight => write!(f, "odd height"),
            BuildFault::TooNarrow => write!(f, "too narrow"),
            BuildFault::StrideShort => write!(f, "stride short"),
            BuildFault::OffUnit => write!(f, "off unit"),
            BuildFault::Overlap => write!(f, "overlap"),
            BuildFault::VbiRange => write!(f, "vbi range"),
            BuildFault::PageUnaligned(number) => write!(f, "page unaligned {number}"),
            BuildFault::PageTwice(number) => write!(f, "page twice {number}"),
            BuildFault::TooFewPages { need, have } => {
                let missing = NeedWords { need, have };
                write!(f, "too few pages{missing}")
            }
            BuildFault::TooFewBytes { need, have } => {
                let missing = NeedWords { need, have };
                write!(f, "too few bytes{missing}")
            }
            BuildFault::ProgramBase => write!(f, "program base"),
            BuildFault::ProgramOnPage => write!(f, "program on page"),
        }
    }
}
