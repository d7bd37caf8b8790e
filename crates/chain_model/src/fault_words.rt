//! What two descriptions lack for a chain: `ChainFault` in words.

ghost use Rattle.std.specs.Prelude.{Some};
ghost use Rattle.chain_model.specs.Words.{chain_words};

use crate::ChainFault;
use std::fmt;

impl fmt::Display for ChainFault {
    ghost output = { λ fault. Some (chain_words fault) };

    fn fmt<W: fmt::Write>(&self, f: &mut fmt::Formatter<W>) -> fmt::Result {
        match *self {
            ChainFault::Base => write!(f, "base"),
            ChainFault::Shared(number) => write!(f, "shared {number}"),
            ChainFault::TooMany => write!(f, "too many"),
            ChainFault::TooLong => write!(f, "too long"),
            ChainFault::OnPage => write!(f, "on page"),
        }
    }
}
