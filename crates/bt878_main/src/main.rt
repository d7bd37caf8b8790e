//! bt878: compiles, lists, assembles, verifies and runs the RISC capture programs of the Bt878 on recorded streams.
#![tactic(auto)]

use bt878_top::exit_status;
use capture_desk::OsDesk;
use std::process::ExitCode;
use std::{env, io};

/// The status where a word of the command line is no text.
const NO_TEXT: u8 = 8;

/// The status where there is no memory for the words.
const NO_MEMORY: u8 = 6;

/// The words after the program's name.
fn words(rt: &HostRuntime) -> Result<Vec<String>, u8> {
    match env::args(rt) {
        Ok(args) => args.skip(1).collect(rt.alloc()).map_err(|_| NO_MEMORY),
        Err(error) if error.kind() == io::ErrorKind::InvalidData => Err(NO_TEXT),
        Err(_) => Err(NO_MEMORY),
    }
}

/// The status of the call, or that of words that can't be taken.
fn status(rt: &HostRuntime) -> Result<u8, u8> {
    let words = words(rt)?;
    let mut texts: Vec<&str> = Vec::new(rt.alloc());
    for word in words.iter() {
        if texts.push(word.as_str()).is_err() {
            return Err(NO_MEMORY);
        }
    }
    Ok(exit_status(rt.alloc(), &texts, &mut OsDesk::new(rt)))
}

fn main(rt: HostRuntime) -> ExitCode {
    match status(&rt) {
        Ok(status) | Err(status) => ExitCode::from(status),
    }
}
