//! Words of the command line.

use bt878_words::{Command, UsageFault, read_words};

// Whether words are refused so.
fn is_refused(words: &[&str], fault: UsageFault) -> bool {
    read_words(words) == Err(fault)
}

// Whether words are read as this command.
fn reads(words: &[&str], command: Command) -> bool {
    read_words(words) == Ok(command)
}

#[test]
fn words_are_judged_in_order(rt: HostRuntime) {
    assert!(rt; is_refused(&[], UsageFault::NoCommand));
    assert!(rt; is_refused(&["play", "a"], UsageFault::UnknownCommand));
    assert!(rt; is_refused(&["run", "a", "b"], UsageFault::WordCount));
    assert!(rt; is_refused(&["run", "a", "b", "a"], UsageFault::SameName));
    assert!(rt; reads(&["run", "a", "a", "b"], Command::Run));
    assert!(rt; reads(&["verify", "a"], Command::Verify));
    assert!(rt; reads(&["list", "a"], Command::List));
    assert!(rt; reads(&["check", "p", "d"], Command::Check));
    assert!(rt; reads(&["check", "a", "a"], Command::Check));
    assert!(rt; is_refused(&["check", "p"], UsageFault::WordCount));
    assert!(rt; is_refused(&["check", "p", "d", "e"], UsageFault::WordCount));
    assert!(rt; reads(&["trace", "p", "s"], Command::Trace));
    assert!(rt; is_refused(&["trace", "p"], UsageFault::WordCount));
    assert!(rt; is_refused(&["trace", "p", "s", "i"], UsageFault::WordCount));
    assert!(rt; reads(&["--help"], Command::Help));
    assert!(rt; reads(&["--version"], Command::Version));
    assert!(rt; is_refused(&["--help", "run"], UsageFault::WordCount));
    assert!(rt; is_refused(&["-h"], UsageFault::UnknownCommand));
    assert!(rt; reads(&["compile", "d", "p"], Command::Compile));
    assert!(rt; reads(&["assemble", "t", "p"], Command::Assemble));
    assert!(rt; reads(&["chain", "d", "e", "s", "i"], Command::Chain));
    assert!(rt; reads(&["damage", "d", "s"], Command::Damage));
    assert!(rt; is_refused(&["damage", "d"], UsageFault::WordCount));
    assert!(rt; is_refused(&["chain", "d", "e", "s", "e"], UsageFault::SameName));
    assert!(rt; reads(&["ring", "r", "s", "p", "i"], Command::Ring));
    assert!(rt; is_refused(&["ring", "r", "s", "p", "s"], UsageFault::SameName));
    assert!(rt; is_refused(&["assemble", "t", "t"], UsageFault::SameName));
    assert!(rt; is_refused(&["capture", "d", "s", "p", "p"], UsageFault::SameName));
    assert!(rt; reads(&["capture", "d", "s", "p", "i"], Command::Capture));
    assert!(rt; is_refused(&["make", "d", "01", "1", "s"], UsageFault::Number));
    assert!(rt;
        reads(
            &["make", "d", "1", "16", "s"],
            Command::Make {
                seed: 1,
                frames: 16
            }
        )
    );
}

// Whether a seed is read as this number.
fn reads_seed(word: &str, seed: u64) -> bool {
    reads(
        &["make", "d", word, "1", "s"],
        Command::Make { seed, frames: 1 },
    )
}

// Whether a seed is refused.
fn is_no_seed(word: &str) -> bool {
    is_refused(&["make", "d", word, "1", "s"], UsageFault::Number)
}

#[test]
fn numbers_have_one_form(rt: HostRuntime) {
    assert!(rt; reads_seed("0", 0));
    assert!(rt; is_no_seed("01"));
    assert!(rt; is_no_seed("+1"));
    assert!(rt; is_no_seed(""));
    assert!(rt; reads_seed("18446744073709551615", u64::MAX));
    assert!(rt; is_no_seed("18446744073709551616"));
}
