//! The words of the command line.
#![tactic(auto)]

ghost use Rattle.std.specs.Prelude.{◌≡◌, [], ◌∷◌, map, IfOk};
ghost use Rattle.bt878_words.specs.Words.{HasFrames, apart, command_in, command_of, has_clash, is_among, made_with, named, number_from};
ghost use Rattle.bt878_words.specs.Words.{number_of, reads, task_of, verb_named, writes};

/// What is wrong with the words, in the order in which it is looked for (this project's own rule).
#[derive(Clone, Copy, Debug, PartialEq, Eq)]
pub enum UsageFault {
    /// There are no words.
    NoCommand,
    /// The first word is no command.
    UnknownCommand,
    /// The command takes another number of words.
    WordCount,
    /// A number is out of form or out of range.
    Number,
    /// An output has the name of an input or of another output.
    SameName,
}

/// What the program is asked to do, without the names of files.
#[derive(Clone, Copy, Debug, PartialEq, Eq)]
pub enum Command {
    /// `list PROG`
    List,
    /// `verify PROG`
    Verify,
    /// `run PROG STREAM IMAGE`
    Run,
    /// `compile DESC PROG`
    Compile,
    /// `capture DESC STREAM PROG IMAGE`
    Capture,
    /// `make DESC SEED FRAMES STREAM`
    Make { seed: u64, frames: u8 },
    /// `chain DESC1 DESC2 STREAM IMAGE`
    Chain,
    /// `damage DESC STREAM`
    Damage,
    /// `ring RING STREAM PROG IMAGE`
    Ring,
    /// `assemble TEXT PROG`
    Assemble,
    /// `check PROG DESC`
    Check,
    /// `trace PROG STREAM`
    Trace,
    /// `--help`
    Help,
    /// `--version`
    Version,
}

/// What the program is asked to do, with the names of files and the numbers.
#[derive(Clone, Copy, Debug)]
pub enum Task<'a> {
    /// Prints the listing of a program.
    List {
        program: &'a str,
    },
    /// Verifies a program.
    Verify {
        program: &'a str,
    },
    /// Runs a program on a stream, and writes the image of its memory.
    Run {
        program: &'a str,
        stream: &'a str,
        image: &'a str,
    },
    /// Compiles a description.
    Compile {
        desc: &'a str,
        program: &'a str,
    },
    /// Compiles a description and runs its program on a stream.
    Capture {
        desc: &'a str,
        stream: &'a str,
        program: &'a str,
        image: &'a str,
    },
    /// Generates the stream of so many frames of a description, from a seed.
    Make {
        desc: &'a str,
        seed: u64,
        frames: u8,
        stream: &'a str,
    },
    /// Runs the chain of two descriptions on a stream with patches.
    Chain {
        first: &'a str,
        second: &'a str,
        stream: &'a str,
        image: &'a str,
    },
    /// Prints which rows of a description came whole in a stream.
    Damage {
        desc: &'a str,
        stream: &'a str,
    },
    /// Compiles a ring and runs its program on a stream.
    Ring {
        ring: &'a str,
        stream: &'a str,
        program: &'a str,
        image: &'a str,
    },
    /// Makes the program of a listing.
    Assemble {
        text: &'a str,
        program: &'a str,
    },
    /// Checks a program against a description.
    Check {
        program: &'a str,
        desc: &'a str,
    },
    /// Prints what each step of a stream does with a program.
    Trace {
        program: &'a str,
        stream: &'a str,
    },
    /// Prints how the program is used.
    Help,
    /// Prints the version of the program.
    Version,
}

/// The first word.
#[derive(Clone, Copy)]
enum Verb {
    List,
    Verify,
    Run,
    Compile,
    Capture,
    Make,
    Chain,
    Damage,
    Ring,
    Assemble,
    Check,
    Trace,
    Help,
    Version,
}

fn verb_of(word: &str) -> Option<Verb>
    ensures { result ≡ verb_named word.now }
{
    match word {
        "list" => Some(Verb::List),
        "verify" => Some(Verb::Verify),
        "run" => Some(Verb::Run),
        "compile" => Some(Verb::Compile),
        "capture" => Some(Verb::Capture),
        "make" => Some(Verb::Make),
        "chain" => Some(Verb::Chain),
        "damage" => Some(Verb::Damage),
        "ring" => Some(Verb::Ring),
        "assemble" => Some(Verb::Assemble),
        "check" => Some(Verb::Check),
        "trace" => Some(Verb::Trace),
        "--help" => Some(Verb::Help),
        "--version" => Some(Verb::Version),
        _ => None,
    }
}

fn digits_value(word: &[u8]) -> Option<u64>
    ensures { result ≡ number_from 0 word.now }
{
    let mut value: u64 = 0;
    for byte in word {
        if !byte.is_ascii_digit() {
            return None;
        }
        value = value.checked_mul(10)?.checked_add(u64::from(*byte - b'0'))?;
    }
    Some(value)
}

fn number(word: &str) -> Option<u64>
    ensures { result ≡ number_of word.now }
{
    match word.as_bytes() {
        [] => None,
        [b'0', _, ..] => None,
        digits => digits_value(digits),
    }
}

fn make<'a>(
    desc: &'a str,
    seed: Option<u64>,
    frames: Option<u64>,
    stream: &'a str,
) -> Result<Task<'a>, UsageFault>
    ensures made { result ≡ made_with desc.entry seed frames stream.entry }
    ensures frames { IfOk result HasFrames }
{
    match (seed, frames) {
        (Some(seed), Some(frames)) if (1..=16).contains(&frames) => Ok(Task::Make {
            desc,
            seed,
            frames: frames as u8,
            stream,
        }),
        _ => Err(UsageFault::Number),
    }
}

/// The task of a command that no other word follows.
fn task_of_none<'a>(verb: Verb) -> Result<Task<'a>, UsageFault>
    ensures named { result ≡ named verb [] }
    ensures frames { IfOk result HasFrames }
{
    match verb {
        Verb::Help => Ok(Task::Help),
        Verb::Version => Ok(Task::Version),
        _ => Err(UsageFault::WordCount),
    }
}

fn task_of_one<'a>(verb: Verb, program: &'a str) -> Result<Task<'a>, UsageFault>
    ensures named { result ≡ named verb (program.entry ∷ []) }
    ensures frames { IfOk result HasFrames }
{
    match verb {
        Verb::List => Ok(Task::List { program }),
        Verb::Verify => Ok(Task::Verify { program }),
        _ => Err(UsageFault::WordCount),
    }
}

fn task_of_two<'a>(verb: Verb, one: &'a str, two: &'a str) -> Result<Task<'a>, UsageFault>
    ensures named { result ≡ named verb (one.entry ∷ two.entry ∷ []) }
    ensures frames { IfOk result HasFrames }
{
    match verb {
        Verb::Compile => Ok(Task::Compile {
            desc: one,
            program: two,
        }),
        Verb::Damage => Ok(Task::Damage {
            desc: one,
            stream: two,
        }),
        Verb::Assemble => Ok(Task::Assemble {
            text: one,
            program: two,
        }),
        Verb::Check => Ok(Task::Check {
            program: one,
            desc: two,
        }),
        Verb::Trace => Ok(Task::Trace {
            program: one,
            stream: two,
        }),
        _ => Err(UsageFault::WordCount),
    }
}

fn task_of_three<'a>(
    verb: Verb,
    program: &'a str,
    stream: &'a str,
    image: &'a str,
) -> Result<Task<'a>, UsageFault>
    ensures named { result ≡ named verb (program.entry ∷ stream.entry ∷ image.entry ∷ []) }
    ensures frames { IfOk result HasFrames }
{
    match verb {
        Verb::Run => Ok(Task::Run {
            program,
            stream,
            image,
        }),
        _ => Err(UsageFault::WordCount),
    }
}

fn task_of_four<'a>(
    verb: Verb,
    one: &'a str,
    two: &'a str,
    three: &'a str,
    four: &'a str,
) -> Result<Task<'a>, UsageFault>
    ensures named { result ≡ named verb (one.entry ∷ two.entry ∷ three.entry ∷ four.entry ∷ []) }
    ensures frames { IfOk result HasFrames }
{
    match verb {
        Verb::Capture => Ok(Task::Capture {
            desc: one,
            stream: two,
            program: three,
            image: four,
        }),
        Verb::Make => make(one, number(two), number(three), four),
        Verb::Chain => Ok(Task::Chain {
            first: one,
            second: two,
            stream: three,
            image: four,
        }),
        Verb::Ring => Ok(Task::Ring {
            ring: one,
            stream: two,
            program: three,
            image: four,
        }),
        _ => Err(UsageFault::WordCount),
    }
}

/// The task of a command with the words that follow it.
fn task_for<'a>(verb: Verb, others: &[&'a str]) -> Result<Task<'a>, UsageFault>
    ensures named { result ≡ named verb others.now }
    ensures frames { IfOk result HasFrames }
{
    match others {
        [] => task_of_none(verb),
        [one] => task_of_one(verb, one),
        [one, two] => task_of_two(verb, one, two),
        [one, two, three] => task_of_three(verb, one, two, three),
        [one, two, three, four] => task_of_four(verb, one, two, three, four),
        _ => Err(UsageFault::WordCount),
    }
}

fn is_named(name: &str, names: &[&str]) -> bool
    ensures { result ≡ is_among name.now (map (λ w. w.now) names.now) }
{
    match names {
        [] => false,
        [other, others @ ..] => *other == name || is_named(name, others),
    }
}

fn clashes(taken: &[&str], names: &[&str]) -> bool
    ensures { result ≡ has_clash (map (λ w. w.now) taken.now) (map (λ w. w.now) names.now) }
{
    match names {
        [] => false,
        [name, others @ ..] => {
            is_named(name, taken) || is_named(name, others) || clashes(taken, others)
        }
    }
}

impl Task<'_> {
    /// Whether an output has the name of an input or of another output.
    fn has_clash(&self) -> bool
        ensures { result ≡ has_clash (reads self.now) (writes self.now) }
    {
        match *self {
            Task::List { .. } | Task::Verify { .. } => false,
            Task::Damage { .. } | Task::Check { .. } | Task::Trace { .. } => false,
            Task::Help | Task::Version => false,
            Task::Run {
                program,
                stream,
                image,
            } => clashes(&[program, stream], &[image]),
            Task::Compile { desc, program } => clashes(&[desc], &[program]),
            Task::Capture {
                desc,
                stream,
                program,
                image,
            } => clashes(&[desc, stream], &[program, image]),
            Task::Make { desc, stream, .. } => clashes(&[desc], &[stream]),
            Task::Chain {
                first,
                second,
                stream,
                image,
            } => clashes(&[first, second, stream], &[image]),
            Task::Ring {
                ring,
                stream,
                program,
                image,
            } => clashes(&[ring, stream], &[program, image]),
            Task::Assemble { text, program } => clashes(&[text], &[program]),
        }
    }

    /// The command, without the names.
    fn command(&self) -> Command
        ensures { result ≡ command_in self.now }
    {
        match *self {
            Task::List { .. } => Command::List,
            Task::Verify { .. } => Command::Verify,
            Task::Run { .. } => Command::Run,
            Task::Compile { .. } => Command::Compile,
            Task::Capture { .. } => Command::Capture,
            Task::Make { seed, frames, .. } => Command::Make { seed, frames },
            Task::Chain { .. } => Command::Chain,
            Task::Damage { .. } => Command::Damage,
            Task::Ring { .. } => Command::Ring,
            Task::Assemble { .. } => Command::Assemble,
            Task::Check { .. } => Command::Check,
            Task::Trace { .. } => Command::Trace,
            Task::Help => Command::Help,
            Task::Version => Command::Version,
        }
    }
}

fn judge(task: Task<'_>) -> Result<Task<'_>, UsageFault>
    ensures apart { result ≡ apart task.entry }
    ensures same { IfOk result (λ judged. judged ≡ task.entry) }
{
    if task.has_clash() {
        return Err(UsageFault::SameName);
    }
    Ok(task)
}

/// What the words after the program's name ask for, with their names and numbers.
///
/// The faults are looked for in the order of `UsageFault`. A number is decimal digits without a sign
/// and without a leading zero; SEED is below 2^64 and FRAMES is 1 to 16. Takes no memory.
pub fn read_task<'a>(words: &[&'a str]) -> Result<Task<'a>, UsageFault>
    ensures task { result ≡ task_of words.now }
    ensures frames { IfOk result HasFrames }
{
    match words {
        [] => Err(UsageFault::NoCommand),
        [first, others @ ..] => match verb_of(first) {
            Some(verb) => judge(task_for(verb, others)?),
            None => Err(UsageFault::UnknownCommand),
        },
    }
}

/// What the words after the program's name ask for, without the names of files, as `read_task` finds it.
pub fn read_words(words: &[&str]) -> Result<Command, UsageFault>
    ensures { result ≡ command_of words.now }
{
    Ok(read_task(words)?.command())
}
