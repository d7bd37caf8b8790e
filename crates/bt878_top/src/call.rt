//! The one call.

ghost use Rattle.std.specs.Prelude.{◌≡◌, ◌<◌, ℕ, ◌⊎◌, IfOk, List, Ok};
ghost use Rattle.bt878_words.specs.Words.{HasFrames, Word, task_of, writes};
ghost use Rattle.bt878_contract.specs.Clauses.{AreTold, IsAssembled, IsBadInput, IsCompiled, IsGenerated, IsGood, IsInOrder, IsRefusal};
ghost use Rattle.bt878_contract.specs.Clauses.{IsUnreadOf, IsUsage, OfDescRun, OfLive, OfLiveRun, OfLiveSteps};
ghost use Rattle.bt878_contract.specs.Clauses.{OfRan, OfRingRun, OfSteps, OnlyOutputs, OnlySays, SameNames, SaysAccepted, SaysAlone};
ghost use Rattle.bt878_contract.specs.Clauses.{SaysBlocks, SaysChecked, SaysDamage, SaysListing, ShowsImage, ShowsLast, ShowsLastLive};
ghost use Rattle.bt878_contract.specs.Clauses.{IsShort, LacksFirst, LacksInput};
ghost use Rattle.bt878_contract.specs.Clauses.{SaysTrace, ShowsProgram, StandsAt, StaysInside, TellsInput, UnlessCut};
ghost use Rattle.bt878_contract.specs.Pictures.{EndsInTime, ShowsNoFault, ShowsPictures, ShowsSignalledPictures};
ghost use Rattle.bt878_contract.specs.Rows.{HasArrivedRows, HoldsWholeRows};
ghost use Rattle.bt878_contract.specs.Rings.{RingsShowNoFault, ShowsRings};
ghost use Rattle.bt878_contract.specs.Tasks.{Answers, AreAllowed, AreNames, Ends, IsProduct, inputs_of, names_read, names_written, reads};
ghost use Rattle.bt878_top.specs.Products.{product_of};
ghost use Rattle.bt878_contract.specs.Chains.{HasFragments};
ghost use Rattle.chain_damage.specs.Rows.{LiveRunHoldsWholeRows};
ghost use Rattle.chain_law.specs.Runs.{LiveRunShowsNoFault, LiveRunShowsPictures, LiveRunSignalsInTime, LiveRunStaysInside};
ghost use Rattle.command_texts.specs.declared.refusal.Refusal.{Refusal};
ghost use Rattle.command_texts.specs.Answers.{answer_of};
ghost use Rattle.command_steps.specs.Outputs.{EndsAtFault};
ghost use Rattle.command_steps.specs.Inputs.{ReadsRose, SameCounts, WritesRose};
ghost use Rattle.command_steps.specs.Reading.{Takes};
ghost use Rattle.command_texts.specs.Texts.{answer_text, help_text, version_text};
ghost use Rattle.command_inputs.specs.Descriptions.{GivesCompiled};
ghost use Rattle.machine_model.specs.Paths.{IsSound};
ghost use Rattle.command_inputs.specs.Programs.{GivesSound};
ghost use Rattle.stream_play.specs.Runs.{OfRun};

use crate::descriptions::make;
use crate::listings::list;
use crate::produced::Produced;
use crate::programs::{assemble, check, compile, verify};
use crate::runs::{capture, chain, damage, ring, run};
use crate::traces::trace;
use bt878_words::{Task, read_task};
use capture_desk::Desk;
use command_steps::{refuse, refuse_words};
use command_texts::{Answer, HELP, Refusal, VERSION};
use std::alloc::Global;

/// Reads the inputs of a task, and makes what it makes of them.
fn produce<'a, D: Desk>(
    alloc: Global,
    task: Task<'a>,
    desk: &mut D,
) -> Result<Produced<'a>, Refusal>
    requires opens { AreAllowed (reads task) (D.seen desk.old).told.may_open }
    requires frames { HasFrames task }
    ensures takes { Takes (inputs_of task.entry) result (D.seen desk.old) (D.seen desk.new) }
    ensures makes { IfOk result (λ produced. IsProduct task.entry (D.seen desk.old).told.inputs (product_of produced)) }
{
    match task {
        Task::List { program } => list(alloc, program, desk),
        Task::Verify { program } => verify(alloc, program, desk),
        Task::Run {
            program,
            stream,
            image,
        } => run(alloc, program, stream, image, desk),
        Task::Compile { desc, program } => compile(alloc, desc, program, desk),
        Task::Capture {
            desc,
            stream,
            program,
            image,
        } => capture(alloc, desc, stream, program, image, desk),
        Task::Make {
            desc,
            seed,
            frames,
            stream,
        } => make(alloc, desc, seed, frames, stream, desk),
        Task::Chain {
            first,
            second,
            stream,
            image,
        } => chain(alloc, first, second, stream, image, desk),
        Task::Damage { desc, stream } => damage(alloc, desc, stream, desk),
        Task::Ring {
            ring: file,
            stream,
            program,
            image,
        } => ring(alloc, file, stream, program, image, desk),
        Task::Assemble { text, program } => assemble(alloc, text, program, desk),
        Task::Check { program, desc } => check(alloc, program, desc, desk),
        Task::Trace { program, stream } => trace(alloc, program, stream, desk),
        Task::Help => Ok(Produced::Ready(HELP)),
        Task::Version => Ok(Produced::Ready(VERSION)),
    }
}

/// Does a task: what it makes of its inputs is delivered, or its refusal is reported.
fn answer_task<D: Desk>(alloc: Global, task: Task<'_>, desk: &mut D) -> Answer
    requires opens { AreAllowed (reads task) (D.seen desk.old).told.may_open }
    requires creates { AreAllowed (writes task) (D.seen desk.old).told.may_create }
    requires frames { HasFrames task }
    ensures { Ends task.entry result (D.seen desk.old) (D.seen desk.new) }
{
    match produce(alloc, task, desk) {
        Ok(produced) => produced.deliver(desk),
        Err(refusal) => refuse(alloc, refusal, desk),
    }
}

/// Does what the words ask for.
fn answer_words<D: Desk>(alloc: Global, words: &[&str], desk: &mut D) -> Answer
    requires opens { AreNames (names_read (task_of words.now)) (D.seen desk.old).told.may_open }
    requires creates { AreNames (names_written (task_of words.now)) (D.seen desk.old).told.may_create }
    ensures { Answers (task_of words.now) result (D.seen desk.old) (D.seen desk.new) }
{
    match read_task(words) {
        Ok(task) => answer_task(alloc, task, desk),
        Err(fault) => refuse_words(fault, desk),
    }
}

/// Does what the words after the program's name ask for, over the files of a desk. It opens the command's
/// inputs and no other name, one after the other, each checked before the next is opened. It creates the
/// outputs and no other name, and only after all inputs were found good. It prints its text last. A clause
/// about a content holds where the desk tells it. (The commands, their texts and their order of work are
/// this project's own rules.)
pub fn bt878<D: Desk>(alloc: Global, words: &[&str], desk: &mut D) -> Answer
    requires opens { AreNames (names_read (task_of words.now)) (D.seen desk.old).told.may_open }
    requires creates { AreNames (names_written (task_of words.now)) (D.seen desk.old).told.may_create }

    // All that is promised, by cases on the words and the answer. The clauses that follow are its parts.
    ensures answers { Answers (task_of words.now) result
        (D.seen desk.old)
        (D.seen desk.new) }

    // The words: Usage comes exactly where they have a fault, and has the first; so NoMemory never
    // comes there.
    ensures usage { IsUsage (task_of words.now) result }

    // At Done of `run`, `capture`, `damage`, `ring` and `trace` the program that ran is sound.
    ensures sound { (result ≡ Answer.Done) →
        OfRan (task_of words.now) (D.seen desk.old).told.inputs (λ r. IsSound r.program) }

    // At Done of `run` the image is that of the memory after exactly the steps of the whole stream, from
    // the first state, in which every granted byte is the fill, and the text is the report of that same
    // state. Program and fill are those of the whole program file.
    ensures image_and_report { (result ≡ Answer.Done) → (program stream image : Word) →
        task_of words.now ≡ Ok (Task.Run program stream image) →
        OfRun GivesSound program.now stream.now (D.seen desk.old).told.inputs
        (ShowsLast image.now (D.seen desk.old).told (D.seen desk.new).told) }

    // The same at Done of `capture`, with the program and the fill of the description; and the program
    // file is the canonical encoding of the program that ran and of its fill.
    ensures captured { (result ≡ Answer.Done) → (desc stream program image : Word) →
        task_of words.now ≡ Ok (Task.Capture desc stream program image) →
        OfRun GivesCompiled desc.now stream.now (D.seen desk.old).told.inputs
        (λ r. ShowsProgram program.now (D.seen desk.new).told r
        × ShowsLast image.now (D.seen desk.old).told (D.seen desk.new).told r) }

    // At Done of `ring` the program and the fill that ran are those of the ring file, and both files are as at
    // Done of `capture`; the text has how many blocks the steps of the whole stream end, and then the report.
    ensures ringed { (result ≡ Answer.Done) → (ring stream program image : Word) →
        task_of words.now ≡ Ok (Task.Ring ring stream program image) →
        OfRingRun ring.now stream.now (D.seen desk.old).told.inputs
        (λ x r. ShowsProgram program.now (D.seen desk.new).told r
        × ShowsImage image.now (D.seen desk.new).told r
        × SaysBlocks (D.seen desk.old).told (D.seen desk.new).told x r) }

    // At Done of `run`, `capture`, `damage`, `ring` and `trace`: at every place of those steps, what the turn there writes is
    // granted, what it fetches is a word of the program, and OCERR is 0. That a turn stores nowhere else and reads no
    // other word are the laws `turns_store_what_is_listed` and `turns_read_what_is_listed` of machine_model.
    ensures inside { (result ≡ Answer.Done) →
        OfRan (task_of words.now) (D.seen desk.old).told.inputs StaysInside }

    // At Done of these, for every description a field of which the program that ran shows (as `check` finds it),
    // every picture of the field and all places of those steps: let a field arrive in order and lose nothing, and take
    // its first end. After it memory holds each byte of the picture that is not clipped at its place and is as it was
    // everywhere else, and the control bits of the JUMP that ends the field are applied. No turn up to it sets FDSR.
    // Once all entries were pushed it comes within a bound of turns. Compiled programs show each described field (the
    // law `compiled_programs_are_found` of check_law).
    ensures pictures { (result ≡ Answer.Done) →
        OfRan (task_of words.now) (D.seen desk.old).told.inputs (OfSteps ShowsPictures) }
    ensures no_fault_shown { (result ≡ Answer.Done) →
        OfRan (task_of words.now) (D.seen desk.old).told.inputs (OfSteps ShowsNoFault) }
    ensures in_time { (result ≡ Answer.Done) →
        OfRan (task_of words.now) (D.seen desk.old).told.inputs (OfSteps EndsInTime) }

    // At Done of these, for every valid description whose program is the one that ran (for `capture` the
    // description that was read): the same after the first signal of a field, and then RISCI is set and the RISC
    // status is that of the field.
    ensures signalled_pictures { (result ≡ Answer.Done) →
        OfRan (task_of words.now) (D.seen desk.old).told.inputs (OfSteps ShowsSignalledPictures) }

    // At Done of these, for every ring whose program and fill are those that ran (for `ring` the ring that was
    // read), all lines and all places of those steps: let a ring run go from place j up to and with step k, which
    // ends a block. That is the block whose turn it is. After step k RISCI is set and the RISC status is the block's
    // number, each block holds the lines of its last block end since j or what it held at j, and every other byte
    // is as it was at j. No turn from j up to k sets FDSR.
    ensures blocks { (result ≡ Answer.Done) →
        OfRan (task_of words.now) (D.seen desk.old).told.inputs (OfSteps ShowsRings) }
    ensures no_fault_in_rings { (result ≡ Answer.Done) →
        OfRan (task_of words.now) (D.seen desk.old).told.inputs (OfSteps RingsShowNoFault) }

    // At Done of `damage` the text has for each described field which of its rows are whole lines at the
    // field's last signal over the steps of the whole stream, or that there was none; nothing is created.
    ensures damaged { (result ≡ Answer.Done) → (desc stream : Word) →
        task_of words.now ≡ Ok (Task.Damage desc stream) →
        OfDescRun desc.now stream.now (D.seen desk.old).told.inputs
        (SaysDamage (D.seen desk.old).told (D.seen desk.new).told) }

    // At Done of these five, for every description and picture as in `signalled_pictures`: where the
    // field that arrived is the last one that is signalled, every row of it is whole (so `damage` prints it).
    ensures arrived_rows { (result ≡ Answer.Done) →
        OfRan (task_of words.now) (D.seen desk.old).told.inputs (OfSteps HasArrivedRows) }

    // At Done of these five, for every valid description whose program is the one that ran, every field of it and
    // every signal of the field, whatever came before: right after the signal each byte of a row that is whole and
    // isn't clipped is at its place, where it has one, and is that byte of the line that the row's instructions took;
    // the entries of this line entered the queue one after another, and the line is as long as the description asks.
    // Nothing was taken of a queue for which the format has no plane.
    ensures whole_rows { (result ≡ Answer.Done) →
        OfRan (task_of words.now) (D.seen desk.old).told.inputs (OfSteps HoldsWholeRows) }

    // At Done of `chain` the image and the report are those of the live run of the chain of both descriptions
    // over exactly the steps of the whole stream, patches among them, from a memory in which every granted byte
    // is the fill of the first description.
    ensures chained { (result ≡ Answer.Done) → (first second stream image : Word) →
        task_of words.now ≡ Ok (Task.Chain first second stream image) →
        OfLiveRun first.now second.now stream.now (D.seen desk.old).told.inputs
        (ShowsLastLive image.now (D.seen desk.old).told (D.seen desk.new).told) }

    // The part of a slot for a buffer is the fragment of the first description for buffer 0, and of the second for
    // buffer 1. At every place of that live run, what the turn there writes is granted, what it fetches is a word of
    // the chain, and OCERR is 0. For every part that is the fragment of a description, every field of it, every
    // picture and all places: let a field arrive in order and lose nothing, and take its first signal. After it memory
    // shows the picture and is as it was everywhere else, RISCI is set and the RISC status is that of the field. No
    // turn up to it sets FDSR. Once all entries were pushed it comes within a bound of turns.
    ensures live_fragments { (result ≡ Answer.Done) →
        OfLive (task_of words.now) (D.seen desk.old).told.inputs HasFragments }
    ensures live_inside { (result ≡ Answer.Done) →
        OfLive (task_of words.now) (D.seen desk.old).told.inputs (OfLiveSteps LiveRunStaysInside) }
    ensures live_pictures { (result ≡ Answer.Done) →
        OfLive (task_of words.now) (D.seen desk.old).told.inputs (OfLiveSteps LiveRunShowsPictures) }
    ensures live_no_fault { (result ≡ Answer.Done) →
        OfLive (task_of words.now) (D.seen desk.old).told.inputs (OfLiveSteps LiveRunShowsNoFault) }
    ensures live_in_time { (result ≡ Answer.Done) →
        OfLive (task_of words.now) (D.seen desk.old).told.inputs (OfLiveSteps LiveRunSignalsInTime) }

    // For every such part whose description's memory the chain may write, every field of it and every signal of the field,
    // whatever came before and is patched meanwhile: the field's section was opened before, and from its last opening to
    // the signal the machine goes on as if nothing were patched. Of each row that is whole over these steps, right after the
    // signal each byte that isn't clipped is at its place, where it has one, and is that byte of the line that the row's
    // instructions took; the entries of this line entered the queue one after another, and the line is as long as the
    // description asks. Nothing was taken of a queue for which the format has no plane.
    ensures live_whole_rows { (result ≡ Answer.Done) →
        OfLive (task_of words.now) (D.seen desk.old).told.inputs (OfLiveSteps LiveRunHoldsWholeRows) }

    // At Done of the other commands: what was written and printed.
    ensures accepted { (result ≡ Answer.Done) → (program : Word) →
        task_of words.now ≡ Ok (Task.Verify program) →
        SaysAccepted program.now (D.seen desk.old).told (D.seen desk.new).told }
    ensures listed { (result ≡ Answer.Done) → (program : Word) →
        task_of words.now ≡ Ok (Task.List program) →
        SaysListing program.now (D.seen desk.old).told (D.seen desk.new).told }
    ensures compiled { (result ≡ Answer.Done) → (desc program : Word) →
        task_of words.now ≡ Ok (Task.Compile desc program) →
        IsCompiled desc.now program.now (D.seen desk.old).told (D.seen desk.new).told }
    ensures generated { (result ≡ Answer.Done) → (desc : Word) → (seed frames : ℕ) → (stream : Word) →
        task_of words.now ≡ Ok (Task.Make desc seed frames stream) →
        IsGenerated desc.now seed frames stream.now (D.seen desk.old).told (D.seen desk.new).told }
    ensures assembled { (result ≡ Answer.Done) → (text program : Word) →
        task_of words.now ≡ Ok (Task.Assemble text program) →
        IsAssembled text.now program.now (D.seen desk.old).told (D.seen desk.new).told }

    // At Done of `check` the program is sound and shows each described field, and what is found of them was printed.
    ensures checked { (result ≡ Answer.Done) → (program desc : Word) →
        task_of words.now ≡ Ok (Task.Check program desc) →
        SaysChecked program.now desc.now (D.seen desk.old).told (D.seen desk.new).told }

    // At Done of `trace` the text is the lines of all steps of the whole stream, from the first state, and the report of
    // the machine after them; nothing is created. Program and fill are those of the whole program file. What a line shows
    // is the machine after its step, and turns without a line of their own only count (laws of turn_trace).
    ensures traced { (result ≡ Answer.Done) → (program stream : Word) →
        task_of words.now ≡ Ok (Task.Trace program stream) →
        OfRun GivesSound program.now stream.now (D.seen desk.old).told.inputs
        (SaysTrace (D.seen desk.old).told (D.seen desk.new).told) }

    // At Done of `--help` and `--version` exactly that text is printed, and nothing is created.
    ensures helped { (result ≡ Answer.Done) →
        task_of words.now ≡ Ok Task.Help →
        SaysAlone help_text (D.seen desk.old).told (D.seen desk.new).told }
    ensures versioned { (result ≡ Answer.Done) →
        task_of words.now ≡ Ok Task.Version →
        SaysAlone version_text (D.seen desk.old).told (D.seen desk.new).told }

    // At Done both counts of faults are as they were.
    ensures done { (result ≡ Answer.Done) → SameCounts (D.seen desk.old) (D.seen desk.new) }

    // When each refusal comes, and that it must. `ReadFault` comes where a call at reading failed, and where an input isn't
    // there and those before it are good; memory may run out before that input is opened, but not before the first is.
    // `Malformed`, `Rejected`, `BadDesc`, `BadGeometry`, `BadChain`, `BadRing`, `BadText` and `Differs` come exactly where
    // the first bad input is so, unless memory runs out or a read fails.
    ensures read_fault { (result ≡ Answer.ReadFault) →
        IsUnreadOf (names_read (task_of words.now))
        (D.seen desk.old)
        (D.seen desk.new) }
    ensures read_fault_must { (D.seen desk.old).reads < (D.seen desk.new).reads → result ≡ Answer.ReadFault }
    ensures missing_must { LacksInput (task_of words.now) (D.seen desk.old).told.inputs →
        ((result ≡ Answer.ReadFault) ⊎ (result ≡ Answer.NoMemory)) }
    ensures first_missing_must { LacksFirst (task_of words.now) (D.seen desk.old).told.inputs → result ≡ Answer.ReadFault }
    ensures bad_input { (refusal : Refusal) → result ≡ answer_of refusal → TellsInput refusal →
        IsBadInput (task_of words.now) refusal (D.seen desk.old).told.inputs }
    ensures bad_input_must { AreTold (D.seen desk.old).told.inputs → (wanted : Refusal) →
        IsBadInput (task_of words.now) wanted (D.seen desk.old).told.inputs →
        UnlessCut wanted result
        (D.seen desk.old)
        (D.seen desk.new) }

    // Out of memory: nothing was created and nothing printed but its text, no call at reading failed, and no input was
    // opened behind the one at which memory ran out.
    ensures no_memory { (result ≡ Answer.NoMemory) →
        IsShort (task_of words.now)
        (D.seen desk.old)
        (D.seen desk.new) }

    // Good inputs and no fault of the desk give Done, or NoMemory.
    ensures complete { AreTold (D.seen desk.old).told.inputs →
        IsGood (task_of words.now) (D.seen desk.old).told.inputs →
        ¬ (ReadsRose
        (D.seen desk.old)
        (D.seen desk.new)) →
        ¬ (WritesRose
        (D.seen desk.old)
        (D.seen desk.new)) →
        ((result ≡ Answer.Done) ⊎ (result ≡ Answer.NoMemory)) }

    // A refusal creates nothing and prints its text, or a part of it where the desk met a fault of
    // writing.
    ensures refused { IsRefusal result →
        OnlySays (answer_text result)
        (D.seen desk.old)
        (D.seen desk.new) }

    // A fault of writing: when it comes, and what is there after it.
    ensures write_fault { (result ≡ Answer.WriteFault) →
        WritesRose
        (D.seen desk.old)
        (D.seen desk.new) }
    ensures stands { (result ≡ Answer.WriteFault) →
        StandsAt (task_of words.now) (D.seen desk.old).told (D.seen desk.new).told }

    // The order of work, where the desk tells its calls. Each input is opened at most once, in the order of the
    // words, after the one before it was read through and found good. Where all are taken, each is opened exactly once,
    // and read until its end is found or one byte beyond its limit is read. A read asks for 65,536 bytes, or for what is
    // left up to that byte; each piece of a stream is read only where those before it hold no fault. The outputs
    // are created in their order, each once and each finished before the next, after all inputs were found
    // good. The text is printed last, that of a refusal by one run of calls.
    ensures order { IsInOrder (task_of words.now) result (D.seen desk.old) (D.seen desk.new) }

    // Whatever the answer, no call of the desk follows one that fails at writing: at most one fails so, and it
    // is the last of all.
    ensures last { EndsAtFault (D.seen desk.old) (D.seen desk.new) }

    // Whatever the answer: an output whose name isn't the command's is as it was, and so are the
    // inputs and the names that may be opened and created.
    ensures untouched { OnlyOutputs (names_written (task_of words.now)) (D.seen desk.old).told (D.seen desk.new).told }
    ensures names { SameNames (D.seen desk.old).told (D.seen desk.new).told }
{
    answer_words(alloc, words, desk)
}
