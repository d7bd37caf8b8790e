//! Laws of traces. The functions do nothing; their contracts are the laws.

ghost use Rattle.machine_model.specs.Steps.{Step};
ghost use Rattle.turn_trace.specs.Laws.{EndsWithNumbers, TextsAreAppended, TracesTheRun, UntoldTurnsOnlyCount};
ghost use Rattle.turn_trace.specs.Traces.{Tracing};

/// The machine that is traced is the machine after the steps, and each line ends with the numbers of the machine after its
/// step: pc, INT_STAT, the entries of the queues and the bytes stored.
pub fn lines_show_the_machine_after_their_steps()
    ensures machine { TracesTheRun }
    ensures numbers { (t : Tracing) (s : Step) → EndsWithNumbers t s }
{}

/// A step of a machine that has no line of its own is a turn, and beside being counted it changes nothing.
pub fn untold_turns_only_count()
    ensures { UntoldTurnsOnlyCount }
{}

/// The text of steps is the text of the first of them and then that of the rest, from where the first leave off.
pub fn texts_are_appended()
    ensures { TextsAreAppended }
{}
