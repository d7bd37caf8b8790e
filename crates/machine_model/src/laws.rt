//! Laws of turns and of whole runs. The functions do nothing; their contracts are the laws.

ghost use Rattle.std.specs.Prelude.{◌≡◌, ◌≢◌, ℕ, ◌+◌, ◌*◌, ◌<◌, ◌||◌, true, List, [], ◌∷◌, ◌++◌, All, Option, None, Some, length};
ghost use Rattle.std.specs.Prelude.{slice_index};
ghost use Rattle.risc_word.specs.declared.Instr.{Instr};
ghost use Rattle.irq_status.specs.Register.{has, fdsr};
ghost use Rattle.page_table.specs.Grants.{Chunk};
ghost use Rattle.page_table.specs.Blocks.{byte_at, chunks_of};
ghost use Rattle.machine_model.specs.declared.Demands.{Demands};
ghost use Rattle.machine_model.specs.declared.Job.TheVariants.{Idle, Running};
ghost use Rattle.machine_model.specs.Paths.{RiscProgram, Span, AreApart, AreWithin, all_words, data_cause, demands_cause, fetch, one_span};
ghost use Rattle.machine_model.specs.Paths.{word_among, IsSound};
ghost use Rattle.risc_word.specs.Words.{instr_at};
ghost use Rattle.machine_model.specs.Seen.{StandsAt, seen};
ghost use Rattle.machine_model.specs.States.{State, first_state};
ghost use Rattle.machine_model.specs.Turns.{stored_all, turn, with_interrupts, sets_fdsr};
ghost use Rattle.machine_model.specs.Steps.{Step, with_program, run_in, state_at};
ghost use Rattle.machine_model.specs.Accesses.{stores, writes, fetches, AgreeAt, AreFetchedAlike};
ghost use Rattle.machine_model.specs.Safety.{IsInside, IsOrderly, IsSafe, IsStep};

/// Spans that are apart hide no word of each other: at the address of each word of each span is that word.
pub fn each_span_has_its_words()
    ensures { (before after : List Span) (from : ℕ) (s : Span) (k : ℕ) → AreApart from (before ++ s ∷ after) → k < length s.words →
        word_among (before ++ s ∷ after) (s.at + 4 * k) ≡ Some (slice_index s.words k) }
{}

/// A program of one span is its words: all words are these, and at the address of each of them the instruction
/// is fetched that begins there.
pub fn one_span_is_its_words()
    ensures words { (base : ℕ) (words : List ℕ) (grants : List Chunk) → all_words (one_span base words grants) ≡ words }
    ensures fetched { (base n : ℕ) (words : List ℕ) (grants : List Chunk) →
        fetch (one_span base words grants) (base + 4 * n) ≡ instr_at words n }
{}

/// At every place of every run of a sound program from the first state, however the steps of decoder,
/// DMA controller and host interleave: each byte written is granted, each word fetched is one of the
/// program, and OCERR is 0.
pub fn every_run_stays_inside()
    ensures { (program : RiscProgram) (fill : ℕ) (steps : List Step) (number : ℕ) → IsSound program → All IsStep steps →
        IsInside program (state_at (first_state program fill) steps number) }
{}

/// The same of a run from any safe state.
pub fn every_safe_state_stays_inside()
    ensures { (m : State) (steps : List Step) (number : ℕ) → IsSound m.program → IsSafe m → All IsStep steps →
        IsInside m.program (state_at m steps number) }
{}

/// What every program keeps, sound or not, also where each step meets another program: the order of
/// the control codes, what is taken of a front, the trigger point, the skip and the chunks of memory.
pub fn every_program_keeps_order()
    ensures first { (program : RiscProgram) (fill : ℕ) → IsOrderly (first_state program fill) }
    ensures kept { (m : State) (steps : List (RiscProgram × Step)) → All (λ met. IsStep met.1) steps → IsOrderly m →
        IsOrderly (run_in m steps) }
    ensures chunks { (m : State) (steps : List (RiscProgram × Step)) → chunks_of (run_in m steps).memory ≡ chunks_of m.memory }
{}

/// While a data instruction of a sound program runs, also at the turn that retires it, what is seen of a
/// turn names the address of this instruction: pc less the bytes of its words.
pub fn running_instructions_are_seen()
    ensures { (m : State) (instr : Instr) (ds : Demands) → IsSound m.program → IsSafe m → m.job ≡ Running instr ds → m.risc_on ≡ true →
        StandsAt m instr (seen m).at }
{}

/// The turn at a state stores exactly the bytes that are listed, in their order: the byte at an address that the turn
/// doesn't write stays.
pub fn turns_store_what_is_listed()
    ensures memory { (m : State) → (turn m).memory ≡ stored_all m.memory (stores m) }
    ensures others { (m : State) (address : ℕ) → All (λ written. address ≢ written) (writes m) →
        byte_at (turn m).memory address ≡ byte_at m.memory address }
{}

/// A turn reads no other word of its program than those that are listed: beside a program of the same base, number of
/// words and grants that has the same words there, the same happens. Only an idle machine with RISC on reads its
/// program, namely the instruction at pc, the grants, and whether the target of a JUMP is a word.
pub fn turns_read_what_is_listed()
    ensures listed { (m : State) (program : RiscProgram) → AgreeAt (fetches m) m.program program →
        turn (with_program program m) ≡ with_program program (turn m) }
    ensures idle { (m : State) (program : RiscProgram) → (m.risc_on ≡ true → m.job ≡ Idle → AreFetchedAlike m.pc m.program program) →
        turn (with_program program m) ≡ with_program program (turn m) }
{}

/// What a turn does never depends on INT_STAT: from another register all but the register is the same. So a turn sets
/// FDSR from one register where it sets it from every other, and after it FDSR is set where it was set before or is set by it.
pub fn interrupts_change_no_turn()
    ensures same { (m : State) (register : ℕ) →
        turn (with_interrupts register m) ≡ with_interrupts (turn (with_interrupts register m)).interrupts (turn m) }
    ensures fdsr { (m : State) → has fdsr (turn m).interrupts ≡ (has fdsr m.interrupts || sets_fdsr m) }
{}

/// A data instruction without a fault, and a running one that may write what it still asks for, have none where more is
/// granted.
pub fn wider_grants_bring_no_fault()
    ensures instruction { (grants wider : List Chunk) (instr : Instr) (target : Option ℕ) → AreWithin grants wider →
        data_cause grants instr target ≡ None → data_cause wider instr target ≡ None }
    ensures demands { (grants wider : List Chunk) (ds : Demands) → AreWithin grants wider → demands_cause grants ds ≡ None →
        demands_cause wider ds ≡ None }
{}
