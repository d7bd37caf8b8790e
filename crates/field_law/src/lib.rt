//! The law of the picture: what a trail of a RISC program, from its opening SYNC along a path to what ends the field,
//! does with a field that arrives at it, and so a section, whose instructions are one behind the other up to its
//! closing JUMP. The functions do nothing; their contracts are the laws, over the machine's definitions alone: a trail
//! from any word on, another program at every step as long as each leads along this trail, and pushes, turns and
//! register writes in any order.
#![tactic(auto)]

ghost use Rattle.std.specs.Prelude.{◌≡◌, ◌<◌, ℕ, Bool, Some, All, List, [], ◌∷◌, ◌++◌, true, false, length, slice_index_or};
ghost use Rattle.fifo_model.specs.declared.Queue.{Queue};
ghost use Rattle.page_table.specs.Grants.{granted};
ghost use Rattle.machine_model.specs.Paths.{RiscProgram, path, IsSound};
ghost use Rattle.machine_model.specs.States.{State};
ghost use Rattle.machine_model.specs.Steps.{Step, Turn, run, run_in};
ghost use Rattle.machine_model.specs.Turns.{Store};
ghost use Rattle.field_law.specs.Fields.{Token};
ghost use Rattle.field_law.specs.Sections.{Section, Holds, Stands, Ask, UsesUp, planned, is_stored, body_stores, section_stores, Paints};
ghost use Rattle.field_law.specs.Trails.{Trail, Leads, trail_of};
ghost use Rattle.field_law.specs.CutLines.{CutLine, IsCovered, lines_asks, lines_rows, lines_stores, address_in, EachByte};
ghost use Rattle.field_law.specs.Arrivals.{meeting, is_signal, has_signal};
ghost use Rattle.field_law.specs.Laws.{Receives, ShowsPicture, ShowsNoFault, SignalsClosing, IsBounded};
ghost use Rattle.field_law.specs.TrailLaws.{TrailShowsPicture, TrailShowsNoFault, TrailEndsWithClosing, TrailIsBounded};
ghost use Rattle.field_law.specs.Worked.{program, section, field, machine, early, final};

/// A field that arrives at its trail, up to the turn that fetches what ends it: each stored byte is at its place then and
/// every other byte is as it was, no turn sets FDSR, and the closing applies its control bits; and that turn comes within
/// five turns for each instruction, the opening and the closing among them, and one for each entry.
pub fn trail_shows_its_field()
    ensures shown { TrailShowsPicture }
    ensures quiet { TrailShowsNoFault }
    ensures ended { TrailEndsWithClosing }
    ensures bounded { TrailIsBounded }
{}

/// A program that leads along a trail grants what it stores, whatever field it uses up.
pub fn trail_grants_its_stores()
    ensures { (t : Trail) (field : Queue → List Token) (program : RiscProgram) → Leads t program → (q : Queue) →
        All (λ store. granted program.grants store.address ≡ true) (body_stores t.body field q) }
{}

/// A section is a trail: a program that holds the one leads along the other.
pub fn section_is_a_trail()
    ensures { (s : Section) (program : RiscProgram) → Holds s program → Leads (trail_of s) program }
{}

/// After the first signal each stored byte of the field is at its place, and every other byte is as it was when the
/// machine waited in the opening.
pub fn signal_shows_the_picture()
    ensures { ShowsPicture }
{}

/// No turn up to the signal sets FDSR, also where the bit is set already, and the signal applies the control bits of the closing.
pub fn field_shows_no_fault()
    ensures quiet { ShowsNoFault }
    ensures signalled { SignalsClosing }
{}

/// Once all entries up to the field's last were pushed, the signal comes within five turns for each instruction from
/// the opening to the closing and one for each entry.
pub fn signal_comes_in_time()
    ensures { IsBounded }
{}

/// A run is one in which each step meets the machine's own program.
pub fn run_meets_its_program()
    ensures { (m : State) (steps : List Step) → run m steps ≡ run_in m (meeting m.program steps) }
{}

/// A sound program holds each section whose instructions are on its path.
pub fn section_on_the_path_is_held()
    ensures { (s : Section) (program : RiscProgram) (number : ℕ) → IsSound program → (path program number).pc ≡ s.at → Stands s program →
        Holds s program }
{}

/// A program that holds a section grants what it stores, whatever field it uses up.
pub fn held_section_grants_its_stores()
    ensures { (s : Section) (field : Queue → List Token) (program : RiscProgram) → Holds s program → (q : Queue) →
        All (λ store. granted program.grants store.address ≡ true) (section_stores s field q) }
{}

/// Lines cut into parts that cover them are used up, whatever comes after them; each byte that a part writes is
/// stored at its address, and the stores of the lines come first.
pub fn cut_lines_are_used_up()
    ensures used { (lines : List CutLine) (later : List Ask) (tokens : List Token) → All IsCovered lines → UsesUp later [] tokens →
        UsesUp (lines_asks lines ++ later) [] (lines_rows lines ++ tokens) }
    ensures stores { (lines : List CutLine) (later : List Ask) (tokens : List Token) → All IsCovered lines →
        planned (lines_asks lines ++ later) [] (lines_rows lines ++ tokens) ≡ lines_stores lines ++ planned later [] tokens }
    ensures each { (test : Store → Bool) (lines : List CutLine) → All IsCovered lines → All (EachByte (λ store. test store ≡ true)) lines →
        All (λ store. test store ≡ true) (lines_stores lines) }
    ensures stored { (lines : List CutLine) (line : CutLine) (number x address : ℕ) → All IsCovered lines → number < length lines →
        slice_index_or lines number line ≡ line →
        x < length line.bytes → address_in line.line_parts x ≡ Some address → is_stored address (lines_stores lines) ≡ true }
{}

/// The premises of these laws can be met: a field of one line does, behind an entry of an earlier field, and its section
/// signals.
pub fn worked_field_arrives()
    ensures received { Receives section field machine (early ++ (program, Turn) ∷ []) }
    ensures painted { Paints section field machine.memory final }
    ensures silent { has_signal section machine early ≡ false }
    ensures signalled { is_signal section (run_in machine early) Turn ≡ true }
{}
