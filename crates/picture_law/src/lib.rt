//! The law of the picture: whatever the schedule and the history, a field of a description that arrives at its section
//! is shown at its places. The section is anywhere, its closing leads anywhere, and each step meets a program of its
//! own that holds it; compiled programs are one use. The functions do nothing; their contracts are the laws.
#![tactic(auto)]

ghost use Rattle.std.specs.Prelude.{◌≡◌, true, false, [], ◌∷◌, ◌++◌};
ghost use Rattle.pixel_layout.specs.declared.Parity.TheVariants.{Bottom, Top};
ghost use Rattle.machine_model.specs.Steps.{Turn, run};
ghost use Rattle.picture_model.specs.Programs.{compiled};
ghost use Rattle.field_law.specs.Worked.{moves};
ghost use Rattle.field_law.specs.Arrivals.{meeting, has_signal, is_signal};
ghost use Rattle.picture_law.specs.Sections.{section_of};
ghost use Rattle.picture_law.specs.Runs.{CapturesOf, CompiledIsMet, RunsAreMet, IsSignalled, RunShowsPicture, RunShowsNoFault};
ghost use Rattle.picture_law.specs.Runs.{RunTellsField, RunSignalsInTime};
ghost use Rattle.picture_law.specs.Worked.{machine, picture, steps};
ghost use Rattle.fifo_model.specs.declared.Queue.TheVariants.{One};
ghost use Rattle.picture_law.specs.Pictures.{IsKeptAt, of_row};
ghost use Rattle.picture_law.specs.WorkedBottom.{bottom_steps, spread};
ghost use Rattle.picture_law.specs.WorkedPlanar.{planar, planar_picture, planar_steps, MeetsBound};
ghost use Rattle.picture_model.specs.Worked.{smallest};
ghost use Rattle.picture_law.specs.Laws.{EndsSection, GrantsPlaces, HoldsSection, UsesPicture, PaintsPicture, ShowsPicture, ShowsNoFault};
ghost use Rattle.picture_law.specs.Laws.{SignalsField, SignalsInTime};

/// After the first signal of a field that arrives, each of its bytes that is not clipped is at its place where it
/// has one, and every other byte of memory is as it was when the machine waited in the field's opening.
pub fn pictures_are_shown()
    ensures { ShowsPicture }
{}

/// No turn up to the signal sets FDSR, also where the bit is set already. After it RISCI is set, and the RISC status is 1
/// for the top field and 2 for the bottom field.
pub fn fields_show_no_fault()
    ensures quiet { ShowsNoFault }
    ensures signalled { SignalsField }
{}

/// Once all entries up to the field's last were pushed, the signal comes within five turns for each instruction from
/// the opening to the closing and one for each entry.
pub fn signals_come_in_time()
    ensures { SignalsInTime }
{}

/// The same over the places of a run of a description's compiled program from the machine's first state, whatever its history: where
/// the first signal of a field after place j is step k, and a picture arrives at j over the steps j to k.
pub fn runs_show_their_pictures()
    ensures shown { RunShowsPicture }
    ensures quiet { RunShowsNoFault }
    ensures signalled { RunTellsField }
    ensures in_time { RunSignalsInTime }
{}

/// These laws speak of the compiled program of every valid description: of each state of a run from the machine's first
/// state, and of each picture that arrives at such a state over steps that meet the program.
pub fn compiled_programs_are_met()
    ensures runs { RunsAreMet }
    ensures captures { CompiledIsMet }
{}

/// The section of a field meets the premises of the law of a section, also where the program as a whole has no room: it
/// is in the compiled program, with its closing where the description has it. Wherever it is it uses up a picture
/// of the field and paints what shows the picture, and a program that holds it grants the picture's places.
pub fn sections_meet_their_law()
    ensures holds { HoldsSection }
    ensures ends { EndsSection }
    ensures uses { UsesPicture }
    ensures paints { PaintsPicture }
    ensures grants { GrantsPlaces }
{}

/// The premises of these laws can be met: a picture of one line does, behind an entry of an earlier field, and its field
/// is signalled.
pub fn worked_picture_arrives()
    ensures captured { CapturesOf smallest Top picture machine (moves ++ Turn ∷ []) }
    ensures silent { has_signal (section_of smallest Top) machine (meeting (compiled smallest) moves) ≡ false }
    ensures signalled { is_signal (section_of smallest Top) (run machine moves) Turn ≡ true }
    ensures in_a_run { IsSignalled smallest Top picture 0 steps 2 14 }
{}

/// They can be met with all that a description may have: both fields, VBI lines, skipped lines, a clip, a planar format
/// with chroma that is kept and chroma that is not, and two chunks. The top field of such a description arrives behind an
/// entry of an earlier field, is signalled within the bound, and meets the premises of each law over a run.
pub fn worked_planar_picture_arrives()
    ensures signalled { IsSignalled planar Top planar_picture 0 planar_steps 2 82 }
    ensures in_time { MeetsBound 2 30 130 }
{}

/// And with all keys for where bytes lie: steps from row to row, offsets of the planes and of the VBI lines, and pages out
/// of order, of which one ends within a row. The bottom field of such a description arrives behind the top field.
pub fn worked_bottom_picture_arrives()
    ensures signalled { IsSignalled spread Bottom planar_picture 0 bottom_steps 90 156 }
    ensures before_the_page_end { IsKeptAt spread Bottom (of_row One 0 3) 0x30fff }
    ensures behind_the_page_end { IsKeptAt spread Bottom (of_row One 0 4) 0x20000 }
{}
