//! The law of the picture for every program that is found to show a field of a description. The functions do nothing;
//! their contracts are the laws.
#![tactic(auto)]

ghost use Rattle.std.specs.Prelude.{◌≡◌, ℕ, List};
ghost use Rattle.pixel_layout.specs.declared.Parity.TheVariants.{Top, Bottom};
ghost use Rattle.field_law.specs.Fields.{Token};
ghost use Rattle.field_law.specs.Sections.{Ask, UsesUp, planned};
ghost use Rattle.check_model.specs.ByBytes.{by_bytes};
ghost use Rattle.check_law.specs.Laws.{IsChecked, ShowsPicture, ShowsNoFault, EndsWithClosing, EndsInTime};
ghost use Rattle.check_law.specs.Runs.{RunShowsPicture, RunShowsNoFault, RunEndsWithClosing, RunEndsInTime};
ghost use Rattle.check_law.specs.Behind.{NothingStoredBehind, RunShowsBoth};
ghost use Rattle.check_law.specs.Compiled.{CompiledIsChecked};
ghost use Rattle.check_law.specs.Verdicts.{SaidIsChecked, CompiledIsShown};
ghost use Rattle.check_law.specs.Worked.{small, driver_loop, loop_top, loop_bottom};

/// Asks that are the same byte by byte are used up by the same lines and store the same.
pub fn asks_by_bytes_are_the_same()
    ensures used { (asks other : List Ask) (line : List ℕ) (tokens : List Token) → by_bytes asks ≡ by_bytes other →
        UsesUp other line tokens → UsesUp asks line tokens }
    ensures stored { (asks other : List Ask) (line : List ℕ) (tokens : List Token) → by_bytes asks ≡ by_bytes other →
        planned asks line tokens ≡ planned other line tokens }
{}

/// A picture that arrives at the opening of a field which a program is found to show is in memory when the field ends,
/// and every other byte is as it was; no turn up to then sets FDSR, the closing applies its control bits, and it comes in
/// time.
pub fn checked_programs_show_their_pictures()
    ensures shown { ShowsPicture }
    ensures quiet { ShowsNoFault }
    ensures ended { EndsWithClosing }
    ensures in_time { EndsInTime }
{}

/// The same over the places of a run of such a program from the machine's first state, whatever its history.
pub fn runs_of_checked_programs_show_their_pictures()
    ensures shown { RunShowsPicture }
    ensures quiet { RunShowsNoFault }
    ensures ended { RunEndsWithClosing }
    ensures in_time { RunEndsInTime }
{}

/// From the end of a field until the next one arrives nothing is stored: the machine follows JUMPs to a SYNC, and waits.
/// So of two fields that arrive one after the other both are in memory, also where only the second signals.
pub fn nothing_is_stored_between_fields()
    ensures behind { NothingStoredBehind }
    ensures both { RunShowsBoth }
{}

/// A field that the check reports as shown is found so, from the opening that it names on.
pub fn shown_fields_are_found()
    ensures { SaidIsChecked }
{}

/// The compiled program of every valid description is found to show each field that it describes, and the check reports it.
pub fn compiled_programs_are_found()
    ensures found { CompiledIsChecked }
    ensures shown { CompiledIsShown }
{}

/// A program as a driver lays it out, of a standing loop and lists in its slots, is one of those: it is sound, and both
/// its fields are found to be shown.
pub fn worked_loop_is_found()
    ensures top { IsChecked driver_loop small Top loop_top }
    ensures bottom { IsChecked driver_loop small Bottom loop_bottom }
{}
