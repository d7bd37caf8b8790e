//! The law of whole rows in a chain that the host patches while it runs. The functions do nothing; their contracts are the
//! laws.
#![tactic(auto)]

ghost use Rattle.std.specs.Prelude.{◌≡◌, [], ◌∷◌, true};
ghost use Rattle.pixel_layout.specs.declared.Parity.TheVariants.{Top};
ghost use Rattle.picture_model.specs.Worked.{smallest};
ghost use Rattle.chain_law.specs.Fragments.{AreFragments};
ghost use Rattle.chain_law.specs.Worked.{steps, two_slots};
ghost use Rattle.chain_damage.specs.Rows.{IsPartField, IsSignalAt, LiveRunsHoldWholeRows};
ghost use Rattle.chain_damage.specs.Behind.{IsSignalBehind, SectionsHoldWholeRows};
ghost use Rattle.chain_damage.specs.Rows.{marks_between};

/// Whatever the host patches, and also where it patches out the part itself: from the opening of a field of a fragment to its
/// first signal behind it the machine goes on as if nothing were patched, as long as the DMA controller is on. Each row of the
/// field that is whole over these steps holds its line right after the signal. The other parts may be anything.
pub fn sections_hold_whole_rows()
    ensures { SectionsHoldWholeRows }
{}

/// Where all parts of the chain are fragments, each signal of a field has an opening before it, and so it is from the last one
/// to the signal.
pub fn live_runs_hold_whole_rows()
    ensures { LiveRunsHoldWholeRows }
{}

/// The premises of these laws can be met: the row of the first field of the worked chain, whose parts are all fragments, is
/// whole, though the slot is patched to the other fragment while this one runs.
pub fn worked_chain_holds_a_whole_row()
    ensures fragments { AreFragments two_slots }
    ensures field { IsPartField two_slots 0 smallest Top }
    ensures signal { IsSignalAt two_slots 0 smallest Top 0 steps 19 }
    ensures behind { IsSignalBehind two_slots 0 smallest Top 0 steps 6 19 }
    ensures whole { marks_between two_slots 0 smallest Top 0 steps 6 19 ≡ true ∷ [] }
{}
