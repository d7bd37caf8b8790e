//! Laws of tracks. The functions do nothing; their contracts are the laws.

ghost use Rattle.std.specs.Prelude.{◌≡◌, true, false, [], ◌∷◌, Some, None};
ghost use Rattle.picture_model.specs.Worked.{smallest};
ghost use Rattle.damage_model.specs.Worked.{chroma_long, chroma_short, clipped, cut_short, emptied_empty, emptied_full, interrupted};
ghost use Rattle.damage_model.specs.Worked.{planar_rows, reserved, restarted, too_long, two_rows, unkept_short};
ghost use Rattle.damage_model.specs.Arrived.{ArrivedRowsAreWhole};
ghost use Rattle.damage_model.specs.Standing.{WholeRowsStand};
ghost use Rattle.damage_law.specs.Asked.{NothingTakenIsNothingAsked, WholeRowsTookAsked};
ghost use Rattle.damage_law.specs.Laws.{KeepsAnswers, TellsSignals};
ghost use Rattle.damage_law.specs.Worked.{kept_of};

/// Over every list of steps from the first state of a valid description's program, whatever was pushed and however decoder,
/// DMA controller and host interleave: what is kept of a described field's rows is what the definition states at the
/// field's last signal, and nothing is kept exactly before its first.
pub fn tracks_tell_whole_rows()
    ensures rows { KeepsAnswers }
    ensures none { TellsSignals }
{}

/// Where a picture of a field arrives, every row of the field is whole at its signal.
pub fn arrived_rows_are_whole()
    ensures { ArrivedRowsAreWhole }
{}

/// Over every list of steps from the first state, right after a signal of a field: each byte of a row that is whole and isn't
/// clipped is at its place, where it has one, and is that byte of the line that the row's instructions took from the plane's queue.
pub fn whole_rows_stand()
    ensures { WholeRowsStand }
{}

/// What the instructions of a whole row took of a queue is what the description asks of it: where the format has the plane of
/// the queue, a line as long as a row on that plane, and else nothing. So a whole row of which
/// nothing was taken on a queue is one of which nothing is asked there.
pub fn whole_rows_took_what_is_asked()
    ensures asked { WholeRowsTookAsked }
    ensures nothing { NothingTakenIsNothingAsked }
{}

/// Over the worked fields of damage_model a track keeps the marks of their rows by the definition (its law
/// `worked_fields_are_marked`).
pub fn worked_fields_are_tracked()
    ensures too_short { kept_of clipped cut_short ≡ Some (false ∷ true ∷ []) }
    ensures too_long { kept_of two_rows too_long ≡ Some (false ∷ true ∷ []) }
    ensures broken_off { kept_of two_rows interrupted ≡ Some (true ∷ true ∷ []) }
    ensures no_signal { kept_of smallest [] ≡ None }
    ensures one_too_many { kept_of smallest reserved ≡ Some (false ∷ []) }
    ensures emptied_of_nothing { kept_of smallest emptied_empty ≡ Some (true ∷ []) }
    ensures emptied_of_an_entry { kept_of smallest emptied_full ≡ Some (false ∷ []) }
    ensures chroma_too_short { kept_of planar_rows chroma_short ≡ Some (false ∷ true ∷ []) }
    ensures chroma_too_long { kept_of planar_rows chroma_long ≡ Some (false ∷ true ∷ []) }
    ensures chroma_not_kept { kept_of planar_rows unkept_short ≡ Some (true ∷ false ∷ []) }
    ensures opened_again { kept_of smallest restarted ≡ Some (true ∷ []) }
{}
