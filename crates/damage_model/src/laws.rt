//! Laws of damage maps. The functions do nothing; their contracts are the laws.

ghost use Rattle.std.specs.Prelude.{◌≡◌, ℕ, List, true, false, [], ◌∷◌, Some, None, drop};
ghost use Rattle.std.specs.List.{range_with_len};
ghost use Rattle.fifo_model.specs.declared.Queue.{Queue};
ghost use Rattle.fifo_model.specs.Queues.{queue_state};
ghost use Rattle.machine_model.specs.States.{State};
ghost use Rattle.machine_model.specs.Turns.{turn};
ghost use Rattle.fifo_model.specs.declared.Entry.{Entry};
ghost use Rattle.fifo_model.specs.declared.Queue.TheVariants.{One};
ghost use Rattle.pixel_layout.specs.declared.Parity.TheVariants.{Top};
ghost use Rattle.machine_model.specs.States.{first_state};
ghost use Rattle.picture_model.specs.Programs.{compiled};
ghost use Rattle.picture_model.specs.Worked.{smallest};
ghost use Rattle.field_law.specs.Arrivals.{is_signal};
ghost use Rattle.picture_law.specs.Runs.{IsSignalled};
ghost use Rattle.picture_law.specs.Sections.{section_of};
ghost use Rattle.picture_law.specs.Worked.{picture, steps};
ghost use Rattle.damage_model.specs.Takings.{Taking, left};
ghost use Rattle.damage_model.specs.Lines.{AreInOrder, IsWholeLine, are_line};
ghost use Rattle.damage_model.specs.LastSignals.{AnswersStay};
ghost use Rattle.damage_model.specs.Orders.{LinesAreWhole, TakesInOrder};
ghost use Rattle.damage_model.specs.Marks.{last_step};
ghost use Rattle.damage_model.specs.Standing.{WholeRowsEntered};
ghost use Rattle.damage_model.specs.Worked.{IsWholeRow, chroma_long, chroma_short, clipped, cut_short, emptied_empty, emptied_full};
ghost use Rattle.damage_model.specs.Worked.{interrupted, marks_of, planar_rows, reserved, restarted, taken_by, too_long, two_rows};
ghost use Rattle.damage_model.specs.Worked.{unkept_short};

/// Takings in their order make a line by their places exactly where the entries of which a byte is taken follow one
/// another among those that enter the queue, each is taken whole, and they are a line.
pub fn whole_lines_are_taken_whole()
    ensures line { (entry_at : ℕ → Entry) (ts : List Taking) → AreInOrder entry_at 0 0 ts → are_line ts ≡ true → IsWholeLine entry_at ts }
    ensures takings { (entry_at : ℕ → Entry) (ts : List Taking) → AreInOrder entry_at 0 0 ts → IsWholeLine entry_at ts →
        are_line ts ≡ true }
{}

/// What is taken of a queue over steps is taken of the entries that it holds and that enter it, in their order. So what the
/// instructions of a row take of it is a line exactly where the entries of which they take a byte follow one another among
/// these, each is taken whole, and they are a line.
pub fn takings_are_in_order()
    ensures order { TakesInOrder }
    ensures lines { LinesAreWhole }
{}

/// What leaves a queue in a turn leaves it at its front. So the entry at a place is the one that so many others left
/// before.
pub fn entries_leave_at_the_front()
    ensures { (q : Queue) (m : State) →
        (queue_state q (turn m).queues).entries ≡ drop (left q m (turn m)) (queue_state q m.queues).entries }
{}

/// The marks of a field's rows after all steps are those right after its last signal.
pub fn answers_stay_after_the_last_signal()
    ensures { AnswersStay }
{}

/// Worked fields of small descriptions, and which of their rows are whole. A row whose line is too short isn't, nor is one
/// whose line is too long. A field that is broken off has no effect on the next. No field was signalled. An entry of a
/// reserved status within a line is one too many, and so is one that the host's emptying of the queues takes from it. A row
/// whose chroma is a byte too short or too long isn't whole, also where its chroma isn't kept. The marks of a field that is
/// opened again within a row begin there. The instructions of a whole row took the bytes of its line.
pub fn worked_fields_are_marked()
    ensures too_short { marks_of clipped cut_short ≡ Some (false ∷ true ∷ []) }
    ensures too_long { marks_of two_rows too_long ≡ Some (false ∷ true ∷ []) }
    ensures broken_off { marks_of two_rows interrupted ≡ Some (true ∷ true ∷ []) }
    ensures no_signal { marks_of smallest [] ≡ None }
    ensures one_too_many { marks_of smallest reserved ≡ Some (false ∷ []) }
    ensures emptied_of_nothing { marks_of smallest emptied_empty ≡ Some (true ∷ []) }
    ensures emptied_of_an_entry { marks_of smallest emptied_full ≡ Some (false ∷ []) }
    ensures chroma_too_short { marks_of planar_rows chroma_short ≡ Some (false ∷ true ∷ []) }
    ensures chroma_too_long { marks_of planar_rows chroma_long ≡ Some (false ∷ true ∷ []) }
    ensures chroma_not_kept { marks_of planar_rows unkept_short ≡ Some (true ∷ false ∷ []) }
    ensures opened_again { marks_of smallest restarted ≡ Some (true ∷ []) }
    ensures line_of_a_row { taken_by clipped 1 cut_short ≡ Some (range_with_len 0xb0 16) }
{}

/// What the instructions of a whole row take of a queue is what entered it one after another, in that order, since some
/// entry that the queue held already or that came later.
pub fn whole_rows_took_what_entered()
    ensures { WholeRowsEntered }
{}

/// The premises of the laws of whole rows and of arrived rows (laws of damage_law) can be met: by a byte of a whole row
/// behind one that isn't whole, and by the worked picture of one line, whose signal is the last.
pub fn worked_fields_meet_the_laws()
    ensures whole { IsWholeRow clipped cut_short 8 28 One 1 0 0x20010 }
    ensures arrived { IsSignalled smallest Top picture 0 steps 2 14 }
    ensures last { last_step (is_signal (section_of smallest Top)) (first_state (compiled smallest) 0) steps ≡ Some 14 }
{}
