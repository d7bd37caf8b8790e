//! The canonical encoding of program files, and where a file is at fault: that the reader's definition of a program has nothing
//! else in it, and that each fault is decided by its field. The functions do nothing; their contracts are the laws.

ghost use Rattle.std.specs.Prelude.{◌≡◌, ◌<◌, ◌≤◌, ◌++◌, ◌∷◌, [], ℕ, true, IsOk, List, Ok, Err, drop, length, slice_index, take};
ghost use Rattle.capture_file.specs.Programs.{HasProgram, program_of};
ghost use Rattle.capture_file.specs.Streams.{fault_at};
ghost use Rattle.capture_file.specs.declared.FileFault.{FileFault};
ghost use Rattle.capture_file.specs.declared.FileKind.TheVariants.{AfterEnd, Base, Count, Entry, Length, Magic, Order, Overlap, Page};
ghost use Rattle.capture_file.specs.declared.FileKind.TheVariants.{Pages, Short};
ghost use Rattle.capture_file.specs.declared.program.ProgramForm.{ProgramForm};
ghost use Rattle.capture_file.specs.declared.program.ProgramFile.{ProgramFile};
ghost use Rattle.machine_model.specs.Paths.{RiscProgram, Span};
ghost use Rattle.file_law.specs.ProgramBeginnings.{BeginsFile, IsWhole, before_field, form_named, has_good_beginning, is_based, with_field};
ghost use Rattle.file_law.specs.ProgramRoom.{HasRoom, HasSpanRoom, beginning, longest_file, span_beginning};
ghost use Rattle.file_law.specs.SpelledPrograms.{IsSpelledIn, Spells, bytes_in};
ghost use Rattle.file_law.specs.WorkedPrograms.{IsAtFault, chunk_file, highest_first, line_file, lone_span, one_line};
ghost use Rattle.file_law.specs.WorkedPrograms.{one_word_alone, two_spans, with_number, without_chunks};

/// What is spelled is read back: a program that can be made, with a fill, is read from its bytes in the form that is
/// its own.
pub fn spelled_programs_are_read_back()
    ensures { (form : ProgramForm) (file : ProgramFile) → IsSpelledIn form file →
        program_of (bytes_in form file) ≡ Ok file }
{}

/// Each file without a fault spells exactly one program with one fill, in one form.
pub fn program_files_have_one_spelling()
    ensures some { (bytes : List ℕ) (file : ProgramFile) → ((i : ℕ) → slice_index bytes i < 256) →
        program_of bytes ≡ Ok file → Spells bytes file }
    ensures one { (form other : ProgramForm) (file another : ProgramFile) → IsSpelledIn form file →
        IsSpelledIn other another → bytes_in form file ≡ bytes_in other another → (form ≡ other) × (file ≡ another) }
{}

/// A fault of a field that is whole in the file is decided by the bytes up to and with this field: whatever
/// follows them, the file has this fault, and no good file begins with them.
pub fn faults_are_decided_by_their_fields()
    ensures decided { (bytes more : List ℕ) (found : FileFault) → ((i : ℕ) → slice_index bytes i < 256) →
        IsWhole found.kind → program_of bytes ≡ Err found → program_of (with_field found bytes ++ more) ≡ Err found }
    ensures none { (bytes : List ℕ) (found : FileFault) → ((i : ℕ) → slice_index bytes i < 256) → IsWhole found.kind →
        program_of bytes ≡ Err found → BeginsFile (with_field found bytes) → ⊥ }
{}

/// The bytes before the field at fault have no fault of their own: cut there the file is short, or it is good where
/// the fault is a byte after its end. Where the first word, the base or a count is at fault, some good file begins with
/// them.
pub fn bytes_before_a_fault_are_right()
    ensures right { (bytes : List ℕ) (found : FileFault) → ((i : ℕ) → slice_index bytes i < 256) → IsWhole found.kind →
        (found.kind ≡ AfterEnd → ⊥) → program_of bytes ≡ Err found →
        program_of (before_field found bytes) ≡ Err (fault_at found.at Short) }
    ensures good { (bytes : List ℕ) (found : FileFault) → ((i : ℕ) → slice_index bytes i < 256) →
        found.kind ≡ AfterEnd → program_of bytes ≡ Err found → HasProgram (before_field found bytes) }
    ensures begins { (bytes : List ℕ) (found : FileFault) → ((i : ℕ) → slice_index bytes i < 256) →
        has_good_beginning (is_based (form_named bytes)) found.kind ≡ true → program_of bytes ≡ Err found →
        BeginsFile (before_field found bytes) }
{}

/// A file that is short is short at its length, and so is each of its beginnings: no field that it holds whole is at
/// fault.
pub fn short_files_have_short_beginnings()
    ensures place { (bytes : List ℕ) (found : FileFault) → ((i : ℕ) → slice_index bytes i < 256) → found.kind ≡ Short →
        program_of bytes ≡ Err found → found.at ≡ length bytes }
    ensures beginnings { (bytes : List ℕ) (found : FileFault) (count : ℕ) → ((i : ℕ) → slice_index bytes i < 256) →
        found.kind ≡ Short → program_of bytes ≡ Err found → count ≤ length bytes →
        program_of (take count bytes) ≡ Err (fault_at count Short) }
{}

/// Where there is room for the chunks that are counted but not there yet, some good file begins with the bytes up to
/// these chunks, whatever fault is behind them.
pub fn beginnings_with_room_go_on()
    ensures { (form : ProgramForm) (program : RiscProgram) (count : ℕ) → HasRoom form program count →
        BeginsFile (beginning form program count) }
{}

/// Where there is room for the spans that are counted but not there yet, and a word for the entry, some good file
/// begins with the bytes up to these spans.
pub fn spans_with_room_go_on()
    ensures { (count : ℕ) (spans : List Span) → HasSpanRoom count spans → BeginsFile (span_beginning count spans) }
{}

/// No program file is longer than the longest.
pub fn no_program_file_is_longer()
    ensures { (bytes : List ℕ) → HasProgram bytes → length bytes ≤ longest_file }
{}

/// Faults of files that differ from a good one in one field, each at this field.
pub fn worked_files_are_at_fault()
    ensures magic { IsAtFault (65 ∷ drop 1 one_line) 0 Magic }
    ensures base { IsAtFault (line_file 4097 8 (1 ∷ 131072 ∷ [])) 4 Base }
    ensures words { IsAtFault (line_file 4096 4294967295 (1 ∷ 131072 ∷ [])) 8 Count }
    ensures pages { IsAtFault (line_file 4096 8 (4097 ∷ 131072 ∷ [])) 44 Count }
    ensures page { IsAtFault (line_file 4096 8 (1 ∷ 131076 ∷ [])) 48 Page }
    ensures overlap { IsAtFault (line_file 4096 8 (1 ∷ 4096 ∷ [])) 48 Overlap }
    ensures order { IsAtFault (line_file 4096 8 (2 ∷ 131072 ∷ 131072 ∷ [])) 52 Order }
    ensures after_end { IsAtFault (one_line ++ 0 ∷ []) 53 AfterEnd }
    ensures short { IsAtFault (take 20 one_line) 20 Short }
    ensures chunk_length { IsAtFault (chunk_file (1 ∷ 131072 ∷ 6 ∷ [])) 52 Length }
    ensures all_pages { IsAtFault (chunk_file (1 ∷ 131072 ∷ 4096 ∷ [])) 56 Pages }
    ensures no_span { IsAtFault (with_number 1 0 (two_spans 8192 4096)) 4 Count }
    ensures no_word { IsAtFault (with_number 3 0 (two_spans 8192 4096)) 12 Count }
    ensures span_base { IsAtFault (two_spans 8194 4096) 24 Base }
    ensures touching { IsAtFault (two_spans 4104 4096) 24 Order }
    ensures no_entry { IsAtFault (two_spans 8192 4098) 40 Entry }
    ensures outside { IsAtFault (two_spans 8192 4104) 40 Entry }
    ensures of_before { IsAtFault (lone_span 4096) 24 Entry }
    ensures spans_whole { IsOk (program_of (two_spans 8192 4100)) × IsOk (program_of (lone_span 4100)) }
{}

/// Some faults are found late: no good file begins so, though each field is right up to there. A file in the form with
/// chunks that has none is at fault at its fill, one with a second page behind the highest at this page, and one whose
/// only span is a word alone at its entry.
pub fn some_faults_are_found_late()
    ensures no_chunks { BeginsFile without_chunks → ⊥ }
    ensures no_room { BeginsFile highest_first → ⊥ }
    ensures no_entry { BeginsFile one_word_alone → ⊥ }
{}
