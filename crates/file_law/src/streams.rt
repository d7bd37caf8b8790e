//! The canonical encoding of stream files, and where a file is at fault: which bytes spell which records, that the reader's
//! definition of a stream has nothing else in it, and that each fault is decided by its field. The functions do nothing;
//! their contracts are the laws.

ghost use Rattle.std.specs.Prelude.{◌≡◌, ◌<◌, ◌≤◌, ◌++◌, ◌∷◌, [], ℕ, true, false, Bool, List, Ok, Err, length, slice_index};
ghost use Rattle.capture_file.specs.Streams.{steps_of};
ghost use Rattle.capture_file.specs.declared.FileFault.{FileFault};
ghost use Rattle.capture_file.specs.declared.FileKind.TheVariants.{AfterEnd, Buffer, Code, Enable, Magic, Short, Slot, Status, Tag};
ghost use Rattle.capture_file.specs.declared.FileKind.TheVariants.{TooLong, TooManyTurns, Trigger};
ghost use Rattle.capture_file.specs.declared.Step.{Step};
ghost use Rattle.capture_file.specs.declared.records.Form.{Form};
ghost use Rattle.file_law.specs.StreamBeginnings.{BeginsSome, BeginsStream, IsWhole, before_field, has_good_beginning, with_field};
ghost use Rattle.file_law.specs.StreamSpellings.{AreRecords, HasSpelling, first_steps, is_chained, spelled};
ghost use Rattle.file_law.specs.WorkedStreams.{IsAtFault, chain_form, first_form, second_form};

/// What is spelled is read back: a file that spells records of a form stands for the step that the form begins with, if
/// it begins with one, and then for these records, where it has no more bytes than the limit.
pub fn spelled_streams_are_read_back()
    ensures { (form : Form) (steps : List Step) (limit : ℕ) → AreRecords form steps → length (spelled form steps) ≤ limit →
        steps_of limit (is_chained form) (spelled form steps) ≡ Ok (first_steps form ++ steps) }
{}

/// Each file without a fault spells exactly one list of records of one form.
pub fn streams_have_one_spelling()
    ensures some { (limit : ℕ) (chained : Bool) (bytes : List ℕ) (read : List Step) → ((i : ℕ) → slice_index bytes i < 256) →
        steps_of limit chained bytes ≡ Ok read → HasSpelling limit chained bytes read }
    ensures one { (form other : Form) (steps others : List Step) → AreRecords form steps → AreRecords other others →
        spelled form steps ≡ spelled other others → (form ≡ other) × (steps ≡ others) }
{}

/// A fault of a field that is whole in the file is decided by the bytes up to and with this field: whatever
/// follows them, the file has this fault, and no good file begins with them.
pub fn faults_are_decided_by_their_fields()
    ensures decided { (limit : ℕ) (chained : Bool) (bytes more : List ℕ) (found : FileFault) → ((i : ℕ) → slice_index bytes i < 256) →
        IsWhole found.kind → steps_of limit chained bytes ≡ Err found →
        steps_of limit chained (with_field found bytes ++ more) ≡ Err found }
    ensures none { (limit : ℕ) (chained : Bool) (bytes : List ℕ) (found : FileFault) → ((i : ℕ) → slice_index bytes i < 256) →
        IsWhole found.kind → steps_of limit chained bytes ≡ Err found → BeginsStream limit chained (with_field found bytes) → ⊥ }
{}

/// A good file begins with the bytes before a fault of any kind but a short file and one that is too long. It may need
/// more bytes than the limit of the file at fault.
pub fn good_files_begin_so()
    ensures { (limit : ℕ) (chained : Bool) (bytes : List ℕ) (found : FileFault) → ((i : ℕ) → slice_index bytes i < 256) →
        has_good_beginning found.kind ≡ true → steps_of limit chained bytes ≡ Err found → BeginsSome chained (before_field found bytes) }
{}

/// A file for each kind of fault, each at its field.
pub fn worked_files_are_at_fault()
    ensures magic { IsAtFault true (first_form (0 ∷ [])) 0 Magic }
    ensures tag { IsAtFault false (first_form (4 ∷ 4 ∷ 8 ∷ 0 ∷ 0 ∷ [])) 6 (Tag 8) }
    ensures patch { IsAtFault false (second_form (9 ∷ 0 ∷ 0 ∷ 0 ∷ [])) 4 (Tag 9) }
    ensures status { IsAtFault false (first_form (1 ∷ 16 ∷ 0 ∷ 0 ∷ 0 ∷ 0 ∷ 0 ∷ [])) 5 (Status 16) }
    ensures control_code { IsAtFault false (first_form (3 ∷ 4 ∷ 0 ∷ 0 ∷ 0 ∷ 0 ∷ 0 ∷ [])) 5 (Status 4) }
    ensures code { IsAtFault false (first_form (4 ∷ 5 ∷ 0 ∷ [])) 5 (Code 5) }
    ensures turns { IsAtFault false (first_form (5 ∷ 1 ∷ 0 ∷ 0 ∷ 0 ∷ 5 ∷ 0 ∷ 0 ∷ 0 ∷ 64 ∷ 0 ∷ [])) 10 TooManyTurns }
    ensures enables { IsAtFault false (first_form (7 ∷ 4 ∷ 0 ∷ [])) 5 (Enable 4) }
    ensures trigger { IsAtFault false (second_form (8 ∷ 4 ∷ 0 ∷ [])) 5 (Trigger 4) }
    ensures slot { IsAtFault true (chain_form (9 ∷ 2 ∷ 0 ∷ 0 ∷ [])) 5 (Slot 2) }
    ensures buffer { IsAtFault true (chain_form (9 ∷ 1 ∷ 2 ∷ 0 ∷ [])) 6 (Buffer 2) }
    ensures after_end { IsAtFault false (first_form (0 ∷ 0 ∷ [])) 5 AfterEnd }
    ensures cut { IsAtFault false (first_form (1 ∷ 0 ∷ [])) 6 Short }
    ensures too_long { IsAtFault false (first_form (1 ∷ 0 ∷ 0 ∷ 0 ∷ 0 ∷ 0 ∷ 1 ∷ 0 ∷ 0 ∷ 0 ∷ 0 ∷ 0 ∷ 0 ∷ [])) 16 TooLong }
{}
