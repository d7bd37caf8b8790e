//! The trait of desks.
ghost use Rattle.std.specs.Prelude.{◌≡◌, ◌<◌, [], ◌∷◌, length, IsTrue};
ghost use Rattle.capture_desk.specs.declared.calls.Call.TheVariants.{CreateOut, Finish, OpenIn, Read, Say};
ghost use Rattle.capture_desk.specs.Desks.{Appends, CallCounts, IsAllowed, Makes, OpenCounts, Opens, ReadCounts, Reads, Seen, Tells};
ghost use Rattle.capture_desk.specs.Desks.{after_create, after_finish, after_say, after_write, moved_by, was_done};

use thiserror::Error;

/// The desk could not do a call.
#[derive(Debug, Drop, Error)]
#[error("the desk failed")]
pub struct Failed;

/// Why an input was not opened.
#[derive(Debug, Drop, Error)]
pub enum OpenFault {
    /// The desk tells its inputs, and none has this name.
    #[error("there is no such input")]
    Missing,
    /// The desk could not do the call.
    #[error("the desk failed")]
    Failed,
}

/// Files by name and a standard output. At most one input and one output are open at a time.
///
/// Proofs see a desk as what it tells, which may be nothing, as two counts of the calls that failed, by
/// whether its last call failed, and by the calls that it was given, where it tells them (`LoggedDesk`
/// does). A call that fails raises a count by one and leaves all else that the desk tells; any other call
/// leaves both counts (this project's own rules).
pub trait Desk {
    ghost seen: { Self → Seen };

    /// Opens an input at its beginning, in place of the one before. Where the desk tells its inputs,
    /// the error is `Missing` exactly where the name is not among them. It is `Failed` only where the
    /// count of read faults rose.
    fn open_in(&mut self, name: &str) -> Result<(), OpenFault>
        requires allowed { IsAllowed name.now (seen self.old).told.may_open }
        ensures opens { Opens name.now result (seen self.old).told (seen self.new).told }
        ensures counts { OpenCounts result (seen self.old) (seen self.new) }
        ensures calls { Tells (OpenIn name.now (was_done result) ∷ []) (seen self.old).calls (seen self.new).calls };

    /// Moves the next bytes of the open input into the front of `buf`, and answers how many. Zero is
    /// the end of input.
    fn read(&mut self, buf: &mut [u8]) -> Result<usize, Failed>
        requires open { IsTrue (seen self.old).told.input_open }
        requires room { 0 < length buf.old }
        ensures reads { Reads buf.old buf.new result (seen self.old).told (seen self.new).told }
        ensures counts { ReadCounts result (seen self.old) (seen self.new) }
        ensures calls { Tells (Read (length buf.old) (moved_by result) ∷ []) (seen self.old).calls (seen self.new).calls };

    /// Makes an empty output of this name, in place of an old one, and opens it in place of the output
    /// that was open.
    fn create_out(&mut self, name: &str) -> Result<(), Failed>
        requires allowed { IsAllowed name.now (seen self.old).told.may_create }
        ensures creates { Makes result (after_create name.now (seen self.old).told) (seen self.old).told (seen self.new).told }
        ensures counts { CallCounts result (seen self.old) (seen self.new) }
        ensures calls { Tells (CreateOut name.now (was_done result) ∷ []) (seen self.old).calls (seen self.new).calls };

    /// Appends the first bytes to the open output, and answers how many: one at least.
    fn write(&mut self, bytes: &[u8]) -> Result<usize, Failed>
        requires open { IsTrue (seen self.old).told.output_open }
        requires some { 0 < length bytes.now }
        ensures appends { Appends bytes.now result after_write (seen self.old).told (seen self.new).told }
        ensures counts { CallCounts result (seen self.old) (seen self.new) }
        ensures calls { (seen self.new).calls ≡ (seen self.old).calls };

    /// Closes the open output.
    fn finish(&mut self) -> Result<(), Failed>
        requires open { IsTrue (seen self.old).told.output_open }
        ensures closes { Makes result (after_finish (seen self.old).told) (seen self.old).told (seen self.new).told }
        ensures counts { CallCounts result (seen self.old) (seen self.new) }
        ensures calls { Tells (Finish (was_done result) ∷ []) (seen self.old).calls (seen self.new).calls };

    /// Appends the first bytes to the text on the standard output, and answers how many: one at least.
    fn say(&mut self, bytes: &[u8]) -> Result<usize, Failed>
        requires some { 0 < length bytes.now }
        ensures says { Appends bytes.now result after_say (seen self.old).told (seen self.new).told }
        ensures counts { CallCounts result (seen self.old) (seen self.new) }
        ensures calls { Tells (Say ∷ []) (seen self.old).calls (seen self.new).calls };
}
