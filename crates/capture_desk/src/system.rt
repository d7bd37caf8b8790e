//! The desk over a system's files and its standard output.
ghost use Rattle.std.specs.Prelude.{false, true, ◌≡◌};
ghost use Rattle.capture_desk.specs.Desks.{counted};
ghost use Rattle.capture_desk.specs.System.{System, new_system, seen_of};

use crate::desk::{Desk, Failed, OpenFault};
use crate::host::Host;
use std::marker::Model;

/// The desk over a host's files and its standard output. It tells all that the host tells, keeps no bytes
/// and takes no memory of its own. Each error of the host raises a count.
#[derive(Drop)]
pub struct OsDesk<H: Host + Drop> {
    host: H,
    input: Option<H::Input>,
    output: Option<H::Output>,
    read_faults: u64,
    write_faults: u64,
    failed: bool,
}

impl<H: Host + Drop> Model for OsDesk<H> {
    ghost use Rattle.std.specs.Prelude.{option_map};
    ghost use Rattle.capture_desk.specs.System.{System};

    ghost Value = { System };

    ghost view = { λ d. record {
      store = H.store d.host;
      input = option_map H.rest d.input;
      output = option_map H.label d.output;
      read_faults = d.read_faults;
      write_faults = d.write_faults;
      failed = d.failed;
    } };
}

impl<H: Host + Drop> OsDesk<H> {
    /// A desk over the host's files and standard output, with nothing open.
    pub fn new(host: H) -> OsDesk<H>
        ensures { result ≡ new_system (H.store host) }
    {
        OsDesk {
            host,
            input: None,
            output: None,
            read_faults: 0,
            write_faults: 0,
            failed: false,
        }
    }

    fn read_fault(&mut self) -> Failed
        ensures { self.new ≡ record self.old { read_faults = counted self.old.read_faults; failed = true } }
    {
        self.read_faults = self.read_faults.saturating_add(1);
        self.failed = true;
        Failed
    }

    fn write_fault(&mut self) -> Failed
        ensures { self.new ≡ record self.old { write_faults = counted self.old.write_faults; failed = true } }
    {
        self.write_faults = self.write_faults.saturating_add(1);
        self.failed = true;
        Failed
    }
}

impl<H: Host + Drop> Desk for OsDesk<H> {
    ghost seen = { seen_of };

    fn open_in(&mut self, name: &str) -> Result<(), OpenFault> {
        match self.host.open(name) {
            Ok(file) => {
                self.input = Some(file);
                self.failed = false;
                Ok(())
            }
            Err(_) => {
                let _ = self.read_fault();
                Err(OpenFault::Failed)
            }
        }
    }

    fn read(&mut self, buf: &mut [u8]) -> Result<usize, Failed> {
        let Some(file) = &mut self.input else {
            unreachable!()
        };
        match self.host.read(file, buf) {
            Ok(count) => {
                self.failed = false;
                Ok(count)
            }
            Err(_) => Err(self.read_fault()),
        }
    }

    fn create_out(&mut self, name: &str) -> Result<(), Failed> {
        match self.host.create(name) {
            Ok(file) => {
                self.output = Some(file);
                self.failed = false;
                Ok(())
            }
            Err(_) => Err(self.write_fault()),
        }
    }

    fn write(&mut self, bytes: &[u8]) -> Result<usize, Failed> {
        let Some(file) = &mut self.output else {
            unreachable!()
        };
        match self.host.write(file, bytes) {
            Ok(written) if written > 0 => {
                self.failed = false;
                Ok(written)
            }
            _ => Err(self.write_fault()),
        }
    }

    fn finish(&mut self) -> Result<(), Failed> {
        let Some(file) = &mut self.output else {
            unreachable!()
        };
        match self.host.flush(file) {
            Ok(()) => {
                self.output = None;
                self.failed = false;
                Ok(())
            }
            Err(_) => Err(self.write_fault()),
        }
    }

    fn say(&mut self, bytes: &[u8]) -> Result<usize, Failed> {
        match self.host.say(bytes) {
            Ok(said) if said > 0 => {
                self.failed = false;
                Ok(said)
            }
            _ => Err(self.write_fault()),
        }
    }
}
