//! A desk that never fails.

ghost use Rattle.gr_desk.specs.NeverFails.{told_by};
ghost use Rattle.std.specs.Prelude.{◌≡◌, []};

use crate::desk::Desk;
use crate::failed::Failed;
use crate::port::Port;
use crate::reading::{Reading, find_file};

/// A desk over named bytes in memory of which no call fails. A name that it does not know has no bytes, and it keeps
/// nothing of what is written.
#[derive(Drop)]
pub struct NeverFails {
    files: Vec<(String, Vec<u8>)>,
    readings: [Reading; 10],
}

impl NeverFails {
    /// A desk over these files.
    pub fn new(files: Vec<(String, Vec<u8>)>) -> NeverFails
        ensures files { result.files ≡ files }
        ensures rest { (p : Port) → ((told_by result).ports p).rest ≡ Some [] }
    {
        NeverFails {
            files,
            readings: [Reading::none(); 10],
        }
    }
}

impl Desk for NeverFails {
    ghost told = { told_by };

    fn open(&mut self, port: Port, name: &str) -> Result<(), Failed> {
        let file = find_file(&self.files, name);
        self.readings[port.number()] = Reading { file, at: 0 };
        Ok(())
    }

    fn create(&mut self, _port: Port, _name: &str) -> Result<(), Failed> {
        Ok(())
    }

    fn read(&mut self, port: Port, buf: &mut [u8]) -> Result<usize, Failed> {
        let room = buf.len();
        Ok(self.readings[port.number()].read(&self.files, buf, room))
    }

    fn write(&mut self, _port: Port, bytes: &[u8]) -> Result<usize, Failed> {
        Ok(bytes.len())
    }
}
