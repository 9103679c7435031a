//! A desk: what the program reads from and writes to.

ghost use Rattle.std.specs.Prelude.{◌≢◌, ◌<◌, length, OnOk};
ghost use Rattle.std.specs.Io.{ReadsAtMost, WritesAtMost};
ghost use Rattle.gr_desk.specs.Told.{Told};
ghost use Rattle.gr_desk.specs.Calls.{Opens, Creates, Reads, Writes};

use crate::failed::Failed;
use crate::port::Port;

/// Ten ports over some store of named bytes.
///
/// A desk has two counts of faults: one rises where an `open` or a `read` fails, and one where a `create` or a `write`
/// does. Both stand still at their last value, and a call that is Ok leaves both. What else it tells of itself (the bytes under each name, what
/// is left to be read, what was written, where to, and whether a call came out of order) it may leave untold, as a desk
/// over files does.
pub trait Desk {
    /// What the desk tells of itself.
    ghost told: { Self → Told };

    /// Makes the bytes under `name` what is left to be read at `port`.
    fn open(&mut self, port: Port, name: &str) -> Result<(), Failed>
        ensures does { Opens (told self.old) (told self.new) port name.now result };

    /// Makes `name` the target of `port`, with nothing written yet.
    fn create(&mut self, port: Port, name: &str) -> Result<(), Failed>
        ensures does { Creates (told self.old) (told self.new) port name.now result };

    /// Moves bytes that are left at `port` into the front of `buf`, and answers how many; 0 with room in `buf` says
    /// that none are left.
    fn read(&mut self, port: Port, buf: &mut [u8]) -> Result<usize, Failed>
        ensures bound { ReadsAtMost result buf.new }
        ensures does { Reads (told self.old) (told self.new) port result buf.new };

    /// Appends bytes from the front of `bytes` to what was written at `port`, and answers how many; at least one where
    /// there are some.
    fn write(&mut self, port: Port, bytes: &[u8]) -> Result<usize, Failed>
        ensures bound { WritesAtMost result bytes.now }
        ensures some { 0 < length bytes.now → OnOk result (result ≢ Ok 0) }
        ensures does { Writes (told self.old) (told self.new) port result bytes.now };
}
