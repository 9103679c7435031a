//! Bytes on their way to a desk.

ghost use Rattle.std.specs.Prelude.{◌≡◌, [], false, ℕ, List};
ghost use Rattle.gr_desk.specs.Told.{Told};
ghost use Rattle.gr_desk.specs.Pens.{Puts, IsPut, Ends, pen_told, HasSameDesk};

use crate::desk::Desk;
use crate::failed::Failed;
use crate::held::{Held, ROOM};
use crate::port::Port;
use crate::whole::write_all;
use itoa::{Buffer, Integer};

/// Writes a text to one port of a desk in turns, and takes no memory: bytes are held back in a fixed array until there
/// are enough for a call of the desk. Only `finish` writes the last of them.
///
/// Once a write has failed, what is put goes nowhere, and `finish` says so.
pub struct Pen<'a, D: Desk> {
    desk: &'a mut D,
    port: Port,
    held: Held,
    failed: bool,
}

impl<'a, D: Desk> Pen<'a, D> {
    /// A pen that nothing was put with.
    pub fn new(desk: &'a mut D, port: Port) -> Self
        ensures same_desk { result.desk.ghost_name ≡ desk.entry.ghost_name }
        ensures told { D.told result.desk.now ≡ D.told desk.old }
        ensures port { result.port ≡ port }
        ensures nothing { result.held ≡ [] }
        ensures well { result.failed ≡ false }
    {
        Pen {
            desk,
            port,
            held: Held::new(),
            failed: false,
        }
    }

    /// Puts the bytes behind those that were put before.
    pub fn put(&mut self, bytes: &[u8])
        ensures same_desk { HasSameDesk self.old self.new }
        ensures puts { Puts (pen_told D.told self.old) (pen_told D.told self.new) bytes.now }
    {
        if bytes.len() > self.held.room() {
            self.flush();
        }
        if bytes.len() > ROOM {
            self.pass(bytes);
        } else {
            self.held.add(bytes);
        }
    }

    /// Puts a number in decimal digits.
    pub fn put_number<I: Integer>(&mut self, number: I)
        ensures same_desk { HasSameDesk self.old self.new }
        ensures puts { Puts (pen_told D.told self.old) (pen_told D.told self.new) (I.text number) }
    {
        self.put(Buffer::new().format(number).as_bytes());
    }

    /// Writes all that was put, and says whether it could.
    pub fn finish(self) -> Result<(), Failed>
        ensures { (start : Told) (text : List ℕ) → IsPut start (pen_told D.told self.entry) text → Ends start (D.told self.exit.0.now) self.entry.port text result }
    {
        let Pen {
            desk,
            port,
            held,
            failed,
        } = self;
        if failed {
            return Err(Failed);
        }
        write_all(desk, port, held.bytes())
    }

    /// Writes what is held back.
    fn flush(&mut self)
        ensures same_desk { HasSameDesk self.old self.new }
        ensures puts { Puts (pen_told D.told self.old) (pen_told D.told self.new) [] }
        ensures empty { self.new.held ≡ [] }
    {
        if !self.failed {
            self.failed = write_all(self.desk, self.port, self.held.bytes()).is_err();
        }
        self.held.clear();
    }

    /// Writes bytes at once, where none are held back.
    fn pass(&mut self, bytes: &[u8])
        requires { self.old.held ≡ [] }
        ensures same_desk { HasSameDesk self.old self.new }
        ensures puts { Puts (pen_told D.told self.old) (pen_told D.told self.new) bytes.now }
    {
        if !self.failed {
            self.failed = write_all(self.desk, self.port, bytes).is_err();
        }
    }
}
