//! One port of a desk in memory.

ghost use Rattle.std.specs.Prelude.{◌≡◌, ◌<◌, ◌≤◌, ◌++◌, [], length, min, take, IsTrue, false, is_some, IfSome, IfNone};
ghost use Rattle.gr_desk.specs.Files.{left_of};
ghost use Rattle.gr_desk.specs.Slot.{IsUntouched, IsCreated, opened_slot};

use crate::reading::Reading;
use crate::state::State;
use std::alloc::Global;

/// What a desk in memory keeps of one port.
#[derive(Drop)]
pub struct Slot {
    pub(crate) reading: Reading,
    pub(crate) written: Vec<u8>,
    pub(crate) target: Option<String>,
    pub(crate) state: State,
}

impl Slot {
    /// A port that nothing was done at.
    pub(crate) fn fresh(alloc: Global) -> Slot
        ensures { IsUntouched result }
    {
        Slot {
            reading: Reading::none(),
            written: Vec::new(alloc),
            target: None,
            state: State::Fresh,
        }
    }

    /// An `open` of that file, or of none; whether there was one.
    pub(crate) fn open(&mut self, file: Option<usize>) -> bool
        ensures done { result ≡ is_some file }
        ensures slot { self.new ≡ opened_slot self.old file }
    {
        self.state = match file {
            None => State::Refused,
            Some(_) => State::Ready,
        };
        if file.is_none() {
            return false;
        }
        self.reading = Reading { file, at: 0 };
        true
    }

    /// A `create` of that name, or of none; whether there was one.
    pub(crate) fn create(&mut self, target: Option<String>) -> bool
        ensures done { result ≡ is_some target }
        ensures ok { IfSome target (λ t. IsCreated self.old self.new t) }
        ensures err { IfNone target (self.new ≡ record self.old { state = State.Refused }) }
    {
        if target.is_none() {
            self.state = State::Refused;
            return false;
        }
        self.written.clear();
        self.target = target;
        self.state = State::Ready;
        true
    }

    /// Moves at most `most` bytes of what is left to be read into the front of `buf`, and answers how many bytes that were.
    pub(crate) fn read(&mut self, files: &[(String, Vec<u8>)], buf: &mut [u8], most: usize) -> usize
        requires { most ≤ length buf.old }
        ensures bound { result ≤ length buf.new }
        ensures moved { result ≡ min (length (left_of files.now self.old.reading)) most }
        ensures taken { left_of files.now self.old.reading ≡ take result buf.new ++ left_of files.now self.new.reading }
        ensures end { result ≡ 0 → 0 < most → left_of files.now self.new.reading ≡ [] }
        ensures only { self.new ≡ record self.old { reading = self.new.reading } }
    {
        self.reading.read(files, buf, most)
    }

    /// Appends bytes, where there is memory for them.
    pub(crate) fn write(&mut self, bytes: &[u8]) -> bool
        ensures ok { IsTrue result → self.new.written.items ≡ self.old.written.items ++ bytes.now }
        ensures err { (result ≡ false) → self.new.written.items ≡ self.old.written.items }
        ensures only { self.new ≡ record self.old { written = self.new.written } }
    {
        self.written.extend_from_slice(bytes).is_ok()
    }
}
