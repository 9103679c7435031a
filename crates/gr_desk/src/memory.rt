//! A desk in memory.

ghost use Rattle.std.specs.Prelude.{◌≡◌, ◌≢◌, ◌<◌, ◌≤◌, ◌+◌, ◌-◌, ◌^◌, ◌↔◌, ◌||◌, not, min, length, [], IsTrue, is_none, is_err, IsErr, OnOk, IfOk, IfSome, string_bytes, option_map, find, ◌==◌, if◌then◌else◌};
ghost use Rattle.gr_desk.specs.Ports.{number};
ghost use Rattle.std.specs.Io.{ReadsAtMost, WritesAtMost};
ghost use Rattle.gr_desk.specs.Calls.{Opens, Creates, Reads, Writes, IsOrderlyOpen, IsOrderlyCreate, IsOrderlyRead, IsOrderlyWrite};
ghost use Rattle.gr_desk.specs.Files.{file_number, bytes_under};
ghost use Rattle.gr_desk.specs.Memory.{told_of, is_listed, expected_of, IsNewDesk, Counts, starved_after, left_at};

use crate::desk::Desk;
use crate::fail::{CallKind, Fail};
use crate::failed::Failed;
use crate::fault_counts::FaultCounts;
use crate::port::Port;
use crate::reading::find_file;
use crate::slot::Slot;
use crate::state::State;
use crate::step::Step;
use std::alloc::Global;

/// The calls of one kind at one port are counted up to this number, which no `Fail` names.
const CALLS_COUNTED: u64 = 1 << 32;

/// A desk over named bytes in memory, which tells all that it does. A read or a write moves as much as it can, but for
/// at most a step of bytes.
///
/// Its calls fail where they are listed, where an `open` names no file, and where a `create` or a `write` finds no
/// memory; no other call does.
#[derive(Drop)]
pub struct MemDesk {
    alloc: Global,
    files: Vec<(String, Vec<u8>)>,
    failing: Vec<Fail>,
    names: Vec<(Port, String)>,
    slots: [Slot; 10],
    calls: [u64; 40],
    step: Step,
    strayed: bool,
    faults: FaultCounts,
    starved: u64,
}

impl MemDesk {
    /// A desk over these files, of which the listed calls fail. It expects no name.
    pub fn new(alloc: Global, files: Vec<(String, Vec<u8>)>, failing: Vec<Fail>) -> MemDesk
        ensures { IsNewDesk result files.items failing [] (2 ^ 64 - 1) }
    {
        MemDesk::expecting(alloc, files, failing, Vec::new(alloc))
    }

    /// The same desk, which expects at each port the name in the first pair for it.
    pub fn expecting(
        alloc: Global,
        files: Vec<(String, Vec<u8>)>,
        failing: Vec<Fail>,
        names: Vec<(Port, String)>,
    ) -> MemDesk
        ensures { IsNewDesk result files.items failing names.items (2 ^ 64 - 1) }
    {
        MemDesk::expecting_by_steps(alloc, files, failing, names, usize::MAX)
    }

    /// A desk as in `new`, whose reads and writes each move at most `step` bytes.
    pub fn with_step(
        alloc: Global,
        files: Vec<(String, Vec<u8>)>,
        failing: Vec<Fail>,
        step: usize,
    ) -> MemDesk
        requires { 1 ≤ step }
        ensures { IsNewDesk result files.items failing [] step }
    {
        MemDesk::expecting_by_steps(alloc, files, failing, Vec::new(alloc), step)
    }

    /// A desk as in `expecting`, whose reads and writes each move at most `step` bytes.
    pub fn expecting_by_steps(
        alloc: Global,
        files: Vec<(String, Vec<u8>)>,
        failing: Vec<Fail>,
        names: Vec<(Port, String)>,
        step: usize,
    ) -> MemDesk
        requires { 1 ≤ step }
        ensures { IsNewDesk result files.items failing names.items step }
    {
        MemDesk {
            alloc,
            files,
            failing,
            names,
            slots: [
                Slot::fresh(alloc),
                Slot::fresh(alloc),
                Slot::fresh(alloc),
                Slot::fresh(alloc),
                Slot::fresh(alloc),
                Slot::fresh(alloc),
                Slot::fresh(alloc),
                Slot::fresh(alloc),
                Slot::fresh(alloc),
                Slot::fresh(alloc),
            ],
            calls: [0; 40],
            step: Step::new(step),
            strayed: false,
            faults: FaultCounts::none(),
            starved: 0,
        }
    }

    /// The bytes written at a port since its last `create`.
    pub fn written(&self, port: Port) -> &[u8]
        ensures { ((told_of self.now).ports port).written ≡ Some result.now }
    {
        self.slots[port.number()].written.as_slice()
    }

    /// A count that rises where a call fails for want of memory.
    pub fn starved(&self) -> u64
        ensures { result ≡ self.now.starved }
    {
        self.starved
    }

    /// Whether some call came out of order.
    pub fn strayed(&self) -> bool
        ensures { (told_of self.now).strayed ≡ Some result }
    {
        self.strayed
    }

    // Begins a call that is in order or not; whether it is listed as failing.
    fn begin(&mut self, port: Port, kind: CallKind, orderly: bool) -> bool
        ensures listed { result ≡ is_listed self.old port kind }
        ensures begun { self.new ≡ record self.old { calls = self.new.calls; strayed = self.old.strayed || not orderly } }
        ensures calls { Counts self.old self.new port kind }
    {
        let listed = self.is_listed(port, kind);
        let place = port.number() * 4 + kind.number();
        self.calls[place] = self.calls[place].saturating_add(1).min(CALLS_COUNTED);
        self.strayed = self.strayed || !orderly;
        listed
    }

    fn is_listed(&self, port: Port, kind: CallKind) -> bool
        ensures { result ≡ is_listed self.now port kind }
    {
        let nth = self.calls[port.number() * 4 + kind.number()];
        self.failing.iter().any(|f| {
            f.port.number() == port.number()
                && f.call.number() == kind.number()
                && f.nth as u64 == nth
        })
    }

    fn pair_for(&self, port: Port) -> Option<&(Port, String)>
        ensures { option_map (λ p. p.now) result ≡ find (λ n. number n.0 == number port) self.now.names.items }
    {
        self.names.iter().find(|n| n.0.number() == port.number())
    }

    fn expects(&self, port: Port, name: &str) -> bool
        ensures { IsTrue result ↔ (expected_of self.now.names.items port ≡ Some name.now) }
    {
        match self.pair_for(port) {
            None => false,
            Some(n) => n.1.as_str() == name,
        }
    }

    fn is_in(&self, port: Port, state: State) -> bool
        ensures { IsTrue result ↔ (((told_of self.now).ports port).state ≡ Some state) }
    {
        self.slots[port.number()].state == state
    }

    fn opens_in_order(&self, port: Port, name: &str) -> bool
        ensures { IsTrue result ↔ IsOrderlyOpen (told_of self.now) port name.now }
    {
        port.is_input() && self.is_in(port, State::Fresh) && self.expects(port, name)
    }

    fn creates_in_order(&self, port: Port, name: &str) -> bool
        ensures { IsTrue result ↔ IsOrderlyCreate (told_of self.now) port name.now }
    {
        port.is_output() && self.is_in(port, State::Fresh) && self.expects(port, name)
    }

    fn reads_in_order(&self, port: Port) -> bool
        ensures { IsTrue result ↔ IsOrderlyRead (told_of self.now) port }
    {
        port.is_input() && self.is_in(port, State::Ready)
    }

    fn writes_in_order(&self, port: Port) -> bool
        ensures { IsTrue result ↔ IsOrderlyWrite (told_of self.now) port }
    {
        matches!(port, Port::Report) || (port.is_output() && self.is_in(port, State::Ready))
    }

    // The file of that name, where the call is not listed as failing.
    fn file_unless(&self, listed: bool, name: &str) -> Option<usize>
        ensures { result ≡ (if listed then None else file_number self.now.files.items name.now) }
    {
        if listed {
            return None;
        }
        find_file(&self.files, name)
    }

    // A copy of the name, where the call is not listed as failing and there is memory.
    fn copy_unless(&self, listed: bool, name: &str) -> Option<String>
        ensures copy { IfSome result (λ n. string_bytes n ≡ name.now) }
        ensures listed { IsTrue listed → result ≡ None }
    {
        if listed {
            return None;
        }
        String::from_str(self.alloc, name).ok()
    }
}

// The count, with one more if it is so; it stands still at its last value.
fn one_more_if(more: bool, count: u64) -> u64
    ensures { result ≡ (if more then min (count + 1) (2 ^ 64 - 1) else count) }
{
    if more { count.saturating_add(1) } else { count }
}

impl Desk for MemDesk {
    ghost told = { told_of };

    fn open(&mut self, port: Port, name: &str) -> Result<(), Failed>
        ensures does { Opens (told_of self.old) (told_of self.new) port name.now result }
        ensures exact { is_err result ≡ (is_listed self.old port CallKind.Open || is_none (bytes_under self.old.files.items name.now)) }
        ensures counted { Counts self.old self.new port CallKind.Open }
        ensures starved { self.new.starved ≡ self.old.starved }
    {
        let orderly = self.opens_in_order(port, name);
        let listed = self.begin(port, CallKind::Open, orderly);
        let file = self.file_unless(listed, name);
        if self.slots[port.number()].open(file) {
            return Ok(());
        }
        Err(self.faults.count_in())
    }

    fn create(&mut self, port: Port, name: &str) -> Result<(), Failed>
        ensures does { Creates (told_of self.old) (told_of self.new) port name.now result }
        ensures listed { IsTrue (is_listed self.old port CallKind.Create) → IsErr result }
        ensures counted { Counts self.old self.new port CallKind.Create }
        ensures starved { self.new.starved ≡ starved_after self.old port CallKind.Create (is_err result) }
    {
        let orderly = self.creates_in_order(port, name);
        let listed = self.begin(port, CallKind::Create, orderly);
        let target = self.copy_unless(listed, name);
        if self.slots[port.number()].create(target) {
            return Ok(());
        }
        self.starved = one_more_if(!listed, self.starved);
        Err(self.faults.count_out())
    }

    fn read(&mut self, port: Port, buf: &mut [u8]) -> Result<usize, Failed>
        ensures bound { ReadsAtMost result buf.new }
        ensures does { Reads (told_of self.old) (told_of self.new) port result buf.new }
        ensures moved { IfOk result (λ n. n ≡ min (length (left_at self.old port)) (min self.old.step (length buf.new))) }
        ensures exact { is_err result ≡ is_listed self.old port CallKind.Read }
        ensures counted { Counts self.old self.new port CallKind.Read }
        ensures starved { self.new.starved ≡ self.old.starved }
    {
        let orderly = self.reads_in_order(port);
        if self.begin(port, CallKind::Read, orderly) {
            return Err(self.faults.count_in());
        }
        let most = self.step.of(buf.len());
        Ok(self.slots[port.number()].read(&self.files, buf, most))
    }

    fn write(&mut self, port: Port, bytes: &[u8]) -> Result<usize, Failed>
        ensures bound { WritesAtMost result bytes.now }
        ensures some { 0 < length bytes.now → OnOk result (result ≢ Ok 0) }
        ensures does { Writes (told_of self.old) (told_of self.new) port result bytes.now }
        ensures moved { IfOk result (λ n. n ≡ min self.old.step (length bytes.now)) }
        ensures listed { IsTrue (is_listed self.old port CallKind.Write) → IsErr result }
        ensures counted { Counts self.old self.new port CallKind.Write }
        ensures starved { self.new.starved ≡ starved_after self.old port CallKind.Write (is_err result) }
    {
        let orderly = self.writes_in_order(port);
        if self.begin(port, CallKind::Write, orderly) {
            return Err(self.faults.count_out());
        }
        let count = self.step.of(bytes.len());
        if self.slots[port.number()].write(&bytes[..count]) {
            return Ok(count);
        }
        self.starved = one_more_if(true, self.starved);
        Err(self.faults.count_out())
    }
}
