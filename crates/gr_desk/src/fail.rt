//! Calls of a desk in memory that are to fail.

ghost use Rattle.std.specs.Prelude.{◌≡◌, ◌<◌};
ghost use Rattle.gr_desk.specs.Ports.{call_number};

use crate::port::Port;

/// The four calls of a desk.
#[derive(Clone, Copy, Debug, PartialEq, Eq)]
pub enum CallKind {
    Open,
    Create,
    Read,
    Write,
}

impl CallKind {
    /// The place of this call among the four.
    pub(crate) fn number(self) -> usize
        ensures number { result ≡ call_number self }
        ensures bound { result < 4 }
    {
        match self {
            CallKind::Open => 0,
            CallKind::Create => 1,
            CallKind::Read => 2,
            CallKind::Write => 3,
        }
    }
}

/// A call that is to fail: the `nth` of its kind at its port, counted from 0.
#[derive(Clone, Copy, Debug, PartialEq, Eq)]
pub struct Fail {
    pub port: Port,
    pub call: CallKind,
    pub nth: u32,
}
