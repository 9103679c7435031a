//! What a port has been through.

/// The state of a port: `Fresh` until its first `open` or `create`, and after that how its last one ended.
#[derive(Clone, Copy, Debug, PartialEq, Eq)]
pub enum State {
    Fresh,
    Ready,
    Refused,
}
