//! Why a port could not be read whole.

use thiserror::Error;

/// Why `read_port` has no bytes to give.
#[derive(Clone, Copy, Debug, PartialEq, Eq, Error)]
pub enum PortFault {
    #[error("more bytes than the limit")]
    TooLong,
    #[error("a read failed")]
    Failed,
    #[error("want of memory")]
    NoMemory,
}
