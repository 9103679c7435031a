//! Where the program's bytes come from and go to.
//!
//! A [`Desk`] has ten ports. Reading a port whole and writing a text whole go over any desk:
//!
//! ```text
//! desk.open(Port::In, "one_net.gr")?;
//! let text = read_port(alloc, desk, Port::In, 1 << 30)?;
//! write_all(desk, Port::Report, b"nets 1\n")?;
//! ```
//!
//! It stands on std, on `thiserror`, and on `itoa` for numbers as text. It promises that the bytes moved are those that
//! were left or given, in order, that a call fails only where a count of faults rose and leaves the counts where it is
//! Ok, and that nothing else about the desk changes.
#![tactic(auto)]

mod desk;
mod fail;
mod failed;
mod fault;
mod fault_counts;
mod file_id;
mod file_store;
mod held;
mod known_files;
mod memory;
mod never_fails;
mod open_files;
mod pen;
mod placeholders;
mod port;
mod reading;
mod real;
mod runtime_files;
mod slot;
mod state;
mod step;
mod whole;

pub use desk::Desk;
pub use fail::{CallKind, Fail};
pub use failed::Failed;
pub use fault::PortFault;
pub use file_store::FileStore;
pub use memory::MemDesk;
pub use never_fails::NeverFails;
pub use pen::Pen;
pub use port::Port;
pub use real::RealDesk;
pub use runtime_files::RuntimeFiles;
pub use state::State;
pub use whole::{READ_SIZE, read_port, write_all};
