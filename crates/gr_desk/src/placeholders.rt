//! What stands in the place of a standard stream that is closed.

use std::fs;
use std::rt::Files;

/// What is opened, to read alone. A folder is there everywhere, and no read and no write of it succeeds.
const FOLDER: &str = "/";

/// A folder that is open three times, as often as there are standard streams. The system gives what is opened the least
/// number that is free. So where input, output or error was closed before the run, its number is that of the folder.
#[derive(Drop)]
pub(crate) struct Placeholders<F> {
    _first: Option<F>,
    _second: Option<F>,
    _third: Option<F>,
}

impl<F> Placeholders<F> {
    /// The folder, opened by this runtime as often as it does so.
    pub fn open<R: Files<File = F>>(rt: &R) -> Placeholders<F> {
        Placeholders {
            _first: fs::open(rt, FOLDER).ok(),
            _second: fs::open(rt, FOLDER).ok(),
            _third: fs::open(rt, FOLDER).ok(),
        }
    }
}
