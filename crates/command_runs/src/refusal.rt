//! Why a run ends without a report.

ghost use Rattle.std.specs.Prelude.{◌≡◌};
ghost use Rattle.command_runs.specs.declared.refusal.Refusal.TheVariants.{NoMemory};
ghost use Rattle.command_runs.specs.Lines.{status_of};
ghost use Rattle.command_runs.specs.JudgedTexts.{of_route_error, of_cert_error, of_edit_error};
ghost use Rattle.command_runs.specs.Steps.{of_input_error, of_ground_error};

use crate::text_fault::TextFault;
use cert_text::CertError;
use edit_text::EditTextError;
use grid_graph::{GroundError, UnreachableNet};
use ispd_reader::{InputError, InputFault};
use route_text::RouteError;
use thiserror::Error;

/// Why a run ends before it creates a file or says its answer. A file or a report that can't be written is no refusal: it has
/// status 7.
#[derive(Clone, Copy, Debug, Drop, PartialEq, Eq, Error)]
pub enum Refusal {
    /// The words are no command.
    #[error("the words are no command")]
    NoCommand,
    /// The input is no design.
    #[error("{0}")]
    Input(InputFault),
    /// A text that is read beside a design is no route text, no certificate or no text of edits.
    #[error("{0}")]
    Text(TextFault),
    /// Neither open nor choked edges join a net's terminals.
    #[error("{0}")]
    Unreachable(UnreachableNet),
    /// A file could not be opened or read.
    #[error("a file can't be read")]
    Unread,
    /// Want of memory.
    #[error("want of memory")]
    NoMemory,
}

impl Refusal {
    /// The status that the program ends with.
    pub fn status(self) -> u8
        ensures { result ≡ status_of self }
    {
        match self {
            Refusal::NoCommand => 2,
            Refusal::Input(_) => 3,
            Refusal::Text(_) => 4,
            Refusal::Unreachable(_) => 5,
            Refusal::Unread => 6,
            Refusal::NoMemory => 8,
        }
    }
}

impl From<InputError> for Refusal {
    ghost from_gives = { λ error refusal. refusal ≡ of_input_error error };

    fn from(error: InputError) -> Refusal {
        match error {
            InputError::Input(fault) => Refusal::Input(fault),
            InputError::NoMemory => Refusal::NoMemory,
        }
    }
}

impl From<GroundError> for Refusal {
    ghost from_gives = { λ error refusal. refusal ≡ of_ground_error error };

    fn from(error: GroundError) -> Refusal {
        match error {
            GroundError::Unreachable(net) => Refusal::Unreachable(net),
            GroundError::NoMemory => Refusal::NoMemory,
        }
    }
}

impl From<RouteError> for Refusal {
    ghost from_gives = { λ error refusal. refusal ≡ of_route_error error };

    fn from(error: RouteError) -> Refusal {
        match error {
            RouteError::Syntax { at } => Refusal::Text(TextFault::Routes { at }),
            RouteError::NoMemory => Refusal::NoMemory,
        }
    }
}

impl From<CertError> for Refusal {
    ghost from_gives = { λ error refusal. refusal ≡ of_cert_error error };

    fn from(error: CertError) -> Refusal {
        match error {
            CertError::Syntax { at } => Refusal::Text(TextFault::Certificate { at }),
            CertError::PriceLimit { at } => Refusal::Text(TextFault::Price { at }),
            CertError::NumberLimit { at } => Refusal::Text(TextFault::Number { at }),
            CertError::NoMemory => Refusal::NoMemory,
        }
    }
}

impl From<EditTextError> for Refusal {
    ghost from_gives = { λ error refusal. refusal ≡ of_edit_error error };

    fn from(error: EditTextError) -> Refusal {
        match error {
            EditTextError::Syntax { at } => Refusal::Text(TextFault::Edits { at }),
            EditTextError::NoMemory => Refusal::NoMemory,
        }
    }
}

impl From<grid_base::NoMemory> for Refusal {
    ghost from_gives = { λ _ refusal. refusal ≡ NoMemory };

    fn from(_: grid_base::NoMemory) -> Refusal {
        Refusal::NoMemory
    }
}
