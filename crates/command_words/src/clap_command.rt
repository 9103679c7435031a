//! A command as clap knows it.

ghost use Rattle.std.specs.Prelude.{◌≡◌, IfOk, fold, map};
ghost use Rattle.clap.specs.Words.{app_of, with_rule};
ghost use Rattle.command_words.specs.Apps.{app_of_kind, option_rule};

use crate::kind::Kind;
use crate::option_name::OptionName;
use clap::Command;
use std::alloc::{AllocError, Global};

/// The options of the command. Names are no part of it: they are words as they stand.
pub(crate) fn clap_command<'a>(alloc: Global, kind: Kind) -> Result<Command<'a>, AllocError>
    ensures { IfOk result (λ command. app_of command ≡ app_of_kind kind) }
{
    with_options(alloc, Command::new(alloc, "grouter"), kind.options())
}

fn with_options<'a>(
    alloc: Global,
    mut command: Command<'a>,
    options: &[OptionName],
) -> Result<Command<'a>, AllocError>
    ensures { IfOk result (λ with. app_of with ≡ fold with_rule (app_of command.entry) (map option_rule options.now)) }
{
    for option in options {
        command = command.arg(option.arg(alloc))?;
    }
    Ok(command)
}
