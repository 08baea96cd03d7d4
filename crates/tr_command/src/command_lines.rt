//! Command lines by the arguments of their commands.

ghost use Rattle.std.specs.Prelude.{◌≡◌, IfOk, Ok, false, map};
ghost use Rattle.clap.specs.Words.{app_of, with_subcommand};
ghost use Rattle.clap.specs.declared.builder.command.Command.{Command};
ghost use Rattle.clap.specs.declared.builder.command.Command.TheViews.{out-Command as fields_of};
ghost use Rattle.tr_command.specs.CommandLine.{line_app, rule};

use crate::arguments::{Argument, clap_argument};
use clap::Command;
use std::alloc::{AllocError, Global};

/// The command of this name with these arguments.
///
/// # Errors
///
/// Out of memory.
pub fn command_of<'a>(
    alloc: Global,
    name: &'static str,
    arguments: &'static [Argument],
) -> Result<Command<'a>, AllocError>
    ensures shape { IfOk result (λ c. app_of c ≡ line_app name.entry.now (map rule arguments.entry.now)) }
    ensures local { IfOk result (λ c. (fields_of c).has_globals ≡ false) }
{
    let mut command = Command::new(alloc, name);
    'arguments: for given in arguments {
        command = command.arg(clap_argument(alloc, given))?;
    }
    Ok(command)
}

/// Both of two values that were to be made.
fn both<C: Drop, B: Drop>(
    one: Result<C, AllocError>,
    other: Result<B, AllocError>,
) -> Result<(C, B), AllocError>
    ensures { IfOk result (λ b. (one ≡ Ok b.0) × (other ≡ Ok b.1)) }
{
    match (one, other) {
        (Ok(one), Ok(other)) => Ok((one, other)),
        _ => Err(AllocError),
    }
}

/// A command with one more below it, if both were made.
///
/// # Errors
///
/// Out of memory, also if that is why one of them wasn't made.
pub fn joined<'a>(
    command: Result<Command<'a>, AllocError>,
    below: Result<Command<'a>, AllocError>,
) -> Result<Command<'a>, AllocError>
    ensures { IfOk result (λ r. (c : Command) × (b : Command) × (command.entry ≡ Ok c) × (below.entry ≡ Ok b)
        × ((fields_of b).has_globals ≡ false → app_of r ≡ with_subcommand (app_of c) (app_of b).top)) }
{
    let (command, below) = both(command, below)?;
    command.subcommand(below)
}
