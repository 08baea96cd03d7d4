//! The three kinds of argument that a command has.

ghost use Rattle.std.specs.Prelude.{◌≡◌, false};
ghost use Rattle.clap.specs.Words.{rule_of};
ghost use Rattle.tr_command.specs.CommandLine.{rule};
ghost use Rattle.tr_command.specs.Ordinary.{is_called, is_place};

use clap::{Arg, ArgAction};
use std::alloc::Global;

/// An argument of a command, with its name.
#[derive(Clone, Copy)]
pub enum Argument {
    /// A required text, by its place among the words.
    Placed(&'static str),
    /// The option `--name TEXT`.
    Named(&'static str),
    /// The flag `--name`.
    Flag(&'static str),
}

impl Argument {
    /// Whether it is given by its place.
    pub fn is_place(&self) -> bool
        ensures { result ≡ is_place self.now }
    {
        match *self {
            Argument::Placed(_) => true,
            Argument::Named(_) | Argument::Flag(_) => false,
        }
    }

    /// Whether it is an option or a flag of this name.
    pub fn is_called(&self, name: &[u8]) -> bool
        ensures { result ≡ is_called name.now self.now }
    {
        match *self {
            Argument::Placed(_) => false,
            Argument::Named(own) | Argument::Flag(own) => own.as_bytes() == name,
        }
    }
}

/// The argument as clap has it.
pub fn clap_argument<'a>(alloc: Global, argument: &Argument) -> Arg<'a>
    ensures rule { rule_of result ≡ rule argument.now }
    ensures local { result.global ≡ false }
{
    match *argument {
        Argument::Placed(name) => Arg::new(alloc, name).required(true),
        Argument::Named(name) => Arg::new(alloc, name).long(name),
        Argument::Flag(name) => Arg::new(alloc, name).action(ArgAction::SetTrue).long(name),
    }
}
