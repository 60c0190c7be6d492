//! Subcommands and their arguments as data, and the commands of clap that they make.
ghost use Rattle.std.specs.Prelude.{◌≡◌, false};
ghost use Rattle.clap.specs.Words.{App, rule_of};
ghost use Rattle.command_words.specs.Rules.{Makes};
ghost use Rattle.command_words.specs.Forms.{rule_in, app_in, with_all};

use crate::arguments::{
    add_arg, add_subcommand, any_words, bare, flag, hyphened_option, option, options, short_option,
    switch, word, words,
};
use clap::Arg;
use std::alloc::{AllocError, Global};

/// What an argument is.
#[derive(Clone, Copy)]
pub(crate) enum Form {
    /// A flag of one letter, as -w.
    Letter(char),
    /// A flag by the argument's name, as --strict.
    Switch,
    /// A value after the argument's name, as --socket PATH.
    Value { required: bool },
    /// A value after the argument's name that may begin with a hyphen, as --since -2h.
    AnyValue,
    /// A value after the argument's name, which may be given more than once, as --journal PATH.
    Values,
    /// A value after a letter, as -n COUNT.
    ShortValue(char),
    /// A required argument.
    Word,
    /// One argument or more.
    Words,
    /// Any number of arguments.
    AnyWords,
}

/// An argument: its name, what it is, how its value is called, and its help.
pub(crate) struct Argument {
    pub(crate) id: &'static str,
    pub(crate) form: Form,
    pub(crate) value: &'static str,
    pub(crate) help: &'static str,
}

/// A subcommand: its name, what it does, what ends its help, and its arguments.
pub(crate) struct Subcommand {
    pub(crate) name: &'static str,
    pub(crate) about: &'static str,
    pub(crate) after: &'static str,
    pub(crate) arguments: &'static [Argument],
}

fn argument_of<'a>(alloc: Global, of: &Argument) -> Arg<'a>
    ensures rule { rule_of result ≡ rule_in of.now }
    ensures local { result.global ≡ false }
{
    match of.form {
        Form::Letter(letter) => flag(alloc, of.id, letter, of.help),
        Form::Switch => switch(alloc, of.id, of.help),
        Form::Value { required } => option(alloc, of.id, required, of.value, of.help),
        Form::AnyValue => hyphened_option(alloc, of.id, of.value, of.help),
        Form::Values => options(alloc, of.id, of.value, of.help),
        Form::ShortValue(letter) => short_option(alloc, of.id, letter, of.value, of.help),
        Form::Word => word(alloc, of.id, of.value, of.help),
        Form::Words => words(alloc, of.id, of.value, of.help),
        Form::AnyWords => any_words(alloc, of.id, of.value, of.help),
    }
}

fn subcommand_of<'a>(alloc: Global, of: &Subcommand) -> Result<clap::Command<'a>, AllocError>
    ensures { Makes result (app_in of.now) }
{
    let mut command = Ok(bare(alloc, of.name, of.about, of.after));
    for argument in of.arguments {
        command = add_arg(command, argument_of(alloc, argument));
    }
    command
}

/// The command with these subcommands; want of memory is passed on.
pub(crate) fn with_subcommands<'a>(
    alloc: Global,
    command: Result<clap::Command<'a>, AllocError>,
    all: &[Subcommand],
) -> Result<clap::Command<'a>, AllocError>
    ensures { (a : App) → Makes command.entry a → Makes result (with_all a all.now) }
{
    let mut command = command;
    for one in all {
        command = add_subcommand(command, subcommand_of(alloc, one));
    }
    command
}
