//! The forms of arguments that the programs take, and how their values are read.
ghost use Rattle.std.specs.Prelude.{◌≡◌, IfOk, Some, None, true, false, map};
ghost use Rattle.clap.specs.Words.{rule_of, first_of, all_of, with_rule, with_subcommand, new_app, App, Rule};
ghost use Rattle.command_words.specs.Rules.{HasWords, Makes, flag_rule, switch_rule, option_rule, hyphened_option_rule, options_rule, short_option_rule, word_rule, words_rule, any_words_rule};
ghost use Rattle.command_words.specs.Meaning.{is_set, rows_in};

use crate::command::Paths;
use clap::{Arg, ArgAction, ArgMatches};
use history_model::Text;
use std::alloc::{AllocError, Global};

/// A flag of one letter.
pub fn flag<'a>(alloc: Global, id: &'a str, letter: char, help: &'a str) -> Arg<'a>
    ensures rule { rule_of result ≡ flag_rule id.now letter }
    ensures local { result.global ≡ false }
{
    Arg::new(alloc, id)
        .short(letter)
        .action(ArgAction::SetTrue)
        .help(help)
}

/// An option with a value.
pub fn option<'a>(
    alloc: Global,
    id: &'a str,
    required: bool,
    value: &'a str,
    help: &'a str,
) -> Arg<'a>
    ensures rule { rule_of result ≡ option_rule id.now required }
    ensures local { result.global ≡ false }
{
    Arg::new(alloc, id)
        .long(id)
        .required(required)
        .value_name(value)
        .help(help)
}

/// An option with a value that may begin with a hyphen.
pub fn hyphened_option<'a>(alloc: Global, id: &'a str, value: &'a str, help: &'a str) -> Arg<'a>
    ensures rule { rule_of result ≡ hyphened_option_rule id.now }
    ensures local { result.global ≡ false }
{
    option(alloc, id, false, value, help).allow_hyphen_values(true)
}

/// An option with a value, which may be given more than once.
pub fn options<'a>(alloc: Global, id: &'a str, value: &'a str, help: &'a str) -> Arg<'a>
    ensures rule { rule_of result ≡ options_rule id.now }
    ensures local { result.global ≡ false }
{
    Arg::new(alloc, id)
        .long(id)
        .action(ArgAction::Append)
        .value_name(value)
        .help(help)
}

/// A flag by its name.
pub fn switch<'a>(alloc: Global, id: &'a str, help: &'a str) -> Arg<'a>
    ensures rule { rule_of result ≡ switch_rule id.now }
    ensures local { result.global ≡ false }
{
    Arg::new(alloc, id)
        .long(id)
        .action(ArgAction::SetTrue)
        .help(help)
}

/// An option of one letter, with a value.
pub fn short_option<'a>(
    alloc: Global,
    id: &'a str,
    letter: char,
    value: &'a str,
    help: &'a str,
) -> Arg<'a>
    ensures rule { rule_of result ≡ short_option_rule id.now letter }
    ensures local { result.global ≡ false }
{
    Arg::new(alloc, id)
        .short(letter)
        .value_name(value)
        .help(help)
}

/// A required argument.
pub fn word<'a>(alloc: Global, id: &'a str, value: &'a str, help: &'a str) -> Arg<'a>
    ensures rule { rule_of result ≡ word_rule id.now }
    ensures local { result.global ≡ false }
{
    Arg::new(alloc, id)
        .required(true)
        .value_name(value)
        .help(help)
}

/// One argument or more.
pub fn words<'a>(alloc: Global, id: &'a str, value: &'a str, help: &'a str) -> Arg<'a>
    ensures rule { rule_of result ≡ words_rule id.now }
    ensures local { result.global ≡ false }
{
    Arg::new(alloc, id)
        .action(ArgAction::Append)
        .required(true)
        .value_name(value)
        .help(help)
}

/// Any number of arguments.
pub fn any_words<'a>(alloc: Global, id: &'a str, value: &'a str, help: &'a str) -> Arg<'a>
    ensures rule { rule_of result ≡ any_words_rule id.now }
    ensures local { result.global ≡ false }
{
    Arg::new(alloc, id)
        .action(ArgAction::Append)
        .value_name(value)
        .help(help)
}

/// A command with no argument yet; `after` ends its help.
pub fn bare<'a>(alloc: Global, name: &'a str, about: &'a str, after: &'a str) -> clap::Command<'a>
    ensures { HasWords (new_app name.now) result }
{
    clap::Command::new(alloc, name)
        .about(about)
        .after_help(after)
}

// A command that is kept across a `?` is dear to prove, so what makes one takes and gives a `Result`.

/// The command with an argument more; want of memory is passed on.
pub fn add_arg<'a>(
    command: Result<clap::Command<'a>, AllocError>,
    arg: Arg<'a>,
) -> Result<clap::Command<'a>, AllocError>
    requires local { arg.global ≡ false }
    ensures { (a : App) (r : Rule) → Makes command.entry a → rule_of arg.entry ≡ r
        → Makes result (with_rule a r) }
{
    match command {
        Ok(command) => command.arg(arg),
        Err(e) => {
            drop(arg);
            Err(e)
        }
    }
}

/// The command with a subcommand more, if both are there.
pub fn add_subcommand<'a>(
    command: Result<clap::Command<'a>, AllocError>,
    subcommand: Result<clap::Command<'a>, AllocError>,
) -> Result<clap::Command<'a>, AllocError>
    ensures { (a s : App) → Makes command.entry a → Makes subcommand.entry s
        → Makes result (with_subcommand a s.top) }
{
    match command {
        Ok(command) => match subcommand {
            Ok(subcommand) => command.subcommand(subcommand),
            Err(e) => {
                drop(command);
                Err(e)
            }
        },
        Err(e) => {
            drop(subcommand);
            Err(e)
        }
    }
}

/// Whether a flag was given.
pub fn is_set(found: &ArgMatches<'_>, id: &str) -> bool
    ensures { result ≡ is_set id.now (rows_in found.now) }
{
    match found.get_str(id) {
        Some(text) => text == "true",
        None => false,
    }
}

/// A copy of the value of an option or an argument, if it was given.
pub fn value_of(alloc: Global, found: &ArgMatches<'_>, id: &str) -> Result<Option<Text>, AllocError>
    ensures { IfOk result (λ value. value ≡ first_of id.now (rows_in found.now)) }
{
    match found.get_str(id) {
        Some(text) => match Text::copy_of(alloc, text) {
            Ok(copy) => Ok(Some(copy)),
            Err(e) => Err(e),
        },
        None => Ok(None),
    }
}

/// Copies of the values of an argument, if it was given.
pub fn values_of(
    alloc: Global,
    found: &ArgMatches<'_>,
    id: &str,
) -> Result<Option<Paths>, AllocError>
    ensures { IfOk result (λ values. values ≡ all_of id.now (rows_in found.now)) }
{
    match found.get_strs(id) {
        Some(texts) => match copies_of(alloc, texts) {
            Ok(copies) => Ok(Some(copies)),
            Err(e) => Err(e),
        },
        None => Ok(None),
    }
}

fn copies_of(alloc: Global, texts: &[&str]) -> Result<Paths, AllocError>
    ensures { IfOk result (λ copies. copies ≡ map (λ t. t.now) texts.now) }
{
    let mut items = Vec::new(alloc);
    for text in texts {
        items.push(Text::copy_of(alloc, text)?)?;
    }
    Ok(Paths::new(items))
}
