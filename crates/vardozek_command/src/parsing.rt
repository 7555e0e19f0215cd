//! The command of the table, and the words parsed by it.

use crate::help::PROGRAM_HELP;
use crate::table::{
    ABOUT, Choice, DIFF, GDB, HUNT, Need, Place, RUN, SHELL, TRACE, VIEW, Value, Word,
};
use clap::builder::ValueParser;
use clap::{Arg, ArgAction, ArgMatches, Command, Error};
use evm_host::VERSION;
use std::alloc::{AllocError, Global};

// A word that stands at its place.
fn place_arg<'a>(alloc: Global, place: &Place) -> Result<Arg<'a>, AllocError> {
    let arg = Arg::new(alloc, place.name).help(place.help);
    match place.need {
        Need::Always => Ok(arg.required(true)),
        Need::Never => Ok(arg),
        Need::NeverWith(option) => arg.conflicts_with(option),
        Need::WithoutBoth(option, other) => arg
            .required_unless_present_any(&[option, other])?
            .conflicts_with(option),
        Need::Unless(option) => arg.required_unless_present(option),
        Need::Without(option) => arg.required_unless_present(option)?.conflicts_with(option),
    }
}

// What an option takes.
fn with_value<'a>(arg: Arg<'a>, value: &Value) -> Arg<'a> {
    match *value {
        Value::Flag => arg.action(ArgAction::SetTrue),
        Value::Text(name) => arg.value_name(name),
        Value::Texts(name) => arg.value_name(name).value_delimiter(','),
        Value::Number(name, least, most) => arg
            .value_name(name)
            .value_parser(ValueParser::Unsigned(least, most)),
        Value::Maybe(name, least, most) => arg
            .value_name(name)
            .num_args(0..=1)
            .value_parser(ValueParser::Unsigned(least, most)),
        Value::Two(names, least, most) => arg
            .value_names(names)
            .num_args(2)
            .value_parser(ValueParser::Unsigned(least, most)),
        Value::Numbers(name, least, most) => arg
            .value_name(name)
            .value_delimiter(',')
            .value_parser(ValueParser::Unsigned(least, most)),
        Value::Name(name, names) => arg.value_name(name).value_parser(ValueParser::Names(names)),
        Value::Names(name, names) => arg
            .value_name(name)
            .value_delimiter(',')
            .value_parser(ValueParser::Names(names)),
    }
}

fn option_arg<'a>(alloc: Global, option: &Choice) -> Result<Arg<'a>, AllocError> {
    let arg = Arg::new(alloc, option.name)
        .long(option.name)
        .help(option.help);
    with_value(arg, &option.value).conflicts_with_all(option.excludes)
}

// The command of a word.
fn word_command<'a>(alloc: Global, word: &Word) -> Result<Command<'a>, AllocError> {
    let mut command = Command::new(alloc, word.name)
        .about(word.about)
        .after_help(word.help);
    for place in word.places {
        command = command.arg(place_arg(alloc, place)?)?;
    }
    for option in word.options {
        command = command.arg(option_arg(alloc, option)?)?;
    }
    for option in word.course {
        command = command.arg(option_arg(alloc, option)?.requires_arg("run")?)?;
    }
    Ok(command)
}

// The command of `view`, of which `diff` is a word of its own.
fn view_command<'a>(alloc: Global) -> Result<Command<'a>, AllocError> {
    word_command(alloc, &VIEW)?
        .subcommand_negates_reqs(true)
        .args_conflicts_with_subcommands(true)
        .subcommand(word_command(alloc, &DIFF)?)
}

// The command line.
fn command<'a>(alloc: Global) -> Result<Command<'a>, AllocError> {
    Command::new(alloc, "vardozek")
        .version(VERSION)
        .about(ABOUT)
        .after_help(PROGRAM_HELP)
        .subcommand_required(true)
        .subcommand(word_command(alloc, &RUN)?)?
        .subcommand(view_command(alloc)?)?
        .subcommand(word_command(alloc, &TRACE)?)?
        .subcommand(word_command(alloc, &GDB)?)?
        .subcommand(word_command(alloc, &SHELL)?)?
        .subcommand(word_command(alloc, &HUNT)?)
}

/// The matches of the words.
///
/// # Errors
///
/// The words are no command, ask for help or the version, or an allocation failed.
pub(crate) fn parse<'a>(alloc: Global, words: &'a [String]) -> Result<ArgMatches<'a>, Error> {
    let command = command(alloc)?;
    command.try_get_matches_from(words)
}
