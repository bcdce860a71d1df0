//! Makes clap's table of a command from its row.
use crate::argument::{ArgumentKind, CommandArgument, Need, OF_ALL, Preset};
use crate::command::CommandRow;
use crate::defaults::Defaults;
use clap::{Arg, ArgAction, Command};
use std::alloc::{AllocError, Global};

/// The command of a row, which explains refusals.
pub fn command<'a>(
    alloc: Global,
    row: &CommandRow,
    defaults: &Defaults<'a>,
) -> Result<Command<'a>, AllocError> {
    let command = Command::new(alloc, row.name)
        .about(row.about)
        .after_help(row.help);
    let command = with_arguments(alloc, command, row.arguments, defaults)?;
    let command = with_arguments(alloc, command, row.of_office(), defaults)?;
    let command = with_arguments(alloc, command, row.of_rows(), defaults)?;
    with_arguments(alloc, command, &OF_ALL, defaults)
}

fn with_arguments<'a>(
    alloc: Global,
    command: Command<'a>,
    rows: &[CommandArgument],
    defaults: &Defaults<'a>,
) -> Result<Command<'a>, AllocError> {
    let mut command = command;
    for row in rows {
        let one = argument(alloc, row, defaults)?;
        command = command.arg(one)?;
    }
    Ok(command)
}

fn argument<'a>(
    alloc: Global,
    row: &CommandArgument,
    defaults: &Defaults<'a>,
) -> Result<Arg<'a>, AllocError> {
    let arg = of_kind(Arg::new(alloc, row.name).help(row.help), row);
    let arg = with_values(arg, row.values);
    let arg = with_default(arg, row.default, defaults);
    needed(arg, row, defaults)?.conflicts_with_all(row.excludes)
}

fn of_kind<'a>(arg: Arg<'a>, row: &CommandArgument) -> Arg<'a> {
    match row.kind {
        ArgumentKind::Word => arg,
        ArgumentKind::Words => arg.action(ArgAction::Append).num_args(1..),
        ArgumentKind::Flag => arg.long(row.name).action(ArgAction::SetTrue),
        ArgumentKind::ShortFlag(short) => arg
            .long(row.name)
            .short(short)
            .action(ArgAction::SetTrue),
        ArgumentKind::Option(value) => arg.long(row.name).value_name(value),
        ArgumentKind::Options(value) => arg
            .long(row.name)
            .value_name(value)
            .action(ArgAction::Append),
        ArgumentKind::Many(value) => arg
            .long(row.name)
            .value_name(value)
            .action(ArgAction::Append)
            .num_args(1..),
        ArgumentKind::Text(value) => arg
            .long(row.name)
            .value_name(value)
            .allow_hyphen_values(true),
    }
}

fn with_values<'a>(arg: Arg<'a>, values: &'static [&'static str]) -> Arg<'a> {
    if values.is_empty() {
        arg
    } else {
        arg.value_parser(&*values)
    }
}

fn with_default<'a>(arg: Arg<'a>, default: Preset, defaults: &Defaults<'a>) -> Arg<'a> {
    match default {
        Preset::None => arg,
        Preset::Word(word) => arg.default_value(word),
        Preset::Variable(variable) => hidden(arg, defaults.value(variable)),
    }
}

// The argument with this default, which help does not show.
fn hidden<'a>(arg: Arg<'a>, value: Option<&'a str>) -> Arg<'a> {
    match value {
        Some(value) => arg.default_value(value).hide_default_value(true),
        None => arg,
    }
}

fn needed<'a>(
    arg: Arg<'a>,
    row: &CommandArgument,
    defaults: &Defaults<'a>,
) -> Result<Arg<'a>, AllocError> {
    match row.need {
        Need::Never => Ok(arg),
        Need::Always => Ok(arg.required(true)),
        Need::Office if defaults.names_office() => Ok(arg),
        Need::Office => arg.required_unless_present("office"),
        Need::Unless(others) => arg.required_unless_present_any(others),
    }
}
