//! The script for fish. A line for each command, for each option, and for each list of words.
use super::{
    add, add_commands, add_quoted, add_words, is_path, takes_files, takes_value, values_of,
};
use clap::{Arg, Command};
use std::alloc::{AllocError, Global};

/// The script for these commands.
pub fn script(alloc: Global, whole: &Command<'_>) -> Result<String, AllocError> {
    let mut script = String::from_str(alloc, HEAD)?;
    add_commands(&mut script, whole)?;
    script.push_str("'\n")?;
    for command in whole.get_subcommands() {
        let name = command.get_name();
        add(
            &mut script,
            &["complete -c crsreg -n __fish_use_subcommand -f -a ", name],
        )?;
        described(&mut script, command.get_about())?;
        for argument in command.get_arguments() {
            one(&mut script, command, argument)?;
        }
    }
    Ok(script)
}

fn one(script: &mut String, command: &Command<'_>, argument: &Arg<'_>) -> Result<(), AllocError> {
    let values = values_of(argument);
    if argument.is_positional() && values.is_empty() {
        return Ok(());
    }
    let name = command.get_name();
    add(
        script,
        &[
            "complete -c crsreg -n '__fish_seen_subcommand_from ",
            name,
            "'",
        ],
    )?;
    names(script, argument)?;
    script.push_str(files(command, argument))?;
    if !values.is_empty() {
        script.push_str(" -a '")?;
        add_words(script, values)?;
        script.push_str("'")?;
    }
    described(script, argument.get_help())
}

fn names(script: &mut String, argument: &Arg<'_>) -> Result<(), AllocError> {
    if let Some(short) = argument.get_short() {
        script.push_str(" -s ")?;
        script.push(short)?;
    }
    match argument.get_long() {
        Some(long) => add(script, &[" -l ", long]),
        None => Ok(()),
    }
}

// Whether the argument has a value, and whether files are offered for it.
fn files(command: &Command<'_>, argument: &Arg<'_>) -> &'static str {
    match argument.get_long() {
        Some(_) if takes_value(argument) && is_path(command, argument) => " -r",
        Some(_) if takes_value(argument) => " -x",
        None if !takes_files(command) => " -f",
        _ => "",
    }
}

fn described(script: &mut String, text: Option<&str>) -> Result<(), AllocError> {
    script.push_str(" -d '")?;
    add_quoted(script, text.unwrap_or(""), MARKS)?;
    script.push_str("'\n")
}

const MARKS: &[(char, &str)] = &[('\'', "\\'"), ('\\', "\\\\")];

const HEAD: &str = "\
# Completes crsreg's commands, options, listed values and files in fish.
complete -c crsreg -s h -l help -d 'Print help'
complete -c crsreg -n __fish_use_subcommand -s V -l version -d 'Print version'
complete -c crsreg -n __fish_use_subcommand -f -a help -d 'Print the help of a command'
complete -c crsreg -n '__fish_seen_subcommand_from help' -f -a 'help";
