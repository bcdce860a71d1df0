//! Scripts that complete command lines of `crsreg` in a shell, made from the table of commands.
mod bash;
mod fish;
mod zsh;

use crate::name::CommandName;
use clap::builder::ValueParser;
use clap::{Arg, Command};
use std::alloc::{AllocError, Global};

/// A shell that completes command lines.
#[derive(Clone, Copy)]
pub enum Shell {
    Bash,
    Fish,
    Zsh,
}

/// The names of the shells on the command line.
pub const SHELLS: [&str; 3] = ["bash", "fish", "zsh"];

impl Shell {
    /// The shell with the name.
    pub fn named(name: &str) -> Option<Shell> {
        match name {
            "bash" => Some(Shell::Bash),
            "fish" => Some(Shell::Fish),
            "zsh" => Some(Shell::Zsh),
            _ => None,
        }
    }
}

/// The script of the shell for these commands.
pub fn completion_script(
    alloc: Global,
    whole: &Command<'_>,
    shell: Shell,
) -> Result<String, AllocError> {
    match shell {
        Shell::Bash => bash::script(alloc, whole),
        Shell::Fish => fish::script(alloc, whole),
        Shell::Zsh => zsh::script(alloc, whole),
    }
}

// The values that the table lists for the argument.
fn values_of<'a>(argument: &Arg<'a>) -> &'a [&'a str] {
    listed(argument).unwrap_or(&[])
}

fn listed<'a>(argument: &Arg<'a>) -> Option<&'a [&'a str]> {
    match argument.get_value_parser() {
        ValueParser::Names(names) if takes_value(argument) => Some(names),
        _ => None,
    }
}

fn takes_value(argument: &Arg<'_>) -> bool {
    argument.get_action().takes_values()
}

// Whether the value of the argument is the path of a file or a folder.
fn is_path(command: &Command<'_>, argument: &Arg<'_>) -> bool {
    match CommandName::named(command.get_name()) {
        Some(name) => name.row().role(argument.get_id()).is_path(),
        None => false,
    }
}

// Whether a word of the command that is no option can be a path.
fn takes_files(command: &Command<'_>) -> bool {
    for argument in command.get_arguments() {
        if argument.is_positional() && values_of(argument).is_empty() {
            return true;
        }
    }
    false
}

fn add(script: &mut String, parts: &[&str]) -> Result<(), AllocError> {
    for part in parts {
        script.push_str(part)?;
    }
    Ok(())
}

// The names of the commands, with a blank before each.
fn add_commands(script: &mut String, whole: &Command<'_>) -> Result<(), AllocError> {
    for command in whole.get_subcommands() {
        add(script, &[" ", command.get_name()])?;
    }
    Ok(())
}

// The words, with blanks between.
fn add_words(script: &mut String, words: &[&str]) -> Result<(), AllocError> {
    for (i, word) in words.iter().enumerate() {
        if i > 0 {
            script.push_str(" ")?;
        }
        script.push_str(word)?;
    }
    Ok(())
}

// The text between single quotation marks, with each of these characters escaped.
fn add_quoted(script: &mut String, text: &str, marks: &[(char, &str)]) -> Result<(), AllocError> {
    for character in text.chars() {
        match escape_of(character, marks) {
            Some(escape) => script.push_str(escape)?,
            None => script.push(character)?,
        }
    }
    Ok(())
}

fn escape_of<'a>(character: char, marks: &[(char, &'a str)]) -> Option<&'a str> {
    for (mark, escape) in marks {
        if *mark == character {
            return Some(*escape);
        }
    }
    None
}
