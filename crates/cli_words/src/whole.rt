//! `check`, `completions`, and all commands together.
use crate::argument::{CommandArgument, Need, Role, WORD};
use crate::building::command;
use crate::command::{CommandRow, Group};
use crate::completions::SHELLS;
use crate::defaults::Defaults;
use crate::name::COMMANDS;
use crate::whole_help::{ABOUT, CHECK_HELP, COMPLETIONS_HELP};
use clap::Command;
use std::alloc::{AllocError, Global};

/// The newest version of CHANGES.md, and `-dev` until it is released.
const VERSION: &str = "0.7";

static CHECK: CommandRow = CommandRow {
    name: "check",
    about: "Checks a text and prints its canonical form",
    help: CHECK_HELP,
    group: Group::Daily,
    arguments: &[CommandArgument {
        name: "TEXT",
        help: "The file with the text (default: standard input)",
        role: Role::Input,
        need: Need::Never,
        ..WORD
    }],
    is_office: false,
    prints_rows: false,
};

/// `check`.
pub fn check() -> &'static CommandRow {
    &CHECK
}

static COMPLETIONS: CommandRow = CommandRow {
    name: "completions",
    about: "Prints a script that completes command lines in a shell",
    help: COMPLETIONS_HELP,
    group: Group::Rare,
    arguments: &[CommandArgument {
        name: "SHELL",
        help: "The shell that runs the script",
        values: &SHELLS,
        ..WORD
    }],
    is_office: false,
    prints_rows: false,
};

/// `completions`.
pub fn completions() -> &'static CommandRow {
    &COMPLETIONS
}

/// All commands, with the defaults of their options, and the help of the program.
pub fn command_line<'a>(
    alloc: Global,
    defaults: &Defaults<'a>,
    help: &'a str,
) -> Result<Command<'a>, AllocError> {
    let mut whole = Command::new(alloc, "crsreg")
        .version(VERSION)
        .about(ABOUT)
        .override_help(help)
        .subcommand_required(true);
    for name in COMMANDS {
        let one = command(alloc, name.row(), defaults)?;
        whole = whole.subcommand(one)?;
    }
    Ok(whole)
}
