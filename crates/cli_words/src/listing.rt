//! The help of the program: all commands in their groups.
use crate::command::{CommandRow, GROUPS, Group};
use crate::name::COMMANDS;
use crate::whole_help::{ABOUT, OPTIONS_HELP, STATUS_HELP};
use std::alloc::{AllocError, Global};

/// The width of the names of commands, and two blanks after the longest.
const WIDTH: usize = 13;

const HELP: &str = "  help         Prints this help, or that of a command\n";

/// The help of the program.
pub fn overview(alloc: Global) -> Result<String, AllocError> {
    let mut text = String::from_str(alloc, ABOUT)?;
    text.push_str("\n\nUsage: crsreg <COMMAND>\n")?;
    for group in GROUPS {
        add_group(&mut text, group)?;
    }
    text.push_str(HELP)?;
    text.push_str(OPTIONS_HELP)?;
    text.push_str(STATUS_HELP)?;
    Ok(text)
}

fn add_group(text: &mut String, group: Group) -> Result<(), AllocError> {
    text.push_str("\n")?;
    text.push_str(group.heading())?;
    text.push_str(":\n")?;
    for name in COMMANDS {
        let row = name.row();
        if row.group == group {
            add_row(text, row)?;
        }
    }
    Ok(())
}

fn add_row(text: &mut String, row: &CommandRow) -> Result<(), AllocError> {
    text.push_str("  ")?;
    text.push_str(row.name)?;
    for _ in row.name.len()..WIDTH {
        text.push_str(" ")?;
    }
    text.push_str(row.about)?;
    text.push_str("\n")
}
