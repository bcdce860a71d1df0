//! The script for zsh. `_describe` lists the commands, and `_arguments` has the options and words of one.
use super::{add, add_quoted, add_words, is_path, takes_value, values_of};
use clap::{Arg, ArgAction, Command};
use std::alloc::{AllocError, Global};

/// The script for these commands.
pub fn script(alloc: Global, whole: &Command<'_>) -> Result<String, AllocError> {
    let mut script = String::from_str(alloc, HEAD)?;
    for command in whole.get_subcommands() {
        add(&mut script, &["        '", command.get_name(), ":"])?;
        add_quoted(&mut script, command.get_about().unwrap_or(""), MARKS)?;
        script.push_str("'\n")?;
    }
    script.push_str(WORDS)?;
    for command in whole.get_subcommands() {
        add(
            &mut script,
            &["    ", command.get_name(), ") _arguments $help"],
        )?;
        for argument in command.get_arguments() {
            one(&mut script, command, argument)?;
        }
        script.push_str(" ;;\n")?;
    }
    script.push_str(END)?;
    Ok(script)
}

fn one(script: &mut String, command: &Command<'_>, argument: &Arg<'_>) -> Result<(), AllocError> {
    match argument.get_long() {
        Some(long) => option(script, command, long, argument),
        None => word(script, argument),
    }
}

// `{-k,--keys}'[HELP]'`, or `--status'=[HELP]:status:(valid live)'`.
fn option(
    script: &mut String,
    command: &Command<'_>,
    long: &str,
    argument: &Arg<'_>,
) -> Result<(), AllocError> {
    names(script, long, argument)?;
    if takes_value(argument) {
        script.push_str("=")?;
    }
    script.push_str("[")?;
    add_quoted(script, argument.get_help().unwrap_or(""), MARKS)?;
    script.push_str("]")?;
    if takes_value(argument) {
        add(script, &[":", long, ":"])?;
        offered(script, values_of(argument), is_path(command, argument))?;
    }
    script.push_str("'")
}

fn names(script: &mut String, long: &str, argument: &Arg<'_>) -> Result<(), AllocError> {
    match argument.get_short() {
        Some(short) => {
            script.push_str(" {-")?;
            script.push(short)?;
            add(script, &[",--", long, "}'"])
        }
        None => add(script, &[" --", long, "'"]),
    }
}

// `':REG:_files'`, or `'*:FILE:_files'` for any number of words.
fn word(script: &mut String, argument: &Arg<'_>) -> Result<(), AllocError> {
    let mark = match argument.get_action() {
        ArgAction::Append => " '*:",
        _ => " ':",
    };
    add(script, &[mark, argument.get_id(), ":"])?;
    offered(script, values_of(argument), true)?;
    script.push_str("'")
}

// What is offered for a value: these words, files, or nothing.
fn offered(script: &mut String, words: &[&str], is_path: bool) -> Result<(), AllocError> {
    if words.is_empty() {
        return script.push_str(if is_path { "_files" } else { " " });
    }
    script.push_str("(")?;
    add_words(script, words)?;
    script.push_str(")")
}

const MARKS: &[(char, &str)] = &[
    ('\'', "'\\''"),
    ('[', "\\["),
    (']', "\\]"),
    (':', "\\:"),
    ('\\', "\\\\"),
];

const HEAD: &str = "\
#compdef crsreg
# Completes crsreg's commands, options, listed values and files in zsh.
_crsreg() {
    local -a help=({-h,--help}'[Print help]') version=({-V,--version}'[Print version]')
    local -a commands=(
        'help:Print the help of a command'
";

const WORDS: &str = "    )
    if ((CURRENT == 2)); then
        case $PREFIX in
        -*) _arguments $help $version ;;
        *) _describe command commands ;;
        esac
        return
    fi
    shift words
    ((CURRENT--))
    case $words[1] in
    help) _describe command commands ;;
";

const END: &str = "    esac
}
_crsreg \"$@\"
";
