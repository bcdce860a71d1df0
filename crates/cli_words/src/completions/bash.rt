//! The script for bash. A row for each option whose value is no path, and one for all other words of a command.
use super::{add, add_commands, add_words, is_path, takes_files, takes_value, values_of};
use clap::{Arg, Command};
use std::alloc::{AllocError, Global};

/// The script for these commands.
pub fn script(alloc: Global, whole: &Command<'_>) -> Result<String, AllocError> {
    let mut script = String::from_str(alloc, HEAD)?;
    add_commands(&mut script, whole)?;
    script.push_str(WORDS)?;
    for command in whole.get_subcommands() {
        for argument in command.get_arguments() {
            value(&mut script, command, argument)?;
        }
        others(&mut script, command)?;
    }
    script.push_str(END)?;
    Ok(script)
}

fn value(script: &mut String, command: &Command<'_>, argument: &Arg<'_>) -> Result<(), AllocError> {
    let Some(long) = argument.get_long() else {
        return Ok(());
    };
    if !takes_value(argument) || is_path(command, argument) {
        return Ok(());
    }
    let name = command.get_name();
    add(script, &["        '", name, " --", long, "') words='"])?;
    add_words(script, values_of(argument))?;
    script.push_str("' ;;\n")
}

fn others(script: &mut String, command: &Command<'_>) -> Result<(), AllocError> {
    add(script, &["        '", command.get_name(), " '*) "])?;
    if takes_files(command) {
        script.push_str("files=yes ")?;
    }
    script.push_str("options='-h --help")?;
    for argument in command.get_arguments() {
        option(script, argument)?;
    }
    script.push_str("' words='")?;
    for argument in command.get_arguments() {
        if argument.is_positional() {
            add_words(script, values_of(argument))?;
        }
    }
    script.push_str("' ;;\n")
}

fn option(script: &mut String, argument: &Arg<'_>) -> Result<(), AllocError> {
    if let Some(short) = argument.get_short() {
        script.push_str(" -")?;
        script.push(short)?;
    }
    match argument.get_long() {
        Some(long) => add(script, &[" --", long]),
        None => Ok(()),
    }
}

const HEAD: &str = "\
# Completes crsreg's commands, options, listed values and files in bash.
_crsreg() {
    local word=${COMP_WORDS[COMP_CWORD]} before=${COMP_WORDS[COMP_CWORD - 1]}
    local options='' words='' files=no commands='help";

const WORDS: &str = "'
    # In --status=live, the = is a word of its own.
    if [ \"$word\" = = ]; then
        word=''
    elif [ \"$before\" = = ]; then
        before=${COMP_WORDS[COMP_CWORD - 2]}
    fi
    if [ \"$COMP_CWORD\" -eq 1 ]; then
        words=$commands options='-h --help -V --version'
    else
        case \"${COMP_WORDS[1]} $before\" in
        'help '*) words=$commands ;;
";

const END: &str = "        esac
    fi
    case $word in -*) words=$options files=no ;; esac
    mapfile -t COMPREPLY < <(compgen -W \"$words\" -- \"$word\")
    if [ $files = no ]; then
        compopt +o default
    elif [ ${#COMPREPLY[@]} -gt 0 ]; then
        compopt -o filenames
        mapfile -t -O ${#COMPREPLY[@]} COMPREPLY < <(compgen -f -- \"$word\")
    fi
}
complete -o default -F _crsreg crsreg
";
