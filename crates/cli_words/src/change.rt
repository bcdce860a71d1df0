//! The commands that enter one text, or change entries.
use crate::argument::{
    ArgumentKind, CommandArgument, FLAG, KEYS, Need, REGISTER, Role, WORD, WORDS,
};
use crate::change_help::{ENTER_HELP, RETIRE_HELP, SUPERSEDE_HELP};
use crate::command::{CommandRow, Group};

static ENTER: CommandRow = CommandRow {
    name: "enter",
    about: "Enters a coordinate reference system into a register",
    help: ENTER_HELP,
    group: Group::Daily,
    arguments: &[REGISTER, TEXT],
    is_office: true,
    prints_rows: false,
};

/// `enter`.
pub fn enter() -> &'static CommandRow {
    &ENTER
}

const TEXT: CommandArgument = CommandArgument {
    name: "text",
    help: "The file with the definition",
    role: Role::Input,
    kind: ArgumentKind::Option("FILE"),
    ..WORD
};

static SUPERSEDE: CommandRow = CommandRow {
    name: "supersede",
    about: "Marks an entry as superseded by others",
    help: SUPERSEDE_HELP,
    group: Group::Daily,
    arguments: &[
        REGISTER,
        CommandArgument {
            name: "OLD",
            help: "The id of the superseded entry, as UUID:NUMBER, or with -k its key",
            need: Need::Unless(&["from"]),
            excludes: &["from"],
            ..WORD
        },
        CommandArgument {
            name: "BY",
            help: "The ids or keys of the entries that supersede it; - reads ids",
            role: Role::Entries,
            need: Need::Unless(&["from"]),
            excludes: &["from"],
            ..WORDS
        },
        CommandArgument {
            name: "from",
            help: "A list with a line OLD BY.. for each entry; - is standard input",
            role: Role::InputOrDash,
            kind: ArgumentKind::Option("FILE"),
            ..FLAG
        },
        KEYS,
        CommandArgument {
            name: "keep-going",
            help: "With --from, leaves refused lines out, and goes on",
            ..FLAG
        },
    ],
    is_office: true,
    prints_rows: false,
};

/// `supersede`.
pub fn supersede() -> &'static CommandRow {
    &SUPERSEDE
}

static RETIRE: CommandRow = CommandRow {
    name: "retire",
    about: "Retires entries of a register",
    help: RETIRE_HELP,
    group: Group::Daily,
    arguments: &[
        REGISTER,
        CommandArgument {
            name: "ENTRY",
            help: "The ids of the entries, as UUID:NUMBER, or with -k their keys; - reads ids",
            role: Role::Entries,
            ..WORDS
        },
        KEYS,
    ],
    is_office: true,
    prints_rows: false,
};

/// `retire`.
pub fn retire() -> &'static CommandRow {
    &RETIRE
}
