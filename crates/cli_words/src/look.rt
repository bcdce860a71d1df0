//! The commands that search, count and compare registers.
use crate::argument::{
    AUTHORITY, ArgumentKind, CommandArgument, FLAG, Need, READ_SHELF, REGISTER, Role, STATUS, WORD,
    WORDS,
};
use crate::command::{CommandRow, Group};
use crate::look_help::{DIFF_HELP, FIND_HELP, LINT_HELP, OFFICES_HELP, PAGE_HELP, STATUS_OF_HELP};

static FIND: CommandRow = CommandRow {
    name: "find",
    about: "Prints the entries that match every option given",
    help: FIND_HELP,
    group: Group::Daily,
    arguments: &[
        REGISTER,
        CommandArgument {
            name: "WORD",
            help: "A key, as AUTHORITY:CODE, or else a part of the name",
            need: Need::Never,
            ..WORD
        },
        CommandArgument {
            name: "key",
            help: "Only with this authority and code",
            kind: ArgumentKind::Text("AUTH:CODE"),
            ..FLAG
        },
        AUTHORITY,
        CommandArgument {
            name: "code",
            help: "Only with this code",
            kind: ArgumentKind::Text("C"),
            ..FLAG
        },
        CommandArgument {
            name: "name",
            help: "Only with this part in the name",
            kind: ArgumentKind::Text("PART"),
            ..FLAG
        },
        CommandArgument {
            name: "area",
            help: "Only with this part in the area of use",
            kind: ArgumentKind::Text("PART"),
            ..FLAG
        },
        CommandArgument {
            name: "text",
            help: "Only with this part in a datum, an ellipsoid, a method or the remark",
            kind: ArgumentKind::Text("PART"),
            ..FLAG
        },
        CommandArgument {
            name: "at",
            help: "Only entries with a bounding box around this point",
            kind: ArgumentKind::Text("LAT,LON"),
            ..FLAG
        },
        CommandArgument {
            name: "kind",
            help: "Only of this kind",
            kind: ArgumentKind::Option("KIND"),
            values: &[
                "geographic",
                "geodetic",
                "projected",
                "vertical",
                "compound",
            ],
            ..FLAG
        },
        STATUS,
        CommandArgument {
            name: "ids",
            help: "Prints only the ids, one a line",
            ..FLAG
        },
        READ_SHELF,
    ],
    is_office: false,
    prints_rows: true,
};

/// `find`.
pub fn find() -> &'static CommandRow {
    &FIND
}

static STATUS_OF: CommandRow = CommandRow {
    name: "status",
    about: "Prints counts for each register, with conflicts and gaps",
    help: STATUS_OF_HELP,
    group: Group::Daily,
    arguments: &[
        CommandArgument {
            name: "FILE",
            help: "The files of registers",
            role: Role::Input,
            ..WORDS
        },
        CommandArgument {
            name: "settled",
            help: "Fails if a register is not in order",
            ..FLAG
        },
        CommandArgument {
            help: "Each FILE is a shelf",
            ..READ_SHELF
        },
    ],
    is_office: false,
    prints_rows: true,
};

/// `status`.
pub fn status() -> &'static CommandRow {
    &STATUS_OF
}

static LINT: CommandRow = CommandRow {
    name: "lint",
    about: "Prints what an expert would ask about entries or texts",
    help: LINT_HELP,
    group: Group::Daily,
    arguments: &[
        CommandArgument {
            need: Need::Unless(&["texts"]),
            excludes: &["texts"],
            ..REGISTER
        },
        CommandArgument {
            name: "texts",
            help: "The files of texts to look at, in the place of a register",
            role: Role::InputOrDash,
            kind: ArgumentKind::Many("FILE"),
            ..FLAG
        },
        CommandArgument {
            name: "rule",
            help: "Only by these rules, with commas between",
            kind: ArgumentKind::Option("RULES"),
            ..FLAG
        },
        CommandArgument {
            values: &["valid", "superseded", "live"],
            excludes: &["texts"],
            ..STATUS
        },
        CommandArgument {
            name: "known",
            help: "Leaves out the rows of this file, which were looked at before",
            role: Role::Input,
            kind: ArgumentKind::Option("ROWS"),
            ..FLAG
        },
        CommandArgument {
            name: "exit-code",
            help: "Exits with status 1 if there are rows",
            ..FLAG
        },
        CommandArgument {
            excludes: &["texts"],
            ..READ_SHELF
        },
    ],
    is_office: false,
    prints_rows: true,
};

/// `lint`.
pub fn lint() -> &'static CommandRow {
    &LINT
}

static OFFICES: CommandRow = CommandRow {
    name: "offices",
    about: "Prints how many operations of each office a register has seen",
    help: OFFICES_HELP,
    group: Group::Exchange,
    arguments: &[REGISTER, READ_SHELF],
    is_office: false,
    prints_rows: true,
};

/// `offices`.
pub fn offices() -> &'static CommandRow {
    &OFFICES
}

static PAGE: CommandRow = CommandRow {
    name: "page",
    about: "Prints a page of HTML with the entries, conflicts and gaps",
    help: PAGE_HELP,
    group: Group::HandOver,
    arguments: &[
        REGISTER,
        CommandArgument {
            name: "title",
            help: "The title of the page",
            kind: ArgumentKind::Text("T"),
            ..FLAG
        },
        CommandArgument {
            name: "lint",
            help: "Shows what looks wrong in an entry below its text",
            ..FLAG
        },
        READ_SHELF,
    ],
    is_office: false,
    prints_rows: false,
};

/// `page`.
pub fn page() -> &'static CommandRow {
    &PAGE
}

static DIFF: CommandRow = CommandRow {
    name: "diff",
    about: "Prints the entries that differ between a register and a merge of others",
    help: DIFF_HELP,
    group: Group::Exchange,
    arguments: &[
        CommandArgument {
            name: "OLD",
            help: "The file of a register",
            role: Role::Register,
            ..WORD
        },
        CommandArgument {
            name: "NEW",
            help: "The files of registers and pieces to merge",
            role: Role::Input,
            ..WORDS
        },
        CommandArgument {
            name: "exit-code",
            help: "Exits with status 1 if they differ",
            ..FLAG
        },
        CommandArgument {
            help: "OLD is a shelf, whose register is merged too",
            ..READ_SHELF
        },
    ],
    is_office: false,
    prints_rows: true,
};

/// `diff`.
pub fn diff() -> &'static CommandRow {
    &DIFF
}
