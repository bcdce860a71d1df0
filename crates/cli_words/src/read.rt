//! The commands that show a register, or an entry of it.
use crate::argument::{
    AUTHORITY, ArgumentKind, CommandArgument, ENTRY, FLAG, KEYS, Need, READ_SHELF, REGISTER, Role,
    STATUS, WORD, WORDS,
};
use crate::command::{CommandRow, Group};
use crate::read_help::{
    COMPARE_HELP, EXPORT_HELP, GRAPH_HELP, LOG_HELP, OPS_HELP, REPORT_HELP, SHOW_HELP, TEXTS_HELP,
    WKT_HELP,
};

static SHOW: CommandRow = CommandRow {
    name: "show",
    about: "Prints the key, the name and the status of one entry",
    help: SHOW_HELP,
    group: Group::Daily,
    arguments: &[REGISTER, KEYS, READ_SHELF, ENTRY],
    is_office: false,
    prints_rows: true,
};

/// `show`.
pub fn show() -> &'static CommandRow {
    &SHOW
}

static WKT: CommandRow = CommandRow {
    name: "wkt",
    about: "Prints the text of one entry",
    help: WKT_HELP,
    group: Group::Daily,
    arguments: &[
        REGISTER,
        KEYS,
        READ_SHELF,
        ENTRY,
        CommandArgument {
            name: "pretty",
            help: "Indents the text, with a line for each node",
            ..FLAG
        },
    ],
    is_office: false,
    prints_rows: false,
};

/// `wkt`.
pub fn wkt() -> &'static CommandRow {
    &WKT
}

static TEXTS: CommandRow = CommandRow {
    name: "texts",
    about: "Prints the indented texts of all entries that are not retired, by key",
    help: TEXTS_HELP,
    group: Group::HandOver,
    arguments: &[REGISTER, READ_SHELF],
    is_office: false,
    prints_rows: false,
};

/// `texts`.
pub fn texts() -> &'static CommandRow {
    &TEXTS
}

static COMPARE: CommandRow = CommandRow {
    name: "compare",
    about: "Prints the lines that differ between the texts of entries",
    help: COMPARE_HELP,
    group: Group::Daily,
    arguments: &[
        REGISTER,
        CommandArgument {
            name: "ENTRY",
            help: "The id of an entry, or with -k its key; alone, a key with or without -k",
            need: Need::Unless(&["with"]),
            excludes: &["with"],
            ..WORD
        },
        CommandArgument {
            name: "OTHER",
            help: "The id of another entry, or with -k its key",
            need: Need::Never,
            excludes: &["with"],
            ..WORD
        },
        CommandArgument {
            name: "with",
            help: "Compares each text of FILE with the entries of its key; - is standard input",
            role: Role::InputOrDash,
            kind: ArgumentKind::Option("FILE"),
            ..FLAG
        },
        CommandArgument {
            name: "keep-going",
            help: "With --with: passes over texts that cannot be read, and names the first",
            ..FLAG
        },
        KEYS,
        CommandArgument {
            name: "exit-code",
            help: "Exits with status 1 if they differ",
            ..FLAG
        },
        READ_SHELF,
    ],
    is_office: false,
    prints_rows: false,
};

/// `compare`.
pub fn compare() -> &'static CommandRow {
    &COMPARE
}

static EXPORT: CommandRow = CommandRow {
    name: "export",
    about: "Prints the texts of all entries that are not retired, or hands them on",
    help: EXPORT_HELP,
    group: Group::HandOver,
    arguments: &[
        REGISTER,
        CommandArgument {
            name: "into",
            help: "Writes a file for each key into DIR, a new or empty folder",
            role: Role::Output,
            kind: ArgumentKind::Option("DIR"),
            excludes: &["geojson", "proj-sql", "csv"],
            ..FLAG
        },
        CommandArgument {
            name: "geojson",
            help: "Prints the bounding boxes as GeoJSON",
            ..FLAG
        },
        CommandArgument {
            name: "proj-sql",
            help: "Prints SQL for an auxiliary database of PROJ",
            excludes: &["geojson"],
            ..FLAG
        },
        CommandArgument {
            name: "csv",
            help: "Prints a row for each key, with kind, area and status",
            excludes: &["geojson", "proj-sql"],
            ..FLAG
        },
        CommandArgument {
            name: "all",
            help: "With --proj-sql: entries of EPSG, too",
            ..FLAG
        },
        STATUS,
        AUTHORITY,
        CommandArgument {
            name: "keep-going",
            help: "Leaves out keys with two texts, and names the first at the end",
            ..FLAG
        },
        READ_SHELF,
    ],
    is_office: false,
    prints_rows: false,
};

/// `export`.
pub fn export() -> &'static CommandRow {
    &EXPORT
}

static GRAPH: CommandRow = CommandRow {
    name: "graph",
    about: "Prints a graph of entries that supersede each other or are in conflict",
    help: GRAPH_HELP,
    group: Group::HandOver,
    arguments: &[
        REGISTER,
        CommandArgument {
            name: "all",
            help: "Draws every entry",
            ..FLAG
        },
        READ_SHELF,
    ],
    is_office: false,
    prints_rows: false,
};

/// `graph`.
pub fn graph() -> &'static CommandRow {
    &GRAPH
}

static OPS: CommandRow = CommandRow {
    name: "ops",
    about: "Prints the operations that a register keeps",
    help: OPS_HELP,
    group: Group::Rare,
    arguments: &[REGISTER, READ_SHELF],
    is_office: false,
    prints_rows: true,
};

/// `ops`.
pub fn ops() -> &'static CommandRow {
    &OPS
}

static LOG: CommandRow = CommandRow {
    name: "log",
    about: "Prints the operations on entries, entry by entry",
    help: LOG_HELP,
    group: Group::Daily,
    arguments: &[
        REGISTER,
        CommandArgument {
            name: "ENTRY",
            help: "The ids of the entries, or with -k their keys (default: all)",
            need: Need::Never,
            ..WORDS
        },
        KEYS,
        READ_SHELF,
    ],
    is_office: false,
    prints_rows: true,
};

/// `log`.
pub fn log() -> &'static CommandRow {
    &LOG
}

static REPORT: CommandRow = CommandRow {
    name: "report",
    about: "Prints a report on a register",
    help: REPORT_HELP,
    group: Group::Daily,
    arguments: &[
        REGISTER,
        READ_SHELF,
        CommandArgument {
            name: "KIND",
            help: "What to list",
            values: &[
                "entries",
                "conflicts",
                "awaited",
                "gaps",
                "duplicates",
                "dangling",
                "withdrawn",
            ],
            ..WORD
        },
    ],
    is_office: false,
    prints_rows: true,
};

/// `report`.
pub fn report() -> &'static CommandRow {
    &REPORT
}
