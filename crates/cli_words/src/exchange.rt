//! The commands that make and exchange registers, and keep them on shelves.
use crate::argument::{
    ArgumentKind, CommandArgument, FLAG, Need, OFFICE_FILE, ON_SHELF, OUT, READ_SHELF, REGISTER,
    Role, WORD, WORDS,
};
use crate::command::{CommandRow, Group};
use crate::exchange_help::{
    DOWNGRADE_HELP, MERGE_HELP, NEW_HELP, OFFICE_HELP, PIECE_HELP, SEEN_HELP, SHELF_HELP,
    TAKE_HELP, UNSHELF_HELP,
};

static NEW: CommandRow = CommandRow {
    name: "new",
    about: "Writes an empty register",
    help: NEW_HELP,
    group: Group::Daily,
    arguments: &[OUT],
    is_office: false,
    prints_rows: false,
};

/// `new`.
pub fn new() -> &'static CommandRow {
    &NEW
}

static OFFICE: CommandRow = CommandRow {
    name: "office",
    about: "Makes an office file, and prints the UUID of the new office",
    help: OFFICE_HELP,
    group: Group::Daily,
    arguments: &[CommandArgument {
        name: "NEW",
        help: "The office file to make; nothing may have this name",
        role: Role::Output,
        ..WORD
    }],
    is_office: false,
    prints_rows: false,
};

/// `office`.
pub fn office() -> &'static CommandRow {
    &OFFICE
}

static TAKE: CommandRow = CommandRow {
    name: "take",
    about: "Joins registers and pieces of other offices to a register",
    help: TAKE_HELP,
    group: Group::Exchange,
    arguments: &[
        CommandArgument {
            help: "The register file to read and to change",
            role: Role::OwnRegister,
            ..REGISTER
        },
        CommandArgument {
            name: "FILE",
            help: "The files of registers and pieces to join",
            role: Role::Input,
            need: Need::Office,
            ..WORDS
        },
        CommandArgument {
            help: "The office file of REG (default: $CRSREG_OFFICE)",
            excludes: &[],
            ..OFFICE_FILE
        },
        CommandArgument {
            name: "dry-run",
            help: "Prints what would change, and writes nothing",
            ..FLAG
        },
        CommandArgument {
            name: "keep-going",
            help: "Leaves out files that are refused, and joins the others",
            ..FLAG
        },
        CommandArgument {
            name: "from",
            help: "Joins only the operations of this office; can be repeated",
            kind: ArgumentKind::Options("UUID"),
            ..FLAG
        },
        CommandArgument {
            name: "undone",
            help: "Prints what the join undid, as a list for supersede --from",
            excludes: &["from"],
            ..FLAG
        },
        ON_SHELF,
    ],
    is_office: false,
    prints_rows: true,
};

/// `take`.
pub fn take() -> &'static CommandRow {
    &TAKE
}

static MERGE: CommandRow = CommandRow {
    name: "merge",
    about: "Merges registers and pieces",
    help: MERGE_HELP,
    group: Group::Exchange,
    arguments: &[
        CommandArgument {
            help: "OUT is a shelf, whose register is merged too",
            ..ON_SHELF
        },
        OUT,
        CommandArgument {
            name: "FILE",
            help: "The files of registers and pieces to merge",
            role: Role::Input,
            ..WORDS
        },
    ],
    is_office: false,
    prints_rows: false,
};

/// `merge`.
pub fn merge() -> &'static CommandRow {
    &MERGE
}

static SEEN: CommandRow = CommandRow {
    name: "seen",
    about: "Writes a summary of the operations that a register has seen",
    help: SEEN_HELP,
    group: Group::Exchange,
    arguments: &[
        REGISTER,
        READ_SHELF,
        CommandArgument {
            help: "The summary file to write",
            ..OUT
        },
    ],
    is_office: false,
    prints_rows: false,
};

/// `seen`.
pub fn seen() -> &'static CommandRow {
    &SEEN
}

static PIECE: CommandRow = CommandRow {
    name: "piece",
    about: "Writes what another office lacks of a register",
    help: PIECE_HELP,
    group: Group::Exchange,
    arguments: &[
        REGISTER,
        READ_SHELF,
        CommandArgument {
            name: "SEEN",
            help: "The summary file of the other office",
            role: Role::Input,
            ..WORD
        },
        CommandArgument {
            help: "The piece file to write",
            ..OUT
        },
    ],
    is_office: false,
    prints_rows: false,
};

/// `piece`.
pub fn piece() -> &'static CommandRow {
    &PIECE
}

static DOWNGRADE: CommandRow = CommandRow {
    name: "downgrade",
    about: "Writes the register in file version 1, for crsreg 0.3 and older",
    help: DOWNGRADE_HELP,
    group: Group::Rare,
    arguments: &[REGISTER, READ_SHELF, OUT],
    is_office: false,
    prints_rows: false,
};

/// `downgrade`.
pub fn downgrade() -> &'static CommandRow {
    &DOWNGRADE
}

static SHELF: CommandRow = CommandRow {
    name: "shelf",
    about: "Creates a crash-safe file (a shelf) that holds an empty register",
    help: SHELF_HELP,
    group: Group::Rare,
    arguments: &[
        CommandArgument {
            name: "NEW",
            help: "The shelf to create; an existing file is overwritten",
            role: Role::Shelf,
            ..WORD
        },
        CommandArgument {
            name: "SIZE",
            help: "The limit for the register's file in bytes, from 14 to 67108864",
            ..WORD
        },
    ],
    is_office: false,
    prints_rows: false,
};

/// `shelf`.
pub fn shelf() -> &'static CommandRow {
    &SHELF
}

static UNSHELF: CommandRow = CommandRow {
    name: "unshelf",
    about: "Writes the register on a shelf to a file",
    help: UNSHELF_HELP,
    group: Group::Rare,
    arguments: &[
        CommandArgument {
            name: "SHELF",
            help: "The shelf to read",
            role: Role::Shelf,
            ..WORD
        },
        OUT,
    ],
    is_office: false,
    prints_rows: false,
};

/// `unshelf`.
pub fn unshelf() -> &'static CommandRow {
    &UNSHELF
}
