//! Arguments as rows of tables, and the rows that several commands share.
use crate::defaults::Variable;

/// An argument of a command.
#[derive(Clone, Copy)]
pub struct CommandArgument {
    /// The name: of a word in help, of an option after `--`.
    pub name: &'static str,
    pub help: &'static str,
    pub role: Role,
    pub kind: ArgumentKind,
    pub need: Need,
    /// The arguments that cannot be given with this one.
    pub excludes: &'static [&'static str],
    /// The values that it accepts, or none if it accepts any.
    pub values: &'static [&'static str],
    pub default: Preset,
}

/// What the value of an argument names.
#[derive(Clone, Copy, PartialEq, Eq)]
pub enum Role {
    /// Neither a file nor an entry that can be listed.
    Plain,
    /// The register that the command reads; with `--shelf`, a shelf.
    Register,
    /// The register that the command reads and replaces; with `--shelf`, a shelf.
    OwnRegister,
    /// Files that the command reads.
    Input,
    /// Files that the command reads; `-` is standard input.
    InputOrDash,
    /// Entries; `-` stands for the ids on standard input.
    Entries,
    /// The file or folder that the command writes. With `--shelf` it is a shelf if the command reads no register.
    Output,
    /// A shelf.
    Shelf,
    /// The office file.
    Office,
    /// A file that people read names from.
    Names,
    /// Whether the register is on a shelf, which the command only reads.
    OnReadShelf,
    /// Whether the register is on a shelf, which the command changes.
    OnKeptShelf,
}

impl Role {
    /// Whether the value is the path of a file or a folder.
    pub fn is_path(self) -> bool {
        match self {
            Role::Register | Role::OwnRegister | Role::Input | Role::InputOrDash => true,
            Role::Output | Role::Shelf | Role::Office | Role::Names => true,
            Role::Plain | Role::Entries | Role::OnReadShelf | Role::OnKeptShelf => false,
        }
    }

    /// Whether the values are files that the command reads and numbers.
    pub fn is_read(self) -> bool {
        match self {
            Role::Register | Role::OwnRegister | Role::Input | Role::InputOrDash => true,
            _ => false,
        }
    }
}

/// How an argument stands on the command line.
#[derive(Clone, Copy)]
pub enum ArgumentKind {
    /// One word.
    Word,
    /// One or more words.
    Words,
    /// An option without a value.
    Flag,
    /// An option without a value, which has a short name.
    ShortFlag(char),
    /// An option with a value, which has this name in help.
    Option(&'static str),
    /// The same, which can be given more than once.
    Options(&'static str),
    /// An option with one or more values, which have this name in help.
    Many(&'static str),
    /// An option with a value that can begin with a hyphen, which has this name in help.
    Text(&'static str),
}

/// Whether a command needs an argument.
#[derive(Clone, Copy)]
pub enum Need {
    Never,
    Always,
    /// Unless one of these arguments is given.
    Unless(&'static [&'static str]),
    /// Unless `--office` is given, or the environment names an office.
    Office,
}

/// The value of an argument that is not given.
#[derive(Clone, Copy)]
pub enum Preset {
    None,
    /// This word, which help shows.
    Word(&'static str),
    /// That of a variable of the environment.
    Variable(Variable),
}

/// A word that is required.
pub const WORD: CommandArgument = CommandArgument {
    name: "",
    help: "",
    role: Role::Plain,
    kind: ArgumentKind::Word,
    need: Need::Always,
    excludes: &[],
    values: &[],
    default: Preset::None,
};

/// One or more words, which are required.
pub const WORDS: CommandArgument = CommandArgument {
    kind: ArgumentKind::Words,
    ..WORD
};

/// An option without a value.
pub const FLAG: CommandArgument = CommandArgument {
    kind: ArgumentKind::Flag,
    need: Need::Never,
    ..WORD
};

/// The file of a register.
pub const REGISTER: CommandArgument = CommandArgument {
    name: "REG",
    help: "The register file to read",
    role: Role::Register,
    ..WORD
};

/// An id of an entry.
pub const ENTRY: CommandArgument = CommandArgument {
    name: "ENTRY",
    help: "The id of the entry, as UUID:NUMBER, or with -k its key",
    ..WORD
};

/// Whether keys are accepted instead of ids.
pub const KEYS: CommandArgument = CommandArgument {
    name: "keys",
    help: "Takes keys, as AUTHORITY:CODE, instead of ids (default: $CRSREG_KEYS)",
    kind: ArgumentKind::ShortFlag('k'),
    default: Preset::Variable(Variable::Keys),
    ..FLAG
};

/// The names of offices.
pub const NAMES: CommandArgument = CommandArgument {
    name: "names",
    help: "Office names for tables, sentences, page, graph (default: $CRSREG_NAMES)",
    role: Role::Names,
    kind: ArgumentKind::Option("FILE"),
    default: Preset::Variable(Variable::Names),
    ..FLAG
};

/// Whether refusals are explained.
pub const EXPLAIN: CommandArgument = CommandArgument {
    name: "explain",
    help: "Explains a refusal in words (default: on a terminal, or $CRSREG_EXPLAIN)",
    default: Preset::Variable(Variable::Explain),
    ..FLAG
};

/// Whether refusals are not explained.
pub const NO_EXPLAIN: CommandArgument = CommandArgument {
    name: "no-explain",
    help: "Does not explain a refusal, also not on a terminal",
    excludes: &["explain"],
    ..FLAG
};

/// Whether rows are printed as a table.
pub const TABLE: CommandArgument = CommandArgument {
    name: "table",
    help: "Prints an aligned table instead of CSV (default: $CRSREG_TABLE)",
    default: Preset::Variable(Variable::Table),
    ..FLAG
};

/// The office of a command, by its UUID.
pub const REPLICA: CommandArgument = CommandArgument {
    name: "as",
    help: "UUID of the office, unique to it (default: $CRSREG_AS)",
    kind: ArgumentKind::Option("UUID"),
    need: Need::Office,
    default: Preset::Variable(Variable::Office),
    ..WORD
};

/// The office of a command, by its office file.
pub const OFFICE_FILE: CommandArgument = CommandArgument {
    name: "office",
    help: "The office file, in the place of --as (default: $CRSREG_OFFICE)",
    role: Role::Office,
    kind: ArgumentKind::Option("FILE"),
    excludes: &["as"],
    default: Preset::Variable(Variable::OfficeFile),
    ..FLAG
};

/// The note of a command.
pub const NOTE: CommandArgument = CommandArgument {
    name: "note",
    help: "Who, when and why, in at most 200 bytes (default: $CRSREG_NOTE)",
    kind: ArgumentKind::Text("TEXT"),
    default: Preset::Variable(Variable::Note),
    ..FLAG
};

/// Whether the register is on a shelf, which is only read.
pub const READ_SHELF: CommandArgument = CommandArgument {
    name: "shelf",
    help: "REG is a shelf",
    role: Role::OnReadShelf,
    ..FLAG
};

/// Whether the register is on a shelf, which is changed.
pub const ON_SHELF: CommandArgument = CommandArgument {
    help: "REG is a shelf, and the new register is kept on it",
    role: Role::OnKeptShelf,
    ..READ_SHELF
};

/// The output file, as a word.
pub const OUT: CommandArgument = CommandArgument {
    name: "OUT",
    help: "The register file to write",
    role: Role::Output,
    ..WORD
};

/// The output of a register that is not on a shelf.
pub const CHANGED: CommandArgument = CommandArgument {
    name: "out",
    help: "The register file to write; can be REG",
    role: Role::Output,
    kind: ArgumentKind::Option("OUT"),
    need: Need::Unless(&["shelf", "dry-run"]),
    excludes: &["shelf"],
    ..WORD
};

/// The status of entries.
pub const STATUS: CommandArgument = CommandArgument {
    name: "status",
    help: "Only with this status; live: not retired",
    kind: ArgumentKind::Option("S"),
    values: &["valid", "superseded", "retired", "live"],
    ..FLAG
};

/// The authority of entries.
pub const AUTHORITY: CommandArgument = CommandArgument {
    name: "authority",
    help: "Only with this authority",
    kind: ArgumentKind::Text("A"),
    ..FLAG
};

/// The options of every command that changes a register as an office.
pub static OF_OFFICE: [CommandArgument; 5] = [REPLICA, OFFICE_FILE, NOTE, ON_SHELF, CHANGED];

/// The options of every command that prints rows.
pub static OF_ROWS: [CommandArgument; 1] = [TABLE];

/// The options of every command.
pub static OF_ALL: [CommandArgument; 3] = [NAMES, EXPLAIN, NO_EXPLAIN];

/// No options.
pub static OF_NONE: [CommandArgument; 0] = [];
