//! The defaults of options, from the environment.

/// The defaults of options.
#[derive(Clone, Copy)]
pub struct Defaults<'a> {
    /// The office of `--as`.
    pub office: Option<&'a str>,
    /// The office file of `--office`.
    pub office_file: Option<&'a str>,
    /// The note of `--note`.
    pub note: Option<&'a str>,
    /// The names of `--names`.
    pub names: Option<&'a str>,
    /// Whether commands accept keys, as with `--keys`.
    pub keys: bool,
    /// Whether commands explain refusals, as with `--explain`, unless `--no-explain` is given.
    pub explain: bool,
    /// Whether commands print rows as a table, as with `--table`.
    pub table: bool,
}

/// What a variable of the environment gives.
#[derive(Clone, Copy)]
pub enum Variable {
    Office,
    OfficeFile,
    Note,
    Names,
    Keys,
    Explain,
    Table,
}

impl<'a> Defaults<'a> {
    /// No defaults, as in an empty environment.
    pub fn none() -> Defaults<'static> {
        Defaults {
            office: None,
            office_file: None,
            note: None,
            names: None,
            keys: false,
            explain: false,
            table: false,
        }
    }

    /// The value of the option that has its default from this variable; that of a flag is `true`.
    pub(crate) fn value(&self, variable: Variable) -> Option<&'a str> {
        match variable {
            Variable::Office => self.office,
            Variable::OfficeFile => self.office_file,
            Variable::Note => self.note,
            Variable::Names => self.names,
            Variable::Keys => set(self.keys),
            Variable::Explain => set(self.explain),
            Variable::Table => set(self.table),
        }
    }

    /// Whether an office or its file is set.
    pub(crate) fn names_office(&self) -> bool {
        self.office.is_some() || self.office_file.is_some()
    }
}

fn set(is_set: bool) -> Option<&'static str> {
    if is_set { Some("true") } else { None }
}
