//! Commands as rows of tables.
use crate::argument::{CommandArgument, OF_ALL, OF_NONE, OF_OFFICE, OF_ROWS, Role};

/// A command.
#[derive(Clone, Copy)]
pub struct CommandRow {
    pub name: &'static str,
    pub about: &'static str,
    /// What its help says below its arguments.
    pub help: &'static str,
    /// Where the help of the program lists it.
    pub group: Group,
    /// Its own arguments, in the order of its help.
    pub arguments: &'static [CommandArgument],
    /// Whether it changes a register as an office, so that it has the options of an office.
    pub is_office: bool,
    /// Whether it prints rows, so that it has `--table`.
    pub prints_rows: bool,
}

/// A part of the list of commands in the help of the program.
#[derive(Clone, Copy, PartialEq, Eq)]
pub enum Group {
    Daily,
    Exchange,
    HandOver,
    Rare,
}

/// The parts, in their order.
pub static GROUPS: [Group; 4] = [Group::Daily, Group::Exchange, Group::HandOver, Group::Rare];

impl Group {
    /// The heading of the part.
    pub fn heading(self) -> &'static str {
        match self {
            Group::Daily => "Daily work",
            Group::Exchange => "Exchange between offices",
            Group::HandOver => "For other people and programs",
            Group::Rare => "Rarely needed",
        }
    }
}

impl CommandRow {
    /// The options that it shares with commands of an office.
    pub fn of_office(&self) -> &'static [CommandArgument] {
        if self.is_office {
            return &OF_OFFICE;
        }
        &OF_NONE
    }

    /// The options that it shares with commands that print rows.
    pub fn of_rows(&self) -> &'static [CommandArgument] {
        if self.prints_rows {
            return &OF_ROWS;
        }
        &OF_NONE
    }

    /// The name of its first argument with this role.
    pub fn with_role(&self, role: Role) -> Option<&'static str> {
        named(self.arguments, role)
            .or(named(self.of_office(), role))
            .or(named(&OF_ALL, role))
    }

    /// The name of the register that it reads, if any.
    pub fn register(&self) -> Option<&'static str> {
        match self.with_role(Role::Register) {
            Some(name) => Some(name),
            None => self.with_role(Role::OwnRegister),
        }
    }

    /// The name of the file that it writes, if any.
    pub fn output(&self) -> Option<&'static str> {
        match self.with_role(Role::Output) {
            Some(name) => Some(name),
            None => self.with_role(Role::OwnRegister),
        }
    }

    /// The name of its shelf, if any, where `--shelf` is given or not.
    pub fn shelf(&self, is_given: bool) -> Option<&'static str> {
        match self.with_role(Role::Shelf) {
            Some(name) => Some(name),
            None if !is_given => None,
            None => match self.register() {
                Some(name) => Some(name),
                None => self.output(),
            },
        }
    }

    /// Whether it changes its shelf where `--shelf` is given.
    pub fn keeps_shelf(&self) -> bool {
        self.with_role(Role::OnKeptShelf).is_some()
    }

    /// The role of the argument with this name.
    pub fn role(&self, name: &str) -> Role {
        role_of(self.arguments, name)
            .or(role_of(self.of_office(), name))
            .or(role_of(&OF_ALL, name))
            .unwrap_or(Role::Plain)
    }
}

// The name of the first of these arguments with this role.
fn named(arguments: &[CommandArgument], role: Role) -> Option<&'static str> {
    for argument in arguments {
        if argument.role == role {
            return Some(argument.name);
        }
    }
    None
}

fn role_of(arguments: &[CommandArgument], name: &str) -> Option<Role> {
    for argument in arguments {
        if argument.name == name {
            return Some(argument.role);
        }
    }
    None
}
