//! The names of the commands.
use crate::change::{enter, retire, supersede};
use crate::command::CommandRow;
use crate::exchange::{downgrade, merge, new, office, piece, seen, shelf, take, unshelf};
use crate::look::{diff, find, lint, offices, page, status};
use crate::many::{import, settle};
use crate::read::{compare, export, graph, log, ops, report, show, texts, wkt};
use crate::whole::{check, completions};

/// A command.
#[derive(Clone, Copy)]
pub enum CommandName {
    Check,
    // They make or change a register.
    New,
    Office,
    Enter,
    Import,
    Supersede,
    Retire,
    Settle,
    // They show registers.
    Find,
    Lint,
    Show,
    Wkt,
    Texts,
    Compare,
    Export,
    Graph,
    Ops,
    Log,
    Report,
    Status,
    Offices,
    Page,
    // Offices exchange registers with them.
    Diff,
    Take,
    Merge,
    Seen,
    Piece,
    Downgrade,
    // They make a shelf, and write its register to a file.
    Shelf,
    Unshelf,
    Completions,
}

/// All commands, in the order of the help.
pub static COMMANDS: [CommandName; 31] = [
    CommandName::Check,
    CommandName::New,
    CommandName::Office,
    CommandName::Enter,
    CommandName::Import,
    CommandName::Find,
    CommandName::Show,
    CommandName::Wkt,
    CommandName::Compare,
    CommandName::Log,
    CommandName::Report,
    CommandName::Status,
    CommandName::Lint,
    CommandName::Supersede,
    CommandName::Retire,
    CommandName::Settle,
    CommandName::Take,
    CommandName::Diff,
    CommandName::Offices,
    CommandName::Merge,
    CommandName::Seen,
    CommandName::Piece,
    CommandName::Export,
    CommandName::Texts,
    CommandName::Page,
    CommandName::Graph,
    CommandName::Ops,
    CommandName::Downgrade,
    CommandName::Shelf,
    CommandName::Unshelf,
    CommandName::Completions,
];

impl CommandName {
    /// The row of the command.
    pub fn row(self) -> &'static CommandRow {
        match self {
            CommandName::Check => check(),
            CommandName::New => new(),
            CommandName::Office => office(),
            CommandName::Enter => enter(),
            CommandName::Import => import(),
            CommandName::Supersede => supersede(),
            CommandName::Retire => retire(),
            CommandName::Settle => settle(),
            CommandName::Find => find(),
            CommandName::Lint => lint(),
            CommandName::Show => show(),
            CommandName::Wkt => wkt(),
            CommandName::Texts => texts(),
            CommandName::Compare => compare(),
            CommandName::Export => export(),
            CommandName::Graph => graph(),
            CommandName::Ops => ops(),
            CommandName::Log => log(),
            CommandName::Report => report(),
            CommandName::Status => status(),
            CommandName::Offices => offices(),
            CommandName::Page => page(),
            CommandName::Diff => diff(),
            CommandName::Take => take(),
            CommandName::Merge => merge(),
            CommandName::Seen => seen(),
            CommandName::Piece => piece(),
            CommandName::Downgrade => downgrade(),
            CommandName::Shelf => shelf(),
            CommandName::Unshelf => unshelf(),
            CommandName::Completions => completions(),
        }
    }

    /// The command with this name on the command line.
    pub fn named(name: &str) -> Option<CommandName> {
        for command in COMMANDS {
            if command.row().name == name {
                return Some(command);
            }
        }
        None
    }
}
