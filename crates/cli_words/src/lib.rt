//! The commands, options and help of `crsreg`.
#![tactic(auto)]

mod argument;
mod building;
mod change;
mod change_help;
mod command;
mod completions;
mod defaults;
mod exchange;
mod exchange_help;
mod listing;
mod look;
mod look_help;
mod many;
mod many_help;
mod name;
mod read;
mod read_help;
mod whole;
mod whole_help;

pub use argument::Role;
pub use command::CommandRow;
pub use completions::{Shell, completion_script};
pub use defaults::Defaults;
pub use listing::overview;
pub use name::CommandName;
pub use whole::command_line;
