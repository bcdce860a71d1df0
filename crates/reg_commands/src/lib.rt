//! The basic commands: check, enter, supersede, retire, merge, report, export and exchange, over any store, source, sink and place;
//! and commands on the entries that words name, by id or by key.
#![tactic(auto)]

pub mod again;
mod change;
mod check;
mod exchange;
mod export;
pub mod laws;
mod merge;
mod merge_on;
mod on_devices;
mod reports;
mod shelves;
mod wkt;
mod words;

pub use change::{Enter, Retire, Supersede, retired, superseded};
pub use check::run_check;
pub use exchange::{FirstVersion, PieceFor, SeenFile, Whole, run_piece, run_seen, run_unshelf};
pub use export::{Export, run_export};
pub use merge::{join_pieces, join_registers, run_merge, run_new};
pub use merge_on::run_merge_on;
pub use on_devices::{
    run_enter, run_enter_on, run_retire, run_retire_on, run_supersede, run_supersede_on,
};
pub use reports::{OpsReport, Report, Show, run_ops, run_report, run_show};
pub use shelves::run_shelf;
pub use wkt::{Form, Wkt, run_wkt};
pub use words::{
    ByWord, ByWords, ChangeOf, PrintOf, RetireOf, ShowOf, SupersedeOf, WktOf, fault_of,
};
