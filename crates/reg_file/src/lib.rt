//! Files of registers, summaries and pieces, read exactly; other bytes have a first fault, with its place.
#![tactic(auto)]

mod block;
mod chunks;
mod contents;
mod fault;
mod fields;
mod first;
mod heads;
pub mod laws;
mod length;
mod op_offset;
mod operations;
mod parts;
mod pieces;
mod ranges;
mod reading;
mod span;
mod spelling;
mod summaries;
mod writing;

pub use chunks::RegisterChunks;
pub use fault::{FileFault, FirstFileFault, ReadFileFault, WriteFileFault};
pub use first::{write_first_bytes, write_first_register};
pub use heads::MAX_FILE;
pub use parts::{Part, read_part, read_part_beside, read_part_bytes};
pub use pieces::{read_piece, read_piece_beside, read_piece_bytes, write_piece, write_piece_bytes};
pub use reading::{read_bytes, read_register, read_register_beside};
pub use reg_state::Register;
pub use summaries::{read_seen, read_seen_bytes, write_seen, write_seen_bytes};
pub use writing::{write_bytes, write_register};
