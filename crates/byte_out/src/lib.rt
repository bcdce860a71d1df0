//! Files that are replaced as a whole: a new file is made, synced, and renamed to the old one.
#![tactic(auto)]

mod chunks;
mod direct_place;
mod fault;
mod file_id;
mod input;
mod lock;
mod mem_place;
mod memory_target;
mod naming;
mod place;
mod replacing;
mod sending;

pub use chunks::{Chunks, InOne};
pub use direct_place::DirectPlace;
pub use fault::{CompareFault, InUse, MakeFault, PutFault, ReplaceFault};
pub use file_id::FileId;
pub use input::{Input, InputOf, first_kept};
pub use lock::{Lock, Lockable};
pub use mem_place::{MemPlace, PlaceStep};
pub use naming::own_path;
pub use place::Place;
pub use replacing::{prepare, replace, replace_with};
pub use sending::{fill, write_chunks};
