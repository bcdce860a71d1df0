//! Sources, sinks and targets of bytes, with contracts that say when a device failed.
#![tactic(auto)]

mod fault;
mod late_file;
mod late_source;
mod log;
mod memory;
mod memory_target;
mod reading;
mod sink;
mod source;
mod std_devices;
mod std_file;
mod tally;
mod target;
mod writing;

pub use fault::{DeviceFault, InFault, NotOpened, PublishFault, WriteFault};
pub use late_file::LateFile;
pub use late_source::LateSource;
pub use log::Log;
pub use memory::{Endless, Full, Pieces, Room, Then};
pub use memory_target::MemoryTarget;
pub use reading::read_up_to;
pub use sink::Sink;
pub use source::Source;
pub use std_devices::{Reading, Writing};
pub use std_file::StdFile;
pub use tally::Tally;
pub use target::{Target, publish};
pub use writing::write_all;
