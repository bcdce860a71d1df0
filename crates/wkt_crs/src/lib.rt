//! Texts of coordinate reference systems: reading and writing them, from slices, sources and to sinks.
#![tactic(auto)]

mod block;
mod canonical;
mod definition;
mod fault;
pub mod laws;
mod places;
mod reading;
mod shared_key;
mod source;
mod writing;

pub use byte_io::{DeviceFault, Reading, Sink, Source, Writing};
pub use canonical::canonical_text;
pub use crs_value::{Condition, Crs, Key};
pub use definition::{Definition, DefinitionFault};
pub use fault::{ReadFault, Unspelled};
pub use reading::read_crs;
pub use shared_key::SharedKey;
pub use source::{DefineFromFault, ReadFromFault, canonical_text_from, define_from, read_crs_from};
pub use wkt_grammar::{SlotFault, SlotName};
pub use wkt_tree::TextFault;
pub use writing::{write_crs, write_pretty};
