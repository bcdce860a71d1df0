//! Tests of the engines, over devices that fail and that cut.

mod check;
mod merge;
mod outputs;
