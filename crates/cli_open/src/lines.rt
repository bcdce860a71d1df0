//! The lines that a command prints, and the line of a fault.
use byte_io::{Writing, write_all};
use reg_engine::{CliFault, OutFault};
use std::fmt;
use std::io::{self, Write};

/// The exit status for a wrong command line.
pub const MISUSE: u8 = 2;

/// Reports the fault, and returns its exit status.
pub fn failed(rt: &HostRuntime, fault: &CliFault) -> u8 {
    complain(rt, fault, fault.status())
}

/// Prints a line to standard error; if that fails too, only the status remains.
pub fn complain<D: fmt::Display>(rt: &HostRuntime, line: &D, status: u8) -> u8 {
    let _ = eprintln!(rt; "{line}");
    status
}

/// Prints a text that is made in memory first, so that the bytes written can be counted.
pub fn print<D: fmt::Display>(rt: &HostRuntime, text: &D) -> Result<(), CliFault> {
    let Ok(text) = format!(in rt.alloc(); "{text}") else {
        return Err(CliFault::Memory);
    };
    print_bytes(io::writer(rt), text.as_bytes())
}

/// Prints bytes to a writer that is not buffered.
pub fn print_bytes<W: Write + Drop>(out: W, bytes: &[u8]) -> Result<(), CliFault> {
    match write_all(&mut Writing::new(out), bytes) {
        Ok(()) => Ok(()),
        Err(fault) => Err(CliFault::Out(OutFault::WriteFailed(fault.written))),
    }
}
