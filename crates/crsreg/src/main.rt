//! The program: `reg_cli` does the work.
#![tactic(auto)]

use std::fs;
use std::process::ExitCode;

// Every system has this folder. It can be opened, but not read or written.
const FOLDER: &str = "/";

fn main(rt: HostRuntime) -> ExitCode {
    // If a standard stream is closed, the next file that is opened gets its descriptor, and printed text would go into
    // that file. So a folder takes the descriptor first, and writing to the stream fails.
    let _taken = [
        fs::open(&rt, FOLDER),
        fs::open(&rt, FOLDER),
        fs::open(&rt, FOLDER),
    ];
    ExitCode::from(reg_cli::run(&rt))
}
