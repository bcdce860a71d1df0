//! Makes the calls on files that its lines name, one after another, and prints the answer of each:
//!
//! - `look NAME`: `nothing`, `sole`, `shared`, `other` or `failed`
//! - `make NAME`, `open NAME`: the number of the file; `exists` or `failed`
//! - `lock FILE`, `named NAME FILE`, `has NAME TEXT`: `yes`, `no` or `failed`
//! - `write FILE TEXT`: how many bytes were written
//! - `sync FILE`, `alike FILE NAME`, `rename FROM TO`, `unlink NAME`, `folder NAME`: `done` or `failed`
#![tactic(auto)]

mod answer;

use answer::answer_to;
use byte_system::HostSystem;
use std::io;

fn main(rt: HostRuntime) -> io::Result<()> {
    let mut system = HostSystem::new(rt.alloc(), &rt)?;
    for _ in 0..u64::MAX {
        let mut line = String::new(rt.alloc());
        if rt.read_line(&mut line)? == 0 {
            return Ok(());
        }
        let answer = answer_to(&mut system, line.trim_end());
        println!(rt; "{answer}")?;
    }
    Ok(())
}
