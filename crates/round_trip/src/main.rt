//! Reads class files and writes them again: `round_trip FILE..`. A line for each file says what came of it. The
//! status is 0 where each file was written byte for byte as it was read and each line was written.
#![tactic(auto)]

mod copy;
mod file_lines;
mod outcome;
mod trial;

use file_lines::copy_files;
use jvm_edges::{FileStore, StdSink};
use std::process::ExitCode;
use std::{env, io};

fn main(rt: HostRuntime) -> io::Result<ExitCode> {
    let words: Vec<String> = env::args(&rt)?.collect(rt.alloc())?;
    let names = words.get(1..).unwrap_or(&[]);
    let store = &mut FileStore::new(&rt);
    let out = &mut StdSink::new(rt.stdout());
    Ok(match copy_files(rt.alloc(), names, store, out) {
        Ok(true) => ExitCode::SUCCESS,
        Ok(false) | Err(_) => ExitCode::FAILURE,
    })
}
