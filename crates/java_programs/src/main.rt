//! Calls `jvt` with the arguments in each line of `programs.txt`, and prints what came of it: the line, what the program wrote or the
//! refusal, and the status.
#![tactic(auto)]

use java_cli::jvt;
use jvm_edges::{Clock, FileStore, OpenGate, RealClock, Sink, StdSink, Store};
use std::alloc::{AllocError, Global};
use std::process::ExitCode;
use std::sync::Wait;
use std::thread::Threads;
use std::{fs, io};

fn main(rt: HostRuntime) -> io::Result<ExitCode> {
    let alloc = rt.alloc();
    let store = &mut FileStore::new(&rt);
    let out = &mut StdSink::new(rt.stdout());
    let err = &mut StdSink::new(rt.stdout());
    let clock = RealClock::new(&rt);
    let table = fs::read_to_string(&rt, "programs.txt")?;
    for line in table.lines() {
        println!(rt; "== {line}")?;
        let status = run_program(&rt, alloc, line, &clock, store, out, err)?;
        println!(rt; "== status {status}")?;
    }
    Ok(ExitCode::SUCCESS)
}

// The program's name, and the arguments in a line.
fn arguments_of(alloc: Global, line: &str) -> Result<Vec<String>, AllocError> {
    let mut args = Vec::new(alloc);
    args.push(String::from_str(alloc, "jvt")?)?;
    for arg in line.split_whitespace() {
        args.push(String::from_str(alloc, arg)?)?;
    }
    Ok(args)
}

// Calls `jvt` with the arguments in a line, and gives the status.
fn run_program<R: Threads + Wait + Sync, C: Clock + Sync, S: Store, O: Sink, E: Sink>(
    rt: &R,
    alloc: Global,
    line: &str,
    clock: &C,
    store: &mut S,
    out: &mut O,
    err: &mut E,
) -> Result<u8, AllocError> {
    let args = arguments_of(alloc, line)?;
    let report = jvt(rt, alloc, &args, store, out, err, clock, &OpenGate::new());
    Ok(report.why.status())
}

#[cfg(test)]
mod meeting;
#[cfg(test)]
mod tests;
