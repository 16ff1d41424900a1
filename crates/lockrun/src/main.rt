//! Carries out a script of moves on the Worlds of the locks, and prints each answer.
#![tactic(auto)]

use lockrun_runner::{Fault, Open};
use std::io::BufWriter;
use std::process::ExitCode;

/// The whole run, on the streams of the process.
fn main(rt: HostRuntime) -> ExitCode {
    let words = match lockrun_runner::arguments(&rt) {
        Ok(words) => words,
        Err(fault) => return ended(fault, &rt),
    };
    let Ok(mut output) = BufWriter::new(rt.alloc(), rt.stdout()) else {
        return ended(Fault::Memory, &rt);
    };
    ExitCode::from(lockrun_runner::run(
        &rt,
        rt.alloc(),
        words.as_slice(),
        &Open,
        &mut rt.stdin(),
        &mut output,
        &mut rt.stderr(),
    ))
}

/// The status of a run that ends so before it begins.
fn ended(fault: Fault, rt: &HostRuntime) -> ExitCode {
    ExitCode::from(lockrun_runner::report(fault, &mut rt.stderr()))
}
