//! Recipes: what is built with the locks most often. Each module is one, and the program prints a line for each.

mod channel;
mod configuration;
mod deadline;
mod phases;
mod pool;
mod requests;

use async_lock::Runtime;
use std::io;
use std::thread::Threads;

// A refusal is an error of input and output too, so `?` takes both.
fn print_each<R>(rt: R) -> io::Result<()>
where
    R: Runtime + Threads + Sync + Copy + Print,
{
    println!(rt; "recipes:")?;
    println!(rt; "channel: {}", channel::run(rt)?)?;
    println!(rt; "pool: {}", pool::run(rt)?)?;
    println!(rt; "configuration: {}", configuration::run(rt)?)?;
    println!(rt; "phases: {}", phases::run(rt)?)?;
    println!(rt; "deadline: {}", deadline::run(rt)?)?;
    println!(rt; "requests: {}", requests::run(rt)?)
}

/// Runs each recipe, and prints a line for each. Returns whether each was run and printed.
pub(crate) fn print_all<R>(rt: R) -> bool
where
    R: Runtime + Threads + Sync + Copy + Print,
{
    print_each(rt).is_ok()
}
