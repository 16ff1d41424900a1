//! The locks as their users meet them. Each lock has a module, and each of that module's own modules is one example. So have recipes:
//! what is built with the locks most often. The program runs the examples, and prints a line for each, below the name of its module.
#![tactic(auto)]

mod barrier;
mod connections;
mod moves;
mod mutex;
mod once_cell;
mod recipes;
mod rwlock;
mod semaphore;

use std::process::ExitCode;

fn main(rt: HostRuntime) -> ExitCode {
    let is_done = mutex::print_all(rt)
        && rwlock::print_all(rt)
        && semaphore::print_all(rt)
        && once_cell::print_all(rt)
        && barrier::print_all(rt)
        && recipes::print_all(rt)
        && connections::print_all(rt)
        && moves::print_all(rt);
    if is_done {
        ExitCode::SUCCESS
    } else {
        ExitCode::FAILURE
    }
}
