//! The mutex as its users meet it: shared by two threads, on an executor, cancelled, and owned by its guard.
//! Each module is one example. The program runs them all, and prints a line for each.

mod cancelled;
mod executor;
mod owned;
mod two_threads;

use async_lock::{Mutex, Refusal, Runtime};
use futures::test::MockTask;
use std::thread::Threads;

// What each example returns, in order.
struct Results {
    sum: u64,
    read: u64,
    is_passed_on: bool,
    owned: u64,
}

fn run_all<R>(rt: R) -> Result<Results, Refusal>
where
    R: Runtime + Threads + Sync + Copy,
{
    let sum = two_threads::run(rt)?;
    let mutex = Mutex::new(rt, 7_u64)?;
    let read = executor::read(&rt, &mutex)?;
    let Ok(task) = MockTask::new(&rt) else {
        return Err(Refusal::Memory);
    };
    let guard = mutex.lock_blocking()?;
    let is_passed_on = cancelled::second_gets_it(&mutex, guard, &task)?;
    let guard = owned::locked(rt, 9)?;
    let owned = *guard;
    Ok(Results {
        sum,
        read,
        is_passed_on,
        owned,
    })
}

/// Runs each example, and prints a line for each. Returns whether each was run and printed.
pub(crate) fn print_all<R>(rt: R) -> bool
where
    R: Runtime + Threads + Print + Sync + Copy,
{
    let Ok(
        Results {
            sum,
            read,
            is_passed_on,
            owned,
        },
    ) = run_all(rt)
    else {
        return false;
    };
    match println!(rt;
        "mutex:\ntwo threads: {sum}\nexecutor: {read}\ncancelled: {is_passed_on}\nowned: {owned}"
    ) {
        Ok(()) => true,
        Err(_) => false,
    }
}
