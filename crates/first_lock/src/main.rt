//! Takes a lock in the two plainest ways.
#![tactic(auto)]

use async_lock::{Mutex, Refusal, Runtime};
use std::process::ExitCode;

fn count<R: Runtime>(rt: R) -> Result<u64, Refusal> {
    let mutex = Mutex::new(rt, 40_u64)?;
    let mut guard = mutex.lock_blocking()?;
    *guard = guard.saturating_add(1);
    drop(guard);
    if let Some(mut guard) = mutex.try_lock() {
        *guard = guard.saturating_add(1);
    }
    Ok(mutex.into_inner())
}

fn main(rt: HostRuntime) -> ExitCode {
    match count(rt) {
        Ok(counted) if println!(rt; "{counted}").is_ok() => ExitCode::SUCCESS,
        _ => ExitCode::FAILURE,
    }
}
