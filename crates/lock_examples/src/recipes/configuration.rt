//! A configuration that is read when it is first asked for, and once.

use async_lock::{InitFault, OnceCell, Refusal, Runtime};

/// What may stand in a configuration.
#[derive(Clone, Copy, Drop)]
struct Configuration {
    port: u16,
}

/// Why there is none.
#[derive(Debug, Drop, PartialEq)]
enum Missing {
    NoFile,
}

fn read(has_file: bool) -> Result<Configuration, Missing> {
    if has_file {
        Ok(Configuration { port: 8080 })
    } else {
        Err(Missing::NoFile)
    }
}

// The port. A read that fails leaves the cell empty, so the next call reads again.
fn port<R>(cell: &OnceCell<Configuration, R>, has_file: bool) -> Result<Option<u16>, Refusal>
where
    R: Runtime,
{
    match cell.get_or_try_init_blocking(|| read(has_file)) {
        Ok(configuration) => Ok(Some(configuration.port)),
        Err(InitFault::Closure(Missing::NoFile)) => Ok(None),
        Err(InitFault::Refused(refusal)) => Err(refusal),
    }
}

/// Whether the port is known once there is a file, from then on, and not before.
pub(crate) fn run<R>(rt: R) -> Result<bool, Refusal>
where
    R: Runtime + Copy,
{
    let cell = OnceCell::new(rt)?;
    let before = port(&cell, false)?;
    let then = port(&cell, true)?;
    let later = port(&cell, false)?;
    Ok(before.is_none() && then == Some(8080) && later == Some(8080))
}
