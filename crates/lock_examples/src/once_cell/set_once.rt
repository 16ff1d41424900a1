//! A value that is put in twice: the second one comes back.

use async_lock::{OnceCell, Refusal};
use std::alloc::AllocGlobal;
use std::sync::Wait;

/// Whether the first value is kept, and the second one comes back.
pub(crate) fn is_first_kept<R>(rt: R) -> Result<bool, Refusal>
where
    R: Wait + AllocGlobal + Drop,
{
    let cell = OnceCell::new(rt)?;
    let is_put = cell.try_set(1u64).is_ok();
    let has_come_back = cell.try_set(2u64) == Err(2);
    Ok(is_put && has_come_back && cell.get() == Some(&1))
}
