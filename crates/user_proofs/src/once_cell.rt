//! What a user can prove of the value that a cell gives.
//!
//! What shows a cell's value shows the same as whatever else shows that cell's (`OnceToken::agrees`): so two reads agree, and a value that
//! was put in is read again, by whichever thread. Each function's contract is about values, and no file of proofs stands beside it.

ghost use Rattle.std.specs.Prelude.{◌≡◌, true, IfSome};

use async_lock::{OnceCell, Refusal};
use std::alloc::AllocGlobal;
use std::sync::Wait;

/// Reads the value twice, and says whether both are the same: they are.
fn reads_agree<R: Wait + Drop>(cell: &OnceCell<u64, R>) -> bool
    ensures { result ≡ true }
{
    let (Some(first), Some(second)) = (cell.witness(), cell.witness()) else {
        return true;
    };
    first.agrees(&second);
    *cell.value(&first) == *cell.value(&second)
}

/// Puts a number in and reads it again, if the cell is empty.
fn put_in<R: Wait + Drop>(cell: &OnceCell<u64, R>, number: u64) -> Option<u64>
    ensures { IfSome result (λ read. read ≡ number) }
{
    let Ok(mine) = cell.try_set_shown(number) else {
        return None;
    };
    let found = cell.witness()?;
    mine.agrees(&found);
    Some(*cell.value(&found))
}

/// Puts 5 in, and reads it twice.
pub fn run<R>(rt: R) -> Result<Option<u64>, Refusal>
where
    R: Wait + AllocGlobal + Drop,
{
    let cell = OnceCell::new(rt)?;
    let read = put_in(&cell, 5);
    Ok(if reads_agree(&cell) { read } else { None })
}
