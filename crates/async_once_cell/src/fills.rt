//! What a try to fill a cell asks of the runtime.

ghost use Rattle.std.specs.Prelude.{◌≡◌, IfErr, IfOk};

use cell_core::RawCell;
use std::sync::{OnceToken, Wait as Waits};

/// A runtime by which a cell is filled at once. Whatever may wait is one.
///
/// A function over it has nothing else to wait by: a try waits no longer than for the short locks of the cell's lists, and of where its value
/// lies.
pub trait Fills {
    /// Puts this value in at once if the cell is empty, and shows it; else it gives the value back.
    fn try_set_shown<'a, T>(&self, cell: &'a RawCell<T>, value: T) -> Result<OnceToken<'a, T>, T>
        ensures shown { IfOk result (λ token. (token.of ≡ cell.now.word.store) × (token.value ≡ value)) }
        ensures back { IfErr result (λ back. back ≡ value) };
}

impl<R: Waits> Fills for R {
    #[inline(always)]
    fn try_set_shown<'a, T>(&self, cell: &'a RawCell<T>, value: T) -> Result<OnceToken<'a, T>, T> {
        cell.try_set_shown(self, value)
    }
}
