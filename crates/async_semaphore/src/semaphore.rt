//! The semaphore.

ghost use Rattle.std.specs.Prelude.{◌≡◌, IfErr, IfOk};
ghost use Rattle.lock_program.specs.declared.refusal.Refusal.{Refusal};

use lock_program::Refusal;
use semaphore_core::RawSemaphore;
use std::alloc::AllocGlobal;
use std::fmt;

/// A number of permits, which tasks acquire and give back.
///
/// Of each permit one of four is true: it is available, a guard has it, it was forgotten, or it is just being added. The semaphore's limit
/// counts all but the forgotten ones. `R` is the runtime that the semaphore was made with and keeps.
pub struct Semaphore<R> {
    pub(crate) raw: RawSemaphore,
    pub(crate) rt: R,
}

// By hand, so that a drop is one call to prove, and not all of its parts again.
impl<R: Drop> Drop for Semaphore<R> {
    fn drop(self) {
        let Semaphore { raw: _, rt: _ } = self;
    }
}

impl<R: AllocGlobal + Drop> Semaphore<R> {
    /// Creates a semaphore of this many permits, all of them available. If memory is refused, it returns [`Refusal::Memory`].
    ///
    /// By the contract it begins with exactly these (`permits`), and no other refusal is returned (`memory`).
    ///
    /// ```
    /// let semaphore = Semaphore::new(rt, 2)?;
    /// ```
    pub fn new(rt: R, permits: usize) -> Result<Semaphore<R>, Refusal>
        ensures permits { IfOk result (λ semaphore. semaphore.raw.word.start ≡ permits) }
        ensures memory { IfErr result (λ refusal. refusal ≡ Refusal.Memory) }
    {
        match RawSemaphore::new(rt.alloc(), permits as u64) {
            Ok(raw) => Ok(Semaphore { raw, rt }),
            Err(_) => Err(Refusal::Memory),
        }
    }
}

impl<R> Semaphore<R> {
    /// Returns how many permits were available at some moment of the call. It waits for nobody and takes no memory.
    ///
    /// Other tasks may acquire or give back permits before the call returns.
    ///
    /// ```
    /// let is_lent = semaphore.available_permits() == 0;
    /// ```
    #[inline]
    pub fn available_permits(&self) -> usize {
        self.raw.available() as usize
    }
}

impl<R> fmt::Debug for Semaphore<R> {
    fn fmt<W: fmt::Write>(&self, f: &mut fmt::Formatter<W>) -> fmt::Result {
        f.debug_struct("Semaphore")
            .field("count", &self.available_permits())
            .finish_non_exhaustive()
    }
}
