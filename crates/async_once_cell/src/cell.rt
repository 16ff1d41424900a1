//! The once-cell.

ghost use Rattle.std.specs.Prelude.{◌≡◌, Some, None, IfErr, IfOk, IfSome, false, true};
ghost use Rattle.async_once_cell.specs.Faults.{FaultOf, HasBack};
ghost use Rattle.async_once_cell.specs.Stages.{new_future};
ghost use Rattle.lock_program.specs.declared.refusal.Refusal.{Refusal};
ghost use Rattle.async_once_cell.specs.declared.makers.Trying.TheVariants as tries;
ghost use Rattle.async_once_cell.specs.declared.makers.Making.TheVariants as makes;

use crate::blocking::{Blocked, BlockedSet, BlockedWait, Ended, Kept, Origin};
use crate::faults::{InitFault, SetFault};
use crate::fills::Fills;
use crate::init::{GetOrInit, GetOrTryInit};
use crate::makers::{Makes, MakingNow, TryingNow};
use crate::set::Set;
use crate::wait::Wait;
use cell_core::{RawCell, State};
use futures::Future;
use futures::executor::block_on;
use lock_program::Refusal;
use std::alloc::AllocGlobal;
use std::convert::Infallible;
use std::fmt;
use std::marker::Brand;
use std::random::RandomSource;
use std::sync::{OnceToken, Wait as Waits};
use std::time::Clock;

/// A value that is made once, and then read by any task.
///
/// `R` is the runtime that the cell was made with and keeps.
pub struct OnceCell<T, R> {
    pub(crate) raw: RawCell<T>,
    pub(crate) rt: R,
}

// By hand, so that a drop is one call to prove, and not all of its parts again.
impl<T: Drop, R: Drop> Drop for OnceCell<T, R> {
    fn drop(self) {
        let OnceCell { raw: _, rt: _ } = self;
    }
}

impl<T: Drop, R: AllocGlobal + Drop> OnceCell<T, R> {
    /// Creates an empty cell. If memory is refused, it returns [`Refusal::Memory`] (`memory`); of the runtime it asks memory alone.
    ///
    /// The Rust crate's call takes no runtime and can't fail.
    ///
    /// ```
    /// let cell = OnceCell::new(rt)?;
    /// ```
    pub fn new(rt: R) -> Result<OnceCell<T, R>, Refusal>
        ensures memory { IfErr result (λ refusal. refusal ≡ Refusal.Memory) }
        ensures empty { IfOk result (λ cell. cell.raw.word.start ≡ false) }
    {
        let Ok(raw) = RawCell::new(rt.alloc()) else {
            return Err(Refusal::Memory);
        };
        Ok(OnceCell { raw, rt })
    }

    /// Creates a cell that has this value. If memory is refused, it returns [`Refusal::Memory`] and drops the value (`memory`).
    ///
    /// The Rust crate has it as `From<T>`, which can't fail.
    ///
    /// ```
    /// let mut cell = OnceCell::with_value(rt, 3_u64)?;
    /// ```
    pub fn with_value(rt: R, value: T) -> Result<OnceCell<T, R>, Refusal>
        ensures memory { IfErr result (λ refusal. refusal ≡ Refusal.Memory) }
        ensures full { IfOk result (λ cell. cell.raw.word.start ≡ true) }
    {
        let Ok(raw) = RawCell::with_value(rt.alloc(), value) else {
            return Err(Refusal::Memory);
        };
        Ok(OnceCell { raw, rt })
    }
}

impl<T, R> OnceCell<T, R> {
    /// Returns whether the cell had a value at some moment of the call. It waits for nobody and takes no memory. That it is so is
    /// tested, and no clause says it.
    ///
    /// ```
    /// let was_full = cell.is_initialized();
    /// ```
    pub fn is_initialized(&self) -> bool {
        self.raw.is_full()
    }

    /// Returns the value, if there is one. It waits for nobody and takes no memory.
    ///
    /// No clause says which value a plain reference shows: [`OnceCell::witness`] does.
    ///
    /// ```
    /// Ok(is_put && has_come_back && cell.get() == Some(&1))
    /// ```
    pub fn get(&self) -> Option<&T> {
        self.raw.get()
    }

    /// Returns what shows the value, if there is one, to be read by [`OnceCell::value`]. It waits for nobody and takes no memory.
    ///
    /// Whatever shows the value of a cell shows the same value (`OnceToken::agrees`): by it a user proves that two reads agree.
    /// The Rust crate has no such call.
    ///
    /// ```
    /// let found = cell.witness()?;
    /// mine.agrees(&found);
    /// ```
    pub fn witness(&self) -> Option<OnceToken<'_, T>>
        ensures { IfSome result (λ token. token.of ≡ self.now.raw.word.store) }
    {
        self.raw.witness()
    }

    /// Returns the value that this shows. It waits for nobody and takes no memory.
    ///
    /// ```
    /// Some(*cell.value(&found))
    /// ```
    pub fn value<'a>(&'a self, shown: &OnceToken<'a, T>) -> &'a T
        requires { shown.now.of ≡ self.now.raw.word.store }
        ensures { result.now ≡ shown.now.value }
    {
        self.raw.value(shown)
    }

    /// Returns the value to be written, if there is one. It waits for nobody and takes no memory. A cell whose maker was forgotten
    /// (`mem::forget`) has none.
    ///
    /// ```
    /// if let Some(value) = cell.get_mut() {
    ///     *value = value.saturating_add(1);
    /// }
    /// ```
    pub fn get_mut(&mut self) -> Option<&mut T> {
        self.raw.get_mut()
    }

    /// Takes the value out, if there is one; the cell is empty then. It waits for nobody and takes no memory. A cell whose maker was
    /// forgotten (`mem::forget`) has none, and stays being made.
    ///
    /// ```
    /// let taken = cell.take();
    /// ```
    pub fn take(&mut self) -> Option<T> {
        self.raw.take()
    }

    /// Returns the value, if there is one. It waits for nobody and takes no memory.
    ///
    /// ```
    /// let is_left = cell.into_inner();
    /// ```
    pub fn into_inner(self) -> Option<T>
    where
        R: Drop,
    {
        let OnceCell { raw, rt } = self;
        drop(rt);
        raw.into_inner()
    }
}

impl<T, R> OnceCell<T, R> {
    /// Returns the cell without its runtime. It is for tests.
    pub fn raw(&self) -> &RawCell<T>
        ensures { result.now ≡ self.now.raw }
    {
        &self.raw
    }
}

impl<T: Drop, R: Waits> OnceCell<T, R> {
    /// Returns a future of the value, which only waits until the cell has one. It does nothing until it is polled; its polls ask the runtime
    /// for the clock, the lists' short locks and memory. In the Rust crate it is an `async fn`, as are the three below.
    ///
    /// ```
    /// let waited = *wait_for(&rt, cell.wait())?;
    /// ```
    pub fn wait(&self) -> Wait<'_, T, R>
        ensures { result ≡ record { cell = self.now; is_over = false; entry = None; ended = None } }
    {
        Wait::new(self)
    }

    /// Returns a future of the value, which the closure's future makes if the cell is empty, and which may fail: then the cell stays empty,
    /// and the next one that would make the value is notified. It does nothing until it is polled. The closure is called once at
    /// most by each future: after a maker that failed or was cancelled another's closure is called, as in the Rust crate.
    ///
    /// The closure may be called (`call`), and what it answers may be polled (`poll`): of a closure without conditions, and a
    /// future that may be polled at any time, that is so.
    ///
    /// ```
    /// let failing = cell.get_or_try_init(|| future::ready(Err::<u64, &str>("no number")));
    /// let has_failed = wait_for(&rt, failing)? == Err("no number");
    /// ```
    pub fn get_or_try_init<E: Drop, F: FnOnce() -> Fut, Fut: Future<Output = Result<T, E>>>(
        &self,
        closure: F,
    ) -> GetOrTryInit<'_, T, E, R, F, Fut>
        requires call { F.pre closure }
        requires poll { (fut : _) → F.post closure fut → Fut.can_poll fut }
        ensures { result ≡ new_future self.now (tries.Closure closure) }
    {
        GetOrTryInit::new(self, closure)
    }

    /// Returns a future of the value, which the closure's future makes if the cell is empty. It does nothing until it is polled. The closure
    /// is called once at most by each future. What it asks of the closure (`call`, `poll`) is as in [`OnceCell::get_or_try_init`].
    ///
    /// ```
    /// let made = *wait_for(&rt, cell.get_or_init(|| future::ready(5_u64)))?;
    /// ```
    pub fn get_or_init<F: FnOnce() -> Fut, Fut: Future<Output = T>>(
        &self,
        closure: F,
    ) -> GetOrInit<'_, T, R, F, Fut>
        requires call { F.pre closure }
        requires poll { (fut : _) → F.post closure fut → Fut.can_poll fut }
        ensures { result ≡ new_future self.now (makes.Closure closure) }
    {
        GetOrInit::new(self, closure)
    }

    /// Returns a future that puts this value in if the cell is empty, and else has it back. It does nothing until it is polled.
    ///
    /// ```
    /// let came_back = wait_for(&rt, cell.set(6))? == Err(6);
    /// ```
    pub fn set(&self, value: T) -> Set<'_, T, R>
        ensures { result ≡ record { cell = self.now; is_over = false; entry = None; seat = None; ended = None; value = Some value } }
    {
        Set::new(self, value)
    }
}

impl<T, R: Fills> OnceCell<T, R> {
    /// Puts this value in at once if the cell is empty, and else gives it back: also while another task makes the value. What it
    /// gives back is what was handed in. It waits for nobody but for the lists' short locks. It takes memory for the wakers that are
    /// due, and does without where that is refused, which is tested.
    ///
    /// ```
    /// let is_put = cell.try_set(1u64).is_ok();
    /// let has_come_back = cell.try_set(2u64) == Err(2);
    /// ```
    pub fn try_set(&self, value: T) -> Result<(), T>
        ensures { IfErr result (λ back. back ≡ value) }
    {
        match self.try_set_shown(value) {
            Ok(_) => Ok(()),
            Err(back) => Err(back),
        }
    }

    /// Does as [`OnceCell::try_set`] does; a value that is put in is shown (`shown`), so that whatever shows the cell's value while this does shows
    /// the same. The Rust crate has no such call.
    ///
    /// ```
    /// let Ok(mine) = cell.try_set_shown(number) else {
    ///     return None;
    /// };
    /// ```
    pub fn try_set_shown(&self, value: T) -> Result<OnceToken<'_, T>, T>
        ensures shown { IfOk result (λ token. (token.of ≡ self.now.raw.word.store) × (token.value ≡ value)) }
        ensures back { IfErr result (λ back. back ≡ value) }
    {
        self.rt.try_set_shown(&self.raw, value)
    }
}

impl<T: Drop, R: Waits + Clock + RandomSource + AllocGlobal> OnceCell<T, R> {
    /// Waits for the value, blocking the calling thread until the cell has one. It is refused for memory alone (`memory`), and any
    /// error of `block_on` is [`Refusal::Memory`]; a cell that is full gives its value without. A refused call leaves no
    /// entry in the cell's lists. In an async context it may deadlock: use [`OnceCell::wait`] there.
    ///
    /// It asks the runtime to wait, and for the clock, memory and random numbers, which its executor takes; where those are refused, so
    /// is the call, as for memory. So do the three below. In the Rust crate none of them is refused.
    ///
    /// ```
    /// let waited = *cell.wait_blocking()? == 7;
    /// ```
    pub fn wait_blocking(&self) -> Result<&T, Refusal>
        ensures memory { IfErr result (λ refusal. refusal ≡ Refusal.Memory) }
    {
        if let Some(value) = self.get() {
            return Ok(value);
        }
        match block_on(&self.rt, BlockedWait(self.wait())) {
            Ok(Ok(())) => Ok(self.raw.made(&self.rt)),
            Ok(Err(refusal)) => Err(refusal),
            Err(_) => Err(Refusal::Memory),
        }
    }

    /// Puts this value in if the cell is empty, and else gives it back. It blocks the calling thread while another makes the value. Any
    /// error of `block_on` is [`Refusal::Memory`], and a refused call gives the value back too. In an async context it may deadlock.
    ///
    /// What it gives is the value that was handed in (`value`), and so is what it gives back (`back`).
    ///
    /// ```
    /// let is_taken = matches!(cell.set_blocking(8), Err(SetFault::Taken(8)));
    /// ```
    pub fn set_blocking(&self, value: T) -> Result<&T, SetFault<T>>
        ensures value { IfOk result (λ r. r.now ≡ value) }
        ensures back { IfErr result (HasBack value) }
    {
        set_in::<T, R, Brand>(self, value)
    }

    /// Returns the value, which the closure makes if the cell is empty. It blocks the calling thread while another makes the value.
    /// Any error of `block_on` is [`Refusal::Memory`]; a cell that is full gives its value without. A refused call drops the closure,
    /// which it hasn't called, and leaves the cell as it was. In an async context it may deadlock. It asks for a closure that may be
    /// called: one without conditions of its own always may. It is called against the right to make alone ([`Makes`]).
    ///
    /// ```
    /// let value = cell.get_or_init_blocking(|| 21u64)?;
    /// ```
    pub fn get_or_init_blocking<F: Makes<T>>(&self, closure: F) -> Result<&T, Refusal>
        requires { F.can_call closure }
        ensures memory { IfErr result (λ refusal. refusal ≡ Refusal.Memory) }
    {
        if let Some(value) = self.get() {
            return Ok(value);
        }
        let making = Blocked::<'_, T, Infallible, R, MakingNow<F>>::new(
            self,
            MakingNow::Closure(closure),
        );
        match block_on(&self.rt, making) {
            Ok(Ok(Ok(()))) => Ok(self.raw.made(&self.rt)),
            Ok(Ok(Err(never))) => match never {},
            Ok(Err(refusal)) => Err(refusal),
            Err(_) => Err(Refusal::Memory),
        }
    }

    /// Returns the value, which the closure makes if the cell is empty and it doesn't fail. It blocks the calling thread while another
    /// makes the value. Any error of `block_on` is [`Refusal::Memory`]; a cell that is full gives its value without. A refused call
    /// drops the closure, which it hasn't called, and leaves the cell as it was. In an async context it may deadlock.
    ///
    /// A failure is what the closure answered; it is refused for memory alone (`fault`). It asks for a closure that may be called, as
    /// the call above.
    ///
    /// ```
    /// let failed = cell.get_or_try_init_blocking(|| Err::<u64, &str>("no number"));
    /// ```
    pub fn get_or_try_init_blocking<E: Drop, F: Makes<Result<T, E>>>(
        &self,
        closure: F,
    ) -> Result<&T, InitFault<E>>
        requires { F.can_call closure }
        ensures fault { IfErr result (FaultOf (F.answers closure)) }
    {
        if let Some(value) = self.get() {
            return Ok(value);
        }
        let trying = Blocked::<'_, T, E, R, TryingNow<F>>::new(self, TryingNow::Closure(closure));
        match block_on(&self.rt, trying) {
            Ok(Ok(Ok(()))) => Ok(self.raw.made(&self.rt)),
            Ok(Ok(Err(fault))) => Err(InitFault::Closure(fault)),
            Ok(Err(refusal)) => Err(InitFault::Refused(refusal)),
            Err(_) => Err(InitFault::Refused(Refusal::Memory)),
        }
    }
}

impl<T: fmt::Debug, R> fmt::Debug for OnceCell<T, R> {
    fn fmt<W: fmt::Write>(&self, f: &mut fmt::Formatter<W>) -> fmt::Result {
        match self.get() {
            Some(value) => debug_as(f, value),
            None => debug_as(f, &Without(self.raw.state())),
        }
    }
}

// A cell with what stands for its value.
fn debug_as<D: fmt::Debug, W: fmt::Write>(f: &mut fmt::Formatter<W>, value: &D) -> fmt::Result {
    f.debug_tuple("OnceCell").field(value).finish()
}

// What stands for the value of a cell that has none.
#[derive(Drop)]
struct Without(State);

impl fmt::Debug for Without {
    fn fmt<W: fmt::Write>(&self, f: &mut fmt::Formatter<W>) -> fmt::Result {
        match self.0 {
            State::Making => f.write_str("<initializing>"),
            State::Empty | State::Full => f.write_str("<uninitialized>"),
        }
    }
}

// A blocking set of the value that `O` names.
fn set_in<T: Drop, R: Waits + Clock + RandomSource + AllocGlobal, O: Origin<T>>(
    cell: &OnceCell<T, R>,
    value: T,
) -> Result<&T, SetFault<T>>
    requires { O.origin ≡ Some value }
    ensures value { IfOk result (λ r. r.now ≡ value) }
    ensures back { IfErr result (HasBack value) }
{
    let mut kept: Kept<'_, T, R, O> = Kept::new(cell.set(value));
    let refusal = match block_on(&cell.rt, BlockedSet(&mut kept)) {
        Ok(Err(refusal)) => refusal,
        Ok(Ok(())) | Err(_) => Refusal::Memory,
    };
    match kept.into_end() {
        Ended::Done(value) => Ok(value),
        Ended::Back(value) => Err(SetFault::Taken(value)),
        Ended::Never(value) => Err(SetFault::Refused(value, refusal)),
    }
}
