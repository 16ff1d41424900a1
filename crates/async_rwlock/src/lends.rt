//! What a guard lends to be written. It has a file of its own: its clauses name the guard's row, which the file that
//! declares it cannot import.

ghost use Rattle.std.specs.Prelude.{◌≡◌};
ghost use types.Logic.{sem};
ghost use denote.Follow.{follows};
ghost use Rattle.async_rwlock.specs.Lent.{held_with};
ghost use Rattle.async_rwlock.specs.contracts.write_guard.WriteGuard.{the_row as guard_row};

use crate::owns::Owns;
use crate::releases::Releases;
use crate::write_guard::WriteGuard;
use std::ops::DerefMut;

impl<T, R: Releases, O: Owns<Value = T, Runtime = R>> DerefMut for WriteGuard<T, R, O> {
    ghost deref_mut_gives = { λ guard value. value ≡ guard.value };

    fn deref_mut(&mut self) -> &mut T
        ensures* writes_back { sem 𝓛 (follows (guard_row T.row R.row O.row O.Owns) T.row self.entry.ghost_name result.ghost_name (held_with self.old)) }
        ensures shows { result.now ≡ self.old.value }
    {
        let lock = self.owner.lock();
        self.grip.get_mut(&lock.vault)
    }
}
