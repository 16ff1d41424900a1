//! The writer lock, with a memo of the value.

ghost use Rattle.std.specs.Prelude.{◌≡◌};
ghost use Rattle.mutex_core.specs.Outcomes.{IsHeldOf};
ghost use Rattle.async_rwlock.specs.Noted.{IsNotedOf};

use crate::rwlock::RwLock;
use access_vault::Memo;
use mutex_core::Held;
use rwlock_core::Turn;

/// The writer lock of whoever has it, with a memo of the value, for which the vault has the right to that lock's room. So the value is known while the right
/// changes by which it is lent.
pub(crate) struct NotedTurn<T> {
    pub(crate) turn: Turn,
    pub(crate) memo: Memo<T>,
}

impl<T, R> RwLock<T, R> {
    // Lends the memo of the value for the right that the writer lock has.
    #[inline(always)]
    pub(crate) fn lend_memo(&self, turn: Turn) -> NotedTurn<T>
        requires { IsHeldOf self.now.raw.turn turn }
        ensures of { IsNotedOf self.now result }
        ensures same { result.turn.seat ≡ turn.seat }
    {
        let (seat, right) = turn.into_parts();
        let mut hold = right;
        let memo = self.vault.memo(&mut hold, self.raw.turn.room());
        NotedTurn {
            turn: Held::of(seat, hold),
            memo,
        }
    }

    // Takes the memo back. The writer lock has its right again.
    #[inline(always)]
    pub(crate) fn end_memo(&self, noted: NotedTurn<T>) -> Turn
        requires { IsNotedOf self.now noted }
        ensures of { IsHeldOf self.now.raw.turn result }
        ensures same { result.seat ≡ noted.turn.seat }
    {
        let NotedTurn { turn, memo } = noted;
        let (seat, right) = turn.into_parts();
        let mut hold = right;
        memo.give_back(&self.vault, &mut hold, self.raw.turn.room());
        Held::of(seat, hold)
    }
}
