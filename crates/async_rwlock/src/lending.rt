//! How a lock lends its value against a seat, and takes it back.

ghost use Rattle.std.specs.Prelude.{◌≡◌, true, false, []};
ghost use Rattle.access_core.specs.Accesses.{IsOf, seated};

use crate::rwlock::RwLock;
use access_vault::{Glance, Grip, Memo};
use rwlock_core::{Pledge, Seat};

impl<T, R> RwLock<T, R> {
    // Lends the value for reading, against a seat that reads: the seat is in pledge meanwhile.
    pub(crate) fn lend_read(&self, seat: Seat) -> (Glance<T>, Pledge)
        requires of { IsOf self.now.raw.access seat }
        requires reads { seat.reads ≡ true }
        ensures vault { result.0.vault_id ≡ self.now.vault.vault_id }
        ensures seat { (seated self.now.raw.access.table result.0.id result.0.view result.1.calls.number ≡ seat) × (result.0.view.has_lists ≡ false) }
        ensures pledged { result.1.badge.views ≡ [] }
    {
        let access = &self.raw.access;
        let mut pledge = access.pledge(seat);
        let glance = self.vault.read(access.shared(), &mut pledge.badge);
        (glance, pledge)
    }

    // Takes the value back that was lent for reading. The seat is what it was.
    pub(crate) fn end_read(&self, glance: Glance<T>, pledge: Pledge) -> Seat
        requires vault { glance.vault_id ≡ self.now.vault.vault_id }
        requires lists { glance.view.has_lists ≡ false }
        requires pledged { pledge.badge.views ≡ [] }
        ensures { result ≡ seated self.now.raw.access.table glance.id glance.view pledge.calls.number }
    {
        let mut pledge = pledge;
        glance.give_back(&self.vault, &mut pledge.badge);
        self.raw.access.redeem(pledge)
    }

    // Lends the value for writing, against a seat that writes: it is the memo's.
    pub(crate) fn lend_write(&self, seat: Seat, memo: &mut Memo<T>) -> (Grip<T>, Pledge)
        requires of { IsOf self.now.raw.access seat }
        requires writes { seat.writes ≡ true }
        requires memo { memo.old.vault_id ≡ self.now.vault.vault_id }
        ensures value { (result.0.value ≡ memo.old.value) × (memo.new ≡ memo.old) }
        ensures vault { result.0.vault_id ≡ self.now.vault.vault_id }
        ensures seat { (seated self.now.raw.access.table result.0.id result.0.view result.1.calls.number ≡ seat) × (result.0.view.has_lists ≡ false) }
        ensures pledged { result.1.badge.views ≡ [] }
    {
        let access = &self.raw.access;
        let mut pledge = access.pledge(seat);
        let grip = self.vault.write(access.shared(), &mut pledge.badge, memo);
        (grip, pledge)
    }

    // Takes the value back that was lent for writing. The seat is what it was, and the memo is of that value.
    pub(crate) fn end_write(&self, grip: Grip<T>, pledge: Pledge, memo: &mut Memo<T>) -> Seat
        requires vault { (grip.vault_id ≡ self.now.vault.vault_id) × (memo.old.vault_id ≡ self.now.vault.vault_id) }
        requires lists { grip.view.has_lists ≡ false }
        requires pledged { pledge.badge.views ≡ [] }
        ensures seat { result ≡ seated self.now.raw.access.table grip.id grip.view pledge.calls.number }
        ensures value { (memo.new.vault_id ≡ self.now.vault.vault_id) × (memo.new.value ≡ grip.value) }
    {
        let mut pledge = pledge;
        grip.give_back(&self.vault, &mut pledge.badge, memo);
        self.raw.access.redeem(pledge)
    }
}
