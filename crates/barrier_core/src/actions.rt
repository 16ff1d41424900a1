//! Each action on the counts: of arrivals, and of finished generations.

ghost use Rattle.std.specs.Prelude.{◌≡◌, ◌≢◌, ◌+◌, ◌<◌, ◌≤◌, true, false};
ghost use Rattle.sync_program.specs.declared.barrier.Action.TheVariants as act;
ghost use Rattle.sync_program.specs.declared.barrier.Found.TheVariants as finds;
ghost use Rattle.barrier_core.specs.Barriers.{IsAt, IsCountedIn, IsOf, goes, with_count, with_finished, with_look};
ghost use Rattle.barrier_core.specs.Counts.{FindsLook, looked};
ghost use Rattle.barrier_core.specs.Outcomes.{IsRightOf};

use crate::arrivals::{Arrivals, Looked};
use crate::raw::RawBarrier;
use crate::seat::Seat;
use lock_place::Hold;
use sync_program::barrier::{Found, Place};
use words_barrier::steps::{count, finish, look};

impl RawBarrier {
    /// Looks what an arrival has to do, by whoever has the inner lock: wait, since more have to come; lead its generation; or be refused,
    /// since it would finish a generation past the limit. So many generations are finished, as the seat found last.
    #[inline]
    pub fn look(&self, hold: &Hold<Arrivals>, seat: &mut Seat, finished: u64, at: Place) -> Looked
        requires right { IsRightOf self.now hold.now }
        requires seat { IsOf self.now seat.old × (seat.old.found ≡ finished) }
        requires course { IsAt at act.Look seat.old }
        ensures finds { FindsLook self.now finished result hold.now.value }
        ensures seat { seat.new ≡ goes at (looked result) seat.old }
    {
        let arrivals = hold.get(self.inner.room());
        if self.size > 0 && arrivals.count < self.size - 1 {
            seat.go(at, Found::MustWait);
            Looked::MustWait
        } else if finished < self.most {
            seat.go(at, Found::Leads);
            Looked::Leads
        } else {
            seat.go(at, Found::Past);
            Looked::Past
        }
    }

    /// Counts one more arrival, which doesn't finish its generation, by whoever has the inner lock, and looks in which generation it is:
    /// one load. The generation is answered.
    #[inline]
    pub fn arrive(&self, hold: &mut Hold<Arrivals>, seat: &mut Seat, at: Place) -> u64
        requires right { IsRightOf self.now hold.old }
        requires of { IsOf self.now seat.old }
        requires course { IsAt at act.Arrive seat.old }
        requires more { hold.old.value.count + 1 < self.now.size }
        ensures right { IsRightOf self.now hold.new }
        ensures count { hold.new.value.count ≡ hold.old.value.count + 1 }
        ensures seat { seat.new ≡ goes at finds.Done (with_count result seat.old) }
    {
        // The size is a number of the machine, and the count stays below it.
        let _size = self.size;
        let arrivals = hold.get_mut(self.inner.room());
        arrivals.count += 1;
        let generation = count(&self.table.shared, &mut seat.inner);
        seat.go(at, Found::Done);
        generation
    }

    /// Counts one more arrival, which finishes its generation and leads it, by whoever has the inner lock: one step. The seat owes all that
    /// stand in the list a notification then.
    #[inline]
    pub fn complete(&self, hold: &mut Hold<Arrivals>, seat: &mut Seat, finished: u64, at: Place)
        requires right { IsRightOf self.now hold.old }
        requires seat { IsOf self.now seat.old × (seat.old.found ≡ finished) }
        requires course { IsAt at act.Complete seat.old }
        requires last { self.now.size ≤ hold.old.value.count + 1 }
        requires room { finished < self.now.most }
        ensures right { IsRightOf self.now hold.new }
        ensures count { hold.new.value.count ≡ 0 }
        ensures seat { seat.new ≡ goes at finds.Done (with_finished seat.old) }
    {
        let _most = self.most;
        let arrivals = hold.get_mut(self.inner.room());
        arrivals.count = 0;
        finish(&self.table.shared, &mut seat.inner, finished);
        seat.go(at, Found::Done);
    }

    /// Looks how many generations are finished: one load. It is no action of the program, and leaves the party at its place.
    #[inline]
    pub fn look_again(&self, seat: &mut Seat) -> u64
        requires of { IsOf self.now seat.old }
        ensures { seat.new ≡ with_look result seat.old }
    {
        look(&self.table.shared, &mut seat.inner)
    }

    /// Looks whether the generation is finished that the seat's arrival was counted in, by whoever has the inner lock: one load.
    #[inline]
    pub fn check(&self, hold: &Hold<Arrivals>, seat: &mut Seat, generation: u64, at: Place) -> bool
        requires right { IsRightOf self.now hold.now }
        requires of { IsOf self.now seat.old × IsCountedIn generation seat.old }
        requires course { IsAt at act.Check seat.old }
        ensures finished { result ≡ true → (seat.new ≡ goes at finds.Finished (with_look seat.new.found seat.old)) × (seat.new.found ≢ generation) }
        ensures unfinished { result ≡ false → seat.new ≡ goes at finds.Unfinished (with_look generation seat.old) }
    {
        let _ = hold;
        if self.look_again(seat) == generation {
            seat.go(at, Found::Unfinished);
            return false;
        }
        seat.go(at, Found::Finished);
        true
    }

    /// Drops a wait of an arrival that stands in no list: nothing is left to do.
    #[inline(always)]
    pub fn abandon(&self, seat: &mut Seat, at: Place)
        requires of { IsOf self.now seat.old }
        requires course { IsAt at act.Nothing seat.old }
        ensures { seat.new ≡ goes at finds.Done seat.old }
    {
        seat.go(at, Found::Done);
    }
}
