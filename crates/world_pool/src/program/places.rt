//! The programs of the calls on a pool, as places: at a place one action is done, and what it finds gives the next place, or the
//! end of the call.
//!
//! A take acquires a permit of the semaphore, and then the lock on the list of items. With both it takes the last item out, and
//! releases the lock; the permit stays with the lease. A give acquires the lock, puts its item back, releases the lock, and gives
//! the permit back last. So whoever has a permit and the lock finds an item.

ghost use Rattle.std.specs.Prelude.{◌≡◌};
ghost use Rattle.world_pool.specs.program.Program.{start_of, action_of, next_of, after_permit as after_permit_lem, after_lock as after_lock_lem, after_cancel as after_cancel_lem, after_release as after_release_lem, after_return as after_return_lem, released as released_lem, returned as returned_lem, without_permit, cancelled as cancelled_lem};

use lock_program::mutex::{LockCall, Step};
use lock_program::{End, Next, Refusal};
use sync_program::permits::SemaphoreCall;

/// What is asked of a pool.
#[derive(Clone, Copy)]
pub enum PoolCall {
    /// The first poll of a take.
    Take,
    /// Takes an item at once, or none.
    TryTake,
    /// The first poll of a give.
    Give,
    /// A later poll of either.
    Poll,
    /// The drop of either, or of a lease.
    Drop,
}

/// What the list's lock is acquired for.
#[derive(Clone, Copy)]
pub enum Aim {
    /// To take an item out. The party has a permit for it.
    Take,
    /// To put one back. The party has the lease.
    Give,
}

/// How an item is taken.
#[derive(Clone, Copy)]
pub enum Taker {
    /// By a future's poll.
    Poll,
    /// At once, or not at all.
    Try,
}

/// What comes once the list's lock is released.
#[derive(Clone, Copy)]
pub enum Ending {
    /// The party has taken an item, and its call is over.
    Leased(Taker),
    /// The party has put its item back, and gives its permit back.
    Given,
}

/// Why a permit is given back.
#[derive(Clone, Copy)]
pub enum Return {
    /// A give has put its item back.
    Given,
    /// A pending take is dropped.
    Dropped,
    /// A try found the list's lock not free.
    InVain,
    /// A take's poll found no memory to wait for the list's lock.
    NoMemory,
    /// A take's poll found as many parties starved for the list's lock as may be.
    Starved,
}

/// Where a party stands.
#[derive(Clone, Copy)]
pub enum Position {
    /// Outside every call, with nothing.
    Out,
    /// Outside every call, with a take or a give that was refused: as when it was made.
    Made(Aim),
    /// Outside every call, with a take that has no permit yet.
    Acquiring,
    /// Outside every call, in the list of those that wait for the list's lock.
    Locking(Aim),
    /// Outside every call, with a lease.
    Leased,
    /// Inside a call, with the action of this place to do.
    At(Place),
}

/// A place in a program, named by what is done there.
#[derive(Clone, Copy)]
pub enum Place {
    /// Begin to acquire a permit.
    Acquire,
    /// As `Acquire`, by a take that has been polled before.
    WaitPermit,
    /// Inside a poll that acquires a permit.
    TakePermit,
    /// Take a permit at once, or none.
    TryPermit,
    /// Take the list's lock at once, or not at all.
    TryLock,
    /// Begin to acquire the list's lock.
    EnterLock(Aim),
    /// As `EnterLock`, by a party in the lock's list.
    WaitLock(Aim),
    /// Inside a poll that acquires the list's lock.
    TakeLock(Aim),
    /// With the lock and a permit: take the last item out.
    Pop(Taker),
    /// With the lock and a lease: put the item back.
    Push,
    /// Begin to release the list's lock.
    ReleaseLock(Ending),
    /// Inside that.
    ReleasingLock(Ending),
    /// Begin to give the permit back.
    ReturnPermit(Return),
    /// Inside that.
    ReturningPermit(Return),
    /// A dropped take begins to give up its acquire.
    CancelPermit,
    /// Inside that.
    CancellingPermit,
    /// A dropped future begins to leave the list of the list's lock.
    CancelLock(Aim),
    /// Inside that.
    CancellingLock(Aim),
    /// A dropped lease: its item is lost, and its permit forgotten.
    Lose,
    /// A dropped take that has nothing has nothing to do.
    Abandon,
}

/// One atomic step, on the list of items, or on the semaphore or the list's lock.
#[derive(Clone, Copy)]
pub enum Action {
    /// Nothing is left to do.
    Nothing,
    /// Takes the last item out of the list.
    Pop,
    /// Puts the party's item back, at the end of the list.
    Push,
    /// Begins a call on the semaphore.
    Permit(SemaphoreCall),
    /// Goes on with the party's call there.
    GoPermit,
    /// Forgets the party's permit, and loses its item.
    Lose,
    /// Begins a call on the list's lock.
    Lock(LockCall),
    /// Goes on with the party's call there.
    GoLock,
}

/// What an action found.
#[derive(Clone, Copy)]
pub enum Found {
    /// It was done.
    Done,
    /// What the step of the party's call on the semaphore came to.
    Permit(Step),
    /// What the step of the party's call on the list's lock came to.
    Lock(Step),
}

/// The place at which a call begins for a party that stands there; None where it can't.
pub fn start(call: PoolCall, at: Position) -> Option<Place>
    ensures { result ≡ start_of call at }
{
    match (call, at) {
        (PoolCall::Take, Position::Out) => Some(Place::Acquire),
        (PoolCall::TryTake, Position::Out) => Some(Place::TryPermit),
        (PoolCall::Give, Position::Leased) => Some(Place::EnterLock(Aim::Give)),
        (PoolCall::Poll, Position::Made(Aim::Take)) => Some(Place::Acquire),
        (PoolCall::Poll, Position::Made(Aim::Give)) => Some(Place::EnterLock(Aim::Give)),
        (PoolCall::Poll, Position::Acquiring) => Some(Place::WaitPermit),
        (PoolCall::Poll, Position::Locking(aim)) => Some(Place::WaitLock(aim)),
        (PoolCall::Drop, Position::Made(Aim::Take)) => Some(Place::Abandon),
        (PoolCall::Drop, Position::Made(Aim::Give)) => Some(Place::Lose),
        (PoolCall::Drop, Position::Acquiring) => Some(Place::CancelPermit),
        (PoolCall::Drop, Position::Locking(aim)) => Some(Place::CancelLock(aim)),
        (PoolCall::Drop, Position::Leased) => Some(Place::Lose),
        _ => None,
    }
}

/// The action that is done at a place.
pub fn action_at(place: Place) -> Action
    ensures { result ≡ action_of place }
{
    match place {
        Place::Acquire => Action::Permit(SemaphoreCall::Acquire(1)),
        Place::WaitPermit => Action::Permit(SemaphoreCall::Poll),
        Place::TryPermit => Action::Permit(SemaphoreCall::TryAcquire(1)),
        Place::ReturnPermit(_) | Place::CancelPermit => Action::Permit(SemaphoreCall::Drop),
        Place::TakePermit | Place::ReturningPermit(_) | Place::CancellingPermit => Action::GoPermit,
        Place::TryLock => Action::Lock(LockCall::Try),
        Place::EnterLock(_) => Action::Lock(LockCall::Lock),
        Place::WaitLock(_) => Action::Lock(LockCall::Poll),
        Place::ReleaseLock(_) => Action::Lock(LockCall::Release),
        Place::CancelLock(_) => Action::Lock(LockCall::Cancel),
        Place::TakeLock(_) | Place::ReleasingLock(_) | Place::CancellingLock(_) => Action::GoLock,
        Place::Pop(_) => Action::Pop,
        Place::Push => Action::Push,
        Place::Lose => Action::Lose,
        Place::Abandon => Action::Nothing,
    }
}

/// What comes after the place whose action found this. It is the whole table of the programs: it takes any place with any finding,
/// and of a finding that the action can't make it says nothing of use.
pub fn decide(place: Place, found: Found) -> Next<Place, Position>
    ensures { result ≡ next_of place found }
{
    match place {
        Place::Acquire | Place::WaitPermit | Place::TakePermit => after_permit(found),
        Place::TryPermit => match found {
            Found::Permit(Step::End(End::Granted)) => Next::Do(Place::TryLock),
            _ => Next::End(End::NotFree, Position::Out),
        },
        Place::TryLock => match found {
            Found::Lock(Step::End(End::Got)) => Next::Do(Place::Pop(Taker::Try)),
            _ => Next::Do(Place::ReturnPermit(Return::InVain)),
        },
        Place::EnterLock(aim) | Place::WaitLock(aim) | Place::TakeLock(aim) => {
            after_lock(aim, found)
        }
        Place::Pop(taker) => Next::Do(Place::ReleaseLock(Ending::Leased(taker))),
        Place::Push => Next::Do(Place::ReleaseLock(Ending::Given)),
        Place::ReleaseLock(ending) | Place::ReleasingLock(ending) => after_release(ending, found),
        Place::ReturnPermit(why) | Place::ReturningPermit(why) => after_return(why, found),
        Place::CancelPermit | Place::CancellingPermit => match found {
            Found::Permit(Step::More) => Next::Do(Place::CancellingPermit),
            _ => Next::End(End::GivenBack, Position::Out),
        },
        Place::CancelLock(aim) | Place::CancellingLock(aim) => after_cancel(aim, found),
        Place::Lose | Place::Abandon => Next::End(End::GivenBack, Position::Out),
    }
}

/// After a step of a poll that acquires a permit.
fn after_permit(found: Found) -> Next<Place, Position>
    ensures { result ≡ after_permit_lem found }
{
    match found {
        Found::Permit(Step::More) => Next::Do(Place::TakePermit),
        Found::Permit(Step::End(End::Got)) => Next::Do(Place::EnterLock(Aim::Take)),
        Found::Permit(Step::End(End::Refused(refusal))) => {
            Next::End(End::Refused(refusal), Position::Acquiring)
        }
        _ => Next::End(End::Pending, Position::Acquiring),
    }
}

/// After a step of a poll that acquires the list's lock. A take that is refused gives its permit back first.
fn after_lock(aim: Aim, found: Found) -> Next<Place, Position>
    ensures { result ≡ after_lock_lem aim found }
{
    match found {
        Found::Lock(Step::More) => Next::Do(Place::TakeLock(aim)),
        Found::Lock(Step::End(End::Got)) => match aim {
            Aim::Take => Next::Do(Place::Pop(Taker::Poll)),
            Aim::Give => Next::Do(Place::Push),
        },
        Found::Lock(Step::End(End::Refused(refusal))) => match aim {
            Aim::Take => Next::Do(Place::ReturnPermit(refused(refusal))),
            Aim::Give => Next::End(End::Refused(refusal), Position::Made(Aim::Give)),
        },
        _ => Next::End(End::Pending, Position::Locking(aim)),
    }
}

/// Why a take gives its permit back that the list's lock refused.
fn refused(refusal: Refusal) -> Return
    ensures { result ≡ without_permit refusal }
{
    match refusal {
        Refusal::Starved => Return::Starved,
        _ => Return::NoMemory,
    }
}

/// After a step of the release of the list's lock.
fn after_release(ending: Ending, found: Found) -> Next<Place, Position>
    ensures { result ≡ after_release_lem ending found }
{
    match found {
        Found::Lock(Step::More) => Next::Do(Place::ReleasingLock(ending)),
        _ => released(ending),
    }
}

/// Once the list's lock is released.
fn released(ending: Ending) -> Next<Place, Position>
    ensures { result ≡ released_lem ending }
{
    match ending {
        Ending::Leased(Taker::Poll) => Next::End(End::Got, Position::Leased),
        Ending::Leased(Taker::Try) => Next::End(End::Granted, Position::Leased),
        Ending::Given => Next::Do(Place::ReturnPermit(Return::Given)),
    }
}

/// After a step that gives a permit back.
fn after_return(why: Return, found: Found) -> Next<Place, Position>
    ensures { result ≡ after_return_lem why found }
{
    match found {
        Found::Permit(Step::More) => Next::Do(Place::ReturningPermit(why)),
        _ => returned(why),
    }
}

/// Once a permit is given back.
fn returned(why: Return) -> Next<Place, Position>
    ensures { result ≡ returned_lem why }
{
    match why {
        Return::Given | Return::Dropped => Next::End(End::GivenBack, Position::Out),
        Return::InVain => Next::End(End::NotFree, Position::Out),
        Return::NoMemory => Next::End(End::Refused(Refusal::Memory), Position::Made(Aim::Take)),
        Return::Starved => Next::End(End::Refused(Refusal::Starved), Position::Made(Aim::Take)),
    }
}

/// After a step of the drop of a future that waits for the list's lock.
fn after_cancel(aim: Aim, found: Found) -> Next<Place, Position>
    ensures { result ≡ after_cancel_lem aim found }
{
    match found {
        Found::Lock(Step::More) => Next::Do(Place::CancellingLock(aim)),
        _ => cancelled(aim),
    }
}

/// Once a dropped future has left that list: a take has its permit, and a give its lease.
fn cancelled(aim: Aim) -> Next<Place, Position>
    ensures { result ≡ cancelled_lem aim }
{
    match aim {
        Aim::Take => Next::Do(Place::ReturnPermit(Return::Dropped)),
        Aim::Give => Next::Do(Place::Lose),
    }
}
