//! The programs of the calls on a barrier, as places: at a place one action is done, and what it finds gives
//! the next place, or the end of the call.
//!
//! A wait takes the inner lock to arrive. The arrival that finishes its generation leads: it notifies all
//! that wait. Any other joins the list before it is counted, and waits there. Once it is notified, it takes
//! the inner lock again, to check that its generation is finished. Whatever a poll finds, it releases the
//! inner lock that it took.

ghost use Rattle.std.specs.Prelude.{◌≡◌};
ghost use Rattle.sync_program.specs.Barrier.{next_of, action_of, start_of, after_lock as after_lock_lem, after_cancel as after_cancel_lem, after_release as after_release_lem, released as released_lem};
ghost use Rattle.sync_program.specs.declared.barrier.Place.TheVariants as places;

use lock_program::mutex::{LockCall, Step};
use lock_program::{End, Next, Refusal};

/// What is asked of a barrier.
#[derive(Clone, Copy)]
pub enum BarrierCall {
    /// The first poll of a wait.
    Wait,
    /// A later poll.
    Poll,
    /// The drop of a wait.
    Drop,
}

/// How a call leaves its party.
#[derive(Clone, Copy)]
pub enum Left {
    /// Outside every call with nothing: its wait is ready, and says whether it led its generation.
    Ready { leads: bool },
    /// Outside every call, at this position.
    Outside(Position),
}

/// What the inner lock is taken for.
#[derive(Clone, Copy)]
pub enum Aim {
    /// To arrive: the wait isn't counted yet.
    Arrive,
    /// To check whether the generation of a counted wait is finished.
    Check,
}

/// What comes once the inner lock is released.
#[derive(Clone, Copy)]
pub enum Ending {
    /// The party stands in the list, and asks there.
    Wait,
    /// The wait is over, and its party follows.
    Follow,
    /// The wait is over, and its party leads its generation.
    Lead,
    /// The arrival is refused: it would finish a generation past the limit.
    RefuseGenerations,
    /// The poll is refused: there was no memory for its entry.
    RefuseMemory(Aim),
}

/// Where a party stands.
#[derive(Clone, Copy)]
pub enum Position {
    /// Outside every call, with nothing.
    Out,
    /// A wait that was refused: outside every call, and in no list.
    Made(Aim),
    /// Outside every call, in the inner lock's list.
    Locking(Aim),
    /// Outside every call, in the barrier's list.
    Waiting,
    /// Inside a call, with the action of this place to do.
    At(Place),
}

/// A place in a program, named by what is done there.
#[derive(Clone, Copy)]
pub enum Place {
    /// Begin to take the inner lock.
    EnterLock(Aim),
    /// As `EnterLock`, by a party in the inner lock's list. The next poll of such a future starts here.
    WaitLock(Aim),
    /// Inside a poll that takes the inner lock.
    TakeLock(Aim),
    /// With the inner lock: see what this arrival has to do.
    Look,
    /// It has to wait: join the list, before it is counted.
    Join,
    /// It stands in the list: it is counted.
    Arrive,
    /// It leads: it is counted, and its generation is finished.
    Complete,
    /// The generation is finished: notify all in the list.
    NotifyAll,
    /// With the inner lock again: see whether the wait's generation is finished.
    Check,
    /// It isn't: join the list once more.
    JoinAgain,
    /// Begin to release the inner lock.
    ReleaseLock(Ending),
    /// Inside that.
    ReleasingLock(Ending),
    /// Ask for the notification. The next poll of a listed future starts here.
    Ask,
    /// A dropped future begins to leave the inner lock's list.
    CancelLock,
    /// Inside that.
    CancellingLock,
    /// A dropped future leaves the barrier's list.
    CancelLeave,
    /// A dropped future that stands in no list has nothing to do.
    Abandon,
}

/// One atomic step, on the count, on the list or on the inner lock.
#[derive(Clone, Copy)]
pub enum Action {
    /// Nothing is left to do.
    Nothing,
    /// Looks what an arrival has to do.
    Look,
    /// Counts the arrival.
    Arrive,
    /// Counts the arrival, and finishes its generation.
    Complete,
    /// Looks whether the generation of the party's arrival is finished.
    Check,
    /// Adds the party's waiting entry at the back of the list.
    Join,
    /// Takes the party's entry out if it was marked.
    Ask,
    /// Takes the party's entry out, and what it was told goes on to the next.
    Leave,
    /// Marks all waiting entries.
    NotifyAll,
    /// Begins a call on the inner lock.
    Begin(LockCall),
    /// Goes on with the party's call on the inner lock.
    Go,
}

/// What an action found.
#[derive(Clone, Copy)]
pub enum Found {
    /// It was done.
    Done,
    /// More have to arrive before the generation is finished.
    MustWait,
    /// This arrival finishes the generation.
    Leads,
    /// This arrival would finish a generation past the limit.
    Past,
    /// The generation is finished.
    Finished,
    /// The generation isn't finished.
    Unfinished,
    /// There was no memory for the entry.
    NoMemory,
    /// The entry was marked and is gone.
    Yes,
    /// The entry waits.
    No,
    /// What the step of the party's call on the inner lock came to.
    Lock(Step),
}

/// The place at which a call begins for a party that stands there; None where it can't.
pub fn start(call: BarrierCall, at: Position) -> Option<Place>
    ensures { result ≡ start_of call at }
{
    match (call, at) {
        (BarrierCall::Wait, Position::Out) => Some(Place::EnterLock(Aim::Arrive)),
        (BarrierCall::Poll, Position::Made(aim)) => Some(Place::EnterLock(aim)),
        (BarrierCall::Poll, Position::Locking(aim)) => Some(Place::WaitLock(aim)),
        (BarrierCall::Poll, Position::Waiting) => Some(Place::Ask),
        (BarrierCall::Drop, Position::Locking(_)) => Some(Place::CancelLock),
        (BarrierCall::Drop, Position::Waiting) => Some(Place::CancelLeave),
        (BarrierCall::Drop, Position::Out | Position::Made(_)) => Some(Place::Abandon),
        _ => None,
    }
}

/// The action that is done at a place.
pub fn action_at(place: Place) -> Action
    ensures { result ≡ action_of place }
{
    match place {
        Place::EnterLock(_) => Action::Begin(LockCall::Lock),
        Place::WaitLock(_) => Action::Begin(LockCall::Poll),
        Place::TakeLock(_) | Place::ReleasingLock(_) | Place::CancellingLock => Action::Go,
        Place::Look => Action::Look,
        Place::Join | Place::JoinAgain => Action::Join,
        Place::Arrive => Action::Arrive,
        Place::Complete => Action::Complete,
        Place::NotifyAll => Action::NotifyAll,
        Place::Check => Action::Check,
        Place::ReleaseLock(_) => Action::Begin(LockCall::Release),
        Place::Ask => Action::Ask,
        Place::CancelLock => Action::Begin(LockCall::Cancel),
        Place::CancelLeave => Action::Leave,
        Place::Abandon => Action::Nothing,
    }
}

/// What comes after the place whose action found this. It is the whole table of the programs: it takes
/// any place with any finding, and of a finding that the action can't make it says nothing of use.
pub fn decide(place: Place, found: Found) -> Next<Place, Left>
    ensures { result ≡ next_of place found }
{
    match place {
        Place::EnterLock(aim) | Place::WaitLock(aim) | Place::TakeLock(aim) => {
            after_lock(aim, found)
        }
        Place::Look => after_look(found),
        Place::Join => after_join(found),
        Place::Arrive => Next::Do(Place::ReleaseLock(Ending::Wait)),
        Place::Complete => Next::Do(Place::NotifyAll),
        Place::NotifyAll => Next::Do(Place::ReleaseLock(Ending::Lead)),
        Place::Check => match found {
            Found::Finished => Next::Do(Place::ReleaseLock(Ending::Follow)),
            _ => Next::Do(Place::JoinAgain),
        },
        Place::JoinAgain => after_join_again(found),
        Place::ReleaseLock(ending) | Place::ReleasingLock(ending) => after_release(ending, found),
        Place::Ask => match found {
            Found::Yes => Next::Do(Place::EnterLock(Aim::Check)),
            _ => Next::End(End::Pending, Left::Outside(Position::Waiting)),
        },
        Place::CancelLock | Place::CancellingLock => after_cancel(found),
        Place::CancelLeave | Place::Abandon => Next::End(
            End::GivenBack,
            Left::Outside(Position::Out),
        ),
    }
}

/// After a step of a poll that takes the inner lock.
fn after_lock(aim: Aim, found: Found) -> Next<Place, Left>
    ensures { result ≡ after_lock_lem aim found }
{
    match found {
        Found::Lock(Step::More) => Next::Do(Place::TakeLock(aim)),
        Found::Lock(Step::End(End::Got)) => match aim {
            Aim::Arrive => Next::Do(Place::Look),
            Aim::Check => Next::Do(Place::Check),
        },
        Found::Lock(Step::End(End::Refused(refusal))) => {
            Next::End(End::Refused(refusal), Left::Outside(Position::Made(aim)))
        }
        _ => Next::End(End::Pending, Left::Outside(Position::Locking(aim))),
    }
}

/// After an arrival's look, with the inner lock.
fn after_look(found: Found) -> Next<Place, Left>
    ensures { result ≡ next_of places.Look found }
{
    match found {
        Found::MustWait => Next::Do(Place::Join),
        Found::Leads => Next::Do(Place::Complete),
        _ => Next::Do(Place::ReleaseLock(Ending::RefuseGenerations)),
    }
}

/// After an uncounted party was put into the list, if there was memory.
fn after_join(found: Found) -> Next<Place, Left>
    ensures { result ≡ next_of places.Join found }
{
    match found {
        Found::Done => Next::Do(Place::Arrive),
        _ => Next::Do(Place::ReleaseLock(Ending::RefuseMemory(Aim::Arrive))),
    }
}

/// As [`after_join`], of a counted party: it stays counted.
fn after_join_again(found: Found) -> Next<Place, Left>
    ensures { result ≡ next_of places.JoinAgain found }
{
    match found {
        Found::Done => Next::Do(Place::ReleaseLock(Ending::Wait)),
        _ => Next::Do(Place::ReleaseLock(Ending::RefuseMemory(Aim::Check))),
    }
}

/// After a step of the drop of a future that waits for the inner lock.
fn after_cancel(found: Found) -> Next<Place, Left>
    ensures { result ≡ after_cancel_lem found }
{
    match found {
        Found::Lock(Step::More) => Next::Do(Place::CancellingLock),
        _ => Next::End(End::GivenBack, Left::Outside(Position::Out)),
    }
}

/// After a step of the inner lock's release.
fn after_release(ending: Ending, found: Found) -> Next<Place, Left>
    ensures { result ≡ after_release_lem ending found }
{
    match found {
        Found::Lock(Step::More) => Next::Do(Place::ReleasingLock(ending)),
        _ => released(ending),
    }
}

/// Once the inner lock is released.
fn released(ending: Ending) -> Next<Place, Left>
    ensures { result ≡ released_lem ending }
{
    match ending {
        Ending::Wait => Next::Do(Place::Ask),
        Ending::Follow => Next::End(End::Got, Left::Ready { leads: false }),
        Ending::Lead => Next::End(End::Got, Left::Ready { leads: true }),
        Ending::RefuseGenerations => Next::End(
            End::Refused(Refusal::Generations),
            Left::Outside(Position::Made(Aim::Arrive)),
        ),
        Ending::RefuseMemory(aim) => {
            Next::End(
                End::Refused(Refusal::Memory),
                Left::Outside(Position::Made(aim)),
            )
        }
    }
}
