//! The programs of the calls on a mutex, as places: at a place one action is done, and what it finds
//! gives the next place.
//!
//! A party takes the lock at once if it is free. Else it joins the list, looks again, and asks for its
//! notification at each poll. A notified party that finds the lock held, and has waited for too long,
//! counts itself as starved: from then on newcomers leave the lock to the starved ones.

ghost use Rattle.std.specs.Prelude.{◌≡◌};
ghost use Rattle.lock_program.specs.Mutex.{next_of, action_of, start_of, after_join as after_join_lem, after_count as after_count_lem, after_decision as after_decision_lem};
ghost use Rattle.lock_program.specs.declared.mutex.Place.TheVariants as at;

use crate::end::{End, Next};
use crate::refusal::Refusal;

/// What is asked of a mutex.
#[derive(Clone, Copy)]
pub enum LockCall {
    /// The first poll.
    Lock,
    /// Takes the lock at once, or not at all.
    Try,
    /// A later poll.
    Poll,
    /// The guard's drop.
    Release,
    /// The drop of a lock that is pending.
    Cancel,
}

/// What a step of a call came to, for those who know no place of it.
#[derive(Clone, Copy)]
pub enum Step {
    /// Some step of the call is left.
    More,
    /// The call is over.
    End(End),
}

/// Where a party stands in a call on a mutex. `listed` says that it stands in the list, `told` that it
/// took a notification during this poll.
#[derive(Clone, Copy)]
pub enum Place {
    /// Outside every call, without the lock: a future not yet polled, refused, dropped or none.
    Out,
    /// Outside every call, with the lock.
    Holding,
    /// A first poll takes the lock, if it is free.
    Enter,
    /// A try takes the lock, if it is free.
    Try,
    /// A release gives the lock back.
    Clear,
    /// A dropped starved future takes its count off, before it leaves the list.
    CancelUncount,
    /// A dropped future leaves the list.
    CancelLeave,
    /// The lock was held: join the list.
    Join { told: bool },
    /// Look at the lock again, since it may have been released before the join.
    Look { told: bool },
    /// Ask for the notification. A pending future's next poll starts here.
    Ask,
    /// Notified: take the lock, if it is free.
    Retry,
    /// Others are starved, so the notification goes on to the next in the list.
    PassOn,
    /// Count as starved.
    Count { listed: bool, told: bool },
    /// Join the list as a starved party.
    JoinStarved,
    /// Take the lock, if it is free and no other party is starved.
    LookAlone,
    /// The lock is free and others are starved: notify the first in the list.
    PassOnListed,
    /// Ask for the notification as a starved party. A starved future's next poll starts here.
    AskStarved,
    /// Notified and starved: take the lock if nobody holds it, whoever else is starved.
    Seize,
    /// The lock is taken: take the starved count off.
    Uncount { listed: bool },
    /// The lock is taken: leave the list.
    Leave,
    /// No memory for a starved party's entry: take its count off.
    RefuseUncount,
    /// Too many starved parties: leave the list.
    RefuseLeave { told: bool },
    /// No memory: hand on the notification that was taken.
    RefuseNotifyMemory,
    /// Too many starved parties: hand on the notification that was taken.
    RefuseNotifyStarved,
    /// The lock is given back: notify the first in the list.
    ReleaseNotify,
}

/// One atomic step, on the lock's word or on its list.
#[derive(Clone, Copy)]
pub enum Action {
    /// Nothing is left to do.
    Nothing,
    /// Takes the lock if nobody holds it and nobody is starved.
    Take,
    /// Takes the lock if nobody holds it and one party is starved: the one that looks.
    TakeAlone,
    /// Takes the lock if nobody holds it.
    Set,
    /// Counts one more starved party, below the limit.
    Count,
    /// Counts one starved party fewer.
    Uncount,
    /// Gives the lock back.
    Clear,
    /// Adds the party's waiting entry at the back of the list.
    Join,
    /// Takes the party's entry out if it was marked.
    Ask,
    /// Takes the party's entry out, and what it was told goes on to the next.
    Leave,
    /// Marks the first waiting entry, unless an entry is marked already.
    Notify,
}

/// What an action found.
#[derive(Clone, Copy)]
pub enum Found {
    /// It was done.
    Done,
    /// The lock was free and is taken.
    Free,
    /// The lock was held. After a notification, `starving` says that the party has waited for too long.
    Held { starving: bool },
    /// Other parties are starved, whether the lock was held or not.
    SomeStarved,
    /// As many parties are starved as there may be.
    AtLimit,
    /// There was no memory for the entry.
    NoMemory,
    /// The entry was marked and is gone.
    Yes,
    /// The entry waits.
    No,
}

/// The place at which a call begins for a party that stands there; None where it can't.
pub fn start(call: LockCall, at: Place) -> Option<Place>
    ensures { result ≡ start_of call at }
{
    match (call, at) {
        (LockCall::Lock, Place::Out) => Some(Place::Enter),
        (LockCall::Try, Place::Out) => Some(Place::Try),
        (LockCall::Poll, Place::Out) => Some(Place::Enter),
        (LockCall::Poll, Place::Ask) => Some(Place::Ask),
        (LockCall::Poll, Place::AskStarved) => Some(Place::AskStarved),
        (LockCall::Release, Place::Holding) => Some(Place::Clear),
        (LockCall::Cancel, Place::Out) => Some(Place::Out),
        (LockCall::Cancel, Place::Ask) => Some(Place::CancelLeave),
        (LockCall::Cancel, Place::AskStarved) => Some(Place::CancelUncount),
        _ => None,
    }
}

/// The action that is done at a place.
pub fn action_at(place: Place) -> Action
    ensures { result ≡ action_of place }
{
    match place {
        Place::Out | Place::Holding => Action::Nothing,
        Place::Enter | Place::Try | Place::Look { .. } | Place::Retry => Action::Take,
        Place::Join { .. } | Place::JoinStarved => Action::Join,
        Place::Ask | Place::AskStarved => Action::Ask,
        Place::Count { .. } => Action::Count,
        Place::LookAlone => Action::TakeAlone,
        Place::Seize => Action::Set,
        Place::Clear => Action::Clear,
        Place::Uncount { .. } | Place::RefuseUncount | Place::CancelUncount => Action::Uncount,
        Place::Leave | Place::RefuseLeave { .. } | Place::CancelLeave => Action::Leave,
        Place::PassOn
        | Place::PassOnListed
        | Place::RefuseNotifyMemory
        | Place::RefuseNotifyStarved
        | Place::ReleaseNotify => Action::Notify,
    }
}

/// What comes after the place whose action found this. It is the whole table of the programs: it takes
/// any place with any finding, and of a finding that the action can't make it says nothing of use.
pub fn decide(place: Place, found: Found) -> Next<Place, Place>
    ensures { result ≡ next_of place found }
{
    match place {
        Place::Out => Next::End(End::GivenBack, Place::Out),
        Place::Holding => Next::End(End::Got, Place::Holding),
        Place::Enter => match found {
            Found::Free => Next::End(End::Got, Place::Holding),
            _ => Next::Do(Place::Join { told: false }),
        },
        Place::Try => match found {
            Found::Free => Next::End(End::Got, Place::Holding),
            _ => Next::End(End::NotFree, Place::Out),
        },
        Place::Join { told } => after_join(told, found),
        Place::Look { told } => after_look(told, found),
        Place::Ask => match found {
            Found::Yes => Next::Do(Place::Retry),
            _ => Next::End(End::Pending, Place::Ask),
        },
        Place::Retry => after_retry(found),
        Place::PassOn => Next::Do(Place::Count {
            listed: false,
            told: true,
        }),
        Place::Count { listed, told } => after_count(listed, told, found),
        Place::JoinStarved => match found {
            Found::Done => Next::Do(Place::LookAlone),
            _ => Next::Do(Place::RefuseUncount),
        },
        Place::LookAlone => after_look_alone(found),
        Place::PassOnListed => Next::Do(Place::AskStarved),
        Place::AskStarved => match found {
            Found::Yes => Next::Do(Place::Seize),
            _ => Next::End(End::Pending, Place::AskStarved),
        },
        Place::Seize => match found {
            Found::Free => Next::Do(Place::Uncount { listed: false }),
            _ => Next::Do(Place::JoinStarved),
        },
        Place::Uncount { .. }
        | Place::Leave
        | Place::RefuseUncount
        | Place::RefuseLeave { .. }
        | Place::RefuseNotifyMemory
        | Place::RefuseNotifyStarved
        | Place::Clear
        | Place::ReleaseNotify
        | Place::CancelUncount
        | Place::CancelLeave => after_decision(place),
    }
}

/// What comes after the places of a call that is decided: their findings don't matter any more.
fn after_decision(place: Place) -> Next<Place, Place>
    ensures { result ≡ after_decision_lem place }
{
    match place {
        Place::Uncount { listed: true } => Next::Do(Place::Leave),
        Place::RefuseUncount => Next::Do(Place::RefuseNotifyMemory),
        Place::RefuseLeave { told: true } => Next::Do(Place::RefuseNotifyStarved),
        Place::RefuseLeave { told: false } | Place::RefuseNotifyStarved => {
            Next::End(End::Refused(Refusal::Starved), Place::Out)
        }
        Place::RefuseNotifyMemory => Next::End(End::Refused(Refusal::Memory), Place::Out),
        Place::Clear => Next::Do(Place::ReleaseNotify),
        Place::CancelUncount => Next::Do(Place::CancelLeave),
        Place::ReleaseNotify | Place::CancelLeave => Next::End(End::GivenBack, Place::Out),
        _ => Next::End(End::Got, Place::Holding),
    }
}

fn after_join(told: bool, found: Found) -> Next<Place, Place>
    ensures { result ≡ after_join_lem told found }
{
    match found {
        Found::Done => Next::Do(Place::Look { told }),
        _ if told => Next::Do(Place::RefuseNotifyMemory),
        _ => Next::End(End::Refused(Refusal::Memory), Place::Out),
    }
}

fn after_look(told: bool, found: Found) -> Next<Place, Place>
    ensures { result ≡ next_of (at.Look told) found }
{
    match found {
        Found::Free => Next::Do(Place::Leave),
        Found::Held { .. } => Next::Do(Place::Ask),
        _ => Next::Do(Place::Count { listed: true, told }),
    }
}

fn after_retry(found: Found) -> Next<Place, Place>
    ensures { result ≡ next_of at.Retry found }
{
    match found {
        Found::Free => Next::End(End::Got, Place::Holding),
        Found::Held { starving: true } => Next::Do(Place::Count {
            listed: false,
            told: true,
        }),
        Found::Held { starving: false } => Next::Do(Place::Join { told: true }),
        _ => Next::Do(Place::PassOn),
    }
}

fn after_count(listed: bool, told: bool, found: Found) -> Next<Place, Place>
    ensures { result ≡ after_count_lem listed told found }
{
    match found {
        Found::AtLimit if listed => Next::Do(Place::RefuseLeave { told }),
        Found::AtLimit if told => Next::Do(Place::RefuseNotifyStarved),
        Found::AtLimit => Next::End(End::Refused(Refusal::Starved), Place::Out),
        _ if listed => Next::Do(Place::AskStarved),
        _ => Next::Do(Place::JoinStarved),
    }
}

fn after_look_alone(found: Found) -> Next<Place, Place>
    ensures { result ≡ next_of at.LookAlone found }
{
    match found {
        Found::Free => Next::Do(Place::Uncount { listed: true }),
        Found::Held { .. } => Next::Do(Place::AskStarved),
        _ => Next::Do(Place::PassOnListed),
    }
}
