//! The programs of the calls on a semaphore, as places: at a place one action is done, and what it finds
//! gives the next place, or the end of the call.
//!
//! A poll takes the permits that its future is for, if as many are available. Else it joins the list, looks again, and asks
//! for its notification. A party that took a notification tells the list how many permits are available once it needs the
//! notification no more: when it has taken its own, and when there are too few for it. So the next one for whom they are
//! enough is notified.

ghost use Rattle.std.specs.Prelude.{◌≡◌};
ghost use Rattle.sync_program.specs.Permits.{next_of, action_of, start_of, after_taking as after_taking_lem, too_few as too_few_lem, available_in as available_lem, told_more as told_more_lem};
ghost use Rattle.sync_program.specs.declared.permits.Place.TheVariants as places;

use lock_program::{End, Next, Refusal};

/// What is asked of a semaphore.
#[derive(Clone, Copy)]
pub enum SemaphoreCall {
    /// The first poll of an acquire of so many permits.
    Acquire(u64),
    /// Takes so many permits at once, or none.
    TryAcquire(u64),
    /// A later poll.
    Poll,
    /// Ends a guard's permits for good.
    Forget,
    /// Adds so many permits.
    AddPermits(u64),
    /// The drop of a future or of a guard.
    Drop,
}

/// Where a party stands.
#[derive(Clone, Copy)]
pub enum Position {
    /// Outside every call, with nothing.
    Out,
    /// Outside every call, with a future for so many permits that stands in no list.
    Unlisted(u64),
    /// Outside every call, in the list for so many permits.
    Waiting(u64),
    /// Outside every call, with a guard of so many permits.
    Holding(u64),
    /// Inside a call, with the action of this place to do.
    At(Place),
}

/// A place in a program, named by what is done there. `permits` is how many the call is for, `listed` says that the party
/// stands in the list, and `available` is how many permits the call found last.
#[derive(Clone, Copy)]
pub enum Place {
    /// Take the permits, if there are as many: a first poll, or a look after joining or after a notification. `told` says
    /// that the party took a notification during this poll.
    Take {
        permits: u64,
        listed: bool,
        told: bool,
    },
    /// The next poll of a future that stands in the list: take the permits, if there are as many.
    Retake(u64),
    /// There were too few: join the list. `told` is how many there were, where the party took a notification during this poll.
    Join {
        permits: u64,
        told: Option<u64>,
    },
    /// There were too few: ask for the notification.
    Ask {
        permits: u64,
        told: Option<u64>,
    },
    /// The permits are taken: take the entry out of the list. `more` is how many are left, where the party was told and some
    /// are left.
    Remove {
        permits: u64,
        more: Option<u64>,
    },
    /// The entry that was taken out had been notified: see how many permits are available.
    Load(u64),
    /// The permits are taken: notify the first for whom the others are enough.
    HandOn {
        permits: u64,
        available: u64,
    },
    /// There are too few for a party that was told: notify the first for whom they are enough.
    PassOn {
        permits: u64,
        available: u64,
    },
    /// No memory: notify the first for whom the permits are enough, in place of the party that was told.
    RefuseFit {
        permits: u64,
        available: u64,
    },
    /// A try takes so many permits, if there are as many.
    Try(u64),
    /// A guard's permits are forgotten: lower the limit.
    Lower(u64),
    /// A guard's drop gives its permits back.
    GiveBack(u64),
    /// Raise the limit by so many permits.
    Raise(u64),
    /// The limit is raised: give so many permits.
    GiveAdded(u64),
    /// The permits are given: notify the first for whom those that are available are enough.
    FitAdded(u64),
    /// A dropped future leaves the list.
    CancelRemove,
    /// The dropped future's entry had been notified: see how many permits are available.
    CancelLoad,
    /// A guard or a notified future was dropped: notify the first for whom the permits that are available are enough.
    FitGivenBack(u64),
    /// A dropped future that stands in no list has nothing to do.
    Abandon,
}

/// One atomic step, on a word or on the list.
#[derive(Clone, Copy)]
pub enum Action {
    /// Nothing is left to do.
    Nothing,
    /// Takes so many permits, if as many are available.
    Take(u64),
    /// Makes so many permits available that a guard had.
    GiveBack(u64),
    /// Makes so many permits available by which the limit was raised.
    Give(u64),
    /// Raises the limit by so many, if its greatest value allows it.
    Raise(u64),
    /// Lowers the limit by so many.
    Lower(u64),
    /// Sees how many permits are available.
    Load,
    /// Adds the party's waiting entry, for so many permits, at the back of the list.
    Join(u64),
    /// Takes the party's entry out if it was marked.
    Ask,
    /// Takes the party's entry out.
    Remove,
    /// If no entry is marked, marks the first one for which so many permits are enough.
    Fit(u64),
}

/// What an action found.
#[derive(Clone, Copy)]
pub enum Found {
    /// It was done.
    Done,
    /// As many permits were available, and are taken; so many are left.
    Left(u64),
    /// So many permits are available, which are too few.
    Short(u64),
    /// So many permits are available.
    Available(u64),
    /// The limit would pass its greatest value.
    PastLimit,
    /// There was no memory for the entry.
    NoMemory,
    /// The entry was marked and is gone.
    Yes,
    /// The entry wasn't marked.
    No,
}

/// The place at which a call begins for a party that stands there; None where it can't.
pub fn start(call: SemaphoreCall, at: Position) -> Option<Place>
    ensures { result ≡ start_of call at }
{
    match (call, at) {
        (SemaphoreCall::Acquire(permits), Position::Out)
        | (SemaphoreCall::Poll, Position::Unlisted(permits)) => Some(Place::Take {
            permits,
            listed: false,
            told: false,
        }),
        (SemaphoreCall::Poll, Position::Waiting(permits)) => Some(Place::Retake(permits)),
        (SemaphoreCall::TryAcquire(permits), Position::Out) => Some(Place::Try(permits)),
        (SemaphoreCall::AddPermits(n), Position::Out) => Some(Place::Raise(n)),
        (SemaphoreCall::Drop, Position::Unlisted(_)) => Some(Place::Abandon),
        (SemaphoreCall::Drop, Position::Waiting(_)) => Some(Place::CancelRemove),
        (SemaphoreCall::Drop, Position::Holding(permits)) => Some(Place::GiveBack(permits)),
        (SemaphoreCall::Forget, Position::Holding(permits)) => Some(Place::Lower(permits)),
        _ => None,
    }
}

/// The action that is done at a place.
pub fn action_at(place: Place) -> Action
    ensures { result ≡ action_of place }
{
    match place {
        Place::Take { permits, .. } | Place::Retake(permits) | Place::Try(permits) => {
            Action::Take(permits)
        }
        Place::Join { permits, .. } => Action::Join(permits),
        Place::Ask { .. } => Action::Ask,
        Place::Remove { .. } | Place::CancelRemove => Action::Remove,
        Place::Load(_) | Place::CancelLoad => Action::Load,
        Place::HandOn { available, .. }
        | Place::PassOn { available, .. }
        | Place::RefuseFit { available, .. }
        | Place::FitAdded(available)
        | Place::FitGivenBack(available) => Action::Fit(available),
        Place::Lower(permits) => Action::Lower(permits),
        Place::GiveBack(permits) => Action::GiveBack(permits),
        Place::Raise(n) => Action::Raise(n),
        Place::GiveAdded(n) => Action::Give(n),
        Place::Abandon => Action::Nothing,
    }
}

/// What comes after the place whose action found this. It is the whole table of the programs: it takes
/// any place with any finding, and of a finding that the action can't make it says nothing of use.
pub fn decide(place: Place, found: Found) -> Next<Place, Position>
    ensures { result ≡ next_of place found }
{
    match place {
        Place::Take {
            permits,
            listed,
            told,
        } => match found {
            Found::Left(left) => after_taking(permits, listed, told, left),
            _ => too_few(permits, listed, told, found),
        },
        Place::Retake(permits) => match found {
            Found::Left(_) => Next::Do(Place::Remove {
                permits,
                more: None,
            }),
            _ => Next::Do(Place::Ask {
                permits,
                told: None,
            }),
        },
        Place::Join { permits, told } => after_join(permits, told, found),
        Place::Ask { permits, told } => after_ask(permits, told, found),
        Place::Remove { permits, more } => after_remove(permits, more, found),
        Place::Load(permits) => Next::Do(Place::HandOn {
            permits,
            available: available_in(found),
        }),
        Place::HandOn { permits, .. } => Next::End(End::Got, Position::Holding(permits)),
        Place::PassOn { permits, .. } => Next::End(End::Pending, Position::Waiting(permits)),
        Place::RefuseFit { permits, .. } => {
            Next::End(End::Refused(Refusal::Memory), Position::Unlisted(permits))
        }
        Place::Try(permits) => match found {
            Found::Left(_) => Next::End(End::Granted, Position::Holding(permits)),
            _ => Next::End(End::NotFree, Position::Out),
        },
        Place::GiveBack(_) | Place::CancelLoad => {
            Next::Do(Place::FitGivenBack(available_in(found)))
        }
        Place::Raise(n) => match found {
            Found::Done => Next::Do(Place::GiveAdded(n)),
            _ => Next::End(End::Refused(Refusal::Permits), Position::Out),
        },
        Place::GiveAdded(_) => Next::Do(Place::FitAdded(available_in(found))),
        Place::FitAdded(_) => Next::End(End::Granted, Position::Out),
        Place::CancelRemove => match found {
            Found::Yes => Next::Do(Place::CancelLoad),
            _ => Next::End(End::GivenBack, Position::Out),
        },
        Place::Lower(_) | Place::FitGivenBack(_) | Place::Abandon => {
            Next::End(End::GivenBack, Position::Out)
        }
    }
}

// How many permits an action found available.
fn available_in(found: Found) -> u64
    ensures { result ≡ available_lem found }
{
    match found {
        Found::Left(available) | Found::Short(available) | Found::Available(available) => available,
        _ => 0,
    }
}

// How many permits are left for the next one, where the party was told and some are left.
fn told_more(told: bool, left: u64) -> Option<u64>
    ensures { result ≡ told_more_lem told left }
{
    if told && left > 0 { Some(left) } else { None }
}

// After a look that took the permits and left so many.
fn after_taking(permits: u64, listed: bool, told: bool, left: u64) -> Next<Place, Position>
    ensures { result ≡ after_taking_lem permits listed told left }
{
    let more = told_more(told, left);
    if listed {
        return Next::Do(Place::Remove { permits, more });
    }
    match more {
        Some(available) => Next::Do(Place::HandOn { permits, available }),
        None => Next::End(End::Got, Position::Holding(permits)),
    }
}

// After a look that found too few.
fn too_few(permits: u64, listed: bool, told: bool, found: Found) -> Next<Place, Position>
    ensures { result ≡ too_few_lem permits listed told found }
{
    let told = if told {
        Some(available_in(found))
    } else {
        None
    };
    if listed {
        Next::Do(Place::Ask { permits, told })
    } else {
        Next::Do(Place::Join { permits, told })
    }
}

fn after_join(permits: u64, told: Option<u64>, found: Found) -> Next<Place, Position>
    ensures { result ≡ next_of (places.Join permits told) found }
{
    match (found, told) {
        (Found::Done, _) => Next::Do(Place::Take {
            permits,
            listed: true,
            told: told.is_some(),
        }),
        (_, Some(available)) => Next::Do(Place::RefuseFit { permits, available }),
        (_, None) => Next::End(End::Refused(Refusal::Memory), Position::Unlisted(permits)),
    }
}

fn after_ask(permits: u64, told: Option<u64>, found: Found) -> Next<Place, Position>
    ensures { result ≡ next_of (places.Ask permits told) found }
{
    match (found, told) {
        (Found::Yes, _) => Next::Do(Place::Take {
            permits,
            listed: false,
            told: true,
        }),
        (_, Some(available)) => Next::Do(Place::PassOn { permits, available }),
        (_, None) => Next::End(End::Pending, Position::Waiting(permits)),
    }
}

fn after_remove(permits: u64, more: Option<u64>, found: Found) -> Next<Place, Position>
    ensures { result ≡ next_of (places.Remove permits more) found }
{
    match (found, more) {
        (Found::Yes, _) => Next::Do(Place::Load(permits)),
        (_, Some(available)) => Next::Do(Place::HandOn { permits, available }),
        (_, None) => Next::End(End::Got, Position::Holding(permits)),
    }
}
