//! The programs of the calls on a read-write lock, as places: at a place one action is done, and what
//! it finds gives the next place.
//!
//! A reader counts itself in the word, unless a writer's bit is set; then it joins the list
//! `no_writer`, looks again, and asks for its notification at each poll. Upgradable readers and
//! writers first take the turn, a mutex that one of them has at a time. An upgradable reader then
//! counts itself as a reader, whatever the bit. A writer sets the bit, which keeps new readers out,
//! and waits in the list `no_readers` until the last reader is gone. What gives a right back notifies
//! those who may have it next.

ghost use Rattle.std.specs.Prelude.{◌≡◌};
ghost use Rattle.sync_program.specs.ReadWrite.{start_of, first_poll as first_poll_lem, poll_from, drop_from, action_of, next_of, after_read as after_read_lem, refuse_read as refuse_read_lem, after_turn as after_turn_lem, after_lock as after_lock_lem, with_turn as with_turn_lem, released as released_lem, after_write as after_write_lem, after_giving_back as after_giving_back_lem};

use lock_program::mutex::{LockCall, Step};
use lock_program::{End, Next, Refusal};

/// What is asked of a read-write lock.
#[derive(Clone, Copy)]
pub enum RwLockCall {
    /// The first poll of a read.
    Read,
    /// The first poll of an upgradable read.
    UpgradableRead,
    /// The first poll of a write.
    Write,
    /// Takes a read right at once, or not at all.
    TryRead,
    /// Takes the upgradable right at once, or not at all.
    TryUpgradableRead,
    /// Takes the write right at once, or not at all.
    TryWrite,
    /// Turns an upgradable right into a future write.
    Upgrade,
    /// Turns an upgradable right into a write right at once, or not at all.
    TryUpgrade,
    /// Turns an upgradable or a write right into a read right.
    Downgrade,
    /// Turns a write right into an upgradable one.
    DowngradeToUpgradable,
    /// A later poll.
    Poll,
    /// The drop of a pending future or of a guard.
    Drop,
}

/// What a future asks for that stands in no list, as when it was made.
#[derive(Clone, Copy)]
pub enum Wanted {
    /// To read.
    Read,
    /// To read, with the turn.
    UpgradableRead,
    /// To write.
    Write,
}

/// What the turn is taken for.
#[derive(Clone, Copy)]
pub enum Purpose {
    /// To read, and perhaps to write later.
    UpgradableRead,
    /// To write.
    Write,
}

/// What comes once the turn is released.
#[derive(Clone, Copy)]
pub enum Ending {
    /// The party has nothing.
    GivenBack,
    /// The try for this was in vain.
    NotFree { purpose: Purpose },
    /// The upgradable read is refused: there are too many readers.
    RefuseReaders,
    /// The write is refused: there was no memory for its entry.
    RefuseMemory,
    /// An upgradable reader goes on as a reader.
    Reading,
    /// A writer goes on as a reader, and notifies those that wait for no writer.
    NotifyReaders,
}

/// Where a party stands in a call on a read-write lock. `told` says that it took a notification during
/// this poll, `upgrade` that it waits for an upgrade and not for a write.
#[derive(Clone, Copy)]
pub enum Place {
    /// Outside every call, with nothing: no future, or a finished one.
    Out,
    /// Outside every call, with a future that was refused, and is as when it was made.
    Made { wanted: Wanted },
    /// Outside every call, as a reader.
    Reading,
    /// Outside every call, as a reader that has the turn.
    Upgradable,
    /// Outside every call, as the writer.
    Writing,

    /// A poll reads, unless the bit is set.
    EnterRead { told: bool },
    /// The bit was set: join `no_writer`.
    JoinNoWriter { told: bool },
    /// Look again, since the bit may have been cleared before the join.
    LookNoWriter { told: bool },
    /// Ask for the notification. A pending reader's next poll starts here.
    AskNoWriter,
    /// Notified: notify the next, since all waiting readers may read.
    PassOn,
    /// The party reads: leave `no_writer`.
    LeaveNoWriter,
    /// Too many readers: leave `no_writer`.
    RefuseLeave { told: bool },
    /// The read is refused: hand on the notification that was taken.
    RefuseNotify { refusal: Refusal },
    /// A dropped reader's future leaves `no_writer`.
    CancelRead,
    /// A try reads, unless the bit is set.
    TryRead,

    /// A first poll begins to take the turn.
    EnterTurn { purpose: Purpose },
    /// The future waits for the turn. Its next poll starts here.
    WaitTurn { purpose: Purpose },
    /// Inside a poll that takes the turn.
    TakeTurn { purpose: Purpose },
    /// A try takes the turn, if it is free.
    TryTurn { purpose: Purpose },
    /// A dropped future that waits for the turn begins to leave it.
    CancelTurn,
    /// Inside that.
    CancellingTurn,
    /// Begin to release the turn.
    ReleaseTurn { ending: Ending },
    /// Inside that.
    ReleasingTurn { ending: Ending },

    /// The turn is there: read, below the limit of readers.
    Add { trying: bool },
    /// An upgradable reader that is alone becomes the writer.
    TryUpgrade,
    /// An upgradable reader sets the bit and stops reading.
    Upgrade,
    /// The turn is there: set the bit.
    Mark,
    /// The turn is there: set the bit, if nobody reads.
    TryWrite,
    /// Readers are left: join `no_readers`.
    JoinNoReaders { upgrade: bool },
    /// Look again, since the last reader may have gone before the join.
    LookNoReaders { upgrade: bool },
    /// Ask for the notification.
    AskNoReaders { upgrade: bool },
    /// The future waits in `no_readers`: look whether readers are left. Its next poll starts here.
    AwaitNoReaders { upgrade: bool },
    /// Not in `no_readers`: look whether readers are left. An upgrade's first poll starts here.
    LookUnlisted { upgrade: bool },
    /// The party may write: leave `no_readers`.
    LeaveNoReaders,

    /// A reader's guard is dropped.
    DropRead,
    /// No reader is left: notify the writer that waits for this.
    DropReadNotify,
    /// An upgradable reader's guard is dropped.
    DropUpgradable,
    /// No reader is left: notify the writer that waits for this.
    DropUpgradableNotify,
    /// A writer's guard is dropped: clear the bit.
    DropWrite,
    /// A dropped future leaves `no_readers`.
    CancelAwait,
    /// A write that was dropped, or refused for memory: clear the bit.
    Unmark { refused: bool },
    /// The bit is cleared: notify those that wait for no writer.
    UnmarkNotify { refused: bool },
    /// A writer becomes a reader, which keeps the turn or not.
    Down { keeps_turn: bool },
    /// A writer has become an upgradable reader: notify those that wait for no writer.
    DownNotify,
    /// A writer has become a reader, without the turn: notify those that wait for no writer.
    DowngradeNotify,
}

/// One atomic step, on the lock's word, on one of its lists or on the turn.
#[derive(Clone, Copy)]
pub enum Action {
    /// Nothing is left to do.
    Nothing,
    /// One more reader, if the bit is clear and there are fewer readers than may be.
    Read,
    /// One more reader, if there are fewer than may be.
    Add,
    /// One reader fewer.
    Off,
    /// Looks whether readers are left.
    Load,
    /// Sets the bit.
    Mark,
    /// Sets the bit, if it is clear and nobody reads.
    TryWrite,
    /// Sets the bit in place of the one reader, if the bit is clear and nobody else reads.
    TryUpgrade,
    /// Sets the bit, with one reader fewer.
    Upgrade,
    /// Clears the bit, with one more reader.
    Down,
    /// Clears the bit.
    Unmark,
    /// Adds the party's waiting entry at the back of `no_writer`.
    JoinNoWriter,
    /// Takes the party's entry out of `no_writer` if it was marked.
    AskNoWriter,
    /// Takes the party's entry out of `no_writer`, and what it was told goes on to the next.
    LeaveNoWriter,
    /// Marks the first waiting entry of `no_writer`, unless one is marked already.
    NotifyNoWriter,
    /// Adds the party's waiting entry at the back of `no_readers`.
    JoinNoReaders,
    /// Takes the party's entry out of `no_readers` if it was marked.
    AskNoReaders,
    /// Takes the party's entry out of `no_readers`, and what it was told goes on to the next.
    LeaveNoReaders,
    /// Marks the first waiting entry of `no_readers`, unless one is marked already.
    NotifyNoReaders,
    /// Begins a call on the turn.
    Begin(LockCall),
    /// Goes on with the party's call on the turn.
    Go,
}

/// What an action found.
#[derive(Clone, Copy)]
pub enum Found {
    /// It was done.
    Done,
    /// The bit was set.
    Writer,
    /// There are as many readers as may be.
    Full,
    /// No reader is left.
    NoneLeft,
    /// Readers are left.
    SomeLeft,
    /// The lock wasn't free, and nothing was done.
    NotFree,
    /// There was no memory for the entry.
    NoMemory,
    /// The entry was marked and is gone.
    Yes,
    /// The entry waits.
    No,
    /// What the step of the party's call on the turn came to.
    Turn(Step),
}

/// The place at which a call begins for a party that stands there; None where it can't.
pub fn start(call: RwLockCall, at: Place) -> Option<Place>
    ensures { result ≡ start_of call at }
{
    match (call, at) {
        (RwLockCall::Read, Place::Out) => Some(first_poll(Wanted::Read)),
        (RwLockCall::UpgradableRead, Place::Out) => Some(first_poll(Wanted::UpgradableRead)),
        (RwLockCall::Write, Place::Out) => Some(first_poll(Wanted::Write)),
        (RwLockCall::TryRead, Place::Out) => Some(Place::TryRead),
        (RwLockCall::TryUpgradableRead, Place::Out) => Some(Place::TryTurn {
            purpose: Purpose::UpgradableRead,
        }),
        (RwLockCall::TryWrite, Place::Out) => Some(Place::TryTurn {
            purpose: Purpose::Write,
        }),
        (RwLockCall::Poll, _) => start_poll(at),
        (RwLockCall::Drop, _) => start_drop(at),
        (RwLockCall::Upgrade, Place::Upgradable) => Some(Place::Upgrade),
        (RwLockCall::TryUpgrade, Place::Upgradable) => Some(Place::TryUpgrade),
        (RwLockCall::Downgrade, Place::Upgradable) => Some(Place::ReleaseTurn {
            ending: Ending::Reading,
        }),
        (RwLockCall::Downgrade, Place::Writing) => Some(Place::Down { keeps_turn: false }),
        (RwLockCall::DowngradeToUpgradable, Place::Writing) => Some(Place::Down {
            keeps_turn: true,
        }),
        _ => None,
    }
}

/// Where the first poll of a future begins.
fn first_poll(wanted: Wanted) -> Place
    ensures { result ≡ first_poll_lem wanted }
{
    match wanted {
        Wanted::Read => Place::EnterRead { told: false },
        Wanted::UpgradableRead => Place::EnterTurn {
            purpose: Purpose::UpgradableRead,
        },
        Wanted::Write => Place::EnterTurn {
            purpose: Purpose::Write,
        },
    }
}

/// Where a later poll begins. A refused future begins anew.
fn start_poll(at: Place) -> Option<Place>
    ensures { result ≡ poll_from at }
{
    match at {
        Place::Made { wanted } => Some(first_poll(wanted)),
        Place::AskNoWriter
        | Place::WaitTurn { .. }
        | Place::AwaitNoReaders { .. }
        | Place::LookUnlisted { upgrade: true } => Some(at),
        _ => None,
    }
}

/// Where a drop begins, of a pending future or of a guard.
fn start_drop(at: Place) -> Option<Place>
    ensures { result ≡ drop_from at }
{
    match at {
        Place::Made { .. } => Some(Place::Out),
        Place::AskNoWriter => Some(Place::CancelRead),
        Place::WaitTurn { .. } => Some(Place::CancelTurn),
        Place::AwaitNoReaders { .. } => Some(Place::CancelAwait),
        Place::LookUnlisted { upgrade: true } => Some(Place::Unmark { refused: false }),
        Place::Reading => Some(Place::DropRead),
        Place::Upgradable => Some(Place::DropUpgradable),
        Place::Writing => Some(Place::DropWrite),
        _ => None,
    }
}

/// The action that is done at a place.
pub fn action_at(place: Place) -> Action
    ensures { result ≡ action_of place }
{
    match place {
        Place::Out | Place::Made { .. } | Place::Reading | Place::Upgradable | Place::Writing =>
            Action::Nothing,
        Place::EnterRead { .. } | Place::LookNoWriter { .. } | Place::TryRead => Action::Read,
        Place::JoinNoWriter { .. } => Action::JoinNoWriter,
        Place::AskNoWriter => Action::AskNoWriter,
        Place::LeaveNoWriter | Place::RefuseLeave { .. } | Place::CancelRead => {
            Action::LeaveNoWriter
        }
        Place::PassOn
        | Place::RefuseNotify { .. }
        | Place::UnmarkNotify { .. }
        | Place::DownNotify
        | Place::DowngradeNotify => Action::NotifyNoWriter,
        Place::EnterTurn { .. } => Action::Begin(LockCall::Lock),
        Place::WaitTurn { .. } => Action::Begin(LockCall::Poll),
        Place::TryTurn { .. } => Action::Begin(LockCall::Try),
        Place::CancelTurn => Action::Begin(LockCall::Cancel),
        Place::ReleaseTurn { .. } => Action::Begin(LockCall::Release),
        Place::TakeTurn { .. } | Place::CancellingTurn | Place::ReleasingTurn { .. } => Action::Go,
        Place::Add { .. } => Action::Add,
        Place::TryUpgrade => Action::TryUpgrade,
        Place::Upgrade => Action::Upgrade,
        Place::Mark => Action::Mark,
        Place::TryWrite => Action::TryWrite,
        Place::JoinNoReaders { .. } => Action::JoinNoReaders,
        Place::LookNoReaders { .. } | Place::AwaitNoReaders { .. } | Place::LookUnlisted { .. } =>
            Action::Load,
        Place::AskNoReaders { .. } => Action::AskNoReaders,
        Place::LeaveNoReaders | Place::CancelAwait => Action::LeaveNoReaders,
        Place::DropReadNotify | Place::DropUpgradableNotify => Action::NotifyNoReaders,
        Place::DropRead | Place::DropUpgradable => Action::Off,
        Place::DropWrite | Place::Unmark { .. } => Action::Unmark,
        Place::Down { .. } => Action::Down,
    }
}

/// What comes after the place whose action found this. It is the whole table of the programs: it takes
/// any place with any finding, and of a finding that the action can't make it says nothing of use.
pub fn decide(place: Place, found: Found) -> Next<Place, Place>
    ensures { result ≡ next_of place found }
{
    match place {
        Place::Out | Place::Made { .. } => Next::End(End::GivenBack, Place::Out),
        Place::Reading | Place::Upgradable | Place::Writing => Next::End(End::Got, place),
        Place::EnterRead { .. }
        | Place::JoinNoWriter { .. }
        | Place::LookNoWriter { .. }
        | Place::AskNoWriter
        | Place::PassOn
        | Place::LeaveNoWriter
        | Place::RefuseLeave { .. }
        | Place::RefuseNotify { .. }
        | Place::CancelRead
        | Place::TryRead => after_read(place, found),
        Place::EnterTurn { .. }
        | Place::WaitTurn { .. }
        | Place::TakeTurn { .. }
        | Place::TryTurn { .. }
        | Place::CancelTurn
        | Place::CancellingTurn
        | Place::ReleaseTurn { .. }
        | Place::ReleasingTurn { .. } => after_turn(place, found),
        Place::Add { .. }
        | Place::TryUpgrade
        | Place::Upgrade
        | Place::Mark
        | Place::TryWrite
        | Place::JoinNoReaders { .. }
        | Place::LookNoReaders { .. }
        | Place::AskNoReaders { .. }
        | Place::AwaitNoReaders { .. }
        | Place::LookUnlisted { .. }
        | Place::LeaveNoReaders => after_write(place, found),
        Place::DropRead
        | Place::DropReadNotify
        | Place::DropUpgradable
        | Place::DropUpgradableNotify
        | Place::DropWrite
        | Place::CancelAwait
        | Place::Unmark { .. }
        | Place::UnmarkNotify { .. }
        | Place::Down { .. }
        | Place::DownNotify
        | Place::DowngradeNotify => after_giving_back(place, found),
    }
}

/// What comes after the places of a read.
fn after_read(place: Place, found: Found) -> Next<Place, Place>
    ensures { result ≡ after_read_lem place found }
{
    match (place, found) {
        (Place::EnterRead { .. }, Found::Done) => Next::End(End::Got, Place::Reading),
        (Place::EnterRead { told }, Found::Writer) => Next::Do(Place::JoinNoWriter { told }),
        (Place::EnterRead { told }, _) => refuse_read(told, Refusal::Readers),
        (Place::JoinNoWriter { told }, Found::Done) => Next::Do(Place::LookNoWriter { told }),
        (Place::JoinNoWriter { told }, _) => refuse_read(told, Refusal::Memory),
        (Place::LookNoWriter { .. }, Found::Done) => Next::Do(Place::LeaveNoWriter),
        (Place::LookNoWriter { .. }, Found::Writer) => Next::Do(Place::AskNoWriter),
        (Place::LookNoWriter { told }, _) => Next::Do(Place::RefuseLeave { told }),
        (Place::AskNoWriter, Found::Yes) => Next::Do(Place::PassOn),
        (Place::AskNoWriter, _) => Next::End(End::Pending, Place::AskNoWriter),
        (Place::PassOn, _) => Next::Do(Place::EnterRead { told: true }),
        (Place::LeaveNoWriter, _) => Next::End(End::Got, Place::Reading),
        (Place::RefuseLeave { told }, _) => refuse_read(told, Refusal::Readers),
        (Place::RefuseNotify { refusal }, _) => refuse_read(false, refusal),
        (Place::TryRead, Found::Done) => Next::End(End::Granted, Place::Reading),
        (Place::TryRead, _) => Next::End(End::NotFree, Place::Out),
        _ => Next::End(End::GivenBack, Place::Out),
    }
}

/// A read is refused; a notification that it took goes on first.
fn refuse_read(told: bool, refusal: Refusal) -> Next<Place, Place>
    ensures { result ≡ refuse_read_lem told refusal }
{
    if told {
        Next::Do(Place::RefuseNotify { refusal })
    } else {
        Next::End(
            End::Refused(refusal),
            Place::Made {
                wanted: Wanted::Read,
            },
        )
    }
}

/// What comes after the places at which a call on the turn takes its steps.
fn after_turn(place: Place, found: Found) -> Next<Place, Place>
    ensures { result ≡ after_turn_lem place found }
{
    match (place, found) {
        (Place::EnterTurn { purpose }, _)
        | (Place::WaitTurn { purpose }, _)
        | (Place::TakeTurn { purpose }, _) => after_lock(purpose, found),
        (Place::TryTurn { purpose }, Found::Turn(Step::End(End::Got))) => {
            Next::Do(with_turn(purpose, true))
        }
        (Place::TryTurn { .. }, _) => Next::End(End::NotFree, Place::Out),
        (Place::CancelTurn, Found::Turn(Step::More))
        | (Place::CancellingTurn, Found::Turn(Step::More)) => Next::Do(Place::CancellingTurn),
        (Place::ReleaseTurn { ending }, Found::Turn(Step::More)) => {
            Next::Do(Place::ReleasingTurn { ending })
        }
        (Place::ReleaseTurn { ending }, _) | (Place::ReleasingTurn { ending }, _) => {
            released(ending)
        }
        _ => Next::End(End::GivenBack, Place::Out),
    }
}

/// What comes after a step of a poll that takes the turn.
fn after_lock(purpose: Purpose, found: Found) -> Next<Place, Place>
    ensures { result ≡ after_lock_lem purpose found }
{
    match found {
        Found::Turn(Step::More) => Next::Do(Place::TakeTurn { purpose }),
        Found::Turn(Step::End(End::Got)) => Next::Do(with_turn(purpose, false)),
        Found::Turn(Step::End(End::Refused(refusal))) => {
            let wanted = match purpose {
                Purpose::UpgradableRead => Wanted::UpgradableRead,
                Purpose::Write => Wanted::Write,
            };
            Next::End(End::Refused(refusal), Place::Made { wanted })
        }
        _ => Next::End(End::Pending, Place::WaitTurn { purpose }),
    }
}

/// Where a call goes on once it has the turn.
fn with_turn(purpose: Purpose, trying: bool) -> Place
    ensures { result ≡ with_turn_lem purpose trying }
{
    match (purpose, trying) {
        (Purpose::UpgradableRead, _) => Place::Add { trying },
        (Purpose::Write, true) => Place::TryWrite,
        (Purpose::Write, false) => Place::Mark,
    }
}

/// What comes once the turn is released.
fn released(ending: Ending) -> Next<Place, Place>
    ensures { result ≡ released_lem ending }
{
    match ending {
        Ending::GivenBack => Next::End(End::GivenBack, Place::Out),
        Ending::NotFree { .. } => Next::End(End::NotFree, Place::Out),
        Ending::RefuseReaders => Next::End(
            End::Refused(Refusal::Readers),
            Place::Made {
                wanted: Wanted::UpgradableRead,
            },
        ),
        Ending::RefuseMemory => Next::End(
            End::Refused(Refusal::Memory),
            Place::Made {
                wanted: Wanted::Write,
            },
        ),
        Ending::Reading => Next::End(End::GivenBack, Place::Reading),
        Ending::NotifyReaders => Next::Do(Place::DowngradeNotify),
    }
}

/// What comes after the places of a party that has the turn, on the way to its right.
fn after_write(place: Place, found: Found) -> Next<Place, Place>
    ensures { result ≡ after_write_lem place found }
{
    match (place, found) {
        (Place::Add { trying: true }, Found::Done) => Next::End(End::Granted, Place::Upgradable),
        (Place::Add { trying: false }, Found::Done) => Next::End(End::Got, Place::Upgradable),
        (Place::Add { trying: true }, _) => Next::Do(Place::ReleaseTurn {
            ending: Ending::NotFree {
                purpose: Purpose::UpgradableRead,
            },
        }),
        (Place::Add { trying: false }, _) => Next::Do(Place::ReleaseTurn {
            ending: Ending::RefuseReaders,
        }),
        (Place::TryUpgrade, Found::Done) => Next::End(End::Granted, Place::Writing),
        (Place::TryUpgrade, _) => Next::End(End::NotFree, Place::Upgradable),
        (Place::Upgrade, _) => Next::End(End::Waiting, Place::LookUnlisted { upgrade: true }),
        (Place::Mark, Found::NoneLeft) => Next::End(End::Got, Place::Writing),
        (Place::Mark, _) => Next::Do(Place::JoinNoReaders { upgrade: false }),
        (Place::TryWrite, Found::Done) => Next::End(End::Granted, Place::Writing),
        (Place::TryWrite, _) => Next::Do(Place::ReleaseTurn {
            ending: Ending::NotFree {
                purpose: Purpose::Write,
            },
        }),
        (Place::JoinNoReaders { upgrade }, Found::Done) => {
            Next::Do(Place::LookNoReaders { upgrade })
        }
        (Place::JoinNoReaders { upgrade: true }, _) => Next::End(
            End::Refused(Refusal::Memory),
            Place::LookUnlisted { upgrade: true },
        ),
        (Place::JoinNoReaders { upgrade: false }, _) => Next::Do(Place::Unmark { refused: true }),
        (Place::LookNoReaders { .. }, Found::NoneLeft)
        | (Place::AwaitNoReaders { .. }, Found::NoneLeft) => Next::Do(Place::LeaveNoReaders),
        (Place::LookNoReaders { upgrade }, _) | (Place::AwaitNoReaders { upgrade }, _) => {
            Next::Do(Place::AskNoReaders { upgrade })
        }
        (Place::AskNoReaders { upgrade }, Found::Yes) => Next::Do(Place::LookUnlisted { upgrade }),
        (Place::AskNoReaders { upgrade }, _) => {
            Next::End(End::Pending, Place::AwaitNoReaders { upgrade })
        }
        (Place::LookUnlisted { .. }, Found::NoneLeft) => Next::End(End::Got, Place::Writing),
        (Place::LookUnlisted { upgrade }, _) => Next::Do(Place::JoinNoReaders { upgrade }),
        _ => Next::End(End::Got, Place::Writing),
    }
}

/// What comes after the places at which a right is given back or changed for a lesser one.
fn after_giving_back(place: Place, found: Found) -> Next<Place, Place>
    ensures { result ≡ after_giving_back_lem place found }
{
    match (place, found) {
        (Place::DropRead, Found::NoneLeft) => Next::Do(Place::DropReadNotify),
        (Place::DropUpgradable, Found::NoneLeft) => Next::Do(Place::DropUpgradableNotify),
        (Place::DropUpgradable, _)
        | (Place::DropUpgradableNotify, _)
        | (Place::UnmarkNotify { refused: false }, _) => Next::Do(Place::ReleaseTurn {
            ending: Ending::GivenBack,
        }),
        (Place::UnmarkNotify { refused: true }, _) => Next::Do(Place::ReleaseTurn {
            ending: Ending::RefuseMemory,
        }),
        (Place::CancelAwait, _) => Next::Do(Place::Unmark { refused: false }),
        (Place::DropWrite, _) => Next::Do(Place::UnmarkNotify { refused: false }),
        (Place::Unmark { refused }, _) => Next::Do(Place::UnmarkNotify { refused }),
        (Place::Down { keeps_turn: true }, _) => Next::Do(Place::DownNotify),
        (Place::Down { keeps_turn: false }, _) => Next::Do(Place::ReleaseTurn {
            ending: Ending::NotifyReaders,
        }),
        (Place::DownNotify, _) => Next::End(End::GivenBack, Place::Upgradable),
        (Place::DowngradeNotify, _) => Next::End(End::GivenBack, Place::Reading),
        _ => Next::End(End::GivenBack, Place::Out),
    }
}
