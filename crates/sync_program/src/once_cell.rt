//! The programs of the calls on a once-cell, as places: at a place one action is done, and what it finds
//! gives the next place, or the end of the call.
//!
//! An initialisation makes the value where it finds the cell empty; else it waits in the list `active`, since
//! it may have to make. A wait waits in the list `passive`. A maker's value enters the cell, and then both
//! lists are notified; a maker that fails or is dropped leaves the cell empty and notifies one in `active`.
//!
//! The tables carry a value `V` from where it is given to where it enters the cell or goes back. Who keeps the value itself
//! elsewhere has them carry `()`.

ghost use Rattle.std.specs.Prelude.{◌≡◌};
ghost use Rattle.sync_program.specs.OnceCell.{next_of, action_of, start_of, got_of, after_claim as after_claim_lem, after_make as after_make_lem, after_look as after_look_lem};
ghost use Rattle.sync_program.specs.declared.once_cell.Place.TheVariants as places;

use lock_program::{End, Next, Refusal};

/// What is asked of a once-cell.
#[derive(Clone, Copy)]
pub enum CellCall<V> {
    /// The first poll of an initialisation.
    Initialize,
    /// The first poll of a set to this value.
    Set(V),
    /// The first poll of a wait.
    Wait,
    /// Sets the cell at once, or not at all.
    TrySet(V),
    /// A later poll.
    Poll,
    /// The drop of a future.
    Drop,
}

/// What a future is ready with.
#[derive(Clone, Copy)]
pub enum Got<V> {
    /// The cell's value.
    Value(V),
    /// The value of a set that found the cell full.
    Taken(V),
    /// The maker failed.
    Failed,
}

/// How a call leaves its party.
#[derive(Clone, Copy)]
pub enum Left<V> {
    /// Outside every call with nothing: its future is ready, with this.
    Ready(Got<V>),
    /// Outside every call, at this position.
    Outside(Position<V>),
}

/// What makes the value of an initialisation.
#[derive(Clone, Copy)]
pub enum Maker<V> {
    /// The caller's maker, which each poll asks once: it may be pending, fail or give a value.
    Closure,
    /// None: a set has this value from the beginning.
    Given(V),
}

/// The lists of a cell.
#[derive(Clone, Copy)]
pub enum ListName {
    /// Of the parties that would make the value.
    Active,
    /// Of the parties that only wait for it.
    Passive,
}

/// Where a party stands.
#[derive(Clone, Copy)]
pub enum Position<V> {
    /// Outside every call, with nothing.
    Out,
    /// An initialisation that was refused: outside every call and in no list.
    ToMake(Maker<V>),
    /// An initialisation outside every call, in the list `active`.
    WaitingToMake(Maker<V>),
    /// Outside every call: it makes the value, and its maker is pending.
    Making(Maker<V>),
    /// A wait that was refused: outside every call and in no list.
    ToWait,
    /// A wait outside every call, in the list `passive`.
    Waiting,
    /// Inside a call, with the action of this place to do.
    At(Place<V>),
}

/// A place in a program, named by what is done there. `told` says that the party took a notification
/// during this poll.
#[derive(Clone, Copy)]
pub enum Place<V> {
    /// Begin to make, if the cell is empty.
    Claim { maker: Maker<V>, told: bool },
    /// As `Claim`, by a party that has just joined `active`.
    ClaimListed(Maker<V>),
    /// Somebody else makes: join `active`.
    JoinActive { maker: Maker<V>, told: bool },
    /// Ask for the notification in `active`. Here the next poll of a listed initialisation starts.
    AskActive(Maker<V>),
    /// The party has begun to make: leave `active`.
    LeaveToMake(Maker<V>),
    /// Ask the maker. Here the next poll of a pending maker starts.
    Make(Maker<V>),
    /// The maker gave this value: it enters the cell.
    Fill(V),
    /// The cell is full: notify all in `active`.
    NotifyActive(V),
    /// The cell is full: notify all in `passive`.
    NotifyPassive(V),
    /// The maker failed: the cell is empty again.
    Fail,
    /// The cell is empty again: notify one in `active`.
    FailNotify,
    /// The cell has this value: leave `active`.
    LeaveFull { maker: Maker<V>, value: V },
    /// No memory: notify one in `active`, in place of the party that was told.
    RefuseActive(Maker<V>),
    /// See whether the cell is full.
    Look { told: bool },
    /// The cell isn't full: join `passive`.
    JoinPassive { told: bool },
    /// As `Look`, by a party that has just joined `passive`.
    LookListed,
    /// Ask for the notification in `passive`. Here the next poll of a listed wait starts.
    AskPassive,
    /// The cell has this value: leave `passive`.
    LeavePassive(V),
    /// No memory: notify one in `passive`, in place of the party that was told.
    RefusePassive,
    /// A try with this value begins to make, if the cell is empty.
    Try(V),
    /// The value of a try enters the cell.
    TryFill(V),
    /// The cell is full by a try: notify all in `active`.
    TryNotifyActive(V),
    /// The cell is full by a try: notify all in `passive`.
    TryNotifyPassive(V),
    /// A dropped maker leaves the cell empty.
    CancelMake,
    /// The cell is empty again: notify one in `active`.
    CancelNotify,
    /// A dropped future leaves the list that it stands in.
    CancelLeave(ListName),
    /// A dropped future that stands in no list has nothing to do.
    Abandon,
}

/// One atomic step, on the cell, on the maker or on a list.
#[derive(Clone, Copy)]
pub enum Action<V> {
    /// Nothing is left to do.
    Nothing,
    /// Looks at the cell.
    Look,
    /// Begins to make, if the cell is empty.
    Claim,
    /// Asks the maker.
    Make(Maker<V>),
    /// This value enters the cell.
    Fill(V),
    /// The cell is empty again.
    Empty,
    /// Adds the party's waiting entry at the back of a list.
    Join(ListName),
    /// Takes the party's entry out if it was marked.
    Ask(ListName),
    /// Takes the party's entry out, and what it was told goes on to the next.
    Leave(ListName),
    /// Marks the first waiting entry, unless one is marked.
    Notify(ListName),
    /// Marks all waiting entries.
    NotifyAll(ListName),
}

/// What an action found.
#[derive(Clone, Copy)]
pub enum Found<V> {
    /// It was done.
    Done,
    /// The cell was empty.
    Empty,
    /// Somebody made the cell's value.
    BeingMade,
    /// The cell had this value.
    Full(V),
    /// The maker is pending.
    NotYet,
    /// The maker gave this value.
    Made(V),
    /// The maker failed.
    Failed,
    /// There was no memory for the entry.
    NoMemory,
    /// The entry was marked and is gone.
    Yes,
    /// The entry waits.
    No,
}

/// The place at which a call begins for a party that stands there; None where it can't.
pub fn start<V: Copy>(call: CellCall<V>, at: Position<V>) -> Option<Place<V>>
    ensures { result ≡ start_of call at }
{
    match (call, at) {
        (CellCall::Initialize, Position::Out) => Some(Place::Claim {
            maker: Maker::Closure,
            told: false,
        }),
        (CellCall::Set(value), Position::Out) => Some(Place::Claim {
            maker: Maker::Given(value),
            told: false,
        }),
        (CellCall::Wait, Position::Out) => Some(Place::Look { told: false }),
        (CellCall::TrySet(value), Position::Out) => Some(Place::Try(value)),
        (CellCall::Poll, Position::ToMake(maker)) => Some(Place::Claim { maker, told: false }),
        (CellCall::Poll, Position::WaitingToMake(maker)) => Some(Place::AskActive(maker)),
        (CellCall::Poll, Position::Making(maker)) => Some(Place::Make(maker)),
        (CellCall::Poll, Position::ToWait) => Some(Place::Look { told: false }),
        (CellCall::Poll, Position::Waiting) => Some(Place::AskPassive),
        (CellCall::Drop, Position::WaitingToMake(_)) => Some(Place::CancelLeave(ListName::Active)),
        (CellCall::Drop, Position::Making(_)) => Some(Place::CancelMake),
        (CellCall::Drop, Position::Waiting) => Some(Place::CancelLeave(ListName::Passive)),
        (CellCall::Drop, Position::Out | Position::ToMake(_) | Position::ToWait) => {
            Some(Place::Abandon)
        }
        _ => None,
    }
}

/// The action that is done at a place.
pub fn action_at<V: Copy>(place: Place<V>) -> Action<V>
    ensures { result ≡ action_of place }
{
    match place {
        Place::Claim { .. } | Place::ClaimListed(_) | Place::Try(_) => Action::Claim,
        Place::Look { .. } | Place::LookListed => Action::Look,
        Place::Make(maker) => Action::Make(maker),
        Place::Fill(value) | Place::TryFill(value) => Action::Fill(value),
        Place::Fail | Place::CancelMake => Action::Empty,
        Place::JoinActive { .. } => Action::Join(ListName::Active),
        Place::JoinPassive { .. } => Action::Join(ListName::Passive),
        Place::AskActive(_) => Action::Ask(ListName::Active),
        Place::AskPassive => Action::Ask(ListName::Passive),
        Place::LeaveToMake(_) | Place::LeaveFull { .. } => Action::Leave(ListName::Active),
        Place::LeavePassive(_) => Action::Leave(ListName::Passive),
        Place::CancelLeave(list) => Action::Leave(list),
        Place::FailNotify | Place::RefuseActive(_) | Place::CancelNotify => {
            Action::Notify(ListName::Active)
        }
        Place::RefusePassive => Action::Notify(ListName::Passive),
        Place::NotifyActive(_) | Place::TryNotifyActive(_) => Action::NotifyAll(ListName::Active),
        Place::NotifyPassive(_) | Place::TryNotifyPassive(_) => {
            Action::NotifyAll(ListName::Passive)
        }
        Place::Abandon => Action::Nothing,
    }
}

/// What an initialisation is ready with that finds this value in the cell: the value, and a set has its own
/// back.
fn got_at<V: Copy>(maker: Maker<V>, value: V) -> Got<V>
    ensures { result ≡ got_of maker value }
{
    match maker {
        Maker::Closure => Got::Value(value),
        Maker::Given(own) => Got::Taken(own),
    }
}

/// What comes after the place whose action found this. It is the whole table of the programs: it takes
/// any place with any finding, and of a finding that the action can't make it says nothing of use.
pub fn decide<V: Copy>(place: Place<V>, found: Found<V>) -> Next<Place<V>, Left<V>>
    ensures { result ≡ next_of place found }
{
    match place {
        Place::Claim { maker, told } => after_claim(maker, told, found),
        Place::ClaimListed(maker) => match found {
            Found::Empty => Next::Do(Place::LeaveToMake(maker)),
            Found::Full(value) => Next::Do(Place::LeaveFull { maker, value }),
            _ => Next::Do(Place::AskActive(maker)),
        },
        Place::JoinActive { maker, told } => match found {
            Found::Done => Next::Do(Place::ClaimListed(maker)),
            _ if told => Next::Do(Place::RefuseActive(maker)),
            _ => Next::End(
                End::Refused(Refusal::Memory),
                Left::Outside(Position::ToMake(maker)),
            ),
        },
        Place::AskActive(maker) => match found {
            Found::Yes => Next::Do(Place::Claim { maker, told: true }),
            _ => Next::End(End::Pending, Left::Outside(Position::WaitingToMake(maker))),
        },
        Place::LeaveToMake(maker) => Next::Do(Place::Make(maker)),
        Place::Make(maker) => after_make(maker, found),
        Place::Fill(value) => Next::Do(Place::NotifyActive(value)),
        Place::NotifyActive(value) => Next::Do(Place::NotifyPassive(value)),
        Place::NotifyPassive(value) => Next::End(End::Got, Left::Ready(Got::Value(value))),
        Place::Fail => Next::Do(Place::FailNotify),
        Place::FailNotify => Next::End(End::Got, Left::Ready(Got::Failed)),
        Place::LeaveFull { maker, value } => Next::End(End::Got, Left::Ready(got_at(maker, value))),
        Place::Look { told } => after_look(told, found),
        Place::JoinPassive { told } => match found {
            Found::Done => Next::Do(Place::LookListed),
            _ if told => Next::Do(Place::RefusePassive),
            _ => Next::End(
                End::Refused(Refusal::Memory),
                Left::Outside(Position::ToWait),
            ),
        },
        Place::LookListed => match found {
            Found::Full(value) => Next::Do(Place::LeavePassive(value)),
            _ => Next::Do(Place::AskPassive),
        },
        Place::AskPassive => match found {
            Found::Yes => Next::Do(Place::Look { told: true }),
            _ => Next::End(End::Pending, Left::Outside(Position::Waiting)),
        },
        Place::LeavePassive(value) => Next::End(End::Got, Left::Ready(Got::Value(value))),
        Place::RefuseActive(maker) => Next::End(
            End::Refused(Refusal::Memory),
            Left::Outside(Position::ToMake(maker)),
        ),
        Place::RefusePassive => Next::End(
            End::Refused(Refusal::Memory),
            Left::Outside(Position::ToWait),
        ),
        Place::Try(value) => after_try(value, found),
        Place::TryFill(value) => Next::Do(Place::TryNotifyActive(value)),
        Place::TryNotifyActive(value) => Next::Do(Place::TryNotifyPassive(value)),
        Place::TryNotifyPassive(_) => Next::End(End::Granted, Left::Outside(Position::Out)),
        Place::CancelMake => Next::Do(Place::CancelNotify),
        Place::CancelNotify | Place::CancelLeave(_) | Place::Abandon => Next::End(
            End::GivenBack,
            Left::Outside(Position::Out),
        ),
    }
}

/// After a first look of an initialisation that stands in no list.
fn after_claim<V: Copy>(maker: Maker<V>, told: bool, found: Found<V>) -> Next<Place<V>, Left<V>>
    ensures { result ≡ after_claim_lem maker told found }
{
    match found {
        Found::Empty => Next::Do(Place::Make(maker)),
        Found::Full(value) => Next::End(End::Got, Left::Ready(got_at(maker, value))),
        _ => Next::Do(Place::JoinActive { maker, told }),
    }
}

/// After a try's look.
fn after_try<V: Copy>(value: V, found: Found<V>) -> Next<Place<V>, Left<V>>
    ensures { result ≡ next_of (places.Try value) found }
{
    match found {
        Found::Empty => Next::Do(Place::TryFill(value)),
        _ => Next::End(End::NotFree, Left::Outside(Position::Out)),
    }
}

/// After a maker was asked.
fn after_make<V: Copy>(maker: Maker<V>, found: Found<V>) -> Next<Place<V>, Left<V>>
    ensures { result ≡ after_make_lem maker found }
{
    match found {
        Found::Made(value) => Next::Do(Place::Fill(value)),
        Found::Failed => Next::Do(Place::Fail),
        _ => Next::End(End::Pending, Left::Outside(Position::Making(maker))),
    }
}

/// After a look of a wait that stands in no list.
fn after_look<V: Copy>(told: bool, found: Found<V>) -> Next<Place<V>, Left<V>>
    ensures { result ≡ after_look_lem told found }
{
    match found {
        Found::Full(value) => Next::End(End::Got, Left::Ready(Got::Value(value))),
        _ => Next::Do(Place::JoinPassive { told }),
    }
}
