//! What a seat knows of itself.

ghost use Rattle.std.specs.Prelude.{ℕ, List};
ghost use Rattle.std.specs.Coded.{coded_list, coded_ℕ};
ghost use Rattle.lock_place.specs.Held.{RoomId, room_id_coded};

use std::marker::Model;

/// What a seat knows of itself. No value of it is made.
pub struct View {
    /// Whether it holds the lock.
    pub holds: bool,
    /// Whether it is counted as starved.
    pub starved: bool,
    /// Whether it has to notify somebody, or to look at the lock on behalf of the others.
    pub owes: bool,
    /// Whether it has an entry in the list.
    pub listed: bool,
    /// Whether it has joined the list, and has not looked at the lock since.
    pub fresh: bool,
    /// Whether it has the list out.
    pub has_list: bool,
    /// The number of its entry.
    pub ghost entry: { ℕ },
    /// Which entries the list had when the seat took it out.
    pub ghost entries: { List ℕ } by { coded_list coded_ℕ },
    /// How many of them were notified.
    pub ghost marked: { ℕ },
    /// Where its lock's value lay when the lock was made.
    pub ghost room: { RoomId } by { room_id_coded },
    /// The deed of its lock's spare.
    pub ghost deed: { ℕ },
    /// What its last look at the mutex's word, or its last step to get the lock, found there.
    pub ghost found: { ℕ },
}

impl Model for View {
    ghost use base.Fml.{ftrue};

    ghost also_owns = { λ _. ftrue };
}
