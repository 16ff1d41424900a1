//! What an entry heard.

use crate::whose::Whose;
use futures::task::Waker;

/// What an entry heard that asked for its notification.
pub enum Heard {
    /// It was notified, and has left the list with this waker, if it kept one. An entry that isn't there counts as notified.
    Told(Option<Waker>),
    /// It waits, and keeps a waker of this task.
    Waits(Whose),
}
