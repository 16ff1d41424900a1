//! The words that commands begin with.

ghost use Rattle.std.specs.Prelude.{◌≡◌, Some, IfSome};
ghost use Rattle.lockrun_script.specs.Verbs.{name_of};

use crate::line::is;

/// What a command begins with.
#[derive(Clone, Copy)]
pub enum Verb {
    /// A new mutex.
    Mutex,
    /// A new read-write lock.
    RwLock,
    /// A new semaphore.
    Semaphore,
    /// A new once-cell.
    Cell,
    /// A new barrier.
    Barrier,
    /// A new pool.
    Pool,
    /// A call begins.
    Begin,
    /// A call goes on.
    Go,
    /// A whole call.
    Do,
    /// A value is put from outside every call.
    GetMut,
    /// A value is taken from outside every call.
    Take,
    /// The state is shown.
    Show,
}

/// The verb that a word names.
pub fn named(word: &[u8]) -> Option<Verb>
    ensures is { IfSome result (λ v. word.now ≡ name_of v) }
    ensures asked { (v : Verb) → word.now ≡ name_of v → result ≡ Some v }
{
    match word {
        _ if is(word, b"mutex") => Some(Verb::Mutex),
        _ if is(word, b"rwlock") => Some(Verb::RwLock),
        _ if is(word, b"semaphore") => Some(Verb::Semaphore),
        _ if is(word, b"cell") => Some(Verb::Cell),
        _ if is(word, b"barrier") => Some(Verb::Barrier),
        _ if is(word, b"pool") => Some(Verb::Pool),
        _ if is(word, b"begin") => Some(Verb::Begin),
        _ if is(word, b"go") => Some(Verb::Go),
        _ if is(word, b"do") => Some(Verb::Do),
        _ if is(word, b"getmut") => Some(Verb::GetMut),
        _ if is(word, b"take") => Some(Verb::Take),
        _ if is(word, b"show") => Some(Verb::Show),
        _ => None,
    }
}
