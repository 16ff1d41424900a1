//! What guards and tries ask of the runtime.

/// A runtime by which locks are tried for and given back. Whatever may wait is one, and so is each [`Runtime`](crate::Runtime).
///
/// A function over it has nothing else to wait by: it may try for a mutex, a read-write lock and a semaphore, and drop their guards, and the
/// prover says of it that it never waits. It has no calls of its own. To fill a cell at once asks for [`Fills`](crate::Fills).
pub trait Releases: async_mutex::Releases + async_rwlock::Releases + async_semaphore::Releases {}

impl<R: async_mutex::Releases + async_rwlock::Releases + async_semaphore::Releases> Releases
    for R {}
