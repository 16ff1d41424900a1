//! What the locks ask of the runtime.

use std::alloc::AllocGlobal;
use std::random::RandomSource;
use std::sync::Wait;
use std::time::Clock;

/// A runtime for which every call of every lock can be made: it lets a thread wait, tells the time, has random numbers for the executor in
/// which a blocking call waits, and gives memory.
///
/// Whatever has these bounds is one; `HostRuntime` is. It has no calls of its own. A function over it may wait, as it may by the bound `Wait`, so
/// one that mustn't wait names the bounds that its calls ask for.
pub trait Runtime: Wait + Clock + RandomSource + AllocGlobal + Drop {}

impl<R: Wait + Clock + RandomSource + AllocGlobal + Drop> Runtime for R {}
