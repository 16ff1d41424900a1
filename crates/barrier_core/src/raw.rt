//! A barrier without its runtime: its words, its list and its inner lock.

ghost use Rattle.std.specs.Prelude.{◌≡◌, IfOk};

use crate::arrivals::Arrivals;
use crate::list::Entries;
use atomic_table::Table;
use mutex_core::Words;
use std::alloc::{AllocError, Global};
use std::marker::Model;
use words_barrier::{BarrierRule, View};

/// A barrier without its runtime: how many generations are finished, and who waits; how many arrivals make a generation, and how many
/// generations may be finished; and the inner lock, in which the count of arrivals lies.
///
/// Contracts see: its table, how many arrivals make a generation (`size`), how many generations may be finished (`most`), and its inner
/// lock, with whose source waiting tasks register.
pub struct RawBarrier {
    pub(crate) table: Table<Entries, View, (), BarrierRule, Global>,
    // How many arrivals make a generation. Of 0 or 1 each arrival does.
    pub(crate) size: u64,
    // How many generations may be finished.
    pub(crate) most: u64,
    pub(crate) inner: Words<Arrivals>,
    // Where the list is made when somebody first joins, and where wakers lie that are due.
    pub(crate) alloc: Global,
}

// By hand, so that a drop is one call to prove, and not all of its parts again.
impl Drop for RawBarrier {
    fn drop(self) {
        let RawBarrier {
            table: _,
            size: _,
            most: _,
            inner: _,
            alloc: _,
        } = self;
    }
}

impl Model for RawBarrier {
    ghost use Rattle.barrier_core.specs.Barriers.{Barrier, barrier_coded};

    ghost Value = { Barrier };

    ghost coded = { barrier_coded };

    ghost use Rattle.std.specs.Prelude.{◌≡◌};

    ghost view = { λ b. record { table = b.table.shared.table_id; size = b.size; most = b.most; inner = b.inner } };

    ghost invariant = { λ b. (b.table.shared.table_id.words ≡ 2) × (b.table.shared.table_id.slots ≡ 1) };
}

impl RawBarrier {
    /// Creates a barrier at which nobody has arrived, whose inner lock has the greatest limit of starved waiters. It fails only if memory is
    /// refused.
    pub fn new(alloc: Global, size: u64, most: u64) -> Result<RawBarrier, AllocError>
        ensures barrier { IfOk result (λ raw. (raw.size ≡ size) × (raw.most ≡ most)) }
        ensures limit { IfOk result (λ raw. raw.inner.limit ≡ 1073741823) }
    {
        let inner = Words::new(alloc, Arrivals::new())?;
        let table = empty_table(alloc)?;
        Ok(RawBarrier {
            table,
            size,
            most,
            inner,
            alloc,
        })
    }

    /// Returns the inner lock. It is for tests.
    pub fn inner(&self) -> &Words<Arrivals>
        ensures { result.now ≡ self.now.inner }
    {
        &self.inner
    }

    /// Returns how many arrivals make a generation. Of 0 or 1 each arrival does.
    pub fn size(&self) -> u64
        ensures { result ≡ self.now.size }
    {
        self.size
    }
}

// The table of a barrier of which no generation is finished, and whose list nobody has joined.
fn empty_table(alloc: Global) -> Result<Table<Entries, View, (), BarrierRule, Global>, AllocError>
    ensures { IfOk result (λ table. (table.shared.table_id.words ≡ 2) × (table.shared.table_id.slots ≡ 1)) }
{
    let mut slots = Vec::with_capacity(alloc, 1)?;
    slots.push_reserved(Entries::new());
    match Table::new(alloc, &[0, 0], slots, &()) {
        Ok((table, _first)) => Ok(table),
        Err(_) => Err(AllocError),
    }
}
