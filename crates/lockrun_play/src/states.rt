//! The text of each lock's state, up to its lists.

ghost use Rattle.std.specs.Prelude.{OnOk};
ghost use Rattle.std.specs.Io.KnownBytes.{Appends};
ghost use Rattle.lockrun_play.specs.States.{barrier_text, cell_text, mutex_text, pool_text, pool_lock_text, rwlock_text, semaphore_text};

use std::io;
use std::io::Write;

/// Writes of a mutex whether somebody has it, how many are starved, and its value.
pub fn write_mutex<O: Write>(
    locked: bool,
    starved: u32,
    value: u64,
    output: &mut O,
) -> io::Result<()>
    ensures { OnOk result (Appends (O.contents output.old) (O.contents output.new) (mutex_text locked starved value)) }
{
    let locked = u8::from(locked);
    write!(
        output,
        "mutex locked={locked} starved={starved} value={value}"
    )
}

/// Writes of a read-write lock whether somebody has its turn, how many are starved for that, whether a party
/// waits to write or writes, how many read, and its value.
pub fn write_rwlock<O: Write>(
    turn: bool,
    starved: u32,
    writer: bool,
    readers: u32,
    value: u64,
    output: &mut O,
) -> io::Result<()>
    ensures { OnOk result (Appends (O.contents output.old) (O.contents output.new) (rwlock_text turn starved writer readers value)) }
{
    let turn = u8::from(turn);
    let writer = u8::from(writer);
    write!(
        output,
        "rwlock turn={turn} starved={starved} writer={writer} readers={readers} value={value}"
    )
}

/// Writes of a semaphore how many permits are available, and its limit.
pub fn write_semaphore<O: Write>(available: u64, limit: u64, output: &mut O) -> io::Result<()>
    ensures { OnOk result (Appends (O.contents output.old) (O.contents output.new) (semaphore_text available limit)) }
{
    write!(output, "semaphore available={available} limit={limit}")
}

/// Writes of a pool how many permits are available, and how many there are.
pub fn write_pool<O: Write>(available: u64, limit: u64, output: &mut O) -> io::Result<()>
    ensures { OnOk result (Appends (O.contents output.old) (O.contents output.new) (pool_text available limit)) }
{
    write!(output, "pool available={available} limit={limit}")
}

/// Writes of a pool whether somebody has the lock of its list, and how many are starved for that.
pub fn write_pool_lock<O: Write>(locked: bool, starved: u32, output: &mut O) -> io::Result<()>
    ensures { OnOk result (Appends (O.contents output.old) (O.contents output.new) (pool_lock_text locked starved)) }
{
    let locked = u8::from(locked);
    write!(output, " locked={locked} starved={starved}")
}

/// Writes of a once-cell its value, or where it has none whether one is being made.
pub fn write_cell<O: Write>(value: Option<u64>, making: bool, output: &mut O) -> io::Result<()>
    ensures { OnOk result (Appends (O.contents output.old) (O.contents output.new) (cell_text value making)) }
{
    match value {
        Some(value) => write!(output, "cell full {value}"),
        None if making => write!(output, "cell making"),
        None => write!(output, "cell empty"),
    }
}

/// Writes of a barrier how many have arrived of its generation, how many generations are finished, whether
/// somebody has its inner lock, and how many are starved for that.
pub fn write_barrier<O: Write>(
    count: u64,
    generation: u64,
    locked: bool,
    starved: u32,
    output: &mut O,
) -> io::Result<()>
    ensures { OnOk result (Appends (O.contents output.old) (O.contents output.new) (barrier_text count generation locked starved)) }
{
    let locked = u8::from(locked);
    write!(
        output,
        "barrier count={count} generation={generation} locked={locked} starved={starved}"
    )
}
