//! The limits of a new World, by the numbers of a line.

ghost use Rattle.std.specs.Prelude.{◌≡◌, min};
ghost use Rattle.lockrun_script.specs.Limits.{limit_of};

/// The limit of a new World, whose greatest is `most`, by the number that a line gives. A number past 32
/// bits is above every greatest one.
pub fn limit(given: Option<u64>, most: u32) -> u32
    ensures { min result most ≡ limit_of given most }
{
    match given {
        None => most,
        Some(count) => u32::try_from(count).unwrap_or(u32::MAX),
    }
}
