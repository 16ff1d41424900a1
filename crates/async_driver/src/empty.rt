//! Options whose values have no `Drop`.

ghost use Rattle.std.specs.Prelude.{◌≡◌, false, Some, is_some};

use std::mem;

/// Fills an empty option.
#[inline]
pub fn put<X>(place: &mut Option<X>, value: X)
    requires { is_some place.old ≡ false }
    ensures { place.new ≡ Some value }
{
    match mem::replace(place, Some(value)) {
        None => {}
        Some(_) => unreachable!(),
    }
}

/// Ends an empty option.
#[inline]
pub fn nothing<X>(none: Option<X>)
    requires { is_some none ≡ false }
{
    match none {
        None => {}
        Some(_) => unreachable!(),
    }
}
