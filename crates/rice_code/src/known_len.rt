//! Numbers that the compiler knows.
ghost use Rattle.std.specs.Prelude.{◌≡◌, ◌<◌, ◌≤◌};

/// Returns `len`. The compiler then knows its value if `SIZE` is not 0, and its range otherwise.
#[inline(always)]
pub fn known_or<const SIZE: usize>(len: usize) -> usize
    requires known { 0 < SIZE → SIZE ≡ len }
    requires range { (2 ≤ len) × (len ≤ 64) }
    ensures { result ≡ len }
{
    if SIZE == 0 { len.max(2).min(64) } else { SIZE }
}
