//! The version of the library.
ghost use Rattle.std.specs.Prelude.{◌≡◌};

/// Returns the version of the library, 1.0.0, as 10,000 times its first number, plus 100 times its second, plus its third.
pub fn version_number() -> u32
    ensures { result ≡ 10000 }
{
    10000
}
