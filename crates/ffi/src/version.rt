// The version of the library, as a number.
ghost use Rattle.std.specs.Prelude.{◌≡◌};
ghost use Rattle.ffi.specs.version.Version.{version_now};

// Version 0.5.2: major × 1,000,000 + minor × 1,000 + patch.
const NUMBER: u64 = 5002;

// The version of this library as a number: major × 1,000,000 + minor × 1,000 + patch.
pub fn version_now() -> u64
    ensures { result ≡ version_now }
{
    NUMBER
}
