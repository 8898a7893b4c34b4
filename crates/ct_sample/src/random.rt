//! The pseudo-random numbers of the sample.

ghost use Rattle.std.specs.Prelude.{◌≡◌, ◌<◌, ◌^◌};
ghost use Rattle.ct_sample.specs.Random.{next};

/// The number after x, which is below 2^32: below 2^31.
pub(crate) fn next(x: u64) -> u64
    requires { x < 2 ^ 32 }
    ensures number { result ≡ next x }
    ensures small { result < 2 ^ 31 }
{
    (x * 1_103_515_245 + 12_345) % 2_147_483_648
}
