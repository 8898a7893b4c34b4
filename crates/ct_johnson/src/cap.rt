//! The greatest bound of the table.

ghost use Rattle.std.specs.Prelude.{◌≡◌, min};

use ct_words::MAX_BOUND;

/// The bound, or the greatest one of the table where it is above that.
pub fn capped(bound: u64) -> u32
    ensures { result ≡ min bound MAX_BOUND }
{
    bound.min(u64::from(MAX_BOUND)) as u32
}
