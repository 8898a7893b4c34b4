//! Alternating sums of counts.

ghost use Rattle.std.specs.Prelude.{◌≡◌, pos, ◌+ℤ◌, ◌*ℤ◌, ◌^◌, ◌<◌, unsigned_abs};
ghost use Rattle.ct_words.specs.Counting.Alternating.{sign};

/// The sum with (-1)^j · `count` added to it: one step of an alternating sum. The sum is below 2^120 in absolute value.
pub fn add_alternating(sum: i128, j: u32, count: u64) -> i128
    requires { unsigned_abs sum < 2 ^ 120 }
    ensures { result ≡ sum +ℤ (sign j *ℤ pos count) }
{
    if j % 2 == 0 {
        sum + i128::from(count)
    } else {
        sum - i128::from(count)
    }
}
