//! The search for two choices of a coset code that are too close, in blocks of 64 choices.
ghost use Rattle.std.specs.Prelude.{◌≡◌, ℕ, ◌*◌, ◌+◌, ◌^◌, ◌<◌, ◌≤◌, nat_lt, length, All, IfOk, IfSome};
ghost use Rattle.ct_words.specs.declared.limits.TheConstants.{MAX_N};
ghost use Rattle.ct_words.specs.Word.{distance};
ghost use Rattle.ct_words.specs.declared.fault.TheConstants.{MAX_REPRESENTATIVES};
ghost use Rattle.ct_words.specs.Pairs.{least_pair};
ghost use Rattle.ct_words.specs.Coset.{choice_count, coset_list};
ghost use Rattle.ct_codes.specs.Inside.First.{IsFirstOrNone};
ghost use Rattle.ct_codes.specs.Inside.Span.{AreParts, is_close_choice};

use crate::choices::{choice_words, close_choices};
use crate::light::is_heavy;
use crate::rows::{BLOCK, rows_of};
use crate::span::{first_close_sum, first_light_sum, sums};
use ct_words::Word;
use std::alloc::{AllocError, Global};

/// How many basis words have the sums of a block.
const LOW: usize = 6;

/// The least pair of choices, in order of the first and then the second, whose words have a distance below `d`. The words of
/// all choices are stored where the basis has less than six words, and else a block and its moves alone, if one representative
/// with few light words about it doesn't show that there is none.
pub(crate) fn least_close_choices(
    alloc: Global,
    basis: &[Word],
    representatives: &[Word],
    d: u32,
) -> Result<Option<(usize, usize)>, AllocError>
    requires basis { length basis.now ≤ MAX_N }
    requires representatives { length representatives.now ≤ MAX_REPRESENTATIVES }
    ensures least { IfOk result (λ pair. (n : ℕ) → All (λ x. x < 2 ^ n) (coset_list basis.now representatives.now) →
        pair ≡ least_pair (λ x y. nat_lt (distance n x y) d) (coset_list basis.now representatives.now)) }
    ensures places { IfOk result (λ pair. IfSome pair (λ p.
        (p.0 < p.1) × (p.1 < choice_count basis.now representatives.now))) }
{
    if basis.len() < LOW {
        return listed(alloc, basis, representatives, d);
    }
    if representatives.len() == 1 && is_heavy(alloc, basis, d)? {
        return Ok(None);
    }
    let block = sums(alloc, &basis[..LOW])?;
    let steps = sums(alloc, &basis[LOW..])?;
    let rows = rows_of(alloc, &block)?;
    Ok(in_blocks(&rows, &block, &steps, basis, representatives, d))
}

/// The same, over the words of all choices.
fn listed(
    alloc: Global,
    basis: &[Word],
    representatives: &[Word],
    d: u32,
) -> Result<Option<(usize, usize)>, AllocError>
    requires basis { length basis.now ≤ MAX_N }
    ensures least { IfOk result (λ pair. (n : ℕ) → All (λ x. x < 2 ^ n) (coset_list basis.now representatives.now) →
        pair ≡ least_pair (λ x y. nat_lt (distance n x y) d) (coset_list basis.now representatives.now)) }
    ensures places { IfOk result (λ pair. IfSome pair (λ p.
        (p.0 < p.1) × (p.1 < choice_count basis.now representatives.now))) }
{
    let words = choice_words(alloc, basis, representatives)?;
    Ok(close_choices(&words, basis, representatives, d))
}

/// The same, over the sums of basis words in blocks: each representative alone is compared with the choices after it.
fn in_blocks(
    rows: &[u8],
    block: &[Word],
    steps: &[Word],
    basis: &[Word],
    representatives: &[Word],
    d: u32,
) -> Option<(usize, usize)>
    requires parts { AreParts rows.now block.now steps.now basis.now }
    requires representatives { length representatives.now ≤ MAX_REPRESENTATIVES }
    ensures least { (n : ℕ) → All (λ x. x < 2 ^ n) (coset_list basis.now representatives.now) →
        result ≡ least_pair (λ x y. nat_lt (distance n x y) d) (coset_list basis.now representatives.now) }
    ensures places { IfSome result (λ p. (p.0 < p.1) × (p.1 < choice_count basis.now representatives.now)) }
{
    for place in 0..representatives.len() {
        if let Some(other) = close_to(rows, block, steps, basis, representatives, place, d) {
            return Some((place * steps.len() * BLOCK, other));
        }
    }
    None
}

/// The first choice after the representative at the place alone that is closer to it than `d`.
fn close_to(
    rows: &[u8],
    block: &[Word],
    steps: &[Word],
    basis: &[Word],
    representatives: &[Word],
    place: usize,
    d: u32,
) -> Option<usize>
    requires parts { AreParts rows.now block.now steps.now basis.now }
    requires representatives { length representatives.now ≤ MAX_REPRESENTATIVES }
    requires place { place < length representatives.now }
    ensures { IsFirstOrNone (is_close_choice d basis.now representatives.now place)
        (place * 2 ^ length basis.now + 1) (choice_count basis.now representatives.now) result }
{
    let span = steps.len() * BLOCK;
    if let Some(choice) = first_light_sum(rows, block, steps, basis, d) {
        return Some(place * span + choice);
    }
    for other in place + 1..representatives.len() {
        let sum = representatives[place] ^ representatives[other];
        if let Some(choice) = first_close_sum(rows, block, steps, basis, sum, 0, d) {
            return Some(other * span + choice);
        }
    }
    None
}
