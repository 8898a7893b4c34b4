//! Whether a sum of basis words is light, told from the light words, which are few where the distance is small: the basis reduces each
//! sum of its words to 0, and no light word.
ghost use Rattle.std.specs.Prelude.{◌≡◌, ◌≢◌, ℕ, ◌^◌, ◌<◌, ◌≤◌, List, length, true, bit_xor, All, IfOk, IfSome};
ghost use Rattle.ct_words.specs.Word.{weight};
ghost use Rattle.ct_words.specs.declared.limits.TheConstants.{MAX_N};
ghost use Rattle.ct_codes.specs.declared.light.Pivot.{Pivot};
ghost use Rattle.ct_codes.specs.Inside.First.{NonePasses};
ghost use Rattle.ct_codes.specs.Inside.Light.{reduced_by, reduced, ArePivots, AreUnits};
ghost use Rattle.ct_codes.specs.Inside.Span.{is_close_sum};

use crate::span::if_chosen;
use ct_words::{MAX_N, Word, ball};
use std::alloc::{AllocError, Global};

/// Light words are few where they are at most this part of the sums of basis words: to tell one takes longer than to compare a sum in lanes.
const PART: u64 = 32;

/// A word that is added to others where they have a one at its place, which counts from the last.
#[derive(Clone, Copy)]
pub(crate) struct Pivot {
    place: u32,
    word: Word,
}

/// The word, with the pivot added where it has a one at the pivot's place.
fn reduced_by(pivot: Pivot, word: Word) -> Word
    requires { pivot.place < 32 }
    ensures { result ≡ reduced_by pivot word }
{
    word ^ if_chosen(pivot.word, (word >> pivot.place) as usize)
}

/// What the pivots in turn leave of a word.
fn reduced(pivots: &[Pivot], word: Word) -> Word
    requires { All (λ p. p.place < 32) pivots.now }
    ensures { result ≡ reduced pivots.now word }
{
    let mut rest = word;
    for pivot in pivots {
        rest = reduced_by(*pivot, rest);
    }
    rest
}

/// Pivots that leave nothing of the basis words, where none of these is a sum of those before it. `Err` is want of memory.
fn pivots_of(alloc: Global, basis: &[Word]) -> Result<Option<Vec<Pivot>>, AllocError>
    ensures { IfOk result (λ found. IfSome found (λ pivots. ArePivots pivots.items basis.now)) }
{
    let mut pivots = Vec::new(alloc);
    for basis_word in basis {
        let word = reduced(&pivots, *basis_word);
        if word == 0 {
            return Ok(None);
        }
        let place = word.trailing_zeros();
        pivots.push(Pivot { place, word })?;
    }
    Ok(Some(pivots))
}

/// What the pivots leave of each word with a single one. `Err` is want of memory.
fn units_of(alloc: Global, pivots: &[Pivot]) -> Result<Vec<Word>, AllocError>
    requires { All (λ p. p.place < 32) pivots.now }
    ensures size { IfOk result (λ units. length units.items ≡ 32) }
    ensures units { IfOk result (λ units. AreUnits pivots.now units.items) }
{
    let mut units = Vec::new(alloc);
    for place in 0..32u32 {
        units.push(reduced(pivots, 1 << place))?;
    }
    Ok(units)
}

/// Whether the pivots leave the sum of no word whose ones, so many at most, have places before the end, from the last.
fn is_left_of_none(units: &[Word], end: usize, most: u32, sum: Word) -> bool
    requires size { length units.now ≤ 32 }
    requires end { end ≤ length units.now }
    ensures { result ≡ true → (pivots : List Pivot) → AreUnits pivots units.now → (y : ℕ) → y < 2 ^ end → weight 32 y ≤ most →
        bit_xor sum (reduced pivots y) ≢ 0 }
{
    if sum == 0 {
        return false;
    }
    if most == 0 {
        return true;
    }
    for place in 0..end {
        if !is_left_of_none(units, place, most - 1, sum ^ units[place]) {
            return false;
        }
    }
    true
}

/// Whether the pivots leave something of each word but 0 that is lighter than `d` and whose ones have the places of the units.
fn leaves_light_words(units: &[Word], d: u32) -> bool
    requires { length units.now ≤ 32 }
    ensures { result ≡ true → (pivots : List Pivot) → AreUnits pivots units.now → (y : ℕ) → y < 2 ^ length units.now →
        0 < y → weight 32 y < d → reduced pivots y ≢ 0 }
{
    if d < 2 {
        return true;
    }
    for place in 0..units.len() {
        if !is_left_of_none(units, place, d - 2, units[place]) {
            return false;
        }
    }
    true
}

/// Whether the words that are lighter than `d` are few beside the sums of so many basis words.
fn are_few(d: u32, count: usize) -> bool
    requires { count ≤ MAX_N }
{
    ball(MAX_N, d.saturating_sub(1)) <= (1u64 << count) / PART
}

/// Whether each sum of one basis word or more is seen to have the weight `d` at least. Where it has not, or is not looked at, the answer
/// is no. `Err` is want of memory.
pub(crate) fn is_heavy(alloc: Global, basis: &[Word], d: u32) -> Result<bool, AllocError>
    requires { length basis.now ≤ MAX_N }
    ensures { IfOk result (λ heavy. heavy ≡ true → NonePasses (is_close_sum d basis.now 0) 1 (2 ^ length basis.now)) }
{
    if !are_few(d, basis.len()) {
        return Ok(false);
    }
    let Some(pivots) = pivots_of(alloc, basis)? else {
        return Ok(false);
    };
    let units = units_of(alloc, &pivots)?;
    Ok(leaves_light_words(&units, d))
}
