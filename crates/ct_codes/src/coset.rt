//! Codes put together from cosets.

ghost use Rattle.std.specs.Prelude.{◌≡◌, ◌≢◌, ℕ, IfSome, slice_index, ◌^◌, ◌<◌, ◌≤◌, length, All, IfOk, IfErr, OnOk, IsPermutation};
ghost use Rattle.std.specs.Option.{option_map};
ghost use Rattle.ct_words.specs.declared.limits.TheConstants.{MAX_N};
ghost use Rattle.ct_words.specs.Word.{distance};
ghost use Rattle.ct_words.specs.declared.fault.TheConstants.{MAX_REPRESENTATIVES};
ghost use Rattle.ct_words.specs.declared.fault.CodeFault.TheVariants.{Close};
ghost use Rattle.ct_words.specs.Entry.{IsEntry};
ghost use Rattle.ct_words.specs.Code.{IsSoundCode, IsTrueLower};
ghost use Rattle.ct_words.specs.Check.{close_fault};
ghost use Rattle.ct_words.specs.Coset.{choice_count, coset_list, coset_size_fault, coset_work_fault, coset_fault, CosetValue, IsSoundCosetCode};

use crate::choices::choice_words;
use crate::coset_search::least_close_choices;
use crate::span::choice_word;
use ct_words::{
    Code, CodeFault, Entry, MAX_COSET_WORK, MAX_N, MAX_REPRESENTATIVES, Word, distance,
};
use std::alloc::{AllocError, Global};
use std::marker::Model;

/// A code of an entry without weight: the words of all choices of a representative and a set of basis words, each the sum
/// of its members without carry. Over k basis words choice a·2^k + s has the representative at place a, and the basis
/// words at the places j whose digit 2^j stands in s.
#[derive(Drop)]
pub struct CosetCode {
    entry: Entry,
    basis: Vec<Word>,
    representatives: Vec<Word>,
}

impl Model for CosetCode {
    ghost Value = { CosetValue };

    ghost view = { λ c. record { entry = c.entry; basis = c.basis.items; representatives = c.representatives.items } };

    ghost invariant = { λ c. IsSoundCosetCode (record { entry = c.entry; basis = c.basis.items; representatives = c.representatives.items }) };
}

/// The coset code of the entry, which is in the table and has no weight, with this basis and these representatives,
/// whose words are below 2^n.
///
/// The refusals in order: `Size` where the basis has more than `MAX_N` words, or else where there is no representative
/// or there are more than `MAX_REPRESENTATIVES`; `Work` where the work is above `MAX_COSET_WORK`; and `Close` with the
/// least pair of choices whose words have a distance below d, 0 included, and that distance. `Memory` means that what the
/// search reads, sums and pivots of basis words or the words of all choices, could not be stored.
pub fn check_cosets(
    alloc: Global,
    entry: Entry,
    basis: Vec<Word>,
    representatives: Vec<Word>,
) -> Result<CosetCode, CodeFault>
    requires entry { IsEntry entry }
    requires unweighted { entry.w ≡ None }
    requires basis { All (λ x. x < 2 ^ entry.n) basis.items }
    requires representatives { All (λ x. x < 2 ^ entry.n) representatives.items }
    ensures fault { IfErr result (λ fault. fault ≢ CodeFault.Memory
        → coset_fault entry basis.items representatives.items ≡ Some fault) }
    ensures accepted { OnOk result (coset_fault entry basis.items representatives.items ≡ None) }
    ensures value { IfOk result (λ c. c ≡
        record { entry = entry; basis = basis.items; representatives = representatives.items }) }
    ensures sound { IfOk result IsSoundCosetCode }
{
    let fault = first_fault(alloc, entry, &basis, &representatives)?;
    match fault {
        Some(fault) => Err(fault),
        None => Ok(CosetCode {
            entry,
            basis,
            representatives,
        }),
    }
}

/// The first reason why the words are no coset code of the entry.
#[tactic(auto, unfolding(ct_words::specs::Coset::coset_fault))]
fn first_fault(
    alloc: Global,
    entry: Entry,
    basis: &[Word],
    representatives: &[Word],
) -> Result<Option<CodeFault>, AllocError>
    requires basis { All (λ x. x < 2 ^ entry.n) basis.now }
    requires representatives { All (λ x. x < 2 ^ entry.n) representatives.now }
    ensures { IfOk result (λ fault. fault ≡ coset_fault entry basis.now representatives.now) }
{
    if let Some(fault) = size_fault(basis, representatives) {
        return Ok(Some(fault));
    }
    if let Some(fault) = work_fault(basis, representatives) {
        return Ok(Some(fault));
    }
    close_fault(alloc, entry, basis, representatives)
}

/// Whether there are too many basis words, or else no representative or too many.
fn size_fault(basis: &[Word], representatives: &[Word]) -> Option<CodeFault>
    ensures { result ≡ coset_size_fault basis.now representatives.now }
{
    if basis.len() > MAX_N as usize {
        return Some(CodeFault::Size(basis.len() as u64));
    }
    let count = representatives.len();
    if count == 0 || count > MAX_REPRESENTATIVES {
        Some(CodeFault::Size(count as u64))
    } else {
        None
    }
}

/// Whether the work of the search is above the limit.
fn work_fault(basis: &[Word], representatives: &[Word]) -> Option<CodeFault>
    requires basis { length basis.now ≤ MAX_N }
    requires representatives { length representatives.now ≤ MAX_REPRESENTATIVES }
    ensures { result ≡ coset_work_fault basis.now representatives.now }
{
    let count = representatives.len() as u64;
    let work = count * (count + 1) / 2 * (1 << basis.len());
    if work > MAX_COSET_WORK {
        Some(CodeFault::Work(work))
    } else {
        None
    }
}

/// The least pair of choices whose words are closer than the entry allows.
fn close_fault(
    alloc: Global,
    entry: Entry,
    basis: &[Word],
    representatives: &[Word],
) -> Result<Option<CodeFault>, AllocError>
    requires size { length basis.now ≤ MAX_N }
    requires count { length representatives.now ≤ MAX_REPRESENTATIVES }
    requires basis { All (λ x. x < 2 ^ entry.n) basis.now }
    requires representatives { All (λ x. x < 2 ^ entry.n) representatives.now }
    ensures { IfOk result (λ fault. fault ≡
        close_fault entry.n entry.d (coset_list basis.now representatives.now)) }
{
    let pair = least_close_choices(alloc, basis, representatives, entry.d)?;
    Ok(fault_of(basis, representatives, pair))
}

/// The fault of two choices that are close, where there are two.
fn fault_of(
    basis: &[Word],
    representatives: &[Word],
    pair: Option<(usize, usize)>,
) -> Option<CodeFault>
    requires size { length basis.now ≤ MAX_N }
    requires places { IfSome pair (λ p. (p.0 < p.1) × (p.1 < choice_count basis.now representatives.now)) }
    ensures { (n : ℕ) → All (λ x. x < 2 ^ n) (coset_list basis.now representatives.now) →
        result ≡ option_map (λ p. Close p.0 p.1 (distance n (slice_index (coset_list basis.now representatives.now) p.0)
        (slice_index (coset_list basis.now representatives.now) p.1))) pair }
{
    let (i, j) = pair?;
    Some(close_pair(basis, representatives, i, j))
}

/// The fault of two choices that are close, with the distance of their words, which are of one length.
fn close_pair(basis: &[Word], representatives: &[Word], i: usize, j: usize) -> CodeFault
    requires size { length basis.now ≤ MAX_N }
    requires places { (i < choice_count basis.now representatives.now) × (j < choice_count basis.now representatives.now) }
    ensures { (n : ℕ) → All (λ x. x < 2 ^ n) (coset_list basis.now representatives.now) →
        result ≡ Close i j (distance n (slice_index (coset_list basis.now representatives.now) i)
        (slice_index (coset_list basis.now representatives.now) j)) }
{
    let distance = distance(
        choice_word(basis, representatives, i),
        choice_word(basis, representatives, j),
    );
    CodeFault::Close(i, j, distance)
}

impl CosetCode {
    /// The coset code of a basis and representatives that are one: of an entry of the table without weight, whose words of all
    /// choices are a code of it, within the limits of `check_cosets`. Nothing is tested, and no memory taken.
    pub fn from_checked(entry: Entry, basis: Vec<Word>, representatives: Vec<Word>) -> CosetCode
        requires code { IsSoundCosetCode (record { entry = entry; basis = basis.items; representatives = representatives.items }) }
        ensures value { result ≡ record { entry = entry; basis = basis.items; representatives = representatives.items } }
    {
        CosetCode {
            entry,
            basis,
            representatives,
        }
    }

    /// The entry, which has no weight.
    pub fn entry(&self) -> Entry
        ensures value { result ≡ self.now.entry }
        ensures sound { IsSoundCosetCode self.now }
    {
        self.entry
    }

    /// The number of choices, from 1 to `MAX_COSET_WORK`: so many words the code has.
    pub fn size(&self) -> u32
        ensures value { result ≡ choice_count self.now.basis self.now.representatives }
        ensures lower { IsTrueLower self.now.entry result }
        ensures sound { IsSoundCosetCode self.now }
    {
        (self.representatives.len() << self.basis.len()) as u32
    }

    /// The words of all choices as a code of the entry.
    pub fn list(&self, alloc: Global) -> Result<Code, AllocError>
        ensures words { IfOk result (λ c. IsPermutation (coset_list self.now.basis self.now.representatives) c.words) }
        ensures entry { IfOk result (λ c. (c.n ≡ self.now.entry.n) × (c.d ≡ self.now.entry.d) × (c.w ≡ None)) }
        ensures sound { IfOk result IsSoundCode }
    {
        let mut words = choice_words(alloc, &self.basis, &self.representatives)?;
        words.sort_unstable();
        Ok(Code::from_sorted(self.entry.n, self.entry.d, None, words))
    }
}
