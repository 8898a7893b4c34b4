//! Evidence of kind cosets: the words of a code as a basis and representatives.

ghost use Rattle.std.specs.Prelude.{◌≡◌, ◌≢◌, ◌+◌, ◌<◌, ◌≤◌, ◌^◌, All, Some, None, IfOk, IfErr, OnOk, length, option_map, false, true, codes};
ghost use Rattle.ct_words.specs.Coset.{coset_list, coset_fault};
ghost use Rattle.ct_words.specs.Entry.{IsEntry};
ghost use Rattle.ct_kind.specs.Ascending.{code_at};

use ct_codes::{CosetCode, check_cosets};
use ct_kind::{Kind, SubmitFault};
use ct_words::{Code, CodeFault, Entry, Word};
use std::alloc::{AllocError, Global};

/// What the evidence comes to.
pub fn kind(entry: Entry) -> Kind
    ensures text { result.text.now ≡ codes "cosets" }
    ensures entry { result.entry ≡ entry }
    ensures is_stored { result.is_stored ≡ false }
    ensures has_code { result.has_code ≡ true }
{
    Kind {
        text: b"cosets",
        entry,
        is_stored: false,
        has_code: true,
    }
}

/// How many words the document lists.
pub fn listed(basis: &[Word], representatives: &[Word]) -> u64
    ensures listed { result ≡ length basis.now + length representatives.now }
    ensures few { result < 2 ^ 62 }
{
    basis.len() as u64 + representatives.len() as u64
}

/// The number of the words of all choices of cosets, which are a code of the entry, or why they are none.
fn checked_size(
    alloc: Global,
    entry: Entry,
    basis: &[Word],
    representatives: &[Word],
) -> Result<u32, CodeFault>
    requires entry { IsEntry entry }
    requires plain { entry.w ≡ None }
    requires basis { All (λ x. x < 2 ^ entry.n) basis.now }
    requires representatives { All (λ x. x < 2 ^ entry.n) representatives.now }
    ensures size { IfOk result (λ size. (size ≡ length (coset_list basis.now representatives.now))
        × (coset_fault entry basis.now representatives.now ≡ None)) }
    ensures fault { IfErr result (λ fault. fault ≢ CodeFault.Memory
        → coset_fault entry basis.now representatives.now ≡ Some fault) }
{
    let basis = Vec::from_slice(alloc, basis)?;
    let representatives = Vec::from_slice(alloc, representatives)?;
    let code = check_cosets(alloc, entry, basis, representatives)?;
    Ok(code.size())
}

/// The number of the words of all choices of cosets, or why they are no code of the entry.
pub fn check(
    alloc: Global,
    entry: Entry,
    basis: &[Word],
    representatives: &[Word],
) -> Result<u32, SubmitFault>
    requires entry { IsEntry entry }
    requires plain { entry.w ≡ None }
    requires basis { All (λ x. x < 2 ^ entry.n) basis.now }
    requires representatives { All (λ x. x < 2 ^ entry.n) representatives.now }
    ensures size { IfOk result (λ size. size ≡ length (coset_list basis.now representatives.now)) }
    ensures accepted { OnOk result (coset_fault entry basis.now representatives.now ≡ None) }
    ensures fault { IfErr result (λ fault. fault ≢ SubmitFault.Memory
        → option_map SubmitFault.Code (coset_fault entry basis.now representatives.now) ≡ Some fault) }
{
    match checked_size(alloc, entry, basis, representatives) {
        Ok(size) => Ok(size),
        Err(CodeFault::Memory) => Err(SubmitFault::Memory),
        Err(fault) => Err(SubmitFault::Code(fault)),
    }
}

/// The code of the entry that the words of all choices of cosets are.
pub fn code(
    alloc: Global,
    entry: Entry,
    basis: &[Word],
    representatives: &[Word],
) -> Result<Code, AllocError>
    requires entry { IsEntry entry }
    requires plain { entry.w ≡ None }
    requires basis { All (λ x. x < 2 ^ entry.n) basis.now }
    requires representatives { All (λ x. x < 2 ^ entry.n) representatives.now }
    requires faultless { coset_fault entry basis.now representatives.now ≡ None }
    ensures { IfOk result (λ code. code ≡ code_at entry (coset_list basis.now representatives.now)) }
{
    let basis = Vec::from_slice(alloc, basis)?;
    let representatives = Vec::from_slice(alloc, representatives)?;
    CosetCode::from_checked(entry, basis, representatives).list(alloc)
}
