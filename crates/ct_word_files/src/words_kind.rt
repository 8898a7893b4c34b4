//! Evidence of kind words: the words of a code, one by one.

ghost use Rattle.std.specs.Prelude.{◌≡◌, ◌≢◌, ◌<◌, ◌≤◌, ◌^◌, All, Some, None, IfOk, IfErr, OnOk, length, option_map, false, true, codes};
ghost use Rattle.std.specs.Result.{result_err};
ghost use Rattle.ct_words.specs.Check.{code_fault};
ghost use Rattle.ct_words.specs.Entry.{IsEntry};
ghost use Rattle.ct_kind.specs.Ascending.{code_at};

use ct_codes::check_words;
use ct_kind::{Kind, SubmitFault};
use ct_words::{Code, CodeFault, Entry, Word};
use std::alloc::{AllocError, Global};

/// What the evidence comes to.
pub fn kind(entry: Entry) -> Kind
    ensures text { result.text.now ≡ codes "words" }
    ensures entry { result.entry ≡ entry }
    ensures is_stored { result.is_stored ≡ false }
    ensures has_code { result.has_code ≡ true }
{
    Kind {
        text: b"words",
        entry,
        is_stored: false,
        has_code: true,
    }
}

/// The number of the words, which are a code of the entry, or why they are none.
fn checked_size(alloc: Global, entry: Entry, words: Vec<Word>) -> Result<u32, CodeFault>
    requires entry { IsEntry entry }
    requires words { All (λ x. x < 2 ^ entry.n) words.items }
    ensures size { IfOk result (λ size. size ≡ length words.items) }
    ensures fault { result_err result ≡ code_fault entry words.items }
{
    let code = check_words(alloc, entry, words)?;
    Ok(code.words().len() as u32)
}

/// The number of the words, or why they are no code of the entry.
pub fn check(alloc: Global, entry: Entry, words: &[Word]) -> Result<u32, SubmitFault>
    requires entry { IsEntry entry }
    requires words { All (λ x. x < 2 ^ entry.n) words.now }
    ensures size { IfOk result (λ size. size ≡ length words.now) }
    ensures accepted { OnOk result (code_fault entry words.now ≡ None) }
    ensures fault { IfErr result (λ fault. fault ≢ SubmitFault.Memory
        → option_map SubmitFault.Code (code_fault entry words.now) ≡ Some fault) }
{
    let listed = Vec::from_slice(alloc, words)?;
    match checked_size(alloc, entry, listed) {
        Ok(size) => Ok(size),
        Err(fault) => Err(SubmitFault::Code(fault)),
    }
}

/// The code of the entry that these words are.
pub fn code(alloc: Global, entry: Entry, words: &[Word]) -> Result<Code, AllocError>
    requires entry { IsEntry entry }
    requires words { All (λ x. x < 2 ^ entry.n) words.now }
    requires faultless { code_fault entry words.now ≡ None }
    ensures { IfOk result (λ code. code ≡ code_at entry words.now) }
{
    let mut words = Vec::from_slice(alloc, words)?;
    words.sort_unstable();
    Ok(Code::from_sorted(entry.n, entry.d, entry.w, words))
}
