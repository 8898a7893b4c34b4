//! Evidence of kind partition: codes whose words are a code of a smaller distance together, its classes.

ghost use Rattle.std.specs.Prelude.{◌≡◌, ◌≢◌, ◌<◌, ◌≤◌, ◌^◌, All, Some, None, IfOk, IfErr, OnOk, length, option_map, false, codes};
ghost use Rattle.ct_words.specs.Entry.{IsEntry};
ghost use Rattle.ct_partitions.specs.Check.{partition_fault, wrong_count};
ghost use Rattle.ct_classes.specs.Partition.{words_of_classes, word_lists};

use ct_kind::{Kind, SubmitFault};
use ct_partitions::{partition_fault, word_count};
use ct_words::{Entry, Word};
use std::alloc::Global;

/// What the evidence comes to.
pub fn kind(entry: Entry) -> Kind
    ensures text { result.text.now ≡ codes "partition" }
    ensures entry { result.entry ≡ entry }
    ensures is_stored { result.is_stored ≡ false }
    ensures has_code { result.has_code ≡ false }
{
    Kind {
        text: b"partition",
        entry,
        is_stored: false,
        has_code: false,
    }
}

/// How many words the classes have.
pub fn listed(classes: &[Vec<Word>]) -> u64
    requires right { wrong_count (word_lists classes.now) ≡ None }
    ensures listed { result ≡ length (words_of_classes (word_lists classes.now)) }
    ensures few { result < 2 ^ 31 }
{
    word_count(classes)
}

/// The number of the words, or why the classes are no partition of the entry.
pub fn check(
    alloc: Global,
    entry: Entry,
    between: u32,
    classes: &[Vec<Word>],
) -> Result<u32, SubmitFault>
    requires entry { IsEntry entry }
    requires some { 1 ≤ between }
    requires nearer { between ≤ entry.d }
    requires words { All (λ x. x < 2 ^ entry.n) (words_of_classes (word_lists classes.now)) }
    requires right { wrong_count (word_lists classes.now) ≡ None }
    ensures size { IfOk result (λ size. size ≡ length (words_of_classes (word_lists classes.now))) }
    ensures accepted { OnOk result (partition_fault entry between (word_lists classes.now) ≡ None) }
    ensures fault { IfErr result (λ fault. fault ≢ SubmitFault.Memory
        → option_map SubmitFault.Partition (partition_fault entry between (word_lists classes.now)) ≡ Some fault) }
{
    match partition_fault(alloc, entry, between, classes)? {
        Some(fault) => Err(SubmitFault::Partition(fault)),
        None => Ok(listed(classes) as u32),
    }
}
