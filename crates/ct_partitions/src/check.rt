//! Lists of words that are handed in, checked as the classes of a partition.

ghost use Rattle.std.specs.Prelude.{◌≡◌, ◌≢◌, ◌==◌, ℕ, ◌^◌, ◌<◌, ◌≤◌, length, All, not, position, Some, None, IfOk, IfErr, IfNone, OnOk};
ghost use Rattle.std.specs.List.{list_any};
ghost use Rattle.ct_words.specs.Word.{weight};
ghost use Rattle.ct_words.specs.Entry.{IsEntry};
ghost use Rattle.ct_words.specs.Pairs.{first_of};
ghost use Rattle.ct_words.specs.declared.fault.TheConstants.{MAX_WORDS};
ghost use Rattle.ct_classes.specs.Partition.{word_lists, words_of_classes, IsSoundPartition};
ghost use Rattle.ct_partitions.specs.Check.{class_at, counted, wrong_count, partition_weight_fault, partition_repeated_fault, partition_close_fault, partition_fault};

use crate::close::first_close_places;
use ct_classes::{MAX_CLASSES, Partition, PartitionFault};
use ct_codes::first_close_pair;
use ct_words::{Entry, MAX_WORDS, Word, distance, weight};
use std::alloc::{AllocError, Global};

/// The partition of these classes, each a code of the entry, which is in the table. Two words of different classes have the
/// distance `between` at least, which is from 1 to d. All words are below 2^n.
///
/// The refusals in order: `Size` where there is no class or there are more than `MAX_CLASSES`, or else where a class
/// is empty, or else where there are more than `MAX_WORDS` words; `Weight` with the first word that has not the weight of
/// the entry; `Repeated` with the least pair of equal words; and `Close` with the least pair of words that are closer than
/// they need to be. Words are numbered through all classes. `Memory` means that the words of all classes could not be
/// stored side by side.
pub fn check_partition(
    alloc: Global,
    entry: Entry,
    between: u32,
    classes: Vec<Vec<Word>>,
) -> Result<Partition, PartitionFault>
    requires entry { IsEntry entry }
    requires some { 1 ≤ between }
    requires nearer { between ≤ entry.d }
    requires words { All (λ x. x < 2 ^ entry.n) (words_of_classes (word_lists classes.items)) }
    ensures fault { IfErr result (λ fault. fault ≢ PartitionFault.Memory
        → partition_fault entry between (word_lists classes.items) ≡ Some fault) }
    ensures accepted { OnOk result (partition_fault entry between (word_lists classes.items) ≡ None) }
    ensures value { IfOk result (λ p. p ≡
        record { entry = entry; between = between; classes = word_lists classes.items }) }
    ensures sound { IfOk result IsSoundPartition }
{
    let fault = partition_fault(alloc, entry, between, &classes)?;
    match fault {
        Some(fault) => Err(fault),
        None => Ok(Partition::from_classes(entry, between, classes)),
    }
}

/// The first reason why the lists are no classes of a partition, as `check_partition` gives them; none where they are. `Err` is
/// want of memory.
#[tactic(auto, unfolding(crate::specs::Check::partition_fault))]
pub fn partition_fault(
    alloc: Global,
    entry: Entry,
    between: u32,
    classes: &[Vec<Word>],
) -> Result<Option<PartitionFault>, AllocError>
    requires entry { IsEntry entry }
    requires some { 1 ≤ between }
    requires nearer { between ≤ entry.d }
    requires words { All (λ x. x < 2 ^ entry.n) (words_of_classes (word_lists classes.now)) }
    ensures { IfOk result (λ fault. fault ≡ partition_fault entry between (word_lists classes.now)) }
{
    if let Some(count) = wrong_count(classes) {
        return Ok(Some(PartitionFault::Size(count)));
    }
    let words = joined(alloc, classes)?;
    if let Some(fault) = weight_fault(&words, entry.w) {
        return Ok(Some(fault));
    }
    Ok(pair_fault(&words, classes, entry.d, between))
}

/// The count of the classes that is wrong: their number where it is 0 or above `MAX_CLASSES`; or else 0 where a class is
/// empty; or else the number of words where it is above `MAX_WORDS`.
pub fn wrong_count(classes: &[Vec<Word>]) -> Option<u64>
    ensures count { result ≡ wrong_count (word_lists classes.now) }
    ensures few { IfNone result (length (words_of_classes (word_lists classes.now)) ≤ MAX_WORDS) }
{
    let count = classes.len();
    if count == 0 || count > MAX_CLASSES {
        return Some(count as u64);
    }
    if has_empty_class(classes) {
        return Some(0);
    }
    let words = word_count(classes);
    if words > MAX_WORDS as u64 {
        return Some(words);
    }
    None
}

/// Whether a class has no word.
fn has_empty_class(classes: &[Vec<Word>]) -> bool
    ensures { result ≡ list_any (λ c. length c == 0) (word_lists classes.now) }
{
    for class in classes {
        if class.is_empty() {
            return true;
        }
    }
    false
}

/// How many words the classes have, as far as 64 bits count.
pub fn word_count(classes: &[Vec<Word>]) -> u64
    ensures { result ≡ counted (length (words_of_classes (word_lists classes.now))) }
{
    let mut count: u64 = 0;
    for class in classes {
        count = count.saturating_add(class.len() as u64);
    }
    count
}

/// The words of all classes, one class after the other.
fn joined(alloc: Global, classes: &[Vec<Word>]) -> Result<Vec<Word>, AllocError>
    ensures { IfOk result (λ words. words.items ≡ words_of_classes (word_lists classes.now)) }
{
    let mut words = Vec::new(alloc);
    for class in classes {
        words.extend_from_slice(class)?;
    }
    Ok(words)
}

/// The first word of another weight, where a weight is given.
fn weight_fault(words: &[Word], w: Option<u32>) -> Option<PartitionFault>
    ensures { (n : ℕ) → All (λ x. x < 2 ^ n) words.now → result ≡ partition_weight_fault n w words.now }
{
    let w = w?;
    let place = first_of_other_weight(words, w)?;
    Some(PartitionFault::Weight(place))
}

/// The first word that has not the weight. All are words of length 32, too.
fn first_of_other_weight(words: &[Word], w: u32) -> Option<usize>
    ensures { result ≡ position (λ x. not (weight 32 x == w)) words.now }
{
    words.iter().position(|word| weight(*word) != w)
}

/// The least pair of equal words, or else the least pair that is closer than it needs to be.
fn pair_fault(words: &[Word], classes: &[Vec<Word>], d: u32, between: u32) -> Option<PartitionFault>
    requires words { words.now ≡ words_of_classes (word_lists classes.now) }
    requires some { 1 ≤ between }
    requires nearer { between ≤ d }
    ensures { (n : ℕ) → All (λ x. x < 2 ^ n) words.now →
        result ≡ first_of (partition_repeated_fault words.now) (partition_close_fault n d between (word_lists classes.now)) }
{
    let (i, j) = first_close_places(words, classes, d, between)?;
    if let Some((first, again)) = first_close_pair(words, 1) {
        return Some(PartitionFault::Repeated(first, again));
    }
    let class_i = class_of(classes, i);
    let class_j = class_of(classes, j);
    Some(PartitionFault::Close {
        i,
        j,
        distance: distance(words[i], words[j]),
        class_i,
        class_j,
        need: if class_i == class_j { d } else { between },
    })
}

/// The class of the word at the place.
fn class_of(classes: &[Vec<Word>], place: usize) -> usize
    ensures { result ≡ class_at (word_lists classes.now) place }
{
    let mut rest = place;
    for (number, class) in classes.iter().enumerate() {
        if rest < class.len() {
            return number;
        }
        rest -= class.len();
    }
    classes.len()
}
