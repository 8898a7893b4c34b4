//! Partitions that are handed in, and products of them.

ghost use Rattle.std.specs.Prelude.{◌≡◌, ◌^◌, ◌<◌, ◌≤◌, true, All, IfOk};
ghost use Rattle.ct_words.specs.declared.limits.TheConstants.{MAX_N};
ghost use Rattle.ct_words.specs.Entry.{unrestricted};
ghost use Rattle.ct_classes.specs.Partition.{word_lists, words_of_classes};

use crate::build_parts::{have_length, shows};
use ct_partitions::{
    Partition, PartitionFault, check_partition, product_distance, product_list, product_size,
};
use ct_words::{Entry, MAX_N, Word};
use std::alloc::{AllocError, Global};
use std::process::Abort;
use std::test::Fail;

/// A(4,4), or A(4,4,w).
fn of_length_four(w: Option<u32>) -> Entry
    ensures { result ≡ record { n = 4; d = 4; w = w } }
{
    Entry { n: 4, d: 4, w }
}

/// The words of even weight in pairs of complements.
const EVEN_PAIRS: [&[Word]; 4] = [
    &[0b0000, 0b1111],
    &[0b0011, 0b1100],
    &[0b0101, 0b1010],
    &[0b0110, 0b1001],
];

/// The classes as vectors.
fn classes_of(alloc: Global, classes: &[&[Word]]) -> Result<Vec<Vec<Word>>, AllocError> {
    let mut lists = Vec::new(alloc);
    for class in classes {
        lists.push(class.to_vec(alloc)?)?;
    }
    Ok(lists)
}

/// Whether all words of the classes have length n.
fn are_of_length(classes: &[Vec<Word>], n: u32) -> bool
    requires { n ≤ MAX_N }
    ensures { result ≡ true → All (λ x. x < 2 ^ n) (words_of_classes (word_lists classes.now)) }
{
    for class in classes {
        if !have_length(class, n) {
            return false;
        }
    }
    true
}

/// What `check_partition` answers for the classes.
fn answer(
    rt: &impl Abort,
    alloc: Global,
    entry: Entry,
    between: u32,
    classes: &[&[Word]],
) -> Result<Result<Partition, PartitionFault>, Fail>
    ensures entry { IfOk result (λ answered. IfOk answered (λ p. p.entry ≡ entry)) }
    ensures between { IfOk result (λ answered. IfOk answered (λ p. p.between ≡ between)) }
{
    let lists = classes_of(alloc, classes)?;
    assert!(rt; entry.in_table() && 1 <= between && between <= entry.d);
    assert!(rt; entry.n <= MAX_N && are_of_length(&lists, entry.n));
    Ok(check_partition(alloc, entry, between, lists))
}

/// Whether the partition has just these classes.
fn has_classes(partition: &Partition, classes: &[&[Word]]) -> bool {
    for (class, words) in partition.classes().iter().zip(classes) {
        if class.as_slice() != *words {
            return false;
        }
    }
    partition.classes().len() == classes.len()
}

/// Whether the words of even weight stay as they are handed in, with this distance between classes.
fn is_partition(rt: &impl Abort, alloc: Global, between: u32) -> Result<bool, Fail> {
    let entry = of_length_four(None);
    let partition = answer(rt, alloc, entry, between, &EVEN_PAIRS)??;
    Ok(
        partition.entry() == entry
            && partition.between() == between
            && has_classes(&partition, &EVEN_PAIRS),
    )
}

/// Classes that are a partition stay as they are handed in.
#[test]
fn classes_that_are_a_partition(rt: HostRuntime) -> Result<(), Fail> {
    assert!(rt; is_partition(&rt, rt.alloc(), 1)?);
    assert!(rt; is_partition(&rt, rt.alloc(), 2)?);
    Ok(())
}

/// Two words of different classes that are too near each other.
const ACROSS: PartitionFault = PartitionFault::Close {
    i: 0,
    j: 2,
    distance: 2,
    class_i: 0,
    class_j: 1,
    need: 3,
};

/// Two words of one class that are too near each other.
const WITHIN: PartitionFault = PartitionFault::Close {
    i: 1,
    j: 2,
    distance: 2,
    class_i: 1,
    class_j: 1,
    need: 4,
};

/// A weight, the distance between classes, classes, and their fault.
type Refused = (Option<u32>, u32, &'static [&'static [Word]], PartitionFault);

/// Classes with each fault, and with two: a count comes before a weight, a weight before a pair of equal words, and that
/// before a closer pair. Two words of different classes at distance 2 are too close where they need 3, two of one class
/// where they need 4.
const REFUSED: [Refused; 7] = [
    (None, 3, &EVEN_PAIRS, ACROSS),
    (None, 1, &[&[0b0000], &[0b0011, 0b0110]], WITHIN),
    (None, 2, &[], PartitionFault::Size(0)),
    (Some(2), 2, &[&[0b0001], &[]], PartitionFault::Size(0)),
    (
        Some(2),
        2,
        &[&[0b0011, 0b0011], &[0b0001]],
        PartitionFault::Weight(2),
    ),
    (
        None,
        2,
        &[&[0b0000, 0b0001], &[0b0001]],
        PartitionFault::Repeated(1, 2),
    ),
    (
        Some(4),
        4,
        &[&[0b1111, 0b1111]],
        PartitionFault::Repeated(0, 1),
    ),
];

/// Whether the classes are refused for their fault.
fn is_refused(
    rt: &impl Abort,
    alloc: Global,
    (w, between, classes, fault): Refused,
) -> Result<bool, Fail> {
    let refused = answer(rt, alloc, of_length_four(w), between, classes)?;
    Ok(refused.err() == Some(fault))
}

#[test]
fn classes_with_faults(rt: HostRuntime) -> Result<(), Fail> {
    for row in &REFUSED {
        assert!(rt; is_refused(&rt, rt.alloc(), *row)?, "{:?}", row.3);
    }
    Ok(())
}

/// The 16 words of length 8 that are a word of a pair of complements followed by a word of the same pair.
const PRODUCT: [Word; 16] = [
    0b00000000, 0b00001111, 0b00110011, 0b00111100, 0b01010101, 0b01011010, 0b01100110, 0b01101001,
    0b10010110, 0b10011001, 0b10100101, 0b10101010, 0b11000011, 0b11001100, 0b11110000, 0b11111111,
];

/// Whether the product of a partition of A(4,4) with itself is just these words.
fn is_product(alloc: Global, part: Partition, words: &[Word]) -> Result<bool, AllocError>
    requires entry { part.entry ≡ unrestricted 4 4 }
    requires between { part.between ≡ 2 }
{
    let parts = [part];
    let pairs = [(0, 0)];
    let entry = Entry {
        n: 8,
        d: 4,
        w: None,
    };
    let code = product_list(alloc, entry, &parts, &pairs)?;
    let size = product_size(&parts, &pairs);
    Ok(product_distance(&parts, &pairs) == 4 && size == 16 && shows(&code, (8, 4, None), words))
}

#[test]
fn product_of_even_words(rt: HostRuntime) -> Result<(), Fail> {
    let part = answer(&rt, rt.alloc(), of_length_four(None), 2, &EVEN_PAIRS)??;
    assert!(rt; is_product(rt.alloc(), part, &PRODUCT)?);
    Ok(())
}
