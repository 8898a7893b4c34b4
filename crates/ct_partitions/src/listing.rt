//! The words of a product.

ghost use Rattle.std.specs.Prelude.{◌≡◌, ◌+◌, ◌-◌, ◌^◌, ◌<◌, ◌≤◌, ◌++◌, length, map, All, OnOk, IfOk, IsPermutation};
ghost use Rattle.ct_words.specs.declared.limits.TheConstants.{MAX_N};
ghost use Rattle.ct_words.specs.Code.{IsSoundCode};
ghost use Rattle.ct_words.specs.Constructions.Joined.{followed_by};
ghost use Rattle.ct_classes.specs.Partition.{IsSoundPartition};
ghost use Rattle.ct_partitions.specs.Product.{all_followed, class_products, product, product_distance, AreFactors, AreSound, pairs_at, ArePairsOfPlaces};

use ct_classes::Partition;
use ct_words::{Code, Entry, Word};
use std::alloc::{AllocError, Global};

/// The code of the entry whose words are those of the product of pairs of partitions, each told by two places in the list
/// of parts: all x followed by y, where x is of the i-th class of the first partition of a pair and y of the i-th class of
/// the second. The pairs have such a product (`AreFactors`), the length is at most `MAX_N`, and the distance from 1 up to
/// that of the product. `Err` is want of memory.
pub fn product_list(
    alloc: Global,
    entry: Entry,
    parts: &[Partition],
    pairs: &[(u32, u32)],
) -> Result<Code, AllocError>
    requires places { ArePairsOfPlaces (length parts.now) pairs.now }
    requires factors { AreFactors entry.n entry.w (pairs_at parts.now pairs.now) }
    requires length { entry.n ≤ MAX_N }
    requires some { 1 ≤ entry.d }
    requires distance { entry.d ≤ product_distance (pairs_at parts.now pairs.now) }
    ensures entry { IfOk result (λ c. (c.n ≡ entry.n) × (c.d ≡ entry.d) × (c.w ≡ entry.w)) }
    ensures words { IfOk result (λ c. IsPermutation (product (pairs_at parts.now pairs.now)) c.words) }
    ensures sound { IfOk result IsSoundCode }
{
    let mut words = product_words(alloc, parts, pairs, entry.n)?;
    words.sort_unstable();
    let Entry { n, d, w } = entry;
    Ok(Code::from_sorted(n, d, w, words))
}

/// The words of the product, of length n, pair after pair and class after class.
fn product_words(
    alloc: Global,
    parts: &[Partition],
    pairs: &[(u32, u32)],
    n: u32,
) -> Result<Vec<Word>, AllocError>
    requires places { ArePairsOfPlaces (length parts.now) pairs.now }
    requires length { n ≤ MAX_N }
    requires lengths { All (λ p. p.0.entry.n + p.1.entry.n ≡ n) (pairs_at parts.now pairs.now) }
    ensures words { IfOk result (λ v. v.items ≡ product (pairs_at parts.now pairs.now)) }
    ensures sound { OnOk result (All AreSound (pairs_at parts.now pairs.now)) }
{
    let mut words = Vec::new(alloc);
    for (x, y) in pairs {
        append_pair(&mut words, &parts[*x as usize], &parts[*y as usize])?;
    }
    Ok(words)
}

/// Puts the words of the product of one pair at the end.
fn append_pair(
    words: &mut Vec<Word>,
    first: &Partition,
    second: &Partition,
) -> Result<(), AllocError>
    requires { first.now.entry.n + second.now.entry.n ≤ MAX_N }
    ensures sound { IsSoundPartition first.now × IsSoundPartition second.now }
    ensures words { OnOk result (words.new.items ≡
        words.old.items ++ class_products second.now.entry.n first.now.classes second.now.classes) }
{
    let firsts = first.classes();
    let seconds = second.classes();
    let m = second.entry().n;
    for class in 0..firsts.len().min(seconds.len()) {
        append_class(words, &firsts[class], &seconds[class], m)?;
    }
    Ok(())
}

/// Puts each word of the first list at the end, followed by each word of the second, of length m.
fn append_class(
    words: &mut Vec<Word>,
    first: &[Word],
    second: &[Word],
    m: u32,
) -> Result<(), AllocError>
    requires length { m ≤ MAX_N }
    requires first { All (λ x. x < 2 ^ (MAX_N - m)) first.now }
    requires second { All (λ y. y < 2 ^ m) second.now }
    ensures { OnOk result (words.new.items ≡ words.old.items ++ all_followed m first.now second.now) }
{
    for x in first {
        append_word(words, *x, second, m)?;
    }
    Ok(())
}

/// Puts the word at the end, followed by each word of the list, of length m.
fn append_word(words: &mut Vec<Word>, x: Word, second: &[Word], m: u32) -> Result<(), AllocError>
    requires length { m ≤ MAX_N }
    requires word { x < 2 ^ (MAX_N - m) }
    requires second { All (λ y. y < 2 ^ m) second.now }
    ensures { OnOk result (words.new.items ≡ words.old.items ++ map (λ y. followed_by m x y) second.now) }
{
    for y in second {
        words.push((x << m) | *y)?;
    }
    Ok(())
}
