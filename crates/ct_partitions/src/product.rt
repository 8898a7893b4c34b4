//! Products of partitions: their distance, their size and their words.

ghost use Rattle.std.specs.Prelude.{◌≡◌, ◌+◌, ◌*◌, ◌^◌, ◌<◌, ◌≤◌, min, suc, length};
ghost use Rattle.ct_words.specs.declared.limits.TheConstants.{MAX_N};
ghost use Rattle.ct_partitions.specs.Product.{product, product_size, pair_distance, weight_gap, distances, product_distance, pairs_at, ArePairsOfPlaces};
ghost use Rattle.ct_partitions.specs.Inside.Pairs.{nearest_at, weights_apart, size_of_pair};

use ct_classes::Partition;
use ct_words::Word;

/// The distance of the product of pairs of partitions, each told by two places in the list of parts; there is a pair. It is
/// the least of d(X), d(Y) and between(X) + between(Y) for each pair (X,Y), and of 2·|w(X) − w(X')| for each two pairs (X,Y)
/// and (X',Y') at different places, equal ones included. Where there are two pairs or more, each first partition has
/// a weight. It takes no memory.
pub fn product_distance(parts: &[Partition], pairs: &[(u32, u32)]) -> u32
    requires places { ArePairsOfPlaces (length parts.now) pairs.now }
    requires some { 1 ≤ length pairs.now }
    ensures { result ≡ product_distance (pairs_at parts.now pairs.now) }
{
    let (x, y) = pairs[0];
    let mut least = pair_distance(&parts[x as usize], &parts[y as usize]);
    for place in 0..pairs.len() {
        least = nearest(parts, pairs, place, least);
    }
    least
}

/// The least of a number, the distance of the pair at the place, and those of this pair and each later one.
fn nearest(parts: &[Partition], pairs: &[(u32, u32)], place: usize, least: u32) -> u32
    requires places { ArePairsOfPlaces (length parts.now) pairs.now }
    requires place { place < length pairs.now }
    ensures { result ≡ nearest_at (pairs_at parts.now pairs.now) place least }
{
    let (x, y) = pairs[place];
    let first = &parts[x as usize];
    let mut nearest = least.min(pair_distance(first, &parts[y as usize]));
    for later in place + 1..pairs.len() {
        let (other, _) = pairs[later];
        nearest = nearest.min(weight_gap(first, &parts[other as usize]));
    }
    nearest
}

/// The least of both distances of classes, and of the sum of both distances between classes.
fn pair_distance(first: &Partition, second: &Partition) -> u32
    ensures { result ≡ pair_distance (first.now, second.now) }
{
    let classes = first.entry().d.min(second.entry().d);
    classes.min(first.between() + second.between())
}

/// Twice the difference of the weights of two partitions, 0 for one without.
fn weight_gap(first: &Partition, other: &Partition) -> u32
    ensures { result ≡ weights_apart first.now other.now }
{
    let v = first.entry().w.unwrap_or(0);
    let w = other.entry().w.unwrap_or(0);
    2 * v.abs_diff(w)
}

/// How many words the product of at most `MAX_N` + 1 pairs of partitions has: the products of the sizes of the i-th classes, added up
/// over all pairs and classes. It takes no memory.
pub fn product_size(parts: &[Partition], pairs: &[(u32, u32)]) -> u64
    requires places { ArePairsOfPlaces (length parts.now) pairs.now }
    requires few { length pairs.now ≤ suc MAX_N }
    ensures { result ≡ product_size (pairs_at parts.now pairs.now) }
{
    let mut size: u64 = 0;
    for (x, y) in pairs {
        size += pair_size(&parts[*x as usize], &parts[*y as usize]);
    }
    size
}

/// How many words the product of one pair has, at most 2^28.
fn pair_size(first: &Partition, second: &Partition) -> u64
    ensures value { result ≡ size_of_pair first.now second.now }
    ensures small { result ≤ 2 ^ 28 }
{
    let firsts = first.classes();
    let seconds = second.classes();
    let mut size: u64 = 0;
    for class in 0..firsts.len().min(seconds.len()) {
        size += firsts[class].len() as u64 * seconds[class].len() as u64;
    }
    size
}
