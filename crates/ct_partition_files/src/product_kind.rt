//! Evidence of kind product: the words of the i-th class of one partition, each followed by those of the i-th class of another, for
//! pairs of pieces that stand and are partitions.

ghost use Rattle.std.specs.Prelude.{◌≡◌, ◌≢◌, ◌<◌, ◌≤◌, ◌+◌, ◌∷◌, ◌++◌, [], suc, All, Some, None, IfOk, IfErr, IfSome, IsSome, OnOk, length, option_map, if◌then◌else◌, false, true, codes};
ghost use Rattle.std.specs.List.{list_any};
ghost use Rattle.std.specs.Str.{bytes_eq};
ghost use Rattle.std.specs.List.Sorted.{IsPermutation};
ghost use Rattle.ct_words.specs.declared.limits.TheConstants.{MAX_N, MAX_BOUND};
ghost use Rattle.ct_words.specs.Code.{IsSoundCode};
ghost use Rattle.ct_words.specs.Entry.{IsEntry};
ghost use Rattle.ct_words.specs.Pairs.{first_of};
ghost use Rattle.ct_classes.specs.Partition.{PartitionValue};
ghost use Rattle.ct_partitions.specs.Product.{product, product_distance, product_size, pairs_at, ArePairsOfPlaces, AreFactors};
ghost use Rattle.ct_build.specs.Build.{add_up};
ghost use Rattle.ct_kind.specs.Ascending.{code_at};
ghost use Rattle.ct_kind.specs.KindParts.{kind_reason};
ghost use Rattle.ct_kind.specs.Named.{first_missing, partition_named};
ghost use Rattle.ct_partition_files.specs.ProductKind.{ids_of, factors_named, first_length, is_wrong_first, is_wrong_second, wrong_of_pair, wrong_id, short_of, product_reason, product_kind};

use ct_build::BuildFault;
use ct_kind::{Kind, Partitions, SubmitFault};
use ct_names::Id;
use ct_partitions::{Partition, product_distance, product_list, product_size};
use ct_words::{Code, Entry};
use std::alloc::{AllocError, Global};

/// What the evidence comes to.
pub fn kind(entry: Entry) -> Kind
    ensures text { result.text.now ≡ codes "product" }
    ensures entry { result.entry ≡ entry }
    ensures is_stored { result.is_stored ≡ false }
    ensures has_code { result.has_code ≡ true }
{
    Kind {
        text: b"product",
        entry,
        is_stored: false,
        has_code: true,
    }
}

/// Whether one of the pairs has the id.
pub fn names(pairs: &[(Id, Id)], id: Id) -> bool
    ensures { result ≡ list_any (λ part. bytes_eq part id) (ids_of pairs.now) }
{
    has_pair(pairs, id)
}

/// Whether one of the pairs has the id, pair by pair.
fn has_pair(pairs: &[(Id, Id)], id: Id) -> bool
    ensures { result ≡ list_any (λ p. list_any (λ part. bytes_eq part id) (p.0 ∷ p.1 ∷ [])) pairs.now }
{
    pairs.iter().any(|pair| is_of_pair(*pair, id))
}

/// Whether one of two ids is this one.
fn is_of_pair(pair: (Id, Id), id: Id) -> bool
    ensures { result ≡ list_any (λ part. bytes_eq part id) (pair.0 ∷ pair.1 ∷ []) }
{
    pair.0 == id || pair.1 == id
}

/// The first id of a pair that no piece has.
fn missing_of_pair<P: Partitions>(pieces: &P, pair: (Id, Id)) -> Option<Id>
    ensures { result ≡ first_missing (P.known pieces.now) (pair.0 ∷ pair.1 ∷ []) }
{
    let (first, second) = pair;
    if !pieces.is_known(first) {
        return Some(first);
    }
    if !pieces.is_known(second) {
        return Some(second);
    }
    None
}

/// The first id, pair by pair, that no piece has.
fn first_missing<P: Partitions>(pieces: &P, pairs: &[(Id, Id)]) -> Option<Id>
    ensures { result ≡ first_missing (P.known pieces.now) (ids_of pairs.now) }
{
    for pair in pairs {
        if let Some(id) = missing_of_pair(pieces, *pair) {
            return Some(id);
        }
    }
    None
}

/// Whether two weights add up to the stated one; where none is stated, nothing is asked of them.
fn add_up(w: Option<u32>, v: Option<u32>, u: Option<u32>) -> bool
    ensures { result ≡ add_up w v u }
{
    match (w, v, u) {
        (None, _, _) => true,
        (Some(w), Some(v), Some(u)) => u64::from(v) + u64::from(u) == u64::from(w),
        (Some(_), _, _) => false,
    }
}

/// The entry of the partition of a first id, where it is right: it has this length, and a weight where one is stated.
fn right_first<P: Partitions>(pieces: &P, w: Option<u32>, long: u32, id: Id) -> Option<Entry>
    ensures { result ≡ if is_wrong_first w long (partition_named id (P.known pieces.now)) then None
        else option_map (λ p. p.entry) (partition_named id (P.known pieces.now)) }
{
    let x = pieces.partition(id)?;
    let x = x.entry();
    if x.n != long || (w.is_some() && x.w.is_none()) {
        return None;
    }
    Some(x)
}

/// Whether a second id is wrong beside a first partition of the entry `first`.
fn is_wrong_second<P: Partitions>(pieces: &P, entry: Entry, first: Entry, id: Id) -> bool
    ensures { (x : PartitionValue) → x.entry ≡ first → result ≡ is_wrong_second entry x (partition_named id (P.known pieces.now)) }
{
    let Some(y) = pieces.partition(id) else {
        return true;
    };
    let y = y.entry();
    u64::from(first.n) + u64::from(y.n) != u64::from(entry.n) || !add_up(entry.w, first.w, y.w)
}

/// The first id of a pair that is wrong, where the first partitions are to have this length.
fn wrong_of_pair<P: Partitions>(pieces: &P, entry: Entry, long: u32, pair: (Id, Id)) -> Option<Id>
    ensures { result ≡ wrong_of_pair entry long (P.known pieces.now) pair }
{
    let (first, second) = pair;
    let Some(x) = right_first(pieces, entry.w, long, first) else {
        return Some(first);
    };
    if is_wrong_second(pieces, entry, x, second) {
        return Some(second);
    }
    None
}

/// The length of the first partition of the first pair, 0 where there is none.
fn first_length<P: Partitions>(pieces: &P, pairs: &[(Id, Id)]) -> u32
    ensures { result ≡ first_length (P.known pieces.now) pairs.now }
{
    let Some((first, _)) = pairs.first() else {
        return 0;
    };
    let Some(partition) = pieces.partition(*first) else {
        return 0;
    };
    partition.entry().n
}

/// The first id, pair by pair, that is wrong.
fn wrong_id<P: Partitions>(pieces: &P, entry: Entry, pairs: &[(Id, Id)]) -> Option<Id>
    ensures { result ≡ wrong_id entry (P.known pieces.now) pairs.now }
{
    let long = first_length(pieces, pairs);
    for pair in pairs {
        if let Some(id) = wrong_of_pair(pieces, entry, long, *pair) {
            return Some(id);
        }
    }
    None
}

/// The partition of an id, by itself.
fn factor<P: Partitions>(alloc: Global, pieces: &P, id: Id) -> Result<Partition, AllocError>
    requires there { IsSome (partition_named id (P.known pieces.now)) }
    ensures { IfOk result (λ partition. partition_named id (P.known pieces.now) ≡ Some partition) }
{
    pieces.are_sound();
    let Some(partition) = pieces.partition(id) else {
        unreachable!()
    };
    partition.copied(alloc)
}

/// The partitions of pairs, side by side, and their places.
#[derive(Drop)]
struct NamedFactors {
    parts: Vec<Partition>,
    places: Vec<(u32, u32)>,
}

/// Puts two partitions at the end of some, and their places at the end of others.
fn put_pair(
    parts: &mut Vec<Partition>,
    places: &mut Vec<(u32, u32)>,
    x: Partition,
    y: Partition,
) -> Result<(), AllocError>
    requires few { length parts.old.items ≤ 62 }
    ensures parts { OnOk result (parts.new.items ≡ (parts.old.items ++ x ∷ []) ++ y ∷ []) }
    ensures places { OnOk result (places.new.items ≡ places.old.items ++ (length parts.old.items, length parts.old.items + 1) ∷ []) }
{
    let place = parts.len() as u32;
    places.push((place, place + 1))?;
    parts.push(x)?;
    parts.push(y)?;
    Ok(())
}

/// The partitions of the pairs.
fn factors<P: Partitions>(
    alloc: Global,
    pieces: &P,
    pairs: &[(Id, Id)],
) -> Result<NamedFactors, AllocError>
    requires there { All (λ p. IsSome (partition_named p.0 (P.known pieces.now)) × IsSome (partition_named p.1 (P.known pieces.now))) pairs.now }
    requires few { length pairs.now ≤ suc MAX_N }
    ensures places { IfOk result (λ f. ArePairsOfPlaces (length f.parts.items) f.places.items) }
    ensures count { IfOk result (λ f. length f.places.items ≡ length pairs.now) }
    ensures factors { IfOk result (λ f. pairs_at f.parts.items f.places.items ≡ factors_named (P.known pieces.now) pairs.now) }
{
    let mut parts = Vec::new(alloc);
    let mut places = Vec::new(alloc);
    for pair in pairs {
        let (first, second) = *pair;
        let x = factor(alloc, pieces, first)?;
        let y = factor(alloc, pieces, second)?;
        put_pair(&mut parts, &mut places, x, y)?;
    }
    Ok(NamedFactors { parts, places })
}

/// How many words the product of the pairs has, at most as many as a code of the table.
fn size_of(named: &NamedFactors) -> u32
    requires places { ArePairsOfPlaces (length named.now.parts.items) named.now.places.items }
    requires few { length named.now.places.items ≤ suc MAX_N }
    requires small { product_size (pairs_at named.now.parts.items named.now.places.items) ≤ MAX_BOUND }
    ensures { result ≡ product_size (pairs_at named.now.parts.items named.now.places.items) }
{
    product_size(&named.parts, &named.places) as u32
}

/// How many words the product of the pairs has, or that its distance is below that of the entry.
fn sized(entry: Entry, named: &NamedFactors) -> Result<u32, SubmitFault>
    requires places { ArePairsOfPlaces (length named.now.parts.items) named.now.places.items }
    requires some { 1 ≤ length named.now.places.items }
    requires few { length named.now.places.items ≤ suc MAX_N }
    requires small { entry.d ≤ product_distance (pairs_at named.now.parts.items named.now.places.items)
        → product_size (pairs_at named.now.parts.items named.now.places.items) ≤ MAX_BOUND }
    ensures size { IfOk result (λ size. size ≡ product_size (pairs_at named.now.parts.items named.now.places.items)) }
    ensures accepted { OnOk result (short_of entry (product_distance (pairs_at named.now.parts.items named.now.places.items)) ≡ None) }
    ensures fault { IfErr result (λ fault. short_of entry (product_distance (pairs_at named.now.parts.items named.now.places.items)) ≡ Some fault) }
{
    let have = product_distance(&named.parts, &named.places);
    if have < entry.d {
        return Err(SubmitFault::Build(BuildFault::Short(have, entry.d)));
    }
    Ok(size_of(named))
}

/// The first id that no piece has, or else the first that is wrong.
fn id_fault<P: Partitions>(pieces: &P, entry: Entry, pairs: &[(Id, Id)]) -> Option<SubmitFault>
    ensures { result ≡ first_of (option_map SubmitFault.NoSuch (first_missing (P.known pieces.now) (ids_of pairs.now)))
        (option_map SubmitFault.WrongPart (wrong_id entry (P.known pieces.now) pairs.now)) }
{
    match first_missing(pieces, pairs) {
        Some(id) => Some(SubmitFault::NoSuch(id)),
        None => wrong_fault(wrong_id(pieces, entry, pairs)),
    }
}

/// The fault of a wrong id, where there is one.
fn wrong_fault(wrong: Option<Id>) -> Option<SubmitFault>
    ensures { result ≡ option_map SubmitFault.WrongPart wrong }
{
    match wrong {
        Some(id) => Some(SubmitFault::WrongPart(id)),
        None => None,
    }
}

/// The number of the words of the product over the pieces, or why it makes none: the first id that no piece has, the first that is
/// wrong, or the distance of the product.
pub fn check<P: Partitions>(
    alloc: Global,
    pieces: &P,
    entry: Entry,
    pairs: &[(Id, Id)],
) -> Result<u32, SubmitFault>
    requires entry { IsEntry entry }
    requires some { 1 ≤ length pairs.now }
    requires few { length pairs.now ≤ suc MAX_N }
    requires weighted { entry.w ≡ None → length pairs.now ≡ 1 }
    ensures size { IfOk result (λ size. (product_kind entry pairs.now).size (P.known pieces.now) ≡ Some size) }
    ensures accepted { OnOk result (kind_reason (product_kind entry pairs.now) (P.known pieces.now) ≡ None) }
    ensures fault { IfErr result (λ fault. fault ≢ SubmitFault.Memory
        → kind_reason (product_kind entry pairs.now) (P.known pieces.now) ≡ Some fault) }
{
    pieces.are_sound();
    if let Some(fault) = id_fault(pieces, entry, pairs) {
        return Err(fault);
    }
    let named = factors(alloc, pieces, pairs)?;
    sized(entry, &named)
}

/// The code of the entry that the product of the pairs is.
fn listed(alloc: Global, entry: Entry, named: &NamedFactors) -> Result<Code, AllocError>
    requires places { ArePairsOfPlaces (length named.now.parts.items) named.now.places.items }
    requires factors { AreFactors entry.n entry.w (pairs_at named.now.parts.items named.now.places.items) }
    requires length { entry.n ≤ MAX_N }
    requires some { 1 ≤ entry.d }
    requires distance { entry.d ≤ product_distance (pairs_at named.now.parts.items named.now.places.items) }
    ensures entry { IfOk result (λ c. (c.n ≡ entry.n) × (c.d ≡ entry.d) × (c.w ≡ entry.w)) }
    ensures words { IfOk result (λ c. IsPermutation (product (pairs_at named.now.parts.items named.now.places.items)) c.words) }
    ensures sound { IfOk result IsSoundCode }
{
    product_list(alloc, entry, &named.parts, &named.places)
}

/// The code of the entry that the product is.
pub fn code<P: Partitions>(
    alloc: Global,
    pieces: &P,
    entry: Entry,
    pairs: &[(Id, Id)],
) -> Result<Code, AllocError>
    requires entry { IsEntry entry }
    requires some { 1 ≤ length pairs.now }
    requires few { length pairs.now ≤ suc MAX_N }
    requires weighted { entry.w ≡ None → length pairs.now ≡ 1 }
    requires faultless { product_reason entry (P.known pieces.now) pairs.now ≡ None }
    ensures { IfOk result (λ code. code ≡ code_at entry (product (factors_named (P.known pieces.now) pairs.now))) }
{
    let named = factors(alloc, pieces, pairs)?;
    listed(alloc, entry, &named)
}
