//! Facts about partitions that hold for all of them, and partitions that are known.

ghost use Rattle.std.specs.Prelude.{◌≡◌, ◌↔◌, ℕ, ◌^◌, ◌<◌, ◌≤◌, List, [], ◌∷◌, length, All, Option, Some, None};
ghost use Rattle.ct_words.specs.Code.{IsCode};
ghost use Rattle.ct_words.specs.declared.entry.Entry.{Entry};
ghost use Rattle.ct_words.specs.declared.fault.TheConstants.{MAX_WORDS};
ghost use Rattle.ct_classes.specs.declared.fault.TheConstants.{MAX_CLASSES};
ghost use Rattle.ct_classes.specs.declared.fault.PartitionFault.TheVariants.{Size, Weight, Repeated, Close};
ghost use Rattle.ct_classes.specs.Partition.{words_of_classes, IsPartition};
ghost use Rattle.ct_laws.specs.Mathematics.KnownPartitions.{even_pairs, two_pairs, near_pairs, no_ones, two_ones, four_ones};
ghost use Rattle.ct_partitions.specs.Product.{Factors, AreFactors, AreSound, product, product_size, product_distance};
ghost use Rattle.ct_partitions.specs.Check.{partition_fault, need, distance_at};

/// Lists of words have no fault exactly where they are the classes of a partition of the entry, 1 to `MAX_CLASSES` of them,
/// none empty, of at most `MAX_WORDS` words.
pub fn faultless_lists_are_partitions()
    ensures { (e : Entry) (between : ℕ) (classes : List (List ℕ)) → 1 ≤ between → between ≤ e.d →
        All (λ x. x < 2 ^ e.n) (words_of_classes classes) →
        (partition_fault e between classes ≡ None) ↔
        ((1 ≤ length classes) × (length classes ≤ MAX_CLASSES) × All (λ c. 1 ≤ length c) classes ×
        (length (words_of_classes classes) ≤ MAX_WORDS) × IsPartition e.n e.d e.w between classes) }
{}

/// Two words of a partition, at two places of all its words, have the distance that they need: that of a class where they are
/// in one, else that between classes.
pub fn words_of_partitions()
    ensures { (n d : ℕ) (w : Option ℕ) (between : ℕ) (classes : List (List ℕ)) → IsPartition n d w between classes →
        (i j : ℕ) → i < j → j < length (words_of_classes classes) →
        need d between classes i j ≤ distance_at n classes i j }
{}

/// Words of length 4, in pairs of complements, checked with some distances between classes. A wrong count comes before a
/// wrong weight.
pub fn known_partitions()
    ensures accepted { partition_fault (record { n = 4; d = 4; w = None }) 2
        ((0b0000 ∷ 0b1111 ∷ []) ∷ (0b0011 ∷ 0b1100 ∷ []) ∷ (0b0101 ∷ 0b1010 ∷ []) ∷ (0b0110 ∷ 0b1001 ∷ []) ∷ []) ≡ None }
    ensures close { partition_fault (record { n = 4; d = 4; w = None }) 3
        ((0b0000 ∷ 0b1111 ∷ []) ∷ (0b0011 ∷ 0b1100 ∷ []) ∷ []) ≡ Some (Close 0 2 2 0 1 3) }
    ensures close_in_class { partition_fault (record { n = 4; d = 4; w = None }) 1
        ((0b0000 ∷ []) ∷ (0b0011 ∷ 0b0110 ∷ []) ∷ []) ≡ Some (Close 1 2 2 1 1 4) }
    ensures no_class { partition_fault (record { n = 4; d = 4; w = None }) 2 [] ≡ Some (Size 0) }
    ensures empty_class { partition_fault (record { n = 4; d = 4; w = None }) 2
        ((0b0000 ∷ []) ∷ [] ∷ []) ≡ Some (Size 0) }
    ensures repeated { partition_fault (record { n = 4; d = 4; w = None }) 2
        ((0b0000 ∷ 0b0001 ∷ []) ∷ (0b0001 ∷ []) ∷ []) ≡ Some (Repeated 1 2) }
    ensures weight_first { partition_fault (record { n = 4; d = 4; w = Some 2 }) 2
        ((0b0011 ∷ 0b0011 ∷ []) ∷ (0b0001 ∷ []) ∷ []) ≡ Some (Weight 2) }
    ensures count_before_weight { partition_fault (record { n = 4; d = 4; w = Some 2 }) 2
        ((0b0001 ∷ []) ∷ [] ∷ []) ≡ Some (Size 0) }
{}

/// A product of partitions is a code, for all partitions whose lengths and weights fit: two words of one pair and one
/// class differ in a word of distance d at least; of one pair and two classes in both, by the distance between classes; of
/// two pairs as much as the weights of their parts.
pub fn products_are_codes()
    ensures code { (n d : ℕ) (w : Option ℕ) (pairs : List Factors) → AreFactors n w pairs → All AreSound pairs →
        1 ≤ d → d ≤ product_distance pairs → IsCode n d w (product pairs) }
    ensures size { (pairs : List Factors) → length (product pairs) ≡ product_size pairs }
{}

/// Products of words of length 4: of all even words with themselves, 16 words at distance 4; with the first two classes of
/// them; with two classes at distance 1, at distance 2 + 1; of words of weights 0, 2 and 4, the 14 words of length 8 and
/// weight 4 at distance 4, in either order; and of equal pairs at different places, which are no code.
pub fn known_products()
    ensures even_distance { product_distance ((even_pairs, even_pairs) ∷ []) ≡ 4 }
    ensures even_size { product_size ((even_pairs, even_pairs) ∷ []) ≡ 16 }
    ensures unequal_size { product_size ((even_pairs, two_pairs) ∷ []) ≡ 8 }
    ensures unequal_size_turned { product_size ((two_pairs, even_pairs) ∷ []) ≡ 8 }
    ensures unequal_words { product ((two_pairs, even_pairs) ∷ []) ≡
        0b00000000 ∷ 0b00001111 ∷ 0b11110000 ∷ 0b11111111 ∷ 0b00110011 ∷ 0b00111100 ∷ 0b11000011 ∷ 0b11001100 ∷ [] }
    ensures weighted_distance { product_distance
        ((no_ones, four_ones) ∷ (two_ones, two_ones) ∷ (four_ones, no_ones) ∷ []) ≡ 4 }
    ensures weighted_distance_turned { product_distance
        ((four_ones, no_ones) ∷ (two_ones, two_ones) ∷ (no_ones, four_ones) ∷ []) ≡ 4 }
    ensures weighted_size { product_size
        ((no_ones, four_ones) ∷ (two_ones, two_ones) ∷ (four_ones, no_ones) ∷ []) ≡ 14 }
    ensures unequal_between { product_distance ((even_pairs, near_pairs) ∷ []) ≡ 3 }
    ensures equal_pairs { product_distance ((two_ones, two_ones) ∷ (two_ones, two_ones) ∷ []) ≡ 0 }
{}
