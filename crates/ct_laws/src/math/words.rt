//! Facts about words that hold for all of them, and two words whose values are known.

ghost use Rattle.std.specs.Prelude.{◌≡◌, ◌↔◌, ℕ, ◌+◌, ◌^◌, ◌<◌, ◌≤◌, List, Some, codes};
ghost use Rattle.std.specs.Ordering.{nat_cmp};
ghost use Rattle.std.specs.Cmp.Lexicographic.{slice_cmp};
ghost use Rattle.ct_words.specs.Word.{distance, weight, IsSum};
ghost use Rattle.ct_words.specs.Text.{word_of, word_text};

/// The distance of two words is the weight of their sum without carry.
pub fn distance_is_weight_of_sum()
    ensures { (n x y z : ℕ) → IsSum n x y z → distance n x y ≡ weight n z }
{}

/// The distance is a metric on the words of one length.
pub fn distance_is_metric()
    ensures zero { (n x y : ℕ) → x < 2 ^ n → y < 2 ^ n → (distance n x y ≡ 0) ↔ (x ≡ y) }
    ensures symmetric { (n x y : ℕ) → distance n x y ≡ distance n y x }
    ensures triangle { (n x y z : ℕ) → distance n x z ≤ distance n x y + distance n y z }
    ensures length { (n x y : ℕ) → distance n x y ≤ n }
{}

/// A text is read as a word exactly where it is the text of that word.
pub fn texts_are_words()
    ensures { (n x : ℕ) (text : List ℕ) →
        (word_of n text ≡ Some x) ↔ ((x < 2 ^ n) × (text ≡ word_text n x)) }
{}

/// Words of one length are in the order of their texts.
pub fn words_are_ordered_as_texts()
    ensures { (n x y : ℕ) → x < 2 ^ n → y < 2 ^ n →
        nat_cmp x y ≡ slice_cmp nat_cmp (word_text n x) (word_text n y) }
{}

/// Two words of the extended Golay code of length 24 (Golay 1949), their texts and their distance.
pub fn golay_words()
    ensures first { word_text 24 0xae3001 ≡ codes "101011100011000000000001" }
    ensures second { word_text 24 0x571801 ≡ codes "010101110001100000000001" }
    ensures apart { distance 24 0xae3001 0x571801 ≡ 8 }
    ensures weights { (weight 24 0xae3001 ≡ 8) × (weight 24 0x571801 ≡ 8) }
{}
