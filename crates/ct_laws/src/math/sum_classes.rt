//! Facts about sum classes that hold for all of them, and classes that are known.

ghost use Rattle.std.specs.Prelude.{◌≡◌, ◌↔◌, ℕ, ◌%◌, ◌^◌, ◌<◌, [], ◌∷◌, Some, Contains};
ghost use Rattle.ct_words.specs.Word.{weight};
ghost use Rattle.ct_words.specs.Code.{IsCode};
ghost use Rattle.ct_sum_classes.specs.SumClass.{place_sum, sum_class, largest_class};

/// A sum class is a code of distance 4: two words of one weight at distance 2 have a one each where the other has a zero,
/// at different places, and so their sums differ by less than the length (Graham and Sloane 1980).
pub fn sum_classes_are_codes()
    ensures { (n w r : ℕ) → IsCode n 4 (Some w) (sum_class n w r) }
{}

/// The words of a sum class: those of the length and the weight, the places of whose ones add up to r modulo the length.
pub fn words_of_sum_classes()
    ensures { (n w r x : ℕ) → Contains (sum_class n w r) x ↔
        ((x < 2 ^ n) × (weight n x ≡ w) × (place_sum n x % n ≡ r)) }
{}

/// Classes of words of length 6, written out.
pub fn known_sum_classes()
    ensures sum { place_sum 6 0b011100 ≡ 6 }
    ensures sum_of_last { place_sum 6 0b000001 ≡ 5 }
    ensures class_0 { sum_class 6 3 0 ≡ 0b000111 ∷ 0b011100 ∷ 0b101010 ∷ 0b110001 ∷ [] }
    ensures class_1 { sum_class 6 3 1 ≡ 0b011010 ∷ 0b100110 ∷ 0b101001 ∷ [] }
    ensures no_ones { sum_class 6 0 0 ≡ 0b000000 ∷ [] }
    ensures no_ones_no_other { sum_class 6 0 1 ≡ [] }
{}

/// The largest classes of words of length 6: of weight 3 those of the residues 0 and 3 have four words, of weight 2 those
/// of 1, 3 and 5 have three; the least residue is taken.
pub fn known_largest_classes()
    ensures of_two { largest_class 6 3 ≡ 0 }
    ensures of_three { largest_class 6 2 ≡ 1 }
    ensures of_one { largest_class 6 0 ≡ 0 }
{}
