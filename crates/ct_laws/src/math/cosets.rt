//! Facts about cosets that hold for all of them, and coset codes whose fault is known.

ghost use Rattle.std.specs.Prelude.{◌≡◌, ◌↔◌, ℕ, ◌+◌, ◌*◌, ◌^◌, ◌<◌, ◌≤◌, bit_xor, List, [], ◌∷◌, length, slice_index, All, Contains, Some, None};
ghost use Rattle.ct_words.specs.declared.limits.TheConstants.{MAX_N};
ghost use Rattle.ct_words.specs.Word.{IsSum};
ghost use Rattle.ct_words.specs.declared.entry.Entry.{Entry};
ghost use Rattle.ct_words.specs.declared.fault.TheConstants.{MAX_REPRESENTATIVES, MAX_COSET_WORK};
ghost use Rattle.ct_words.specs.declared.fault.CodeFault.TheVariants.{Size, Close};
ghost use Rattle.ct_words.specs.Entry.{IsEntry};
ghost use Rattle.ct_words.specs.Code.{IsCodeOf};
ghost use Rattle.ct_words.specs.Coset.{span_word, choice_word, coset_list, coset_work, coset_fault};

/// The words of the choices are sums without carry. No basis word is chosen by 0, the one at place j by 2^j, and the
/// sum of two numbers chooses the sum of what each chooses; a choice adds what it chooses to its representative.
pub fn choices_are_sums()
    ensures sum { (n x y : ℕ) → x < 2 ^ n → y < 2 ^ n → IsSum n x y (bit_xor x y) }
    ensures none { (basis : List ℕ) → span_word basis 0 ≡ 0 }
    ensures one { (basis : List ℕ) (j : ℕ) → j < length basis → span_word basis (2 ^ j) ≡ slice_index basis j }
    ensures both { (basis : List ℕ) (s t : ℕ) →
        span_word basis (bit_xor s t) ≡ bit_xor (span_word basis s) (span_word basis t) }
    ensures choice { (basis representatives : List ℕ) (a s : ℕ) → s < 2 ^ length basis →
        choice_word basis representatives (a * 2 ^ length basis + s) ≡
        bit_xor (slice_index representatives a) (span_word basis s) }
{}

/// A coset list of r representatives and k basis words has r·2^k words, the word of each choice at the place of its number.
pub fn coset_lists_hold_all_choices()
    ensures size { (basis representatives : List ℕ) →
        length (coset_list basis representatives) ≡ length representatives * 2 ^ length basis }
    ensures places { (basis representatives : List ℕ) (t : ℕ) → t < length representatives * 2 ^ length basis →
        slice_index (coset_list basis representatives) t ≡ choice_word basis representatives t }
{}

/// The coset code of the representative 0 alone is linear: it has the word 0, and with two words their sum.
pub fn one_coset_is_linear()
    ensures zero { (basis : List ℕ) → Contains (coset_list basis (0 ∷ [])) 0 }
    ensures sum { (basis : List ℕ) (x y : ℕ) → Contains (coset_list basis (0 ∷ [])) x → Contains (coset_list basis (0 ∷ [])) y
        → Contains (coset_list basis (0 ∷ [])) (bit_xor x y) }
{}

/// A basis and representatives of words of length n have no fault for an entry of the table without weight exactly
/// where their numbers and the work are within the limits and the words of all choices are a code of the entry.
pub fn faultless_cosets_are_codes()
    ensures { (e : Entry) (basis representatives : List ℕ) → IsEntry e → e.w ≡ None →
        All (λ x. x < 2 ^ e.n) basis → All (λ x. x < 2 ^ e.n) representatives →
        (coset_fault e basis representatives ≡ None) ↔
        ((length basis ≤ MAX_N) × (1 ≤ length representatives) × (length representatives ≤ MAX_REPRESENTATIVES) ×
        (coset_work basis representatives ≤ MAX_COSET_WORK) × IsCodeOf e (coset_list basis representatives)) }
{}

/// Coset lists written out, and cosets of words of length 6 and 8, checked for some distances.
pub fn known_cosets()
    ensures no_basis { coset_list [] (0b000000 ∷ 0b111111 ∷ []) ≡ 0b000000 ∷ 0b111111 ∷ [] }
    ensures listed { coset_list (0b0011 ∷ 0b0101 ∷ []) (0b0000 ∷ 0b1000 ∷ []) ≡
        0b0000 ∷ 0b0011 ∷ 0b0101 ∷ 0b0110 ∷ 0b1000 ∷ 0b1011 ∷ 0b1101 ∷ 0b1110 ∷ [] }
    ensures accepted { coset_fault (record { n = 6; d = 6; w = None }) [] (0b000000 ∷ 0b111111 ∷ []) ≡ None }
    ensures close { coset_fault (record { n = 6; d = 7; w = None }) [] (0b000000 ∷ 0b111111 ∷ []) ≡ Some (Close 0 1 6) }
    ensures empty { coset_fault (record { n = 6; d = 6; w = None }) (0b111111 ∷ []) [] ≡ Some (Size 0) }
    // Both basis words have weight 4, their sum weight 2.
    ensures sum_is_close { coset_fault (record { n = 8; d = 4; w = None })
        (0b11110000 ∷ 0b11101000 ∷ []) (0b00000000 ∷ []) ≡ Some (Close 0 3 2) }
    // The third basis word is the sum of the first two.
    ensures dependent { coset_fault (record { n = 8; d = 4; w = None })
        (0b11110000 ∷ 0b00111100 ∷ 0b11001100 ∷ []) (0b00000000 ∷ []) ≡ Some (Close 0 7 0) }
    // The second representative is a word of the first one's coset.
    ensures same_coset { coset_fault (record { n = 8; d = 4; w = None })
        (0b11110000 ∷ 0b00111100 ∷ []) (0b00000001 ∷ 0b11001101 ∷ []) ≡ Some (Close 0 7 0) }
{}
