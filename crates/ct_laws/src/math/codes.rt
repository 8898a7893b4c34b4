//! Facts about entries, pairs and codes that hold for all of them, and lists of words whose fault is known.

ghost use Rattle.std.specs.Prelude.{◌≡◌, ◌↔◌, ◌≢◌, ℕ, ◌%◌, ◌^◌, ◌<◌, ◌≤◌, Bool, List, [], ◌∷◌, length, All, AllPairs, Contains, IfSome, IsTrue};
ghost use Rattle.ct_words.specs.declared.limits.TheConstants.{MAX_N};
ghost use Rattle.ct_words.specs.declared.entry.Entry.{Entry};
ghost use Rattle.ct_words.specs.declared.fault.TheConstants.{MAX_WORDS};
ghost use Rattle.ct_words.specs.declared.fault.CodeFault.TheVariants.{Size, Weight, Repeated, Close};
ghost use Rattle.ct_words.specs.Entry.{IsEntry, same_entry};
ghost use Rattle.ct_words.specs.TableEntries.{table_entries};
ghost use Rattle.ct_words.specs.Pairs.{least_pair, IsLeastPair, NoPair};
ghost use Rattle.ct_words.specs.Code.{IsCodeOf, IsTrueLower, IsTrueUpper};
ghost use Rattle.ct_words.specs.Check.{code_fault};

/// The entries of the table: lengths from 1 and distances from 3, both up to `MAX_N`, and weights up to the length,
/// for even distances alone.
pub fn entries_of_the_table()
    ensures entries { (e : Entry) → IsEntry e ↔ ((1 ≤ e.n) × (e.n ≤ MAX_N) × (3 ≤ e.d) × (e.d ≤ MAX_N) ×
        IfSome e.w (λ w. (e.d % 2 ≡ 0) × (4 ≤ e.d) × (w ≤ e.n))) }
    ensures same { (e f : Entry) → IsTrue (same_entry e f) ↔ (e ≡ f) }
{}

/// The entries that are listed are those of the table, each once: 7,770 of them.
pub fn table_entries_are_all()
    ensures each { (e : Entry) → IsEntry e ↔ Contains table_entries e }
    ensures once { AllPairs (λ e f. e ≢ f) table_entries }
    ensures count { length table_entries ≡ 7770 }
{}

/// The least pair is a pair that passes and that no passing pair comes before; there is none where no pair passes.
pub fn least_pair_is_least()
    ensures found { (test : ℕ → ℕ → Bool) (xs : List ℕ) (i j : ℕ) →
        (least_pair test xs ≡ Some (i, j)) ↔ IsLeastPair test xs i j }
    ensures none { (test : ℕ → ℕ → Bool) (xs : List ℕ) →
        (least_pair test xs ≡ None) ↔ NoPair test xs }
{}

/// A list of words has no fault exactly where it is a code of the entry, of 1 to `MAX_WORDS` words.
pub fn faultless_lists_are_codes()
    ensures { (e : Entry) (words : List ℕ) → All (λ x. x < 2 ^ e.n) words →
        (code_fault e words ≡ None) ↔
        ((1 ≤ length words) × (length words ≤ MAX_WORDS) × IsCodeOf e words) }
{}

/// Each entry of the table has a code of one word, and no code has more words than there are words of its length.
pub fn bounds_of_every_entry()
    ensures lower { (e : Entry) → IsEntry e → IsTrueLower e 1 }
    ensures upper { (e : Entry) → IsTrueUpper e (2 ^ e.n) }
{}

/// Lists of words of length 10, checked for distance 6, and of length 8, checked for distance 4 and weight 4.
pub fn known_faults()
    ensures accepted { code_fault (record { n = 10; d = 6; w = None })
        (0b1111111111 ∷ 0b1111000000 ∷ 0b1000111000 ∷
        0b0100100110 ∷ 0b0010010101 ∷ 0b0001001011 ∷ []) ≡ None }
    ensures close { code_fault (record { n = 10; d = 6; w = None })
        (0b0000000000 ∷ 0b1111100000 ∷ []) ≡ Some (Close 0 1 5) }
    ensures repeated { code_fault (record { n = 10; d = 6; w = None })
        (0b0000000000 ∷ 0b0000000000 ∷ []) ≡ Some (Repeated 0 1) }
    ensures empty { code_fault (record { n = 10; d = 6; w = None }) [] ≡ Some (Size 0) }
    // A close pair stands before the repeated words.
    ensures repeated_before_close { code_fault (record { n = 10; d = 6; w = None })
        (0b0000000000 ∷ 0b0000000001 ∷ 0b0000000001 ∷ []) ≡ Some (Repeated 1 2) }
    // Repeated words and close ones stand before the word of a wrong weight.
    ensures weight_first { code_fault (record { n = 8; d = 4; w = Some 4 })
        (0b11110000 ∷ 0b11110000 ∷ 0b11101000 ∷ 0b11100000 ∷ []) ≡ Some (Weight 3) }
{}
