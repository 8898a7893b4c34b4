//! What constructions make of a list of words, for every list that is a code.

ghost use Rattle.std.specs.Prelude.{◌≡◌, ℕ, ◌+◌, ◌-◌, ◌*◌, ◌%◌, ◌^◌, ◌<◌, ◌≤◌, List, [], ◌∷◌, length, take, count_by, min, slice_index, All, Option, Some, None};
ghost use Rattle.std.specs.Option.{option_map};
ghost use Rattle.ct_words.specs.Word.{digit, weight, IsSum};
ghost use Rattle.ct_words.specs.Characters.{words_of_length};
ghost use Rattle.ct_words.specs.PairProducts.{all_places};
ghost use Rattle.ct_words.specs.Code.{IsCode};
ghost use Rattle.ct_words.specs.Constructions.Joined.{followed_by};
ghost use Rattle.ct_words.specs.Constructions.Even.{even_from, even_words};
ghost use Rattle.ct_words.specs.Constructions.Append.{lengthened, one_appended, with_parity};
ghost use Rattle.ct_words.specs.Constructions.Translation.{translated, all_ones, complemented, selected};
ghost use Rattle.ct_words.specs.Constructions.Places.{ArePlaces, other_places, read_at};
ghost use Rattle.ct_words.specs.Constructions.Punctured.{punctured};
ghost use Rattle.ct_words.specs.Constructions.Shortened.{has_digits, shortened, shortened_weight};
ghost use Rattle.ct_words.specs.Constructions.Uuv.{uuv_words};
ghost use Rattle.ct_words.specs.Constructions.Juxtaposed.{juxtaposed, added_weights};

/// A code's words with one more digit at their end. With the parity of the weight an odd distance grows by one, since two
/// words at an odd distance have weights of different parity (MacWilliams and Sloane, chapter 1, section 9).
pub fn longer_words_are_codes()
    ensures lengthen { (n d : ℕ) (w : Option ℕ) (words : List ℕ) →
        IsCode n d w words → IsCode (n + 1) d w (lengthened words) }
    ensures append_one { (n d : ℕ) (w : Option ℕ) (words : List ℕ) →
        IsCode n d w words → IsCode (n + 1) d (option_map (λ k. k + 1) w) (one_appended words) }
    ensures parity { (n d : ℕ) (w : Option ℕ) (words : List ℕ) →
        IsCode n d w words → IsCode (n + 1) (even_from d) (option_map even_from w) (with_parity n words) }
{}

/// A code's words with one word added to each, and those of one weight among them: two words of one weight are at an even
/// distance.
pub fn translated_words_are_codes()
    ensures translate { (n d by : ℕ) (w : Option ℕ) (words : List ℕ) →
        by < 2 ^ n → IsCode n d w words → IsCode n d None (translated by words) }
    ensures complement { (n d : ℕ) (w : Option ℕ) (words : List ℕ) →
        IsCode n d w words → IsCode n d (option_map (λ k. n - k) w) (complemented n words) }
    ensures select { (n d by w : ℕ) (v : Option ℕ) (words : List ℕ) →
        by < 2 ^ n → IsCode n d v words → IsCode n (even_from d) (Some w) (selected n by w words) }
{}

/// The first words of a code, and a code that is read at a smaller distance or without its weight.
pub fn parts_of_codes_are_codes()
    ensures trim { (n d size : ℕ) (w : Option ℕ) (words : List ℕ) →
        IsCode n d w words → IsCode n d w (take size words) }
    ensures nearer { (n d e : ℕ) (w : Option ℕ) (words : List ℕ) →
        e ≤ d → IsCode n d w words → IsCode n e w words }
    ensures unweighted { (n d : ℕ) (w : Option ℕ) (words : List ℕ) →
        IsCode n d w words → IsCode n d None words }
{}

/// The words of even weight are a code of distance 2, and half of all words: all words that are one digit shorter, each
/// followed by its parity.
pub fn even_words_are_a_code()
    ensures code { (n : ℕ) → IsCode n 2 None (even_words n) }
    ensures size { (n : ℕ) → 1 ≤ n → length (even_words n) ≡ 2 ^ (n - 1) }
    ensures parities { (n : ℕ) → even_words (n + 1) ≡ with_parity n (words_of_length n) }
{}

/// How many words a construction gives.
pub fn sizes_of_constructions()
    ensures lengthen { (words : List ℕ) → length (lengthened words) ≡ length words }
    ensures append_one { (words : List ℕ) → length (one_appended words) ≡ length words }
    ensures parity { (n : ℕ) (words : List ℕ) → length (with_parity n words) ≡ length words }
    ensures translate { (by : ℕ) (words : List ℕ) → length (translated by words) ≡ length words }
    ensures complement { (n : ℕ) (words : List ℕ) → length (complemented n words) ≡ length words }
    ensures trim { (size : ℕ) (words : List ℕ) →
        size ≤ length words → length (take size words) ≡ size }
{}

/// The digits of the words that constructions give.
pub fn digits_of_constructions()
    ensures kept { (n x a p : ℕ) → a < 2 → p < n →
        digit (n + 1) (followed_by 1 x a) p ≡ digit n x p }
    ensures last { (n x a : ℕ) → a < 2 → digit (n + 1) (followed_by 1 x a) n ≡ a }
    ensures parity { (n x : ℕ) → weight (n + 1) (followed_by 1 x (weight n x % 2)) % 2 ≡ 0 }
    ensures ones { (n p : ℕ) → p < n → digit n (all_ones n) p ≡ 1 }
{}

/// What it means to read a word at places and to put words together: the digits are those at the places, in order, and
/// those of the first word and then of the second. A word read at all its places is itself, and the places of a word are
/// some and the others.
pub fn digits_at_places()
    ensures read { (n x : ℕ) (ps : List ℕ) (k : ℕ) → k < length ps →
        digit (length ps) (read_at n x ps) k ≡ digit n x (slice_index ps k) }
    ensures word { (n x : ℕ) (ps : List ℕ) → read_at n x ps < 2 ^ length ps }
    ensures all { (n x : ℕ) → x < 2 ^ n → read_at n x (all_places n) ≡ x }
    ensures others { (n : ℕ) (places : List ℕ) → ArePlaces n places →
        length (other_places n places) + length places ≡ n }
    ensures front { (n m x y p : ℕ) → y < 2 ^ m → p < n → digit (n + m) (followed_by m x y) p ≡ digit n x p }
    ensures back { (n m x y q : ℕ) → q < m → digit (n + m) (followed_by m x y) (n + q) ≡ digit m y q }
{}

/// A punctured code is a code, whatever list of words it is, where the places are fewer than its distance; it has as many
/// words.
pub fn punctured_codes()
    ensures code { (n d : ℕ) (w : Option ℕ) (words places : List ℕ) →
        ArePlaces n places → length places < d → IsCode n d w words →
        IsCode (n - length places) (d - length places) None (punctured n places words) }
    ensures size { (n : ℕ) (places words : List ℕ) →
        length (punctured n places words) ≡ length words }
{}

/// A shortened code is a code, whatever list of words it is. It has as many words as have the digits at the places; at one
/// place, the words with a 0 and those with a 1 are all.
pub fn shortened_codes()
    ensures code { (n d : ℕ) (w : Option ℕ) (words places digits : List ℕ) →
        ArePlaces n places → length digits ≡ length places → IsCode n d w words →
        IsCode (n - length places) d (shortened_weight digits w) (shortened n places digits words) }
    ensures size { (n : ℕ) (places digits words : List ℕ) →
        length (shortened n places digits words) ≡ count_by (has_digits n places digits) words }
    ensures halves { (n p : ℕ) (words : List ℕ) →
        length (shortened n (p ∷ []) (0 ∷ []) words) + length (shortened n (p ∷ []) (1 ∷ []) words) ≡ length words }
{}

/// The words u followed by u + v, for u and v of two codes, are a code, whatever lists of words these are; there is one
/// for each pair of words.
pub fn uuv_codes()
    ensures code { (n d : ℕ) (v : Option ℕ) (us : List ℕ) (e : ℕ) (w : Option ℕ) (vs : List ℕ) →
        IsCode n d v us → IsCode n e w vs →
        IsCode (2 * n) (min (2 * d) e) None (uuv_words n us vs) }
    ensures size { (n : ℕ) (us vs : List ℕ) →
        length (uuv_words n us vs) ≡ length us * length vs }
{}

/// Two codes put together word by word are a code, whatever lists of words they are; it has as many words as the smaller.
pub fn juxtaposed_codes()
    ensures code { (n d : ℕ) (v : Option ℕ) (xs : List ℕ) (m e : ℕ) (w : Option ℕ) (ys : List ℕ) →
        IsCode n d v xs → IsCode m e w ys →
        IsCode (n + m) (d + e) (added_weights v w) (juxtaposed m xs ys) }
    ensures size { (m : ℕ) (xs ys : List ℕ) →
        length (juxtaposed m xs ys) ≡ min (length xs) (length ys) }
{}

/// The words that are added without carry in `translated` and `uuv_words` are sums digit by digit: of each word and the one
/// that is added, and of each word u and each word v, whose sum comes after u, in the order of u and then v.
pub fn added_words_are_sums()
    ensures translate { (n by : ℕ) (words : List ℕ) (k : ℕ) →
        by < 2 ^ n → All (λ x. x < 2 ^ n) words → k < length words →
        IsSum n (slice_index words k) by (slice_index (translated by words) k) }
    ensures uuv { (n : ℕ) (us vs : List ℕ) (i j : ℕ) →
        All (λ u. u < 2 ^ n) us → All (λ v. v < 2 ^ n) vs → i < length us → j < length vs →
        (z : ℕ) × IsSum n (slice_index us i) (slice_index vs j) z
        × (slice_index (uuv_words n us vs) (i * length vs + j) ≡ followed_by n (slice_index us i) z) }
{}
