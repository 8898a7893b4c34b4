//! What a number is, in one sentence.

ghost use Rattle.std.specs.Prelude.{◌≡◌, ◌↔◌, ◌^◌, ◌<◌, ℕ, List, Some};
ghost use Rattle.std.specs.Fmt.{decimal};
ghost use Rattle.ct_text.specs.Number.{number_of};

/// A text is read as a number exactly where it is what printing that number gives, and the number is below 2^64.
pub fn numbers_are_read_as_printed()
    ensures { (text : List ℕ) (n : ℕ) → (number_of text ≡ Some n) ↔ ((n < 2 ^ 64) × (text ≡ decimal n)) }
{}
