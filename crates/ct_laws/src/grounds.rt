//! The bounds with which a table begins, where they are known; the function does nothing.

ghost use Rattle.std.specs.Prelude.{◌≤◌, ℕ};
ghost use Rattle.ct_words.specs.Entry.{unrestricted, constant_weight};
ghost use Rattle.ct_words.specs.declared.claim.Side.TheVariants.{Lower, Upper};
ghost use Rattle.ct_kept.specs.Kept.{IsGroundBound};

/// What the rules that rest on nothing give, by hand: two opposite words; two words of weight 3 side by side in six places; the four
/// words of length 6 and weight 3 in the sum class 0; Plotkin's bound of A(6,4), 2⌊4/2⌋; Hamming's of A(7,3), 2^7/8; two words of weight 1
/// differ at two places; three words of weight 3 do not stand side by side in six. What rests on other bounds is not among it, as 2^3·A(4,4)
/// at A(8,4).
pub fn known_grounds()
    ensures two_words { (v : ℕ) → IsGroundBound (Lower, unrestricted 6 4) v → 2 ≤ v }
    ensures disjoint_words { (v : ℕ) → IsGroundBound (Lower, constant_weight 6 6 3) v → 2 ≤ v }
    ensures class_of_four { (v : ℕ) → IsGroundBound (Lower, constant_weight 6 4 3) v → 4 ≤ v }
    ensures average_distance { (v : ℕ) → IsGroundBound (Upper, unrestricted 6 4) v → v ≤ 4 }
    ensures balls { (v : ℕ) → IsGroundBound (Upper, unrestricted 7 3) v → v ≤ 16 }
    ensures far_words { (v : ℕ) → IsGroundBound (Upper, constant_weight 6 4 1) v → v ≤ 1 }
    ensures disjoint_above { (v : ℕ) → IsGroundBound (Upper, constant_weight 6 6 3) v → v ≤ 2 }
    ensures no_sums { IsGroundBound (Lower, unrestricted 8 4) 2 }
{}
