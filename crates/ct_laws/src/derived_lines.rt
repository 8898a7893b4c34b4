//! What explanations are, and that there are some.

ghost use Rattle.std.specs.Prelude.{◌≡◌, ◌∷◌, ◌++◌, [], ℕ, All, List, None, codes, length, Some};
ghost use Rattle.ct_text.specs.declared.document_lines.TheConstants.{LINE_FEED};
ghost use Rattle.ct_words.specs.Claim.{IsTrueClaim};
ghost use Rattle.ct_words.specs.Entry.{constant_weight, unrestricted};
ghost use Rattle.ct_words.specs.declared.claim.Side.TheVariants.{Upper};
ghost use Rattle.ct_words.specs.declared.claim.Claim.{Claim};
ghost use Rattle.ct_rule_parts.specs.declared.support.Support.{Support};
ghost use Rattle.ct_rule_parts.specs.Slot.{Slot, claim_at, lower_at};
ghost use Rattle.ct_rule_parts.specs.Support.{AllStand};
ghost use Rattle.ct_rule_parts.specs.declared.support.Support.TheVariants.{Size};
ghost use Rattle.ct_rules.specs.declared.rule.Rule.{Rule};
ghost use Rattle.ct_derive.specs.declared.check.LineFault.TheVariants.{NoRule, NoPremise, OtherValue};
ghost use Rattle.ct_rules.specs.declared.rule.Rule.TheVariants.{L11, L5, L6, L10};
ghost use Rattle.ct_rules.specs.Rule.{rule_side};
ghost use Rattle.ct_rules.specs.Derivation.{LineValue, Follows, IsDerived};
ghost use Rattle.ct_derive.specs.Check.{line_fault, numbers_at};
ghost use Rattle.ct_derive.specs.Derivation.{DerivationValue, AreOrdered};
ghost use Rattle.ct_laws.specs.RuleExamples.{one_at_three, one_at_four, four_at_six, four_at_five, four_by_support};
ghost use Rattle.ct_derive.specs.Explanation.{IsExplanation};
ghost use Rattle.ct_derive.specs.Pieces.{AreEarlier, AreNeeded, IsNeeded};
ghost use Rattle.ct_derive.specs.Text.{rule_words, claim_words, line_text, lines_text, evidence_text};

/// Each bound that is derived has an explanation.
pub fn explanations_exist()
    ensures { (supports : List Support) (s : Slot) (v : ℕ) → IsDerived supports (claim_at s v) →
        (lines : List LineValue) × IsExplanation supports s v lines }
{}

/// Each bound that is derived from the supports of pieces can be shown: it has an explanation, and there is a list of the
/// pieces that the lines of this need.
pub fn bounds_can_be_shown()
    ensures { (supports : List Support) (parts : List (List ℕ)) (s : Slot) (v : ℕ) → length parts ≡ length supports →
        AreEarlier parts → IsDerived supports (claim_at s v) →
        (d : DerivationValue) × IsExplanation supports s v d.lines × AreNeeded parts d.lines d.pieces }
{}

/// A line whose rule is of its side follows from those before it exactly where it has no fault, with the places that its
/// numbers say.
pub fn lines_without_fault_follow()
    ensures follows { (supports : List Support) (before : List LineValue) (c : Claim) (r : Rule) (numbers : List ℕ) →
        c.side ≡ rule_side r → line_fault supports before c r numbers ≡ None →
        (places : List ℕ) × (numbers ≡ numbers_at places) × Follows supports before (record { claim = c; rule = r; from = places }) }
    ensures no_fault { (supports : List Support) (before : List LineValue) (line : LineValue) → Follows supports before line →
        line_fault supports before line.claim line.rule (numbers_at line.from) ≡ None }
{}

/// The faults of lines that say A(5,3) ≥ 4, or 5, after lines that say A(3,4) ≥ 1 and A(6,4) ≥ 4; and of a line by a code that is
/// not there, or of another entry.
pub fn known_faults()
    ensures none { line_fault [] (one_at_three ∷ four_at_six ∷ []) (claim_at (lower_at 5 3) 4) L6 (2 ∷ []) ≡ None }
    ensures value { line_fault [] (one_at_three ∷ four_at_six ∷ []) (claim_at (lower_at 5 3) 5) L6 (2 ∷ []) ≡ Some (OtherValue 5 4) }
    ensures own_number { line_fault [] (one_at_three ∷ four_at_six ∷ []) (claim_at (lower_at 5 3) 4) L6 (3 ∷ []) ≡ Some NoPremise }
    ensures number_zero { line_fault [] (one_at_three ∷ four_at_six ∷ []) (claim_at (lower_at 5 3) 4) L6 (0 ∷ []) ≡ Some NoPremise }
    ensures other_entry { line_fault [] (one_at_three ∷ four_at_six ∷ []) (claim_at (lower_at 5 3) 4) L6 (1 ∷ []) ≡ Some NoPremise }
    ensures too_many { line_fault [] (one_at_three ∷ four_at_six ∷ []) (claim_at (lower_at 5 3) 4) L6 (2 ∷ 2 ∷ []) ≡ Some NoPremise }
    ensures too_few { line_fault [] (one_at_three ∷ four_at_six ∷ []) (claim_at (lower_at 5 3) 4) L6 [] ≡ Some NoPremise }
    ensures rule { line_fault [] (one_at_three ∷ four_at_six ∷ []) (claim_at (lower_at 5 3) 4) L5 (2 ∷ []) ≡ Some NoRule }
    ensures rule_first { line_fault [] [] (claim_at (lower_at 5 3) 9) L5 (7 ∷ []) ≡ Some NoRule }
    ensures no_code { line_fault [] [] (claim_at (lower_at 6 4) 4) (L10 0) [] ≡ Some NoRule }
    ensures other_code { line_fault (Size (unrestricted 5 3) 4 ∷ []) [] (claim_at (lower_at 6 4) 4) (L10 0) [] ≡ Some NoRule }
    ensures code { line_fault (Size (unrestricted 6 4) 4 ∷ []) [] (claim_at (lower_at 6 4) 4) (L10 0) [] ≡ None }
{}

/// Where the supports stand, each claim of an explanation is true, and so is the bound that it explains. Its lines name lines
/// before them alone, and the last is named by none.
pub fn explanations_are_true()
    ensures bound { (supports : List Support) (s : Slot) (v : ℕ) (lines : List LineValue) → AllStand supports →
        IsExplanation supports s v lines → IsTrueClaim (claim_at s v) }
    ensures lines { (supports : List Support) (s : Slot) (v : ℕ) (lines : List LineValue) → AllStand supports →
        IsExplanation supports s v lines → All (λ l. IsTrueClaim l.claim) lines }
    ensures ordered { (supports : List Support) (s : Slot) (v : ℕ) (lines : List LineValue) →
        IsExplanation supports s v lines → AreOrdered lines }
    ensures derived { (supports : List Support) (s : Slot) (v : ℕ) (lines : List LineValue) →
        IsExplanation supports s v lines → IsDerived supports (claim_at s v) }
{}

/// An explanation of A(5,3) ≥ 4 with no evidence; no explanation of it with a line that none needs, or with one claim twice;
/// and which pieces lines need.
pub fn known_explanations()
    ensures three_lines { IsExplanation [] (lower_at 5 3) 4 (one_at_three ∷ four_at_six ∷ four_at_five ∷ []) }
    ensures other_value { ¬ IsExplanation [] (lower_at 5 3) 3 (one_at_three ∷ four_at_six ∷ four_at_five ∷ []) }
    ensures not_needed { ¬ IsExplanation [] (lower_at 3 4) 1 (one_at_four ∷ one_at_three ∷ []) }
    ensures twice { ¬ IsExplanation [] (lower_at 3 4) 1 (one_at_three ∷ one_at_three ∷ []) }
    ensures part { IsNeeded ([] ∷ [] ∷ (0 ∷ []) ∷ []) (four_by_support 2 ∷ []) 0 }
    ensures no_part { ¬ IsNeeded ([] ∷ [] ∷ (0 ∷ []) ∷ []) (four_by_support 2 ∷ []) 1 }
{}

/// The text of derivations that are known.
pub fn known_line_texts()
    ensures lines { lines_text [] 1 (one_at_three ∷ four_at_six ∷ four_at_five ∷ [])
        ≡ codes "line 1 lower 3 4 value 1 by L1" ++ LINE_FEED ∷ [] ++ codes "line 2 lower 6 4 value 4 by L8 from 1" ++ LINE_FEED ∷ []
        ++ codes "line 3 lower 5 3 value 4 by L6 from 2" ++ LINE_FEED ∷ [] }
    ensures support { line_text (codes "a" ∷ codes "hexa" ∷ []) 7 (four_by_support 1) ≡ codes "line 7 lower 6 4 value 4 by L10 hexa" ++ LINE_FEED ∷ [] }
    ensures numbers { rule_words [] (L11 3 4) ≡ codes "L11 3 4" }
    ensures weight { claim_words (claim_at (Upper, constant_weight 13 6 3) 4) ≡ codes "upper 13 6 3 value 4" }
    ensures block { evidence_text (codes "a") (codes "x" ++ LINE_FEED ∷ [] ++ codes "y") ≡ codes "evidence a lines 2" ++ LINE_FEED ∷ [] ++ codes "x" ++ LINE_FEED ∷ [] ++ codes "y" ++ LINE_FEED ∷ [] }
{}
