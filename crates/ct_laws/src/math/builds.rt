//! What building by a step gives, whatever the step, the stated entry and the codes, and builds whose answer is known.

ghost use Rattle.std.specs.Prelude.{◌≡◌, ◌≢◌, ◌↔◌, ℕ, ◌≤◌, List, [], ◌∷◌, length, Option, Some, None, IfSome, option_map};
ghost use Rattle.ct_words.specs.declared.entry.Entry.{Entry};
ghost use Rattle.ct_words.specs.Entry.{unrestricted, constant_weight};
ghost use Rattle.ct_words.specs.Code.{CodeValue, IsCode, IsCodeOf};
ghost use Rattle.ct_words.specs.Pairs.{first_of};
ghost use Rattle.ct_build.specs.declared.building.TheConstants.{MAX_BUILT};
ghost use Rattle.ct_build.specs.declared.fault.BuildFault.TheVariants.{WrongPart, Short, Size, Few, Empty};
ghost use Rattle.ct_build.specs.declared.step.Step.{Step};
ghost use Rattle.ct_build.specs.declared.step.Step.TheVariants.{Lengthen, AppendOne, Parity, Puncture, Select, Uuv, Juxtapose, Trim};
ghost use Rattle.ct_build.specs.Build.{FitsStated, shape_of, result_size, built, empty_fault, early_fault, told_fault, build_fault, IsRightBuild};

/// Where the step fits the stated entry and there is no reason against it, it makes 1 to `MAX_BUILT` words, which are a
/// code of the entry. A step that needs no other code does not look at one.
pub fn builds_are_codes_of_the_entry()
    ensures code { (step : Step) (e : Entry) (part : CodeValue) (other : Option CodeValue) → FitsStated step e →
        IsCode part.n part.d part.w part.words → IfSome other (λ o. IsCode o.n o.d o.w o.words) →
        build_fault step e part other ≡ None → IsCodeOf e (built step e part other) }
    ensures size { (step : Step) (e : Entry) (part : CodeValue) (other : Option CodeValue) →
        build_fault step e part other ≡ None →
        (1 ≤ length (built step e part other)) × (length (built step e part other) ≤ MAX_BUILT) }
    ensures alone_fault { (step : Step) (e : Entry) (part : CodeValue) (other : Option CodeValue) →
        step ≢ Uuv → step ≢ Juxtapose → build_fault step e part other ≡ build_fault step e part None }
    ensures alone_words { (step : Step) (e : Entry) (part : CodeValue) (other : Option CodeValue) →
        step ≢ Uuv → step ≢ Juxtapose → built step e part other ≡ built step e part None }
{}

/// The shapes of the codes tell the first reason against a step, but for one: that no word results, which only `shorten`
/// and `select` may give, over words that there are. The number of words that these make depends on the words and is at
/// most that of the part; of every other step it is told by the shapes.
pub fn shapes_tell_the_reasons()
    ensures reasons { (step : Step) (e : Entry) (part : CodeValue) (other : Option CodeValue) →
        build_fault step e part other ≡
        first_of (early_fault step e (shape_of part) (option_map shape_of other)) (empty_fault (built step e part other)) }
    ensures alone { (step : Step) (e : Entry) (part : CodeValue) (other : Option CodeValue) → FitsStated step e →
        1 ≤ length part.words → IfSome other (λ o. 1 ≤ length o.words) →
        result_size step (shape_of part) (option_map shape_of other) ≢ None →
        build_fault step e part other ≡ early_fault step e (shape_of part) (option_map shape_of other) }
    ensures told { (step : Step) (e : Entry) (part : CodeValue) (other : Option CodeValue) →
        result_size step (shape_of part) (option_map shape_of other) ≢ None →
        build_fault step e part other ≡ told_fault step e (shape_of part) (option_map shape_of other) }
    ensures size { (step : Step) (e : Entry) (part : CodeValue) (other : Option CodeValue) (k : ℕ) →
        result_size step (shape_of part) (option_map shape_of other) ≡ Some k → length (built step e part other) ≡ k }
    ensures most { (step : Step) (e : Entry) (part : CodeValue) (other : Option CodeValue) →
        result_size step (shape_of part) (option_map shape_of other) ≡ None →
        length (built step e part other) ≤ length part.words }
{}

/// There is no reason against a step exactly where it is right: length, weight, distance, the three numbers of words, enough
/// words and some word, whatever the order in which they are asked for.
pub fn right_builds_have_no_fault()
    ensures { (step : Step) (e : Entry) (part : CodeValue) (other : Option CodeValue) →
        (build_fault step e part other ≡ None) ↔ IsRightBuild step e part other }
{}

/// Builds from the words 000 and 111, a code of distance 3, and from 0011 and 1100, a code of distance 4 and weight 2.
/// Where two reasons hold, the answer is the first one.
pub fn known_builds()
    ensures accepted { build_fault Parity (unrestricted 4 4)
        (record { n = 3; d = 3; w = None; words = 0b000 ∷ 0b111 ∷ [] }) None ≡ None }
    ensures words { built Parity (unrestricted 4 4)
        (record { n = 3; d = 3; w = None; words = 0b000 ∷ 0b111 ∷ [] }) None ≡ 0b0000 ∷ 0b1111 ∷ [] }
    ensures nearer { build_fault Parity (unrestricted 4 3)
        (record { n = 3; d = 3; w = None; words = 0b000 ∷ 0b111 ∷ [] }) None ≡ None }
    // No other code is handed in.
    ensures part_before_other { build_fault Uuv (unrestricted 8 6)
        (record { n = 3; d = 3; w = None; words = 0b000 ∷ 0b111 ∷ [] }) None ≡ Some (WrongPart 0) }
    // The distance is 6, and 7 is wanted.
    ensures other_before_short { build_fault Juxtapose (unrestricted 7 7)
        (record { n = 3; d = 3; w = None; words = 0b000 ∷ 0b111 ∷ [] })
        (Some (record { n = 3; d = 3; w = None; words = 0b000 ∷ 0b111 ∷ [] })) ≡ Some (WrongPart 1) }
    // There are two words, and three are wanted.
    ensures short_before_few { build_fault (Trim 3) (unrestricted 3 4)
        (record { n = 3; d = 3; w = None; words = 0b000 ∷ 0b111 ∷ [] }) None ≡ Some (Short 3 4) }
    ensures few { build_fault (Trim 3) (unrestricted 3 3)
        (record { n = 3; d = 3; w = None; words = 0b000 ∷ 0b111 ∷ [] }) None ≡ Some (Few 2 3) }
    ensures empty { build_fault (Select 0b000) (constant_weight 3 4 2)
        (record { n = 3; d = 3; w = None; words = 0b000 ∷ 0b111 ∷ [] }) None ≡ Some Empty }
    ensures weighted { build_fault (Select 0b0000) (constant_weight 4 4 2)
        (record { n = 4; d = 4; w = Some 2; words = 0b0011 ∷ 0b1100 ∷ [] }) None ≡ Some (WrongPart 0) }
    ensures weightless { build_fault Lengthen (constant_weight 4 4 0)
        (record { n = 3; d = 3; w = None; words = 0b000 ∷ 0b111 ∷ [] }) None ≡ Some (WrongPart 0) }
    ensures one_more { build_fault AppendOne (constant_weight 5 4 3)
        (record { n = 4; d = 4; w = Some 2; words = 0b0011 ∷ 0b1100 ∷ [] }) None ≡ None }
    // Four places are left out of words at distance 3.
    ensures no_distance { build_fault (Puncture (0 ∷ 1 ∷ 2 ∷ 3 ∷ [])) (unrestricted 3 3)
        (record { n = 7; d = 3; w = None; words = 0b0000000 ∷ 0b1111111 ∷ [] }) None ≡ Some (Short 0 3) }
{}

/// The first reasons over shapes, at the limit and where two hold: too small a distance comes before too many words, these
/// before too few, and the part is counted before the other code, and that before the result.
pub fn known_reasons()
    ensures at_the_limit { early_fault Lengthen (unrestricted 27 3)
        (record { n = 26; d = 3; w = None; size = 262144 }) None ≡ None }
    ensures above { early_fault Lengthen (unrestricted 27 3)
        (record { n = 26; d = 3; w = None; size = 262145 }) None ≡ Some (Size 262145) }
    ensures short_before_size { early_fault Lengthen (unrestricted 27 4)
        (record { n = 26; d = 3; w = None; size = 262145 }) None ≡ Some (Short 3 4) }
    ensures size_before_few { early_fault (Trim 262146) (unrestricted 26 3)
        (record { n = 26; d = 3; w = None; size = 262145 }) None ≡ Some (Size 262145) }
    ensures part_before_other { early_fault Juxtapose (unrestricted 28 3)
        (record { n = 14; d = 2; w = None; size = 262146 })
        (Some (record { n = 14; d = 2; w = None; size = 262145 })) ≡ Some (Size 262146) }
    ensures other_before_result { early_fault Uuv (unrestricted 28 3)
        (record { n = 14; d = 2; w = None; size = 2 })
        (Some (record { n = 14; d = 3; w = None; size = 262145 })) ≡ Some (Size 262145) }
    ensures pairs { early_fault Uuv (unrestricted 28 3)
        (record { n = 14; d = 2; w = None; size = 512 })
        (Some (record { n = 14; d = 3; w = None; size = 513 })) ≡ Some (Size 262656) }
    ensures pairs_at_the_limit { early_fault Uuv (unrestricted 28 3)
        (record { n = 14; d = 2; w = None; size = 512 })
        (Some (record { n = 14; d = 3; w = None; size = 512 })) ≡ None }
    // A step that needs no other code does not count its words.
    ensures no_other { early_fault Lengthen (unrestricted 27 3)
        (record { n = 26; d = 3; w = None; size = 2 })
        (Some (record { n = 14; d = 3; w = None; size = 262145 })) ≡ None }
    ensures few { early_fault (Trim 3) (unrestricted 26 3)
        (record { n = 26; d = 3; w = None; size = 2 }) None ≡ Some (Few 2 3) }
    ensures most_places { early_fault (Puncture (0 ∷ 1 ∷ 2 ∷ 3 ∷ 4 ∷ 5 ∷ 6 ∷ 7 ∷ 8 ∷ 9 ∷ 10 ∷ 11 ∷ 12 ∷ 13 ∷ 14 ∷ 15 ∷ 16 ∷ 17 ∷
        18 ∷ 19 ∷ 20 ∷ 21 ∷ 22 ∷ 23 ∷ 24 ∷ 25 ∷ 26 ∷ 27 ∷ 28 ∷ [])) (unrestricted 1 3)
        (record { n = 30; d = 30; w = None; size = 2 }) None ≡ Some (Short 1 3) }
{}
