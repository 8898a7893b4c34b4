//! Sphere packing: balls about the words.

ghost use Rattle.std.specs.Prelude.{◌≡◌, ◌+◌, true, false, [], Some};
ghost use Rattle.ct_words.specs.declared.limits.TheConstants.{MAX_N};
ghost use Rattle.ct_words.specs.Entry.{unrestricted, constant_weight};
ghost use Rattle.ct_rule_parts.specs.Parts.{is_defined};
ghost use Rattle.ct_plain_rules.specs.SpherePacking.{sphere_packing};

/// Where the rule is defined, that it rests on nothing, and what it gives: A(23,7) ≤ 4096, which Golay's code has, and so on.
pub fn known_sphere_packing()
    ensures defined { is_defined sphere_packing (unrestricted 1 MAX_N) ≡ true }
    ensures rests_on { sphere_packing.rests_on (unrestricted 1 MAX_N) ≡ [] }
    ensures value { sphere_packing.number (unrestricted 7 3) [] ≡ Some 16 }
    ensures even { sphere_packing.number (unrestricted 7 4) [] ≡ Some 16 }
    ensures of_three { sphere_packing.number (unrestricted 23 7) [] ≡ Some 4096 }
    ensures rounded_down { sphere_packing.number (unrestricted 28 3) [] ≡ Some 9256395 }
    ensures within { is_defined sphere_packing (unrestricted 8 6) ≡ true }
    ensures of_weight { is_defined sphere_packing (constant_weight 8 6 4) ≡ false }
    ensures no_entry { is_defined sphere_packing (unrestricted (MAX_N + 1) 6) ≡ false }
{}
