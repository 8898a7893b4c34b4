//! Facts about every sample.

ghost use Rattle.std.specs.Prelude.{◌≡◌, ℕ, [], ◌∷◌, List, map, Some, None, codes};
ghost use Rattle.std.specs.List.{range_with_len};
ghost use Rattle.ct_words.specs.Entry.{constant_weight, unrestricted};
ghost use Rattle.ct_build.specs.declared.step.Step.TheVariants.{Lengthen};
ghost use Rattle.ct_kind.specs.declared.evidence.Evidence.TheVariants.{Cosets, Build};
ghost use Rattle.ct_sample.specs.declared.command.Command.TheVariants.{Submit, Withdraw};
ghost use Rattle.ct_sample.specs.Command.{command_drawn};
ghost use Rattle.ct_sample.specs.Drawn.{class_evidence, drawn_words, dual_of_ones};
ghost use Rattle.ct_sample.specs.Examples.{short_code, lengthened_code, long_code, dual_piece};
ghost use Rattle.ct_sample.specs.Random.{drawn};
ghost use Rattle.ct_sample.specs.Summary.{IsSampleOutput};

/// The sample of a number has one output, and no other.
pub fn samples_are_one()
    ensures some { (number : ℕ) → (output : List ℕ) × IsSampleOutput number output }
    ensures one { (number : ℕ) (left right : List ℕ) → IsSampleOutput number left → IsSampleOutput number right → left ≡ right }
{}

/// Numbers that are drawn, all those of the sample of sixty commands among them; sum classes by such numbers; and commands of samples: a sum class of
/// length 8 and weight 3, three words of the Golay code, a dual, the last code that is not too long made longer, the first piece that none names
/// withdrawn, and nothing where there is none.
pub fn known_commands()
    ensures drawn { drawn 5 1 ∷ drawn 5 2 ∷ drawn 5 3 ∷ [] ≡ 18655 ∷ 8457 ∷ 10616 ∷ [] }
    ensures sixty { map (drawn 60) (range_with_len 1 60) ≡
        27258 ∷ 29176 ∷ 17532 ∷ 8170 ∷ 18295 ∷ 27075 ∷ 7980 ∷ 1310 ∷ 28150 ∷ 11136 ∷ 31364 ∷ 21932 ∷ 14518 ∷ 16821 ∷ 1242 ∷ 17505 ∷ 21628 ∷
        18176 ∷ 20878 ∷ 435 ∷ 15499 ∷ 12006 ∷ 32742 ∷ 20327 ∷ 738 ∷ 20315 ∷ 29609 ∷ 8964 ∷ 24632 ∷ 30481 ∷ 31613 ∷ 760 ∷ 18360 ∷ 7297 ∷ 256 ∷
        2699 ∷ 31356 ∷ 29114 ∷ 7849 ∷ 16519 ∷ 22219 ∷ 26860 ∷ 14173 ∷ 11428 ∷ 24339 ∷ 30131 ∷ 27601 ∷ 22454 ∷ 13477 ∷ 5925 ∷ 2466 ∷ 8853 ∷ 562
        ∷ 30362 ∷ 20533 ∷ 8144 ∷ 4617 ∷ 10046 ∷ 10064 ∷ 23568 ∷ [] }
    ensures words { command_drawn 1 (drawn 146 1) [] ≡ Some (Submit (codes "s1") (class_evidence 8 3 3)) }
    ensures classes { drawn_words 324 ∷ drawn_words 2368 ∷ [] ≡ class_evidence 8 4 1 ∷ class_evidence 15 4 9 ∷ [] }
    ensures cosets { command_drawn 2 (drawn 5 2) [] ≡ Some (Submit (codes "s2") (Cosets (unrestricted 24 8)
        (0b101011100011000000000001 ∷ 0b010101110001100000000001 ∷ 0b001010111000110000000001 ∷ []) (0 ∷ []))) }
    ensures dual { command_drawn 1 (drawn 5 1) [] ≡ Some (Submit (codes "s1") (dual_of_ones 9 4)) }
    ensures build { command_drawn 8 (drawn 5 8) (short_code ∷ long_code ∷ dual_piece ∷ []) ≡
        Some (Submit (codes "s8") (Build (constant_weight 17 4 3) Lengthen (codes "s7") None)) }
    ensures withdrawal { command_drawn 9 (drawn 5 9) (short_code ∷ lengthened_code ∷ long_code ∷ []) ≡ Some (Withdraw (codes "s8")) }
    ensures none { command_drawn 3 (drawn 5 3) [] ≡ None }
{}
