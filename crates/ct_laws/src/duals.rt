//! Why a dual is refused, what it gives to the table, and worked documents of duals; the functions do nothing.
ghost use Rattle.std.specs.Prelude.{◌≡◌, ◌↔◌, ℕ, List, [], ◌∷◌, true, false, pos, negsuc, Ok, Err, Option, Some, codes};
ghost use Rattle.toml.specs.Data.{string, integer, boolean, table};
ghost use Rattle.ct_words.specs.Numbers.{numbers_of, combination};
ghost use Rattle.ct_duals.specs.Examples.{eight_local};
ghost use Rattle.ct_fields.specs.declared.field.FieldName.TheVariants as name;
ghost use Rattle.ct_fields.specs.declared.fault.DocumentFault.TheVariants.{Field, Unknown};
ghost use Rattle.ct_fields.specs.Written.{put, entry_table};
ghost use Rattle.ct_fields.specs.WrittenSchema.{written_table};
ghost use Rattle.ct_duals.specs.declared.dual.Dual.{Dual};
ghost use Rattle.ct_kind.specs.Named.{NamedCode};
ghost use Rattle.ct_kind.specs.declared.fault.SubmitFault.{SubmitFault};
ghost use Rattle.ct_rule_parts.specs.declared.support.Support.TheVariants.{Nothing, Bound, Odd, Local};
ghost use Rattle.ct_dual_files.specs.Fields.{integer_list, pair_list};
ghost use Rattle.ct_dual_files.specs.Dual.{dual_fields, johnson_dual_fields};
ghost use Rattle.ct_files.specs.Kinds.{evidence_by};
ghost use Rattle.ct_files.specs.declared.kind.Kind.TheVariants as kind;
ghost use Rattle.ct_files.specs.Inside.Written.{evidence_table};
ghost use Rattle.ct_kind.specs.declared.evidence.Evidence.TheVariants as evidence;
ghost use Rattle.ct_dual_files.specs.DualKind.{dual_kind, IsDualChecked};
ghost use Rattle.ct_laws.specs.DualRefusal.{IsDualRefusal};
ghost use Rattle.ct_laws.specs.DualExamples.{thirteen_six, eight_four_four, nine_four, document, odd_document, local_document};

/// A dual is refused for a reason exactly where its plain condition holds: c_0 is below 1; or, where it isn't, f is above what is allowed at
/// the index that is named and at no lesser one. With an odd number of words it is refused for the same reasons, whatever the number, and
/// so it is where it gives its local bound.
pub fn reasons_against_duals()
    ensures dual { (known : List NamedCode) (text : List ℕ) (d : Dual) (reason : SubmitFault)
        → ((dual_kind Bound text d).reason known ≡ Some reason) ↔ IsDualRefusal d reason }
    ensures odd { (known : List NamedCode) (text : List ℕ) (d : Dual) (m : ℕ) (reason : SubmitFault)
        → ((dual_kind (λ accepted. Odd accepted m) text d).reason known ≡ Some reason) ↔ IsDualRefusal d reason }
    ensures local { (known : List NamedCode) (text : List ℕ) (d : Dual) (reason : SubmitFault)
        → ((dual_kind Local text d).reason known ≡ Some reason) ↔ IsDualRefusal d reason }
{}

/// What a dual gives to the table with an odd number of words: that parity may exclude so many by the dual with its f(0), where its
/// conditions hold, and nothing where it is refused; it never gives its bound.
pub fn odd_duals_give_their_sizes()
    ensures accepted { (text : List ℕ) (d : Dual) (m : ℕ) (size : Option ℕ) → IsDualChecked d
        → (dual_kind (λ accepted. Odd accepted m) text d).gives size ≡ Odd (record { dual = d; at_zero = combination (numbers_of d.entry) d.c 0 }) m }
    ensures refused { (text : List ℕ) (d : Dual) (m : ℕ) (reason : SubmitFault) (size : Option ℕ) → IsDualRefusal d reason
        → (dual_kind (λ accepted. Odd accepted m) text d).gives size ≡ Nothing }
    ensures known { (size : Option ℕ) → (dual_kind (λ accepted. Odd accepted 21) (codes "odd") nine_four).gives size ≡ Odd (record { dual = nine_four; at_zero = pos 48 }) 21 }
{}

/// What a dual of kind jlocal gives to the table: its local bound, by the dual with its f(0), where its conditions hold, and nothing where
/// it is refused; it never gives the bound of kind jdual.
pub fn local_duals_give_their_bounds()
    ensures accepted { (text : List ℕ) (d : Dual) (size : Option ℕ) → IsDualChecked d
        → (dual_kind Local text d).gives size ≡ Local (record { dual = d; at_zero = combination (numbers_of d.entry) d.c 0 }) }
    ensures refused { (text : List ℕ) (d : Dual) (reason : SubmitFault) (size : Option ℕ) → IsDualRefusal d reason
        → (dual_kind Local text d).gives size ≡ Nothing }
    ensures known { (size : Option ℕ) → (dual_kind Local (codes "jlocal") eight_local).gives size
        ≡ Local (record { dual = eight_local; at_zero = pos 24 }) }
{}

/// Two duals read back from their tables, and documents with a wrong field: `even` only with an even d; c not empty, and
/// none of it negative; the indices of y ascending, of the range, and even where `even` is set.
pub fn known_documents()
    ensures plain { evidence_by kind.Dual (table (evidence_table (evidence.Dual thirteen_six))) ≡ Ok (evidence.Dual thirteen_six) }
    ensures weighted { evidence_by kind.JohnsonDual (table (evidence_table (evidence.JohnsonDual eight_four_four))) ≡ Ok (evidence.JohnsonDual eight_four_four) }
    ensures even { evidence_by kind.Dual (document 5 true [] []) ≡ Err (Field name.Even) }
    ensures empty { evidence_by kind.Dual (document 6 true [] ((7, pos 1) ∷ [])) ≡ Err (Field name.C) }
    ensures negative { evidence_by kind.Dual (document 6 true (pos 1 ∷ negsuc 0 ∷ []) []) ≡ Err (Field name.C) }
    ensures odd_index { evidence_by kind.Dual (document 6 true (pos 1 ∷ []) ((7, pos 1) ∷ [])) ≡ Err (Field name.Y) }
    ensures descending { evidence_by kind.Dual (document 6 false (pos 1 ∷ []) ((8, pos 1) ∷ (7, pos 1) ∷ [])) ≡ Err (Field name.Y) }
    ensures near { evidence_by kind.Dual (document 6 false (pos 1 ∷ []) ((5, pos 1) ∷ [])) ≡ Err (Field name.Y) }
{}

/// A dual with an odd number of words reads back from its table, with the least and the greatest number too; and documents with a wrong
/// field: the number is judged after `even` and before `c`. In one of kind dual no number of words may stand, in one of kind odd no weight.
pub fn known_odd_documents()
    ensures read { evidence_by kind.Odd (table (evidence_table (evidence.Odd nine_four 21))) ≡ Ok (evidence.Odd nine_four 21) }
    ensures least { evidence_by kind.Odd (odd_document 4 (integer (pos 3)) nine_four.c) ≡ Ok (evidence.Odd nine_four 3) }
    ensures greatest { evidence_by kind.Odd (odd_document 4 (integer (pos 1048575)) nine_four.c) ≡ Ok (evidence.Odd nine_four 1048575) }
    ensures missing { evidence_by kind.Odd (table (written_table (codes "odd") (dual_fields nine_four))) ≡ Err (Field name.M) }
    ensures even_number { evidence_by kind.Odd (odd_document 4 (integer (pos 20)) nine_four.c) ≡ Err (Field name.M) }
    ensures one { evidence_by kind.Odd (odd_document 4 (integer (pos 1)) nine_four.c) ≡ Err (Field name.M) }
    ensures above { evidence_by kind.Odd (odd_document 4 (integer (pos 1048577)) nine_four.c) ≡ Err (Field name.M) }
    ensures negative { evidence_by kind.Odd (odd_document 4 (integer (negsuc 20)) nine_four.c) ≡ Err (Field name.M) }
    ensures text { evidence_by kind.Odd (odd_document 4 (string (codes "21")) nine_four.c) ≡ Err (Field name.M) }
    ensures before_multipliers { evidence_by kind.Odd (odd_document 4 (integer (pos 20)) []) ≡ Err (Field name.M) }
    ensures multipliers { evidence_by kind.Odd (odd_document 4 (integer (pos 21)) []) ≡ Err (Field name.C) }
    ensures after_even { evidence_by kind.Odd (odd_document 5 (integer (pos 20)) []) ≡ Err (Field name.Even) }
    ensures of_kind_dual { evidence_by kind.Dual (table (put name.M (integer (pos 21)) (evidence_table (evidence.Dual nine_four)))) ≡ Err Unknown }
    ensures weight { evidence_by kind.Odd (table (put name.W (integer (pos 4)) (evidence_table (evidence.Odd nine_four 21)))) ≡ Err Unknown }
{}

/// A dual with a weight that allows something reads back from its table, as does one that allows nothing, and one without the key `y`; and
/// documents with a wrong field: the indices are from d/2 to the degree and ascend, numbers are not negative, `y` is judged after `c` and
/// before other keys, of which `even` is one. In one of kind jdual `y` is another key.
pub fn known_local_documents()
    ensures read { evidence_by kind.JohnsonLocal (table (evidence_table (evidence.JohnsonLocal eight_local))) ≡ Ok (evidence.JohnsonLocal eight_local) }
    ensures nothing_allowed { evidence_by kind.JohnsonLocal (table (evidence_table (evidence.JohnsonLocal eight_four_four))) ≡ Ok (evidence.JohnsonLocal eight_four_four) }
    ensures left_out { evidence_by kind.JohnsonLocal (table (written_table (codes "jlocal") (johnson_dual_fields eight_four_four))) ≡ Ok (evidence.JohnsonLocal eight_four_four) }
    ensures greatest { evidence_by kind.JohnsonLocal (local_document 4 eight_local.c ((2, pos 8) ∷ (4, pos 0) ∷ []))
        ≡ Ok (evidence.JohnsonLocal (record eight_local { y = (2, pos 8) ∷ (4, pos 0) ∷ [] })) }
    ensures near { evidence_by kind.JohnsonLocal (local_document 4 eight_local.c ((1, pos 8) ∷ [])) ≡ Err (Field name.Y) }
    ensures far { evidence_by kind.JohnsonLocal (local_document 4 eight_local.c ((5, pos 8) ∷ [])) ≡ Err (Field name.Y) }
    ensures descending { evidence_by kind.JohnsonLocal (local_document 4 eight_local.c ((3, pos 8) ∷ (2, pos 8) ∷ [])) ≡ Err (Field name.Y) }
    ensures repeated { evidence_by kind.JohnsonLocal (local_document 4 eight_local.c ((2, pos 8) ∷ (2, pos 8) ∷ [])) ≡ Err (Field name.Y) }
    ensures negative { evidence_by kind.JohnsonLocal (local_document 4 eight_local.c ((2, negsuc 7) ∷ [])) ≡ Err (Field name.Y) }
    ensures after_multipliers { evidence_by kind.JohnsonLocal (local_document 4 [] ((1, pos 8) ∷ [])) ≡ Err (Field name.C) }
    ensures odd_distance { evidence_by kind.JohnsonLocal (local_document 5 eight_local.c ((3, pos 8) ∷ [])) ≡ Err (Field name.D) }
    ensures no_weight { evidence_by kind.JohnsonLocal (table (put name.Y (pair_list eight_local.y) (put name.C (integer_list eight_local.c) (entry_table (codes "jlocal") 8 4))))
        ≡ Err (Field name.W) }
    ensures neither { evidence_by kind.JohnsonLocal (table (entry_table (codes "jlocal") 8 5)) ≡ Err (Field name.D) }
    ensures even { evidence_by kind.JohnsonLocal (table (put name.Even (boolean false) (evidence_table (evidence.JohnsonLocal eight_local)))) ≡ Err Unknown }
    ensures allowances_before_others { evidence_by kind.JohnsonLocal (table (put name.Even (boolean false) (evidence_table (evidence.JohnsonLocal (record eight_local { y = (1, pos 8) ∷ [] }))))) ≡ Err (Field name.Y) }
    ensures of_kind_jdual { evidence_by kind.JohnsonDual (table (put name.Y (pair_list eight_local.y) (evidence_table (evidence.JohnsonDual eight_local)))) ≡ Err Unknown }
{}
