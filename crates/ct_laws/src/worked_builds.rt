//! Worked documents of kind build: what their bytes read as.
ghost use Rattle.std.specs.Prelude.{◌≡◌, [], ◌∷◌, Some, None, Ok, Err, codes};
ghost use Rattle.ct_build.specs.declared.step.Step.TheVariants.{Lengthen, AppendOne, Parity, Puncture, Shorten, Translate, Complement, Select, Uuv, Juxtapose, Trim};
ghost use Rattle.ct_words.specs.Entry.{unrestricted, constant_weight};
ghost use Rattle.ct_kind.specs.declared.evidence.Evidence.TheVariants.{Build};
ghost use Rattle.ct_fields.specs.declared.field.FieldName.TheVariants as name;
ghost use Rattle.ct_fields.specs.declared.fault.DocumentFault.TheVariants.{Field, Unknown, Digits};
ghost use Rattle.ct_files.specs.Evidence.{read_of};
ghost use Rattle.ct_laws.specs.EvidenceExamples.{build_document};

/// Documents of kind build that are read, one of each operation.
pub fn builds_are_read()
    ensures lengthen { read_of (build_document (codes "2") (codes "3") (codes "'lengthen'") (codes "'base'") [])
        ≡ Ok (Build (unrestricted 2 3) Lengthen (codes "base") None) }
    ensures append_one { read_of (build_document (codes "2") (codes "4") (codes "'append_one'") (codes "'base'") (codes "w = 1"))
        ≡ Ok (Build (constant_weight 2 4 1) AppendOne (codes "base") None) }
    ensures parity { read_of (build_document (codes "30") (codes "30") (codes "'parity'") (codes "'base'") [])
        ≡ Ok (Build (unrestricted 30 30) Parity (codes "base") None) }
    ensures puncture { read_of (build_document (codes "3") (codes "3") (codes "'puncture'") (codes "'base'") (codes "places = [0, 4]"))
        ≡ Ok (Build (unrestricted 3 3) (Puncture (0 ∷ 4 ∷ [])) (codes "base") None) }
    // The most places that can be left out.
    ensures most_places { read_of (build_document (codes "1") (codes "3") (codes "'puncture'") (codes "'base'")
        (codes "places = [0, 1, 2, 3, 4, 5, 6, 7, 8, 9, 10, 11, 12, 13, 14, 15, 16, 17, 18, 19, 20, 21, 22, 23, 24, 25, 26, 27, 28]"))
        ≡ Ok (Build (unrestricted 1 3) (Puncture (0 ∷ 1 ∷ 2 ∷ 3 ∷ 4 ∷ 5 ∷ 6 ∷ 7 ∷ 8 ∷ 9 ∷ 10 ∷ 11 ∷ 12 ∷ 13
        ∷ 14 ∷ 15 ∷ 16 ∷ 17 ∷ 18 ∷ 19 ∷ 20 ∷ 21 ∷ 22 ∷ 23 ∷ 24 ∷ 25 ∷ 26 ∷ 27 ∷ 28 ∷ [])) (codes "base") None) }
    ensures shorten { read_of (build_document (codes "1") (codes "4") (codes "'shorten'") (codes "'base'") (codes "w = 0\nplaces = [1, 2]\ndigits = '01'"))
        ≡ Ok (Build (constant_weight 1 4 0) (Shorten (1 ∷ 2 ∷ []) (0 ∷ 1 ∷ [])) (codes "base") None) }
    ensures translate { read_of (build_document (codes "3") (codes "3") (codes "'translate'") (codes "'base'") (codes "by = '110'"))
        ≡ Ok (Build (unrestricted 3 3) (Translate 6) (codes "base") None) }
    ensures complement { read_of (build_document (codes "3") (codes "4") (codes "'complement'") (codes "'base'") (codes "w = 1"))
        ≡ Ok (Build (constant_weight 3 4 1) Complement (codes "base") None) }
    ensures select { read_of (build_document (codes "3") (codes "4") (codes "'select'") (codes "'base'") (codes "w = 1\nby = '011'"))
        ≡ Ok (Build (constant_weight 3 4 1) (Select 3) (codes "base") None) }
    ensures uuv { read_of (build_document (codes "4") (codes "3") (codes "'uuv'") (codes "'base'") (codes "other = 'more'"))
        ≡ Ok (Build (unrestricted 4 3) Uuv (codes "base") (Some (codes "more"))) }
    ensures juxtapose { read_of (build_document (codes "3") (codes "4") (codes "'juxtapose'") (codes "'base'") (codes "other = 'base'\nw = 2"))
        ≡ Ok (Build (constant_weight 3 4 2) Juxtapose (codes "base") (Some (codes "base"))) }
    ensures trim { read_of (build_document (codes "1") (codes "3") (codes "'trim'") (codes "'base'") (codes "size = 262144"))
        ≡ Ok (Build (unrestricted 1 3) (Trim 262144) (codes "base") None) }
{}

/// Documents of kind build with a wrong entry or operation: n, d and w come before the operation, and for `select` d is even.
pub fn wrong_entries()
    ensures n { read_of (build_document (codes "31") (codes "2") (codes "1") (codes "1") [])
        ≡ Err (Field name.N) }
    ensures d { read_of (build_document (codes "2") (codes "2") (codes "1") (codes "1") (codes "w = 3"))
        ≡ Err (Field name.D) }
    ensures d_beside_weight { read_of (build_document (codes "2") (codes "3") (codes "1") (codes "1") (codes "w = ''"))
        ≡ Err (Field name.D) }
    ensures d_of_select { read_of (build_document (codes "2") (codes "3") (codes "'select'") (codes "1") [])
        ≡ Err (Field name.D) }
    ensures d_of_no_select { read_of (build_document (codes "2") (codes "3") (codes "['select']") (codes "1") [])
        ≡ Err (Field name.Op) }
    ensures w { read_of (build_document (codes "2") (codes "4") (codes "1") (codes "1") (codes "w = 3"))
        ≡ Err (Field name.W) }
    ensures w_of_lengthen { read_of (build_document (codes "1") (codes "4") (codes "'lengthen'") (codes "1") (codes "w = '1'"))
        ≡ Err (Field name.W) }
    ensures operation { read_of (build_document (codes "1") (codes "3") (codes "'rotate'") (codes "1") [])
        ≡ Err (Field name.Op) }
    ensures operation_number { read_of (build_document (codes "3") (codes "4") (codes "1") (codes "1") (codes "w = 1"))
        ≡ Err (Field name.Op) }
    ensures operation_capital { read_of (build_document (codes "1") (codes "3") (codes "'Trim'") (codes "1") [])
        ≡ Err (Field name.Op) }
    ensures operation_missing { read_of (codes "kind = 'build'\nn = 1\nd = 3\npart = 1\n") ≡ Err (Field name.Op) }
{}

/// Documents of kind build whose operation makes no words of the length, or takes no weight, or takes one: n comes before w,
/// and both before the own fields.
pub fn wrong_for_the_operation()
    ensures lengthen { read_of (build_document (codes "1") (codes "4") (codes "'lengthen'") (codes "1") (codes "w = 1"))
        ≡ Err (Field name.N) }
    ensures append_one { read_of (build_document (codes "1") (codes "3") (codes "'append_one'") (codes "1") [])
        ≡ Err (Field name.N) }
    ensures parity { read_of (build_document (codes "1") (codes "3") (codes "'parity'") (codes "1") [])
        ≡ Err (Field name.N) }
    ensures uuv { read_of (build_document (codes "3") (codes "4") (codes "'uuv'") (codes "1") (codes "w = 1"))
        ≡ Err (Field name.N) }
    ensures juxtapose { read_of (build_document (codes "1") (codes "3") (codes "'juxtapose'") (codes "1") (codes "other = 1"))
        ≡ Err (Field name.N) }
    ensures weight_of_puncture { read_of (build_document (codes "2") (codes "4") (codes "'puncture'") (codes "1") (codes "w = 1\nplaces = []"))
        ≡ Err (Field name.W) }
    ensures weight_of_translate { read_of (build_document (codes "2") (codes "4") (codes "'translate'") (codes "1") (codes "w = 1\nby = 1"))
        ≡ Err (Field name.W) }
    ensures weight_of_uuv { read_of (build_document (codes "2") (codes "4") (codes "'uuv'") (codes "1") (codes "w = 1"))
        ≡ Err (Field name.W) }
    ensures no_weight_of_select { read_of (build_document (codes "2") (codes "4") (codes "'select'") (codes "1") (codes "by = 1"))
        ≡ Err (Field name.W) }
{}

/// Documents of kind build with a wrong field of the operation, which comes before the part.
pub fn wrong_own_fields()
    ensures places_missing { read_of (build_document (codes "2") (codes "3") (codes "'puncture'") (codes "1") [])
        ≡ Err (Field name.Places) }
    ensures no_places { read_of (build_document (codes "2") (codes "3") (codes "'puncture'") (codes "1") (codes "places = []"))
        ≡ Err (Field name.Places) }
    ensures descending { read_of (build_document (codes "2") (codes "3") (codes "'puncture'") (codes "1") (codes "places = [1, 0]"))
        ≡ Err (Field name.Places) }
    ensures repeated { read_of (build_document (codes "2") (codes "3") (codes "'shorten'") (codes "1") (codes "places = [1, 1]\ndigits = 1"))
        ≡ Err (Field name.Places) }
    ensures too_great { read_of (build_document (codes "2") (codes "3") (codes "'puncture'") (codes "1") (codes "places = [0, 4]"))
        ≡ Err (Field name.Places) }
    ensures negative { read_of (build_document (codes "2") (codes "3") (codes "'puncture'") (codes "1") (codes "places = [-1, 0]"))
        ≡ Err (Field name.Places) }
    ensures too_long { read_of (build_document (codes "30") (codes "3") (codes "'shorten'") (codes "1") (codes "places = [0]\ndigits = 1"))
        ≡ Err (Field name.Places) }
    ensures text_place { read_of (build_document (codes "2") (codes "3") (codes "'puncture'") (codes "1") (codes "places = ['0']"))
        ≡ Err (Field name.Places) }
    ensures digits { read_of (build_document (codes "2") (codes "3") (codes "'shorten'") (codes "1") (codes "places = [0]\ndigits = 1"))
        ≡ Err (Field name.Digits) }
    ensures by { read_of (build_document (codes "2") (codes "3") (codes "'translate'") (codes "1") (codes "by = 11"))
        ≡ Err (Field name.By) }
    ensures by_of_select { read_of (build_document (codes "2") (codes "4") (codes "'select'") (codes "1") (codes "w = 1"))
        ≡ Err (Field name.By) }
    ensures no_words { read_of (build_document (codes "2") (codes "3") (codes "'trim'") (codes "1") (codes "size = 0"))
        ≡ Err (Field name.Size) }
    ensures too_many_words { read_of (build_document (codes "2") (codes "3") (codes "'trim'") (codes "1") (codes "size = 262145"))
        ≡ Err (Field name.Size) }
{}

/// Documents of kind build with a wrong part, then another piece, then a further key, then a text of other digits.
pub fn wrong_ends()
    ensures part { read_of (build_document (codes "2") (codes "3") (codes "'uuv'") (codes "'Base'") (codes "other = 1"))
        ≡ Err (Field name.Part) }
    ensures part_number { read_of (build_document (codes "2") (codes "3") (codes "'lengthen'") (codes "1") (codes "other = 1"))
        ≡ Err (Field name.Part) }
    ensures other_missing { read_of (build_document (codes "2") (codes "3") (codes "'uuv'") (codes "'base'") (codes "more = 1"))
        ≡ Err (Field name.Other) }
    ensures other { read_of (build_document (codes "2") (codes "3") (codes "'juxtapose'") (codes "'base'") (codes "other = '1'\nsize = 1"))
        ≡ Err (Field name.Other) }
    ensures no_other { read_of (build_document (codes "2") (codes "3") (codes "'lengthen'") (codes "'base'") (codes "other = 'more'"))
        ≡ Err Unknown }
    ensures no_digits { read_of (build_document (codes "2") (codes "3") (codes "'puncture'") (codes "'base'") (codes "places = [0]\ndigits = '1'"))
        ≡ Err Unknown }
    ensures no_words { read_of (build_document (codes "2") (codes "3") (codes "'translate'") (codes "'base'") (codes "by = '1'\nwords = []"))
        ≡ Err Unknown }
    ensures short { read_of (build_document (codes "2") (codes "3") (codes "'shorten'") (codes "'base'") (codes "places = [0, 1]\ndigits = '0'"))
        ≡ Err (Digits 0) }
    ensures letter { read_of (build_document (codes "2") (codes "3") (codes "'shorten'") (codes "'base'") (codes "places = [0, 1]\ndigits = '0a'"))
        ≡ Err (Digits 0) }
    ensures short_by { read_of (build_document (codes "2") (codes "3") (codes "'translate'") (codes "'base'") (codes "by = '1'"))
        ≡ Err (Digits 0) }
    ensures letter_by { read_of (build_document (codes "2") (codes "4") (codes "'select'") (codes "'base'") (codes "by = '1b'\nw = 1"))
        ≡ Err (Digits 0) }
    ensures part_missing { read_of (codes "kind = 'build'\nn = 2\nd = 3\nop = 'uuv'\nother = 1\n") ≡ Err (Field name.Part) }
{}
