//! Worked documents of both formats: what their bytes read as.
ghost use Rattle.std.specs.Prelude.{◌≡◌, [], ◌∷◌, ◌++◌, replicate, Ok, Err, codes};
ghost use Rattle.ct_fields.specs.declared.field.FieldName.TheVariants as name;
ghost use Rattle.ct_fields.specs.declared.fault.DocumentFault.TheVariants.{Kind, Field, Unknown, Digits};
ghost use Rattle.ct_files.specs.Evidence.{read_of};
ghost use Rattle.ct_files.specs.Document.{document_read_of};
ghost use Rattle.ct_laws.specs.EvidenceExamples.{one_word, cited_word, cited_one, quoted, words_document, build_document};

/// Documents that say their format, or none: it is judged after the kind and before n.
pub fn formats()
    ensures left_out { document_read_of one_word ≡ Ok (cited_one []) }
    ensures first { document_read_of (one_word ++ codes "format = 1\n") ≡ Ok (cited_one []) }
    ensures second { document_read_of (one_word ++ codes "format = 2\n") ≡ Ok (cited_one []) }
    ensures zero { document_read_of (one_word ++ codes "format = 0\n") ≡ Err (Field name.Format) }
    ensures third { document_read_of (one_word ++ codes "format = 3\n") ≡ Err (Field name.Format) }
    ensures text { document_read_of (one_word ++ codes "format = '2'\n") ≡ Err (Field name.Format) }
    ensures before_n { document_read_of (words_document (codes "31") (codes "2") (codes "1") (codes "format = 3")) ≡ Err (Field name.Format) }
    ensures after_kind { document_read_of (codes "kind = 'oracle'\nformat = 3\n") ≡ Err Kind }
    ensures evidence_alone { read_of (one_word ++ codes "format = 3\n") ≡ Err (Field name.Format) }
{}

/// Documents of format 2, and what they cite, in their order.
pub fn cites_are_read()
    ensures none { document_read_of (cited_word (codes "[]")) ≡ Ok (cited_one []) }
    ensures one { document_read_of (cited_word (codes "['a']")) ≡ Ok (cited_one (codes "a" ∷ [])) }
    ensures order { document_read_of (cited_word (codes "['b c', 'a', 'b c']")) ≡ Ok (cited_one (codes "b c" ∷ codes "a" ∷ codes "b c" ∷ [])) }
    ensures escapes { document_read_of (cited_word (codes "[\"\\u0041 \\\"\\\\\"]")) ≡ Ok (cited_one (codes "A \"\\" ∷ [])) }
    ensures ends { document_read_of (cited_word (codes "[' ', '~']")) ≡ Ok (cited_one (codes " " ∷ codes "~" ∷ [])) }
    ensures longest { document_read_of (cited_word (codes "[" ++ quoted 200 ++ codes "]")) ≡ Ok (cited_one (replicate 200 97 ∷ [])) }
    ensures most { document_read_of (cited_word (codes "['a','a','a','a','a','a','a','a','a','a','a','a','a','a','a','a']"))
        ≡ Ok (cited_one (replicate 16 (codes "a"))) }
{}

/// Documents of format 2 with wrong cites.
pub fn wrong_cites()
    ensures empty { document_read_of (cited_word (codes "['']")) ≡ Err (Field name.Cites) }
    ensures too_long { document_read_of (cited_word (codes "[" ++ quoted 201 ++ codes "]")) ≡ Err (Field name.Cites) }
    ensures low { document_read_of (cited_word (codes "[\"\\u001F\"]")) ≡ Err (Field name.Cites) }
    ensures high { document_read_of (cited_word (codes "['a', \"\\u007F\"]")) ≡ Err (Field name.Cites) }
    ensures no_list { document_read_of (cited_word (codes "'a'")) ≡ Err (Field name.Cites) }
    ensures no_text { document_read_of (cited_word (codes "['a', 1]")) ≡ Err (Field name.Cites) }
    ensures too_many { document_read_of (cited_word (codes "['a','a','a','a','a','a','a','a','a','a','a','a','a','a','a','a','a']"))
        ≡ Err (Field name.Cites) }
{}

/// Wrong cites come after all other fields, and before a further key and a text of other digits. In format 1 `cites` is such a key,
/// whatever stands there.
pub fn cites_come_last()
    ensures after_words { read_of (words_document (codes "2") (codes "3") (codes "1") (codes "format = 2\ncites = 1")) ≡ Err (Field name.Words) }
    ensures after_part { read_of (build_document (codes "2") (codes "3") (codes "'lengthen'") (codes "1") (codes "format = 2\ncites = 1"))
        ≡ Err (Field name.Part) }
    ensures of_a_build { read_of (build_document (codes "2") (codes "3") (codes "'lengthen'") (codes "'base'") (codes "format = 2\ncites = 1"))
        ≡ Err (Field name.Cites) }
    ensures before_keys { read_of (cited_word (codes "1\nmore = 1")) ≡ Err (Field name.Cites) }
    ensures before_digits { read_of (words_document (codes "2") (codes "3") (codes "['1']") (codes "format = 2\ncites = 1")) ≡ Err (Field name.Cites) }
    ensures digits_after { read_of (words_document (codes "2") (codes "3") (codes "['1']") (codes "format = 2\ncites = ['a']")) ≡ Err (Digits 0) }
    ensures key_after { read_of (cited_word (codes "['a']\nmore = 1")) ≡ Err Unknown }
    ensures no_format { read_of (one_word ++ codes "cites = ['a']\n") ≡ Err Unknown }
    ensures first_format { read_of (one_word ++ codes "format = 1\ncites = 1\n") ≡ Err Unknown }
    ensures fields_first { read_of (words_document (codes "2") (codes "2") (codes "1") (codes "cites = ['a']")) ≡ Err (Field name.D) }
{}
