//! Worked documents: what their bytes read as.
ghost use Rattle.std.specs.Prelude.{◌≡◌, ℕ, List, ◌++◌, [], ◌∷◌, length, Ok, Err, codes};
ghost use Rattle.ct_words.specs.Entry.{unrestricted, constant_weight};
ghost use Rattle.ct_kind.specs.declared.evidence.Evidence.TheVariants.{Words, Cosets};
ghost use Rattle.ct_fields.specs.declared.field.FieldName.TheVariants as name;
ghost use Rattle.ct_fields.specs.declared.fault.DocumentFault.TheVariants.{Bytes, NotToml, Kind, Field, Unknown, Digits, Size};
ghost use Rattle.ct_files.specs.Evidence.{read_of};
ghost use Rattle.ct_laws.specs.EvidenceExamples.{words_document, cosets_document, two_words, two_words_evidence};

/// The document of two words of length 10, stated for distance 6, gives these words.
pub fn two_words_are_read()
    ensures { read_of two_words ≡ Ok two_words_evidence }
{}

/// Bytes that are too many, or write no table.
pub fn no_tables()
    ensures too_many { (bytes : List ℕ) → length bytes ≡ 4194305 → read_of bytes ≡ Err (Bytes 4194305) }
    ensures no_value { read_of (codes "kind =") ≡ Err NotToml }
    ensures repeated_key { read_of (two_words ++ codes "n = 10\n") ≡ Err NotToml }
    ensures no_utf8 { read_of (two_words ++ codes "# " ++ 255 ∷ []) ≡ Err NotToml }
    ensures wide { read_of (words_document (codes "9223372036854775808") (codes "3") (codes "['1']") []) ≡ Err NotToml }
{}

/// Documents of no kind.
pub fn no_kinds()
    ensures empty { read_of [] ≡ Err Kind }
    ensures missing { read_of (codes "n = 1\nd = 3\nwords = ['1']") ≡ Err Kind }
    ensures other { read_of (codes "kind = 'oracle'\nn = 1\nd = 3\nwords = ['1']") ≡ Err Kind }
    ensures no_text { read_of (codes "kind = ['words']\nn = 1\nd = 3\nwords = ['1']") ≡ Err Kind }
{}

/// Documents with a weight: a text of each word is not yet asked for its weight, and a wrong weight, or an odd distance
/// beside the key, whatever stands at it, is the fault of its field.
pub fn weights()
    ensures read { read_of (words_document (codes "2") (codes "4") (codes "['01', '11']") (codes "w = 1"))
        ≡ Ok (Words (constant_weight 2 4 1) (1 ∷ 3 ∷ [])) }
    ensures zero { read_of (words_document (codes "2") (codes "30") (codes "['00']") (codes "w = 0"))
        ≡ Ok (Words (constant_weight 2 30 0) (0 ∷ [])) }
    ensures odd { read_of (words_document (codes "2") (codes "3") (codes "['01']") (codes "w = 1")) ≡ Err (Field name.D) }
    ensures odd_beside_text { read_of (words_document (codes "2") (codes "5") (codes "['01']") (codes "w = ''"))
        ≡ Err (Field name.D) }
    ensures text { read_of (words_document (codes "2") (codes "4") (codes "['01']") (codes "w = '1'")) ≡ Err (Field name.W) }
    ensures above { read_of (words_document (codes "2") (codes "4") (codes "1") (codes "w = 3")) ≡ Err (Field name.W) }
    ensures below { read_of (words_document (codes "2") (codes "4") (codes "1") (codes "w = -1")) ≡ Err (Field name.W) }
{}

/// Documents of kind cosets: one that is read, and each fault of a field, in the order n, d, basis, representatives, of a
/// further key, of a text, and of a count.
pub fn cosets()
    ensures read { read_of (cosets_document (codes "3") (codes "3") (codes "['111', '000']") (codes "['010']") [])
        ≡ Ok (Cosets (unrestricted 3 3) (7 ∷ 0 ∷ []) (2 ∷ [])) }
    ensures no_basis { read_of (cosets_document (codes "3") (codes "4") (codes "[]") (codes "['010']") [])
        ≡ Ok (Cosets (unrestricted 3 4) [] (2 ∷ [])) }
    ensures n { read_of (cosets_document (codes "0") (codes "2") (codes "1") (codes "1") []) ≡ Err (Field name.N) }
    ensures d { read_of (cosets_document (codes "3") (codes "2") (codes "1") (codes "1") []) ≡ Err (Field name.D) }
    ensures basis { read_of (cosets_document (codes "3") (codes "3") (codes "['111', 1]") (codes "1") [])
        ≡ Err (Field name.Basis) }
    ensures representatives { read_of (cosets_document (codes "3") (codes "3") (codes "['1']") (codes "'000'") (codes "w = 1"))
        ≡ Err (Field name.Representatives) }
    ensures missing { read_of (codes "kind = 'cosets'\nn = 3\nd = 3\nbasis = []\n") ≡ Err (Field name.Representatives) }
    ensures weight { read_of (cosets_document (codes "3") (codes "4") (codes "['1']") (codes "[]") (codes "w = 1")) ≡ Err Unknown }
    ensures words { read_of (cosets_document (codes "3") (codes "4") (codes "[]") (codes "[]") (codes "words = []")) ≡ Err Unknown }
    ensures basis_text { read_of (cosets_document (codes "3") (codes "3") (codes "['111', '1']") (codes "['0']") [])
        ≡ Err (Digits 1) }
    ensures text { read_of (cosets_document (codes "3") (codes "3") (codes "['111', '100']") (codes "['000', '0a0']") [])
        ≡ Err (Digits 3) }
    ensures none { read_of (cosets_document (codes "3") (codes "3") (codes "['111']") (codes "[]") []) ≡ Err (Size 0) }
{}

/// Documents with a wrong field: the first one in the order n, d, words counts.
pub fn wrong_fields()
    ensures n_missing { read_of (codes "kind = 'words'\nd = 2\nwords = ['1']") ≡ Err (Field name.N) }
    ensures n_text { read_of (words_document (codes "'10'") (codes "6") (codes "[]") []) ≡ Err (Field name.N) }
    ensures n_above { read_of (words_document (codes "31") (codes "2") (codes "[]") []) ≡ Err (Field name.N) }
    ensures d_missing { read_of (codes "kind = 'words'\nn = 1\nwords = 1") ≡ Err (Field name.D) }
    ensures d_below { read_of (words_document (codes "10") (codes "2") (codes "1") []) ≡ Err (Field name.D) }
    ensures words_missing { read_of (codes "kind = 'words'\nn = 1\nd = 3\nv = 1") ≡ Err (Field name.Words) }
    ensures words_number { read_of (words_document (codes "2") (codes "4") (codes "['0', 10]") (codes "w = 1"))
        ≡ Err (Field name.Words) }
{}

/// Documents whose fields are right, and that have another key, or texts that are no words, or no word.
pub fn wrong_words()
    ensures basis { read_of (words_document (codes "2") (codes "3") (codes "['0']") (codes "basis = []")) ≡ Err Unknown }
    ensures table { read_of (words_document (codes "2") (codes "3") (codes "[]") (codes "[notes]")) ≡ Err Unknown }
    ensures length { read_of (words_document (codes "2") (codes "3") (codes "['01', '0', 'ab']") []) ≡ Err (Digits 1) }
    ensures letter { read_of (words_document (codes "2") (codes "3") (codes "['0a']") []) ≡ Err (Digits 0) }
    ensures none { read_of (words_document (codes "2") (codes "3") (codes "[]") []) ≡ Err (Size 0) }
    ensures one { read_of (words_document (codes "0b10") (codes "3") (codes "['''01''', \"\\u00310\"]") [])
        ≡ Ok (Words (unrestricted 2 3) (1 ∷ 2 ∷ [])) }
{}
