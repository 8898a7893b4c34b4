//! Command lines that are known, and words that none has: the functions do nothing.

ghost use Rattle.std.specs.Prelude.{◌≡◌, [], ◌∷◌, Some, None, codes};
ghost use Rattle.ct_command_line.specs.declared.mode.Mode.TheVariants.{Session, Verify, Find, Sample};
ghost use Rattle.ct_command_line.specs.CommandLine.{first_unknown, mode_of};

/// The words `session`, `verify` and `find`, each alone, name their modes, and `sample` with a number from 1 to 2000 does, on either side of it;
/// no words, another word, a word too many, an option that the mode does not take, one that is not known, twice the same, one without its value or
/// with another number, and the questions for help and for a version name none.
pub fn known_command_lines()
    ensures session { mode_of (codes "session" ∷ []) ≡ Some Session }
    ensures verify { mode_of (codes "verify" ∷ []) ≡ Some Verify }
    ensures find { mode_of (codes "find" ∷ []) ≡ Some Find }
    ensures verify_with_number { mode_of (codes "verify" ∷ codes "--number" ∷ codes "5" ∷ []) ≡ None }
    ensures find_with_number { mode_of (codes "find" ∷ codes "--number" ∷ codes "5" ∷ []) ≡ None }
    ensures sample { mode_of (codes "sample" ∷ codes "--number" ∷ codes "60" ∷ []) ≡ Some (Sample 60) }
    ensures sample_after { mode_of (codes "--number" ∷ codes "1" ∷ codes "sample" ∷ []) ≡ Some (Sample 1) }
    ensures sample_joined { mode_of (codes "sample" ∷ codes "--number=2000" ∷ []) ≡ Some (Sample 2000) }
    ensures sample_alone { mode_of (codes "sample" ∷ []) ≡ None }
    ensures sample_of_none { mode_of (codes "sample" ∷ codes "--number" ∷ codes "0" ∷ []) ≡ None }
    ensures sample_above { mode_of (codes "sample" ∷ codes "--number" ∷ codes "2001" ∷ []) ≡ None }
    ensures sample_of_zeros { mode_of (codes "sample" ∷ codes "--number" ∷ codes "007" ∷ []) ≡ None }
    ensures sample_with_sign { mode_of (codes "sample" ∷ codes "--number=+5" ∷ []) ≡ None }
    ensures sample_of_nothing { mode_of (codes "sample" ∷ codes "--number=" ∷ []) ≡ None }
    ensures sample_twice { mode_of (codes "sample" ∷ codes "--number" ∷ codes "5" ∷ codes "--number" ∷ codes "5" ∷ []) ≡ None }
    ensures after_dashes { mode_of (codes "--" ∷ codes "session" ∷ []) ≡ Some Session }
    ensures none { mode_of [] ≡ None }
    ensures empty { mode_of ([] ∷ []) ≡ None }
    ensures unknown { mode_of (codes "tables" ∷ []) ≡ None }
    ensures greater { mode_of (codes "Session" ∷ []) ≡ None }
    ensures twice { mode_of (codes "session" ∷ codes "session" ∷ []) ≡ None }
    ensures with_number { mode_of (codes "session" ∷ codes "--number" ∷ codes "5" ∷ []) ≡ None }
    ensures number_first { mode_of (codes "--number=5" ∷ codes "session" ∷ []) ≡ None }
    ensures no_value { mode_of (codes "session" ∷ codes "--number" ∷ []) ≡ None }
    ensures unknown_option { mode_of (codes "session" ∷ codes "--all" ∷ []) ≡ None }
    ensures help { mode_of (codes "--help" ∷ []) ≡ None }
    ensures short_help { mode_of (codes "-h" ∷ []) ≡ None }
    ensures help_beside { mode_of (codes "session" ∷ codes "--help" ∷ []) ≡ None }
    ensures version { mode_of (codes "--version" ∷ []) ≡ None }
{}

/// The first word that no command line has is `tables` of that word alone, `all` behind a mode, and what stands behind an option's value; of words
/// that are known one by one, and of none, there is no such word.
pub fn known_unknown_words()
    ensures alone { first_unknown [] (codes "tables" ∷ []) ≡ Some (codes "tables") }
    ensures behind { first_unknown [] (codes "session" ∷ codes "all" ∷ codes "more" ∷ []) ≡ Some (codes "all") }
    ensures value { first_unknown [] (codes "sample" ∷ codes "--number" ∷ codes "x" ∷ codes "y" ∷ []) ≡ Some (codes "y") }
    ensures joined { first_unknown [] (codes "--number=5" ∷ codes "--numbers=5" ∷ []) ≡ Some (codes "--numbers=5") }
    ensures empty { first_unknown [] ([] ∷ []) ≡ Some [] }
    ensures twice { first_unknown [] (codes "session" ∷ codes "session" ∷ []) ≡ None }
    ensures none { first_unknown [] [] ≡ None }
{}
