//! Why words, cosets, builds, partitions and products that are handed in are refused.
ghost use Rattle.std.specs.Prelude.{◌≡◌, ◌↔◌, ℕ, List, Some, Option};
ghost use Rattle.ct_words.specs.declared.entry.Entry.{Entry};
ghost use Rattle.ct_kind.specs.Named.{NamedCode, code_named, other_named};
ghost use Rattle.ct_kind.specs.declared.fault.SubmitFault.{SubmitFault};
ghost use Rattle.ct_word_files.specs.CosetsKind.{cosets_kind};
ghost use Rattle.ct_laws.specs.CosetsRefusal.{IsCosetsRefusal};
ghost use Rattle.ct_word_files.specs.WordsKind.{words_kind};
ghost use Rattle.ct_laws.specs.WordsRefusal.{IsWordsRefusal};
ghost use Rattle.ct_build.specs.declared.step.Step.{Step};
ghost use Rattle.ct_build_files.specs.BuildKind.{build_kind};
ghost use Rattle.ct_laws.specs.BuildRefusal.{IsBuildRefusal};
ghost use Rattle.ct_partition_files.specs.PartitionKind.{partition_kind};
ghost use Rattle.ct_laws.specs.PartitionRefusal.{IsPartitionRefusal};
ghost use Rattle.ct_partition_files.specs.ProductKind.{Ids, wrong_id, product_kind};
ghost use Rattle.ct_laws.specs.ProductRefusal.{IsFirstWrong, IsProductRefusal};

/// Words are refused for a reason exactly where its plain condition holds: there is none or there are too many; the first has not the
/// weight; the least two places hold equal words; the least two hold close ones. The conditions of the reasons before it fail.
pub fn reasons_against_words()
    ensures { (known : List NamedCode) (e : Entry) (words : List ℕ) (reason : SubmitFault)
        → ((words_kind e words).reason known ≡ Some reason) ↔ IsWordsRefusal e words reason }
{}

/// Cosets are refused for a reason exactly where its plain condition holds: the basis has too many words, or else there is no
/// representative or there are too many; the work is too much; the words of the least two choices are close. The conditions of the
/// reasons before it fail.
pub fn reasons_against_cosets()
    ensures { (known : List NamedCode) (e : Entry) (basis representatives : List ℕ) (reason : SubmitFault)
        → ((cosets_kind e basis representatives).reason known ≡ Some reason) ↔ IsCosetsRefusal e basis representatives reason }
{}

/// A build is refused for a reason exactly where its plain condition holds: a wrong part; too small a distance; too many words of the
/// part, the other code or the result; fewer than a trim wants; none that results. The conditions of the reasons before it fail.
pub fn reasons_against_builds()
    ensures { (known : List NamedCode) (e : Entry) (step : Step) (part : List ℕ) (other : Option (List ℕ)) (reason : SubmitFault)
        → ((build_kind e step part other).reason known ≡ Some reason)
        ↔ IsBuildRefusal e step part other (code_named part known) (other_named other known) reason }
{}

/// Lists of words are refused for a reason exactly where its plain condition holds: a wrong number of classes, an empty class, or too
/// many words; the first word has not the weight; the least two places hold equal words; the least two hold words that are closer than
/// they need to be. The conditions of the reasons before it fail.
pub fn reasons_against_partitions()
    ensures { (known : List NamedCode) (e : Entry) (between : ℕ) (classes : List (List ℕ)) (reason : SubmitFault)
        → ((partition_kind e between classes).reason known ≡ Some reason) ↔ IsPartitionRefusal e between classes reason }
{}

/// An id of a product is told as wrong exactly where it is the first that is: both ids of each pair before its own are right, and of its
/// own the first is wrong, or else the second.
pub fn wrong_ids_of_products()
    ensures { (e : Entry) (known : List NamedCode) (pairs : List Ids) (id : List ℕ)
        → (wrong_id e known pairs ≡ Some id) ↔ IsFirstWrong e known pairs id }
{}

/// A product is refused for a reason exactly where its plain condition holds: the first wrong id; or, where none is wrong, that the
/// distance of the product is too small.
pub fn reasons_against_products()
    ensures { (known : List NamedCode) (e : Entry) (pairs : List Ids) (reason : SubmitFault)
        → ((product_kind e pairs).reason known ≡ Some reason) ↔ IsProductRefusal e known pairs reason }
{}
