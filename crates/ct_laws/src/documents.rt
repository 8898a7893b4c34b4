//! Which documents are accepted as which evidence, and where each fault comes.
ghost use Rattle.std.specs.Prelude.{◌≡◌, ◌↔◌, ℕ, ◌<◌, ◌≤◌, ◌^◌, List, [], length, All, Option, option_map, Result, Ok, Err};
ghost use Rattle.toml.specs.Data.{Data, Members, table};
ghost use Rattle.ct_words.specs.Text.{word_of, word_text};
ghost use Rattle.ct_words.specs.declared.entry.Entry.{Entry};
ghost use Rattle.ct_build.specs.declared.step.Step.{Step};
ghost use Rattle.ct_fields.specs.declared.document.TheConstants.{MAX_DOCUMENT};
ghost use Rattle.ct_kind.specs.declared.evidence.Evidence.{Evidence};
ghost use Rattle.ct_fields.specs.declared.fault.DocumentFault.{DocumentFault};
ghost use Rattle.ct_fields.specs.declared.fault.DocumentFault.TheVariants.{Bytes, NotToml, Kind};
ghost use Rattle.ct_files.specs.Evidence.{IsSound, read_of};
ghost use Rattle.ct_files.specs.declared.kind.Kind as documents;
ghost use Rattle.ct_files.specs.Kinds.{kind_of, kind_text, schema_of, evidence_by};
ghost use Rattle.ct_files.specs.Answers.{IsAnswer, IsOfNoKind, Accepts};
ghost use Rattle.ct_files.specs.Document.{DocumentValue, document_read_of, evidence_part, AcceptsDocument};
ghost use Rattle.ct_fields.specs.Tables.{IsDocument, IsOfKind};
ghost use Rattle.ct_fields.specs.Schema.{IsAnswerBy};
ghost use Rattle.ct_word_files.specs.Words.{words_of_texts, IsWordsOf};
ghost use Rattle.ct_word_files.specs.Cosets.{cosets_of_texts, IsCosetsOf};
ghost use Rattle.ct_partition_files.specs.Partition.{partition_of_lists, IsPartitionOf};
ghost use Rattle.ct_build_files.specs.BuildFields.{digits_of};
ghost use Rattle.ct_build_files.specs.BuildSchema.{build_of};
ghost use Rattle.ct_build_files.specs.BuildAnswer.{IsTextAnswer};
ghost use Rattle.ct_build_files.specs.WrittenBuild.{digits_text};
ghost use Rattle.ct_files.specs.Inside.Written.{evidence_table, HasIds};

/// Bytes are accepted as an evidence exactly if they are at most `MAX_DOCUMENT`, are UTF-8 and write by the grammar of TOML 1.1 a table of its
/// kind, whose format is right, whose fields have the values that the schema of the kind asks and state the evidence, whose cites are right, and
/// which has no other key.
pub fn accepted_documents()
    ensures evidence { (bytes : List ℕ) (e : Evidence) → (read_of bytes ≡ Ok e) ↔ Accepts bytes e }
{}

/// Where each answer comes for the fields of a table of a kind: exactly where the schema of the kind says. What is written at the fields of
/// an evidence, whose forms, ranges and counts are those of its kind, reads as it.
pub fn answers_to_fields()
    ensures answers { (kind : documents.Kind) (members : Members) (answer : Result Evidence DocumentFault) →
        (evidence_by kind (table members) ≡ answer) ↔ IsAnswerBy [] (schema_of kind) (table members) answer }
    ensures read_back { (e : Evidence) → IsSound e → HasIds e → evidence_by (kind_of e) (table (evidence_table e)) ≡ Ok e }
{}

/// What the texts of a document state, once its fields, its cites and its keys are right: the words that they write; the fault of the first text
/// that writes none of the length; or, if they all do, that of a wrong count. Of a build, the step of the word or of the digits that its text
/// writes, or the fault of a text that writes none.
pub fn stated_texts()
    ensures words { (e : Entry) (texts : List (List ℕ)) (answer : Result Evidence DocumentFault) →
        (words_of_texts e texts ≡ answer) ↔ IsWordsOf e texts answer }
    ensures cosets { (e : Entry) (basis representatives : List (List ℕ)) (answer : Result Evidence DocumentFault) →
        (cosets_of_texts e basis representatives ≡ answer) ↔ IsCosetsOf e basis representatives answer }
    ensures partition { (e : Entry) (between : ℕ) (lists : List (List (List ℕ))) (answer : Result Evidence DocumentFault) →
        (partition_of_lists e between lists ≡ answer) ↔ IsPartitionOf e between lists answer }
    ensures word { (e : Entry) (make : ℕ → Step) (text part : List ℕ) (other : Option (List ℕ)) (answer : Result Evidence DocumentFault) →
        (build_of e (option_map make (word_of e.n text)) part other ≡ answer)
        ↔ IsTextAnswer (word_text e.n) (λ x. x < 2 ^ e.n) text make e part other answer }
    ensures digits { (e : Entry) (count : ℕ) (make : List ℕ → Step) (text part : List ℕ) (other : Option (List ℕ)) (answer : Result Evidence DocumentFault) →
        (build_of e (option_map make (digits_of count text)) part other ≡ answer)
        ↔ IsTextAnswer digits_text (λ ds. (length ds ≡ count) × All (λ a. a < 2) ds) text make e part other answer }
{}

/// Where bytes are refused that are too many, or that write no table.
pub fn bytes_without_table()
    ensures bytes { (bytes : List ℕ) (b : ℕ) →
        (read_of bytes ≡ Err (Bytes b)) ↔ ((b ≡ length bytes) × (MAX_DOCUMENT < length bytes)) }
    ensures no_toml { (bytes : List ℕ) →
        (read_of bytes ≡ Err NotToml) ↔
        ((length bytes ≤ MAX_DOCUMENT) × ((document : Data) → ¬ (IsDocument bytes document))) }
{}

/// Where the other answers come: `Kind` for a table of none of the kinds, and for one of a kind each answer exactly where `IsAnswer` says,
/// which field or which other fault it may be.
pub fn answers_to_documents()
    ensures no_kind { (bytes : List ℕ) (document : Data) → IsDocument bytes document →
        (read_of bytes ≡ Err Kind) ↔ IsOfNoKind document }
    ensures answers { (kind : documents.Kind) (bytes : List ℕ) (document : Data) (answer : Result Evidence DocumentFault) →
        IsDocument bytes document → IsOfKind (kind_text kind) document →
        (read_of bytes ≡ answer) ↔ IsAnswer kind document answer }
{}

/// What bytes read as with their cites: the evidence that they read as without them, or the same fault; and a document exactly
/// where they read as its evidence and write a table that has its cites.
pub fn documents_and_evidence()
    ensures evidence { (bytes : List ℕ) → read_of bytes ≡ evidence_part (document_read_of bytes) }
    ensures fault { (bytes : List ℕ) (fault : DocumentFault) → (document_read_of bytes ≡ Err fault) ↔ (read_of bytes ≡ Err fault) }
    ensures accepted { (bytes : List ℕ) (d : DocumentValue) → (document_read_of bytes ≡ Ok d) ↔ AcceptsDocument bytes d }
{}
