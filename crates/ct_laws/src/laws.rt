//! Sessions whose output is known, and texts of replies.

ghost use Rattle.std.specs.Prelude.{◌≡◌, ◌⊎◌, ◌↔◌, ◌∷◌, ℕ, ◌+◌, ◌-◌, ◌/◌, ◌%◌, ◌<◌, ◌≤◌, max, List, [], map, slice_get, Option, Some, None, IsTrue, false, true, pos, negsuc, codes};
ghost use Rattle.std.specs.List.{range_with_len};
ghost use Rattle.ct_words.specs.declared.limits.TheConstants.{MAX_N};
ghost use Rattle.ct_text.specs.Gathering.{is_end};
ghost use Rattle.ct_words.specs.declared.fault.CodeFault.TheVariants as code;
ghost use Rattle.ct_classes.specs.declared.fault.PartitionFault.TheVariants as partition;
ghost use Rattle.ct_duals.specs.declared.fault.DualFault.TheVariants as dual;
ghost use Rattle.ct_build.specs.declared.fault.BuildFault.TheVariants as build;
ghost use Rattle.ct_fields.specs.declared.field.FieldName.TheVariants as name;
ghost use Rattle.ct_fields.specs.declared.fault.DocumentFault.TheVariants as file;
ghost use Rattle.ct_kind.specs.declared.fault.SubmitFault.TheVariants as submit;
ghost use Rattle.ct_piece.specs.declared.fault.WithdrawFault.TheVariants as withdraw;
ghost use Rattle.ct_words.specs.Entry.{unrestricted, constant_weight};
ghost use Rattle.ct_rule_parts.specs.declared.support.Support.TheVariants.{Size};
ghost use Rattle.ct_piece.specs.Supports.{supports_of};
ghost use Rattle.ct_piece.specs.Text.{cites_text};
ghost use Rattle.ct_words.specs.TableEntries.{column};
ghost use Rattle.ct_session.specs.Run.{IsRun, pieces_of};
ghost use Rattle.ct_replies.specs.Text.{reply_text};
ghost use Rattle.ct_replies.specs.declared.reply.Reply.TheVariants.{Withdrawn, WithdrawnAll, Shown, Table, Refused};
ghost use Rattle.ct_replies.specs.declared.reply.Refusal.TheVariants as refusal;
ghost use Rattle.ct_laws.specs.Examples.{six_words, close_words, repeated_words, no_words, linear_code, close_choices, heavier_word, four_triples, withdrawn_with_all};

/// Inputs whose run is known: the empty one, entries of the table and others outside it, with weight and without, a column, columns
/// that have no entry, bounds that are explained, one of them in two ways, a code that is listed, a submission that is cut off, and the lists of no pieces.
pub fn known_runs()
    ensures empty { IsRun [] [] false }
    ensures shown { IsRun (codes "show 5 3\n") (codes "A(5,3) = 4\n") false }
    ensures shown_weight { IsRun (codes "show 4 4 0\n") (codes "A(4,4,0) = 1\n") false }
    ensures shown_column { IsRun (codes "table 4 30\n") (codes "A(30,4,30) = 1\n") false }
    ensures no_table { IsRun (codes "table 2\n") (codes "refused entry\n") true }
    ensures odd_table { IsRun (codes "table 5 2\n") (codes "refused entry\n") true }
    ensures heavy_table { IsRun (codes "table 4 31\n") (codes "refused entry\n") true }
    ensures no_number { IsRun (codes "table x\n") (codes "refused command\n") true }
    ensures outside { IsRun (codes "show 28 2\n") (codes "refused entry\n") true }
    ensures odd { IsRun (codes "show 12 5 6\n") (codes "refused entry\n") true }
    ensures heavy { IsRun (codes "show 8 4 9\n") (codes "refused entry\n") true }
    ensures explained { IsRun (codes "explain lower 4 4 0\n") (codes "derivation\nline 1 lower 4 4 0 value 1 by M1\ndone\n") false }
    ensures explained_so { IsRun (codes "explain upper 4 4 0\n") (codes "derivation\nline 1 upper 4 4 0 value 1 by V0\ndone\n") false }
    ensures explained_otherwise { IsRun (codes "explain upper 4 4 0\n") (codes "derivation\nline 1 upper 4 4 0 value 1 by V1\ndone\n") false }
    ensures not_explained { IsRun (codes "explain lower 31 4\n") (codes "refused entry\n") true }
    ensures no_side { IsRun (codes "explain 5 3\n") (codes "refused command\n") true }
    ensures listed { IsRun (codes "list 4 4 0\n") (codes "code 4 4 0 size 1\n0000\n") false }
    ensures not_listed { IsRun (codes "list 3 2\n") (codes "refused entry\n") true }
    ensures no_listing { IsRun (codes "list 5\n") (codes "refused command\n") true }
    ensures cut { IsRun (codes "submit a\nkind = \"words\"") (codes "refused cut\n") true }
    ensures ledger { IsRun (codes "ledger\n") (codes "pieces 0\n") false }
    ensures dump { IsRun (codes "dump\n") (codes "# dump of 0 pieces\n") false }
    ensures withdraw { IsRun (codes "withdraw hexa\n") (codes "refused nosuch hexa\n") true }
    ensures withdraw_all { IsRun (codes "withdraw hexa all\n") (codes "refused nosuch hexa\n") true }
{}

/// Sessions with a submission whose run is known: six words that are a code, and words that are too close, repeated and none; a linear
/// code by its basis, and a basis whose words are heavy enough but not their sum; a word of another weight than is stated; a code that is
/// withdrawn with the one that is made of it.
pub fn known_submissions()
    ensures accepted { IsRun six_words (codes "accepted hexa size 6\nA(10,6) = 6\n") false }
    ensures close { IsRun close_words (codes "refused close 0 1 5\n") true }
    ensures repeated { IsRun repeated_words (codes "refused repeated 0 1\n") true }
    ensures empty { IsRun no_words (codes "refused size 0\n") true }
    ensures linear { IsRun linear_code (codes "accepted linear size 8\nA(6,3) = 8\n") false }
    ensures choices { IsRun close_choices (codes "refused close 0 3 2\n") true }
    ensures weight { IsRun heavier_word (codes "refused weight 2\n") true }
    ensures with_all { IsRun withdrawn_with_all (codes "accepted a size 2\naccepted b size 2\nwithdrawn a count 2\npieces 0\n") false }
{}

/// A piece of four words of weight 3 supports the entry of this weight.
pub fn known_word_supports()
    ensures { supports_of (pieces_of four_triples) ≡ Size (constant_weight 6 4 3) 4 ∷ [] }
{}

/// Entries of some columns of the table: without weight one of each length, from 1 to `MAX_N`; with a weight the lengths begin at it, or at
/// 1; and columns that have no entry.
pub fn known_columns()
    ensures first { slice_get (column 3 None) 0 ≡ Some (unrestricted 1 3) }
    ensures second { slice_get (column MAX_N None) 1 ≡ Some (unrestricted 2 MAX_N) }
    ensures last { slice_get (column MAX_N None) (MAX_N - 1) ≡ Some (unrestricted MAX_N MAX_N) }
    ensures end { slice_get (column 3 None) MAX_N ≡ None }
    ensures first_of_weight { slice_get (column MAX_N (Some (MAX_N / 2))) 0 ≡ Some (constant_weight (MAX_N / 2) MAX_N (MAX_N / 2)) }
    ensures last_of_weight { slice_get (column MAX_N (Some (MAX_N / 2))) (MAX_N / 2) ≡ Some (constant_weight MAX_N MAX_N (MAX_N / 2)) }
    ensures end_of_weight { slice_get (column MAX_N (Some (MAX_N / 2))) (MAX_N / 2 + 1) ≡ None }
    ensures no_ones { slice_get (column 4 (Some 0)) 0 ≡ Some (constant_weight 1 4 0) }
    ensures greatest_weight { column 4 (Some MAX_N) ≡ constant_weight MAX_N 4 MAX_N ∷ [] }
    ensures no_distance { column 2 None ≡ [] }
    ensures odd { column 5 (Some 2) ≡ [] }
    ensures heavy { column 4 (Some (MAX_N + 1)) ≡ [] }
{}

/// The columns of the table. Each of its distances has a column, whose lengths go from 1 to `MAX_N`; each of its even distances has one
/// beside each weight, up to `MAX_N`, whose lengths go from the greater of 1 and the weight to `MAX_N`. And there are no others.
pub fn columns_by_length()
    ensures without_weight { (d : ℕ) → 3 ≤ d → d ≤ MAX_N
        → column d None ≡ map (λ n. unrestricted n d) (range_with_len 1 MAX_N) }
    ensures with_weight { (d w : ℕ) → 3 ≤ d → d ≤ MAX_N → d % 2 ≡ 0 → w ≤ MAX_N
        → column d (Some w) ≡ map (λ n. constant_weight n d w) (range_with_len (max 1 w) (MAX_N + 1 - max 1 w)) }
    ensures near { (d : ℕ) (w : Option ℕ) → d < 3 → column d w ≡ [] }
    ensures far { (d : ℕ) (w : Option ℕ) → MAX_N < d → column d w ≡ [] }
    ensures odd { (d w : ℕ) → d % 2 ≡ 1 → column d (Some w) ≡ [] }
    ensures heavy { (d w : ℕ) → MAX_N < w → column d (Some w) ≡ [] }
{}

/// Texts of replies that are known, those of every refusal among them.
pub fn known_texts()
    ensures bounds { reply_text (Shown (record { entry = record { n = 10; d = 6; w = None }; lower = 6; upper = 1024 }))
        ≡ codes "6 <= A(10,6) <= 1024\n" }
    ensures value { reply_text (Shown (record { entry = record { n = 24; d = 8; w = Some 8 }; lower = 759; upper = 759 }))
        ≡ codes "A(24,8,8) = 759\n" }
    ensures table { reply_text (Table (record { entry = unrestricted 27 28; lower = 1; upper = 1 }
        ∷ record { entry = unrestricted 28 3; lower = 8388608; upper = 9256395 } ∷ []))
        ≡ codes "A(27,28) = 1\n8388608 <= A(28,3) <= 9256395\n" }
    ensures withdrawn { reply_text (Withdrawn (codes "golay")) ≡ codes "withdrawn golay\n" }
    ensures withdrawn_all { reply_text (WithdrawnAll (codes "golay") 2) ≡ codes "withdrawn golay count 2\n" }
    ensures cites { cites_text (codes "page 52" ∷ codes "table I" ∷ []) ≡ codes " cites 2" }
    ensures no_cites { cites_text [] ≡ [] }
    ensures cut { reply_text (Refused refusal.CutOff) ≡ codes "refused cut\n" }
    ensures command { reply_text (Refused refusal.NoCommand) ≡ codes "refused command\n" }
    ensures entry { reply_text (Refused refusal.NoEntry) ≡ codes "refused entry\n" }
    ensures taken { reply_text (Refused (refusal.Submission submit.Taken)) ≡ codes "refused taken\n" }
    ensures full_pieces { reply_text (Refused (refusal.Submission (submit.FullPieces 1000))) ≡ codes "refused full pieces 1000\n" }
    ensures full_words { reply_text (Refused (refusal.Submission (submit.FullWords 1003533))) ≡ codes "refused full words 1003533\n" }
    ensures bytes { reply_text (Refused (refusal.Submission (submit.File (file.Bytes 4194305)))) ≡ codes "refused bytes 4194305\n" }
    ensures toml { reply_text (Refused (refusal.Submission (submit.File file.NotToml))) ≡ codes "refused toml\n" }
    ensures kind { reply_text (Refused (refusal.Submission (submit.File file.Kind))) ≡ codes "refused kind\n" }
    ensures unknown { reply_text (Refused (refusal.Submission (submit.File file.Unknown))) ≡ codes "refused unknown\n" }
    ensures digits { reply_text (Refused (refusal.Submission (submit.File (file.Digits 3)))) ≡ codes "refused digits 3\n" }
    ensures size { reply_text (Refused (refusal.Submission (submit.File (file.Size 16385)))) ≡ codes "refused size 16385\n" }
    ensures weight { reply_text (Refused (refusal.Submission (submit.Code (code.Weight 2)))) ≡ codes "refused weight 2\n" }
    ensures repeated { reply_text (Refused (refusal.Submission (submit.Code (code.Repeated 0 1)))) ≡ codes "refused repeated 0 1\n" }
    ensures close { reply_text (Refused (refusal.Submission (submit.Code (code.Close 0 32 6)))) ≡ codes "refused close 0 32 6\n" }
    ensures work { reply_text (Refused (refusal.Submission (submit.Code (code.Work 33554432)))) ≡ codes "refused work 33554432\n" }
    ensures field { reply_text (Refused (refusal.Submission (submit.File (file.Field name.D)))) ≡ codes "refused field d\n" }
    ensures longest_field { reply_text (Refused (refusal.Submission (submit.File (file.Field name.Representatives))))
        ≡ codes "refused field representatives\n" }
    ensures no_part { reply_text (Refused (refusal.Submission (submit.NoSuch (codes "golay")))) ≡ codes "refused nosuch golay\n" }
    ensures wrong_part { reply_text (Refused (refusal.Submission (submit.WrongPart (codes "golay")))) ≡ codes "refused part golay\n" }
    ensures short { reply_text (Refused (refusal.Submission (submit.Build (build.Short 8 10)))) ≡ codes "refused short 8 10\n" }
    ensures built_size { reply_text (Refused (refusal.Submission (submit.Build (build.Size 262145)))) ≡ codes "refused size 262145\n" }
    ensures few { reply_text (Refused (refusal.Submission (submit.Build (build.Few 2048 2049)))) ≡ codes "refused few 2048 2049\n" }
    ensures empty { reply_text (Refused (refusal.Submission (submit.Build build.Empty))) ≡ codes "refused empty\n" }
    ensures code_size { reply_text (Refused (refusal.Submission (submit.Code (code.Size 0)))) ≡ codes "refused size 0\n" }
    ensures partition_size { reply_text (Refused (refusal.Submission (submit.Partition (partition.Size 4097)))) ≡ codes "refused size 4097\n" }
    ensures partition_weight { reply_text (Refused (refusal.Submission (submit.Partition (partition.Weight 3)))) ≡ codes "refused weight 3\n" }
    ensures partition_repeated { reply_text (Refused (refusal.Submission (submit.Partition (partition.Repeated 2 5)))) ≡ codes "refused repeated 2 5\n" }
    ensures partition_close { reply_text (Refused (refusal.Submission (submit.Partition (partition.Close 0 2 2 0 1 3)))) ≡ codes "refused close 0 2 2 classes 0 1 need 3\n" }
    ensures lead { reply_text (Refused (refusal.Submission (submit.Dual dual.Lead))) ≡ codes "refused lead\n" }
    ensures above { reply_text (Refused (refusal.Submission (submit.Dual (dual.Above 12 (pos 48) (negsuc 46))))) ≡ codes "refused above 12 48 -47\n" }
    ensures nosuch { reply_text (Refused (refusal.Withdrawal (codes "hexa") withdraw.NoSuch)) ≡ codes "refused nosuch hexa\n" }
    ensures inuse { reply_text (Refused (refusal.Withdrawal (codes "golay") (withdraw.InUse (codes "oct")))) ≡ codes "refused inuse oct\n" }
{}

/// The line that ends a document is exactly `end`, or `end` and one carriage return.
pub fn documents_end_there()
    ensures { (line : List ℕ) → IsTrue (is_end line) ↔ ((line ≡ codes "end") ⊎ (line ≡ codes "end\r")) }
{}
