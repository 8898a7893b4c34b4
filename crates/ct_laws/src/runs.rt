//! Facts about every session.

ghost use Rattle.std.specs.Prelude.{◌≡◌, ℕ, Bool, false, List, length, None, Option};
ghost use Rattle.std.specs.List.{list_any};
ghost use Rattle.ct_text.specs.EntryNumbers.{named_entry};
ghost use Rattle.ct_text.specs.declared.entry_numbers.EntryNumbers.{EntryNumbers};
ghost use Rattle.ct_text.specs.declared.table_numbers.TableNumbers.{TableNumbers};
ghost use Rattle.ct_commands.specs.declared.command.Command.TheVariants as command;
ghost use Rattle.ct_words.specs.declared.claim.Side.{Side};
ghost use Rattle.ct_words.specs.declared.entry.Entry.{Entry};
ghost use Rattle.ct_words.specs.Entry.{IsEntry};
ghost use Rattle.ct_piece.specs.Piece.{PieceValue};
ghost use Rattle.ct_piece.specs.Standing.{AreStanding};
ghost use Rattle.ct_piece.specs.Supports.{supports_of};
ghost use Rattle.ct_commands.specs.declared.command.Command.{Command};
ghost use Rattle.ct_session.specs.Reply.{IsShownBound, IsReply, leaves_choice};
ghost use Rattle.ct_replies.specs.declared.reply.Reply.{Reply};
ghost use Rattle.ct_session.specs.Run.{IsRun, DifferInChoices, pieces_of};
ghost use Rattle.ct_session.specs.Truth.{IsTrueAnswer};
ghost use Rattle.ct_io.specs.Lines.{lines_of};

/// Every input has a run.
pub fn every_input_has_a_run()
    ensures { (input : List ℕ) → (output : List ℕ) × (refused : Bool) × IsRun input output refused }
{}

/// Two runs of an input have as many replies, which are equal but at commands that leave a choice, and in both some reply is a refusal, or in
/// none. Of an input without such commands there is one run: what a session writes for it is determined.
pub fn runs_differ_in_choices_only()
    ensures replies { (input output other : List ℕ) (a b : Bool) (h : IsRun input output a) (k : IsRun input other b)
        → DifferInChoices h.commands h.answers.replies k.answers.replies }
    ensures as_many { (input output other : List ℕ) (a b : Bool) (h : IsRun input output a) (k : IsRun input other b)
        → length h.answers.replies ≡ length k.answers.replies }
    ensures refused { (input output other : List ℕ) (a b : Bool) → IsRun input output a → IsRun input other b
        → a ≡ b }
    ensures output { (input output other : List ℕ) (a b : Bool) (h : IsRun input output a) → list_any leaves_choice h.commands ≡ false
        → IsRun input other b → output ≡ other }
{}

/// Submissions, withdrawals, `show`, `table`, `ledger`, `dump`, and lines that are no command, leave no choice of their replies. Nor does
/// `explain` and `list` where they name no entry of the table.
pub fn replies_without_choice()
    ensures submission { (id : Option (List ℕ)) (document : List ℕ) → leaves_choice (command.Submission id document) ≡ false }
    ensures cut_off { leaves_choice command.CutOff ≡ false }
    ensures withdraw { (id : List ℕ) → leaves_choice (command.Withdraw id) ≡ false }
    ensures show { (numbers : EntryNumbers) → leaves_choice (command.Show numbers) ≡ false }
    ensures table { (numbers : TableNumbers) → leaves_choice (command.Table numbers) ≡ false }
    ensures explain { (side : Side) (numbers : EntryNumbers) → named_entry numbers ≡ None → leaves_choice (command.Explain side numbers) ≡ false }
    ensures list { (numbers : EntryNumbers) → named_entry numbers ≡ None → leaves_choice (command.List numbers) ≡ false }
    ensures ledger { leaves_choice command.Ledger ≡ false }
    ensures dump { leaves_choice command.Dump ≡ false }
    ensures unknown { leaves_choice command.Unknown ≡ false }
{}

/// Where the bounds that a session prints are said to be true, the answer to a submission, to a withdrawal, to a line that is no command and to a
/// submission that the input cuts short is one line, counted as the lines of an input are: no line of a bound can be a part of it.
pub fn other_answers_are_one_line()
    ensures submission { (id : Option (List ℕ)) (document text : List ℕ) → IsTrueAnswer (command.Submission id document) text
        → length (lines_of text) ≡ 1 }
    ensures cut_off { (text : List ℕ) → IsTrueAnswer command.CutOff text → length (lines_of text) ≡ 1 }
    ensures withdrawal { (id text : List ℕ) → IsTrueAnswer (command.Withdraw id) text → length (lines_of text) ≡ 1 }
    ensures withdrawal_of_all { (id text : List ℕ) → IsTrueAnswer (command.WithdrawAll id) text → length (lines_of text) ≡ 1 }
    ensures unknown { (text : List ℕ) → IsTrueAnswer command.Unknown text → length (lines_of text) ≡ 1 }
{}

/// The pieces that stand after the commands of an input are made by their documents, have different ids, and they and their words are
/// not too many. Over such pieces each side of an entry of the table has a best bound that derivations give, and it is true.
pub fn pieces_give_true_bounds()
    ensures standing { (input : List ℕ) → AreStanding (pieces_of input) }
    ensures bounds { (pieces : List PieceValue) (side : Side) (e : Entry) → AreStanding pieces → IsEntry e
        → (v : ℕ) × IsShownBound pieces side e v }
{}

/// A shown bound depends on what the standing pieces give to the table and on nothing else: not on pieces that were
/// withdrawn, nor on what was submitted before, nor on ids and documents. And over the same pieces a command that leaves no choice has one
/// reply.
pub fn shown_bounds_depend_on_standing_pieces()
    ensures bounds { (pieces other : List PieceValue) (side : Side) (e : Entry) (u v : ℕ)
        → supports_of pieces ≡ supports_of other → IsShownBound pieces side e u → IsShownBound other side e v → u ≡ v }
    ensures inputs { (first second : List ℕ) (c : Command) (r s : Reply)
        → leaves_choice c ≡ false → pieces_of first ≡ pieces_of second
        → IsReply (pieces_of first) c r → IsReply (pieces_of second) c s → r ≡ s }
{}
