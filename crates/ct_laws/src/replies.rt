//! Replies over the same pieces, beside each other.

ghost use Rattle.std.specs.Prelude.{◌≡◌, ◌≤◌, ℕ, All, Bool, false, List, length, slice_get, Some};
ghost use Rattle.ct_words.specs.Claim.{IsTrueClaim};
ghost use Rattle.ct_words.specs.Code.{CodeValue, IsSoundCode};
ghost use Rattle.ct_words.specs.declared.claim.Side.{Side};
ghost use Rattle.ct_words.specs.declared.entry.Entry.{Entry};
ghost use Rattle.ct_commands.specs.declared.command.Command.TheVariants as command;
ghost use Rattle.ct_text.specs.declared.entry_numbers.EntryNumbers.{EntryNumbers};
ghost use Rattle.ct_derive.specs.Derivation.{DerivationValue};
ghost use Rattle.ct_derive.specs.Explanation.{IsExplanation};
ghost use Rattle.ct_explain.specs.Explained.{explanation_text};
ghost use Rattle.ct_fields.specs.declared.document.TheConstants.{MAX_DOCUMENT};
ghost use Rattle.ct_piece.specs.Piece.{PieceValue};
ghost use Rattle.ct_piece.specs.Standing.{AreStanding};
ghost use Rattle.ct_piece.specs.Supports.{supports_of};
ghost use Rattle.ct_rule_codes.specs.CodeEntry.{entry_of_code};
ghost use Rattle.ct_session.specs.Reply.{AreBoundsOf, IsReply};
ghost use Rattle.ct_replies.specs.Refusals.{is_refusal};
ghost use Rattle.ct_session.specs.Run.{IsRun};
ghost use Rattle.ct_replies.specs.Text.{listed_text, reply_text};
ghost use Rattle.ct_replies.specs.declared.reply.Bounds.{Bounds};
ghost use Rattle.ct_replies.specs.declared.reply.Reply.{Reply};
ghost use Rattle.ct_replies.specs.declared.reply.Reply.TheVariants.{Shown, Lines};
ghost use Rattle.ct_verify.specs.Document.{IsVerified};
ghost use Rattle.ct_laws.specs.GreatestSize.{IsGreatestSize};
ghost use Rattle.ct_laws.specs.Sides.{bound_on};

/// What `explain` shows over the same pieces is an explanation of the bound that `show` shows, and where they stand, all that it claims is
/// true.
pub fn explained_bounds_are_shown()
    ensures { (pieces : List PieceValue) (side : Side) (numbers : EntryNumbers) (b : Bounds) (r : Reply) → AreStanding pieces
        → IsReply pieces (command.Show numbers) (Shown b) → IsReply pieces (command.Explain side numbers) r
        → (d : DerivationValue) × IsExplanation (supports_of pieces) (side, b.entry) (bound_on side b) d.lines
        × (r ≡ Lines (explanation_text pieces d)) × All (λ l. IsTrueClaim l.claim) d.lines }
{}

/// Where `show` writes `A(N,D) = V` or `A(N,D,W) = V`, as it does where the two bounds are equal, V is that number: some code of the entry has
/// so many words, and none has more. The same of each line of `table`.
pub fn equal_bounds_are_exact()
    ensures show { (pieces : List PieceValue) (numbers : EntryNumbers) (b : Bounds)
        → IsReply pieces (command.Show numbers) (Shown b) → b.lower ≡ b.upper → IsGreatestSize b.entry b.lower }
    ensures entry { (pieces : List PieceValue) (e : Entry) (b : Bounds) → AreBoundsOf pieces e b → b.lower ≡ b.upper → IsGreatestSize e b.lower }
{}

/// What `list` shows over the same pieces is a code of the entry with just as many words as the lower bound that `show` shows.
pub fn shown_lower_bounds_are_listed()
    ensures { (pieces : List PieceValue) (numbers : EntryNumbers) (b : Bounds) (r : Reply)
        → IsReply pieces (command.Show numbers) (Shown b) → IsReply pieces (command.List numbers) r
        → (c : CodeValue) × IsSoundCode c × (entry_of_code c ≡ b.entry) × (length c.words ≡ b.lower) × (r ≡ Lines (listed_text c)) }
{}

/// Each reply to `explain` that is no refusal is a document that is verified: over pieces that stand, whose documents are at most
/// `MAX_DOCUMENT` bytes long; and so each such reply in a run of whatever input.
pub fn explained_bounds_are_verified()
    ensures reply { (pieces : List PieceValue) (side : Side) (numbers : EntryNumbers) (r : Reply) → AreStanding pieces
        → All (λ p. length p.document ≤ MAX_DOCUMENT) pieces → IsReply pieces (command.Explain side numbers) r
        → is_refusal r ≡ false → IsVerified (reply_text r) }
    ensures run { (input output : List ℕ) (refused : Bool) (answers : IsRun input output refused) (k : ℕ) (side : Side)
        (numbers : EntryNumbers) (r : Reply) → slice_get answers.commands k ≡ Some (command.Explain side numbers)
        → slice_get answers.answers.replies k ≡ Some r → is_refusal r ≡ false → IsVerified (reply_text r) }
{}
