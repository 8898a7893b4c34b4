//! The ledger.

ghost use Rattle.std.specs.Prelude.{◌≡◌, ◌≢◌, ◌+◌, ◌<◌, ◌∷◌, ◌++◌, List, Ok, Err, IfOk, IfErr, IsSome, OnOk, OnErr, [], All, is_some, length};
ghost use Rattle.ct_words.specs.Code.{IsSoundCode};
ghost use Rattle.ct_piece.specs.Piece.{PieceValue, stored_words};
ghost use Rattle.ct_piece.specs.Codes.{code_of_place};
ghost use Rattle.ct_files.specs.Document.{document_read_of, without_cites};
ghost use Rattle.ct_piece.specs.Submission.{submitted};
ghost use Rattle.ct_kind.specs.declared.fault.SubmitFault.{SubmitFault};
ghost use Rattle.ct_piece.specs.Withdrawal.{withdrawn, withdrawn_all};
ghost use Rattle.ct_piece.specs.Supports.{supports_of};
ghost use Rattle.ct_piece.specs.Standing.{AreStanding, HasTrueSize};
ghost use Rattle.ct_piece.specs.Submission.{AddsPiece};
ghost use Rattle.ct_piece.specs.Dump.{dump_text};

use ct_files::Evidence;
use ct_names::Id;
use ct_piece::{Piece, SubmitFault, WithdrawFault};
use ct_pieces::Pieces;
use ct_rule_parts::Support;
use ct_table::Table;
use ct_text::Text;
use ct_words::Code;
use std::alloc::{AllocError, Global};
use std::marker::Model;

/// The pieces of evidence that were accepted and not withdrawn, in the order in which they were accepted, and the table of
/// the bounds that they give. Contracts see the list of the pieces, the number of words that they store, and the table.
pub struct Ledger {
    pieces: Pieces,
    table: Table,
}

impl Drop for Ledger {
    fn drop(self) {
        let Ledger {
            pieces: _,
            table: _,
        } = self;
    }
}

impl Model for Ledger {
    ghost use Rattle.std.specs.Prelude.{◌≡◌};
    ghost use Rattle.ct_piece.specs.Piece.{stored_words};
    ghost use Rattle.ct_piece.specs.Supports.{supports_of};
    ghost use Rattle.ct_ledger.specs.Ledger.{LedgerValue};

    ghost Value = { LedgerValue };

    ghost view = { λ l. record { pieces = l.pieces; stored = stored_words l.pieces; table = l.table } };

    ghost invariant = { λ l. l.table.supports ≡ supports_of l.pieces };
}

/// Takes the last of the pieces out again, where memory ran out.
fn give_up(pieces: &mut Pieces) -> SubmitFault
    requires { 0 < length pieces.old }
    ensures left { (front : List PieceValue) (p : PieceValue) → pieces.old ≡ front ++ p ∷ [] → pieces.new ≡ front }
    ensures fault { result ≡ SubmitFault.Memory }
{
    pieces.take_back();
    SubmitFault::Memory
}

/// Puts at the end of the table, which holds what the pieces before the last give, what the last gives. Where memory runs out, takes that
/// piece out again.
fn put_support(pieces: &mut Pieces, table: &mut Table, support: Support) -> Result<(), SubmitFault>
    requires standing { AreStanding pieces.old }
    requires last { supports_of pieces.old ≡ table.old.supports ++ support ∷ [] }
    ensures kept { OnOk result (pieces.new ≡ pieces.old) }
    ensures supports { OnOk result (table.new.supports ≡ supports_of pieces.old) }
    ensures left { OnErr result ((front : List PieceValue) (p : PieceValue) → pieces.old ≡ front ++ p ∷ [] → pieces.new ≡ front) }
    ensures unchanged { OnErr result (table.new ≡ table.old) }
    ensures fault { IfErr result (λ fault. fault ≡ SubmitFault.Memory) }
{
    if table.add(support).is_err() {
        return Err(give_up(pieces));
    }
    Ok(())
}

impl Ledger {
    /// A ledger without pieces. `Err` is want of memory.
    pub fn new(alloc: Global) -> Result<Ledger, AllocError>
        ensures { IfOk result (λ ledger. ledger.pieces ≡ []) }
    {
        Ok(Ledger {
            pieces: Pieces::new(alloc),
            table: Table::new(alloc)?,
        })
    }

    /// The pieces that stand, in the order in which they were accepted.
    pub fn pieces(&self) -> &[Piece]
        ensures pieces { result.now ≡ self.now.pieces }
        ensures standing { AreStanding self.now.pieces }
        ensures sizes { All HasTrueSize self.now.pieces }
    {
        self.pieces.pieces()
    }

    /// The table of the bounds that the pieces give: its supports are theirs, place by place.
    pub fn table(&self) -> &Table
        ensures table { result.now ≡ self.now.table }
        ensures supports { result.now.supports ≡ supports_of self.now.pieces }
    {
        &self.table
    }

    /// How many words the pieces store: those that their documents list, and those of the codes of builds.
    pub fn stored(&self) -> u64
        ensures stored { result ≡ self.now.stored }
        ensures sum { result ≡ stored_words self.now.pieces }
    {
        self.pieces.stored()
    }

    /// Takes a document under an id, which it keeps byte for byte: the size of its code, where it is accepted. Else it gives
    /// the first fault, and the ledger is as before.
    pub fn submit(&mut self, id: Id, document: &[u8]) -> Result<Option<u32>, SubmitFault>
        ensures accepted { IfOk result (AddsPiece self.old.pieces self.new.pieces id document.now) }
        ensures fault { IfErr result (λ fault. fault ≢ SubmitFault.Memory
            → submitted self.old.pieces id document.now ≡ Err fault) }
        ensures unchanged { OnErr result (self.new ≡ self.old) }
    {
        let text = Text::copied(self.pieces.allocator(), document)?;
        self.submit_text(id, text)
    }

    /// `submit` of a document that is handed over, and so is not copied.
    pub fn submit_text(&mut self, id: Id, document: Text) -> Result<Option<u32>, SubmitFault>
        ensures accepted { IfOk result (AddsPiece self.old.pieces self.new.pieces id document) }
        ensures fault { IfErr result (λ fault. fault ≢ SubmitFault.Memory
            → submitted self.old.pieces id document ≡ Err fault) }
        ensures unchanged { OnErr result (self.new ≡ self.old) }
    {
        let new_piece = self.pieces.submit_text(id, document)?;
        put_support(&mut self.pieces, &mut self.table, new_piece.support)?;
        Ok(new_piece.size)
    }

    /// `submit_text` of a document without cites that is handed over with the evidence that it reads as: the document is kept, and is not
    /// read again.
    pub fn admit(
        &mut self,
        id: Id,
        evidence: Evidence,
        document: Text,
    ) -> Result<Option<u32>, SubmitFault>
        requires read { document_read_of document ≡ Ok (without_cites evidence) }
        ensures accepted { IfOk result (AddsPiece self.old.pieces self.new.pieces id document) }
        ensures fault { IfErr result (λ fault. fault ≢ SubmitFault.Memory
            → submitted self.old.pieces id document ≡ Err fault) }
        ensures unchanged { OnErr result (self.new ≡ self.old) }
    {
        let new_piece = self.pieces.admit(id, evidence, document)?;
        put_support(&mut self.pieces, &mut self.table, new_piece.support)?;
        Ok(new_piece.size)
    }

    /// Takes the piece of the id out. `NoSuch` comes exactly where no piece has it, and `InUse` where another names it. After an
    /// `Err` the ledger is as before, its table too.
    pub fn withdraw(&mut self, id: Id) -> Result<(), WithdrawFault>
        ensures left { OnOk result (withdrawn self.old.pieces id ≡ Ok self.new.pieces) }
        ensures fault { IfErr result (λ fault. fault ≢ WithdrawFault.Memory
            → withdrawn self.old.pieces id ≡ Err fault) }
        ensures unchanged { OnErr result (self.new ≡ self.old) }
    {
        let place = self.pieces.place_to_leave(id)?;
        self.table.remove(place)?;
        self.pieces.take_out(id, place);
        Ok(())
    }

    /// Takes the piece of the id out with all that rests on it: how many pieces these are. `NoSuch` comes exactly where no piece has
    /// the id. After an `Err` the ledger is as before, its table too.
    pub fn withdraw_all(&mut self, id: Id) -> Result<u32, WithdrawFault>
        ensures left { OnOk result (withdrawn_all self.old.pieces id ≡ Ok self.new.pieces) }
        ensures count { IfOk result (λ count. count + length self.new.pieces ≡ length self.old.pieces) }
        ensures fault { IfErr result (λ fault. fault ≢ WithdrawFault.Memory
            → withdrawn_all self.old.pieces id ≡ Err fault) }
        ensures unchanged { OnErr result (self.new ≡ self.old) }
    {
        let gone = self.pieces.marks_to_leave(id)?;
        self.table.remove_all(&gone)?;
        Ok(self.pieces.take_out_all(id, &gone))
    }

    /// Whether the piece at the place has a code: whether its kind has one. A partition and a dual have none.
    pub fn has_code(&self, place: usize) -> bool
        requires place { place < length self.now.pieces }
        ensures { result ≡ is_some (code_of_place self.now.pieces place) }
    {
        self.pieces.has_code(place)
    }

    /// The code of the piece at the place, whose kind has one, over the codes of its parts: its length, distance and weight are
    /// those of the piece's entry, and its words are those of the document, of all choices of cosets, those that the step
    /// makes, or the product. Codes of builds that it needs are made, where they are not kept, and are kept from then on; the ledger
    /// stays the same. `Err` is want of memory.
    pub fn code(&mut self, alloc: Global, place: usize) -> Result<Code, AllocError>
        requires place { place < length self.old.pieces }
        requires coded { IsSome (code_of_place self.old.pieces place) }
        ensures code { IfOk result (λ code. code_of_place self.old.pieces place ≡ Some code) }
        ensures sound { IfOk result IsSoundCode }
        ensures unchanged { self.new ≡ self.old }
    {
        self.pieces.code(alloc, place)
    }

    /// The dump of the pieces: a session whose commands lead to them, with their own documents. `Err` is want of memory.
    pub fn dump(&self, alloc: Global) -> Result<Vec<u8>, AllocError>
        ensures { IfOk result (λ text. text.items ≡ dump_text self.now.pieces) }
    {
        self.pieces.dump(alloc)
    }
}
