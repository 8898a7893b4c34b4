//! Pieces of evidence by themselves, without a table.

ghost use Rattle.std.specs.Prelude.{◌≡◌, ◌≢◌, ◌<◌, ◌+◌, ◌^◌, ◌∷◌, ◌++◌, List, Result, Ok, Err, Some, None, false, IfOk, IfErr, IfSome, IsSome, IsTrue, OnOk, OnErr, [], All, find, is_some, length, option_map, remove, true};
ghost use Rattle.ct_words.specs.Code.{IsSoundCode};
ghost use Rattle.ct_names.specs.Id.{is_id};
ghost use Rattle.ct_files.specs.Document.{document_read_of, value_of, without_cites};
ghost use Rattle.ct_piece.specs.Piece.{PieceValue, has_id, stored_by, stored_words, first_user};
ghost use Rattle.ct_piece.specs.Codes.{code_of_place};
ghost use Rattle.ct_piece.specs.Submission.{submitted};
ghost use Rattle.ct_piece.specs.Inside.Making.{unless_full};
ghost use Rattle.ct_kind.specs.declared.fault.SubmitFault.{SubmitFault};
ghost use Rattle.ct_piece.specs.Withdrawal.{withdrawn, withdrawn_all, taken_along, without_all, marks_along};
ghost use Rattle.ct_piece.specs.Standing.{AreStanding, HasTrueSize};
ghost use Rattle.ct_piece.specs.Dump.{dump_text};
ghost use Rattle.ct_piece.specs.Submission.{AddsPiece};
ghost use Rattle.ct_piece.specs.Supports.{supports_of};
ghost use Rattle.ct_piece.specs.Piece.{place_of_id};

use crate::along::{leave_out, marks_along, stored_words};
use crate::builds::keep_code;
use crate::check::{accept, read};
use crate::kept::{code_at_place, place_of};
use crate::new_piece::NewPiece;
use crate::standing::has_code;
use ct_files::{Checked, Document, Evidence, kind_of, names, stored_for};
use ct_names::Id;
use ct_piece::{MAX_PIECES, Piece, SubmitFault, WithdrawFault, put_dump};
use ct_text::Text;
use ct_words::Code;
use std::alloc::{AllocError, Global};
use std::marker::Model;

/// The pieces of evidence that were accepted and not withdrawn, in the order in which they were accepted, without a table of what
/// they give. Contracts see the list of the pieces. The code of a build is kept beside it, once its words were needed.
pub struct Pieces {
    pieces: Vec<Piece>,
    kept: Vec<Option<Code>>,
    stored: u64,
}

impl Drop for Pieces {
    fn drop(self) {
        let Pieces {
            pieces: _,
            kept: _,
            stored: _,
        } = self;
    }
}

impl Model for Pieces {
    ghost use Rattle.std.specs.Prelude.{◌≡◌, List};
    ghost use Rattle.ct_piece.specs.Piece.{PieceValue, stored_words};
    ghost use Rattle.ct_piece.specs.Standing.{AreStanding};
    ghost use Rattle.ct_piece.specs.Inside.Kept.{kept_codes, AreKept};

    ghost Value = { List PieceValue };

    ghost view = { λ l. l.pieces.items };

    ghost invariant = { λ l. AreStanding l.pieces.items × (l.stored ≡ stored_words l.pieces.items) × AreKept l.kept.items (kept_codes l.pieces.items) };
}

/// How many words the piece stores.
pub(crate) fn stored_by(piece: &Piece) -> u64
    ensures words { result ≡ stored_by piece.now }
    ensures bound { result < 2 ^ 63 }
{
    stored_for(piece.evidence(), piece.size())
}

/// Whether a piece has the id.
fn has_id(pieces: &[Piece], id: Id) -> bool
    ensures has { result ≡ has_id id pieces.now }
    ensures id { IsTrue (is_id id) }
{
    let name = id.text();
    pieces.iter().any(|piece| piece.name() == name)
}

/// Takes the piece at the place out, and the code that is kept beside it: how many words it stores.
fn take_at(pieces: &mut Vec<Piece>, kept: &mut Vec<Option<Code>>, place: usize) -> u64
    requires place { place < length pieces.old.items }
    requires long { length kept.old.items ≡ length pieces.old.items }
    ensures pieces { pieces.new.items ≡ remove pieces.old.items place }
    ensures kept { kept.new.items ≡ remove kept.old.items place }
    ensures stored { stored_words pieces.new.items + result ≡ stored_words pieces.old.items }
{
    let words = stored_by(&pieces[place]);
    drop(pieces.remove(place));
    drop(kept.remove(place));
    words
}

/// The first piece that names the id.
fn first_user(pieces: &[Piece], id: Id) -> Option<Id>
    ensures { result ≡ option_map (λ p. p.id) (first_user id pieces.now) }
{
    pieces
        .iter()
        .find(|piece| names(piece.evidence(), id))
        .map(|piece| piece.id())
}

/// Whether there is room for one more piece, of this id.
fn room_for(pieces: &[Piece], id: Id) -> Result<(), SubmitFault>
    ensures id { IsTrue (is_id id) }
    ensures free { OnOk result (has_id id pieces.now ≡ false) }
    ensures room { OnOk result (length pieces.now < MAX_PIECES) }
    ensures fault { IfErr result (λ fault. (made : Result PieceValue SubmitFault)
        → unless_full (has_id id pieces.now) (length pieces.now) made ≡ Err fault) }
{
    if has_id(pieces, id) {
        return Err(SubmitFault::Taken);
    }
    if pieces.len() >= MAX_PIECES {
        return Err(SubmitFault::FullPieces(pieces.len() as u64));
    }
    Ok(())
}

impl Pieces {
    /// No pieces.
    pub fn new(alloc: Global) -> Pieces
        ensures { result ≡ [] }
    {
        Pieces {
            pieces: Vec::new(alloc),
            kept: Vec::new(alloc),
            stored: 0,
        }
    }

    /// The pieces that stand, in the order in which they were accepted.
    pub fn pieces(&self) -> &[Piece]
        ensures pieces { result.now ≡ self.now }
        ensures standing { AreStanding self.now }
        ensures sizes { All HasTrueSize self.now }
    {
        &self.pieces
    }

    /// How many words the pieces store: those that their documents list, and those of the codes of builds.
    pub fn stored(&self) -> u64
        ensures { result ≡ stored_words self.now }
    {
        self.stored
    }

    /// The place of the piece with the id, where there is one.
    pub fn place_of(&self, id: Id) -> Option<usize>
        ensures place { result ≡ place_of_id id self.now }
        ensures few { IfSome result (λ place. place < MAX_PIECES) }
    {
        place_of(&self.pieces, id)
    }

    /// Whether the piece at the place has a code: whether its kind has one. A partition and a dual have none.
    pub fn has_code(&self, place: usize) -> bool
        requires place { place < length self.now }
        ensures { result ≡ is_some (code_of_place self.now place) }
    {
        has_code(&self.pieces, place)
    }

    /// The dump of the pieces: a session whose commands lead to them, with their own documents. `Err` is want of memory.
    pub fn dump(&self, alloc: Global) -> Result<Vec<u8>, AllocError>
        ensures { IfOk result (λ text. text.items ≡ dump_text self.now) }
    {
        let mut text = Vec::new(alloc);
        put_dump(alloc, &mut text, &self.pieces)?;
        Ok(text)
    }

    /// Where the pieces are kept.
    pub fn allocator(&self) -> Global {
        *self.pieces.allocator()
    }

    /// Takes a document under an id, which it keeps byte for byte: the size of its code, where it is accepted, and what it gives to a table. Else
    /// it gives the first fault, and the pieces are as before.
    pub fn submit(&mut self, id: Id, document: &[u8]) -> Result<NewPiece, SubmitFault>
        ensures accepted { IfOk result (λ new_piece. AddsPiece self.old self.new id document.now new_piece.size) }
        ensures supports { IfOk result (λ new_piece. supports_of self.new ≡ supports_of self.old ++ new_piece.support ∷ []) }
        ensures standing { OnOk result (AreStanding self.new) }
        ensures fault { IfErr result (λ fault. fault ≢ SubmitFault.Memory → submitted self.old id document.now ≡ Err fault) }
        ensures unchanged { OnErr result (self.new ≡ self.old) }
    {
        let text = Text::copied(self.allocator(), document)?;
        self.submit_text(id, text)
    }

    /// `submit` of a document that is handed over, and so is not copied.
    #[tactic(auto, unfolding(ct_piece::specs::Submission::submitted))]
    pub fn submit_text(&mut self, id: Id, document: Text) -> Result<NewPiece, SubmitFault>
        ensures accepted { IfOk result (λ new_piece. AddsPiece self.old self.new id document new_piece.size) }
        ensures supports { IfOk result (λ new_piece. supports_of self.new ≡ supports_of self.old ++ new_piece.support ∷ []) }
        ensures standing { OnOk result (AreStanding self.new) }
        ensures fault { IfErr result (λ fault. fault ≢ SubmitFault.Memory → submitted self.old id document ≡ Err fault) }
        ensures unchanged { OnErr result (self.new ≡ self.old) }
    {
        room_for(&self.pieces, id)?;
        let stated = read(self.allocator(), &document)?;
        self.put_read(id, document, stated)
    }

    /// `submit_text` of a document without cites that is handed over with the evidence that it reads as: the document is kept, and is not
    /// read again.
    #[tactic(auto, unfolding(ct_piece::specs::Submission::submitted))]
    pub fn admit(
        &mut self,
        id: Id,
        evidence: Evidence,
        document: Text,
    ) -> Result<NewPiece, SubmitFault>
        requires read { document_read_of document ≡ Ok (without_cites evidence) }
        ensures accepted { IfOk result (λ new_piece. AddsPiece self.old self.new id document new_piece.size) }
        ensures supports { IfOk result (λ new_piece. supports_of self.new ≡ supports_of self.old ++ new_piece.support ∷ []) }
        ensures standing { OnOk result (AreStanding self.new) }
        ensures fault { IfErr result (λ fault. fault ≢ SubmitFault.Memory → submitted self.old id document ≡ Err fault) }
        ensures unchanged { OnErr result (self.new ≡ self.old) }
    {
        room_for(&self.pieces, id)?;
        let cites = Vec::new(self.allocator());
        self.put_read(id, document, Document { evidence, cites })
    }

    /// Takes a document that was read, where its id is free and there is room for one more piece: as `submit_text` from there on.
    fn put_read(
        &mut self,
        id: Id,
        document: Text,
        stated: Document,
    ) -> Result<NewPiece, SubmitFault>
        requires read { document_read_of document ≡ Ok (value_of stated) }
        requires named { IsTrue (is_id id) }
        requires free { has_id id self.old ≡ false }
        requires room { length self.old < MAX_PIECES }
        ensures accepted { IfOk result (λ new_piece. AddsPiece self.old self.new id document new_piece.size) }
        ensures supports { IfOk result (λ new_piece. supports_of self.new ≡ supports_of self.old ++ new_piece.support ∷ []) }
        ensures standing { OnOk result (AreStanding self.new) }
        ensures fault { IfErr result (λ fault. fault ≢ SubmitFault.Memory → submitted self.old id document ≡ Err fault) }
        ensures unchanged { OnErr result (self.new ≡ self.old) }
    {
        let alloc = self.allocator();
        let (checked, stored) = accept(
            alloc,
            &stated.evidence,
            self.stored,
            &mut self.pieces,
            &mut self.kept,
        )?;
        let Checked {
            size,
            kept,
            support,
        } = checked;
        let entry = kind_of(&stated.evidence).entry;
        let piece = Piece::new(id, document, stated, entry, size);
        self.pieces.push_reserved(piece);
        self.kept.push_reserved(kept);
        self.stored = stored;
        Ok(NewPiece { size, support })
    }

    /// Takes the last piece out; there is one.
    pub fn take_back(&mut self)
        requires { 0 < length self.old }
        ensures { (front : List PieceValue) (p : PieceValue) → self.old ≡ front ++ p ∷ [] → self.new ≡ front }
    {
        let last = self.pieces.len() - 1;
        self.stored -= take_at(&mut self.pieces, &mut self.kept, last);
    }

    /// The place of the piece with the id, where it can be withdrawn. `NoSuch` comes exactly where no piece has it, and `InUse` where
    /// another names it.
    pub fn place_to_leave(&self, id: Id) -> Result<usize, WithdrawFault>
        ensures place { IfOk result (λ place. place_of_id id self.now ≡ Some place) }
        ensures free { OnOk result (option_map (λ p. p.id) (first_user id self.now) ≡ None) }
        ensures fault { IfErr result (λ fault. withdrawn self.now id ≡ Err fault) }
    {
        let Some(place) = place_of(&self.pieces, id) else {
            return Err(WithdrawFault::NoSuch);
        };
        if let Some(user) = first_user(&self.pieces, id) {
            return Err(WithdrawFault::InUse(user));
        }
        Ok(place)
    }

    /// Takes the piece of the id out, which stands at the place, and which no piece names.
    pub fn take_out(&mut self, id: Id, place: usize)
        requires place { place_of_id id self.old ≡ Some place }
        requires free { option_map (λ p. p.id) (first_user id self.old) ≡ None }
        ensures pieces { self.new ≡ remove self.old place }
        ensures left { withdrawn self.old id ≡ Ok self.new }
    {
        self.stored -= take_at(&mut self.pieces, &mut self.kept, place);
    }

    /// For each piece, whether it goes where the piece of the id is withdrawn with all that rests on it. `NoSuch` comes exactly where no
    /// piece has the id.
    pub fn marks_to_leave(&self, id: Id) -> Result<Vec<bool>, WithdrawFault>
        ensures marks { IfOk result (λ gone. gone.items ≡ marks_along self.now id) }
        ensures stands { OnOk result (has_id id self.now ≡ true) }
        ensures fault { IfErr result (λ fault. fault ≢ WithdrawFault.Memory → withdrawn_all self.now id ≡ Err fault) }
    {
        if !has_id(&self.pieces, id) {
            return Err(WithdrawFault::NoSuch);
        }
        Ok(marks_along(self.allocator(), &self.pieces, id)?)
    }

    /// Takes out the piece of the id, which stands, with all that rests on it, which are marked: how many pieces these are.
    pub fn take_out_all(&mut self, id: Id, gone: &[bool]) -> u32
        requires stands { has_id id self.old ≡ true }
        requires marks { gone.now ≡ marks_along self.old id }
        ensures pieces { self.new ≡ without_all (taken_along self.old id) self.old }
        ensures left { withdrawn_all self.old id ≡ Ok self.new }
        ensures count { result + length self.new ≡ length self.old }
    {
        let before = self.pieces.len();
        leave_out(&mut self.pieces, gone);
        leave_out(&mut self.kept, gone);
        self.stored = stored_words(&self.pieces);
        (before - self.pieces.len()) as u32
    }

    /// The code of the piece at the place, whose kind has one, over the codes of its parts: its length, distance and weight are
    /// those of the piece's entry, and its words are those of the document, of all choices of cosets, those that the step
    /// makes, or the product. Codes of builds that it needs are made, where they are not kept, and are kept from then on; the pieces
    /// stay the same. `Err` is want of memory.
    pub fn code(&mut self, alloc: Global, place: usize) -> Result<Code, AllocError>
        requires place { place < length self.old }
        requires coded { IsSome (code_of_place self.old place) }
        ensures code { IfOk result (λ code. code_of_place self.old place ≡ Some code) }
        ensures sound { IfOk result IsSoundCode }
        ensures unchanged { self.new ≡ self.old }
    {
        keep_code(alloc, &self.pieces, &mut self.kept, place)?;
        code_at_place(alloc, &self.pieces, &self.kept, place)
    }
}
