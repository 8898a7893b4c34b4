//! The check of evidence that is handed in, and whether there is room for its piece.

ghost use Rattle.std.specs.Prelude.{◌≡◌, ◌≢◌, ◌<◌, ◌≤◌, ◌+◌, ℕ, List, Ok, Err, IfOk, IfErr, OnOk, [], vec_len, vec_capacity};
ghost use Rattle.ct_files.specs.Document.{document_read_of, value_of};
ghost use Rattle.ct_files.specs.Evidence.{IsSound};
ghost use Rattle.ct_kind.specs.KindParts.{stored_for};
ghost use Rattle.ct_kind.specs.Named.{NamedCode};
ghost use Rattle.ct_piece.specs.Codes.{codes_of};
ghost use Rattle.ct_files.specs.ByKind.{kind_of};
ghost use Rattle.ct_piece.specs.Piece.{PieceValue};
ghost use Rattle.ct_piece.specs.Standing.{AreMade};
ghost use Rattle.ct_piece.specs.Submission.{piece_from};
ghost use Rattle.ct_piece.specs.Inside.Making.{if_stored};
ghost use Rattle.ct_files.specs.Checked.{IsCheck};
ghost use Rattle.ct_pieces.specs.Inside.Checks.{IsRefused};
ghost use Rattle.ct_piece.specs.Inside.Kept.{kept_codes, AreKept};

use crate::kinds::check;
use ct_files::{Checked, Document, DocumentFault, Evidence, read_document, stored_for};
use ct_piece::{MAX_STORED, Piece, SubmitFault};
use ct_text::Text;
use ct_words::Code;
use std::alloc::Global;

/// How many words are stored with a piece of the evidence, which has this size, beside so many others, or that they are too many.
fn stored_with(stored: u64, evidence: &Evidence, size: Option<u32>) -> Result<u64, SubmitFault>
    requires sound { IsSound evidence.now }
    requires stored { stored ≤ MAX_STORED }
    ensures total { IfOk result (λ total. total ≡ stored + stored_for (kind_of evidence.now) size) }
    ensures few { IfOk result (λ total. total ≤ MAX_STORED) }
    ensures fault { IfErr result (λ fault. (p : PieceValue) → if_stored (stored + stored_for (kind_of evidence.now) size) p ≡ Err fault) }
{
    let total = stored + stored_for(evidence, size);
    if total > MAX_STORED {
        return Err(SubmitFault::FullWords(total));
    }
    Ok(total)
}

/// Makes room for one more of the pieces and one more of the codes, where the words of a piece of the evidence, which has this size, may be
/// stored beside so many: how many are stored with them. Pieces and codes stay as they are.
fn make_room(
    stored: u64,
    evidence: &Evidence,
    size: Option<u32>,
    pieces: &mut Vec<Piece>,
    kept: &mut Vec<Option<Code>>,
) -> Result<u64, SubmitFault>
    requires sound { IsSound evidence.now }
    requires stored { stored ≤ MAX_STORED }
    ensures total { IfOk result (λ total. total ≡ stored + stored_for (kind_of evidence.now) size) }
    ensures few { IfOk result (λ total. total ≤ MAX_STORED) }
    ensures fault { IfErr result (λ fault. fault ≢ SubmitFault.Memory
        → (p : PieceValue) → if_stored (stored + stored_for (kind_of evidence.now) size) p ≡ Err fault) }
    ensures pieces { pieces.new.items ≡ pieces.old.items }
    ensures kept { kept.new.items ≡ kept.old.items }
    ensures piece_room { OnOk result (vec_len pieces.new < vec_capacity pieces.new) }
    ensures code_room { OnOk result (vec_len kept.new < vec_capacity kept.new) }
{
    let total = stored_with(stored, evidence, size)?;
    pieces.reserve(1)?;
    kept.reserve(1)?;
    Ok(total)
}

/// The check of the evidence over the pieces, and how many words are stored with its piece, where these may be stored beside so many; or why it
/// makes no piece. There is room for one more piece then, and for one more code. The pieces stay as they are, and the codes of pieces that the
/// check needs are made and kept.
pub(crate) fn accept(
    alloc: Global,
    evidence: &Evidence,
    stored: u64,
    pieces: &mut Vec<Piece>,
    kept: &mut Vec<Option<Code>>,
) -> Result<(Checked, u64), SubmitFault>
    requires standing { AreMade [] pieces.old.items }
    requires kept { AreKept kept.old.items (kept_codes pieces.old.items) }
    requires sound { IsSound evidence.now }
    requires stored { stored ≤ MAX_STORED }
    ensures check { IfOk result (λ accepted. IsCheck (codes_of pieces.old.items) evidence.now (Ok accepted.0)) }
    ensures total { IfOk result (λ accepted. accepted.1 ≡ stored + stored_for (kind_of evidence.now) accepted.0.size) }
    ensures few { IfOk result (λ accepted. accepted.1 ≤ MAX_STORED) }
    ensures fault { IfErr result (λ fault. fault ≢ SubmitFault.Memory
        → IsRefused stored (codes_of pieces.old.items) evidence.now fault) }
    ensures pieces { pieces.new.items ≡ pieces.old.items }
    ensures codes { AreKept kept.new.items (kept_codes pieces.old.items) }
    ensures piece_room { OnOk result (vec_len pieces.new < vec_capacity pieces.new) }
    ensures code_room { OnOk result (vec_len kept.new < vec_capacity kept.new) }
{
    let checked = check(alloc, pieces, kept, evidence)?;
    let total = make_room(stored, evidence, checked.size, pieces, kept)?;
    Ok((checked, total))
}

/// What a document states, or why it makes no piece.
pub(crate) fn read(alloc: Global, document: &Text) -> Result<Document, SubmitFault>
    ensures stated { IfOk result (λ stated. document_read_of document.now ≡ Ok (value_of stated)) }
    ensures fault { IfErr result (λ fault. fault ≢ SubmitFault.Memory → (known : List NamedCode) (id : List ℕ)
        → piece_from known id document.now (document_read_of document.now) ≡ Err fault) }
{
    match read_document(alloc, document.bytes()) {
        Ok(stated) => Ok(stated),
        Err(DocumentFault::Memory) => Err(SubmitFault::Memory),
        Err(fault) => Err(SubmitFault::File(fault)),
    }
}
