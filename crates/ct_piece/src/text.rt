//! The texts of refused withdrawals and of the lines of a ledger.

ghost use Rattle.std.specs.Prelude.{◌≡◌, ◌++◌, OnOk, IfOk};
ghost use Rattle.ct_text.specs.Growing.{Grows};
ghost use Rattle.ct_piece.specs.Text.{withdraw_fault_text, size_text, cites_text, piece_text};

use crate::fault::WithdrawFault;
use crate::piece::Piece;
use ct_files::kind_of;
use ct_kind::put_named;
use ct_names::{Cite, Id};
use ct_text::{put_entry_words, put_spaced};
use std::alloc::{AllocError, Global};

/// Why the piece of this id is not withdrawn, in words; want of memory has none. `Err` is want of memory.
pub fn withdraw_refusal(alloc: Global, id: Id, fault: &WithdrawFault) -> Result<Vec<u8>, AllocError>
    ensures { IfOk result (λ text. text.items ≡ withdraw_fault_text id fault.now) }
{
    let mut text = Vec::new(alloc);
    match fault {
        WithdrawFault::NoSuch => put_named(&mut text, b"nosuch ", id)?,
        WithdrawFault::InUse(user) => put_named(&mut text, b"inuse ", *user)?,
        WithdrawFault::Memory => {}
    }
    Ok(text)
}

/// Puts a size at the end of the text, where there is one. After an `Err`, which is want of memory, a part of it may stand there.
pub fn put_size(alloc: Global, text: &mut Vec<u8>, size: Option<u32>) -> Result<(), AllocError>
    ensures ok { OnOk result (text.new.items ≡ text.old.items ++ size_text size) }
    ensures grown { Grows text.old.items text.new.items }
{
    match size {
        None => Ok(()),
        Some(size) => {
            text.extend_from_slice(b" size")?;
            put_spaced(alloc, text, u64::from(size))
        }
    }
}

/// Puts at the end of the text how many texts are cited, where one is.
fn put_cites(alloc: Global, text: &mut Vec<u8>, cites: &[Cite]) -> Result<(), AllocError>
    ensures { OnOk result (text.new.items ≡ text.old.items ++ cites_text cites.now) }
{
    if cites.is_empty() {
        return Ok(());
    }
    text.extend_from_slice(b" cites")?;
    put_spaced(alloc, text, cites.len() as u64)
}

/// Puts the line of a piece at the end of the text, without a line feed.
pub(crate) fn put_piece(alloc: Global, text: &mut Vec<u8>, piece: &Piece) -> Result<(), AllocError>
    ensures { OnOk result (text.new.items ≡ text.old.items ++ piece_text piece.now) }
{
    text.extend_from_slice(piece.id().text())?;
    text.push(b' ')?;
    text.extend_from_slice(kind_of(piece.evidence()).text)?;
    text.push(b' ')?;
    put_entry_words(alloc, text, piece.entry())?;
    put_size(alloc, text, piece.size())?;
    put_cites(alloc, text, piece.cites())
}
