//! The texts of replies.

ghost use Rattle.std.specs.Prelude.{◌≡◌, ◌++◌, codes, OnOk, OnErr, IfOk};
ghost use Rattle.std.specs.Fmt.{decimal};
ghost use Rattle.std.specs.List.{flat_map};
ghost use Rattle.ct_text.specs.EntryText.{entry_text};
ghost use Rattle.ct_text.specs.Growing.{Grows};
ghost use Rattle.ct_piece.specs.Text.{size_text, piece_text};
ghost use Rattle.ct_replies.specs.Text.{refusal_text, bounds_line, bounds_text, reply_text, ended, ledger_text};

use crate::reply::{Bounds, Refusal, Reply};
use ct_files::submit_refusal;
use ct_piece::{Piece, put_size, withdraw_refusal};
use ct_text::{LINE_FEED, put_entry, put_number};
use std::alloc::{AllocError, Global};

/// Puts at the end of the text why a command is refused.
fn put_refusal(alloc: Global, text: &mut Vec<u8>, refusal: &Refusal) -> Result<(), AllocError>
    ensures ok { OnOk result (text.new.items ≡ text.old.items ++ refusal_text refusal.now) }
    ensures grown { Grows text.old.items text.new.items }
{
    match refusal {
        Refusal::CutOff => text.extend_from_slice(b"cut"),
        Refusal::NoCommand => text.extend_from_slice(b"command"),
        Refusal::NoEntry => text.extend_from_slice(b"entry"),
        Refusal::Submission(fault) => text.extend_from_slice(&submit_refusal(alloc, fault)?),
        Refusal::Withdrawal(id, fault) => {
            text.extend_from_slice(&withdraw_refusal(alloc, *id, fault)?)
        }
    }
}

/// Puts an entry and its value at the end of the text.
fn put_value(alloc: Global, text: &mut Vec<u8>, bounds: Bounds) -> Result<(), AllocError>
    ensures ok { OnOk result (text.new.items ≡ text.old.items ++ (entry_text bounds.entry ++ codes " = " ++ decimal bounds.lower)) }
    ensures grown { Grows text.old.items text.new.items }
{
    put_entry(alloc, text, bounds.entry)?;
    text.extend_from_slice(b" = ")?;
    put_number(alloc, text, u64::from(bounds.lower))
}

/// Puts a lower bound and the entry at the end of the text.
fn put_lower(alloc: Global, text: &mut Vec<u8>, bounds: Bounds) -> Result<(), AllocError>
    ensures ok { OnOk result (text.new.items ≡ text.old.items ++ (decimal bounds.lower ++ codes " <= " ++ entry_text bounds.entry)) }
    ensures grown { Grows text.old.items text.new.items }
{
    put_number(alloc, text, u64::from(bounds.lower))?;
    text.extend_from_slice(b" <= ")?;
    put_entry(alloc, text, bounds.entry)
}

/// Puts the bounds of an entry at the end of the text.
fn put_bounds(alloc: Global, text: &mut Vec<u8>, bounds: Bounds) -> Result<(), AllocError>
    ensures ok { OnOk result (text.new.items ≡ text.old.items ++ bounds_text bounds.entry bounds.lower bounds.upper) }
    ensures grown { Grows text.old.items text.new.items }
{
    if bounds.lower == bounds.upper {
        return put_value(alloc, text, bounds);
    }
    put_lower(alloc, text, bounds)?;
    text.extend_from_slice(b" <= ")?;
    put_number(alloc, text, u64::from(bounds.upper))
}

/// Puts a line for each piece at the end of the text.
fn put_pieces(alloc: Global, text: &mut Vec<u8>, pieces: &[Piece]) -> Result<(), AllocError>
    ensures { OnOk result (text.new.items ≡ text.old.items ++ flat_map (λ p. ended (piece_text p)) pieces.now) }
{
    for piece in pieces {
        text.extend_from_slice(&piece.describe(alloc)?)?;
        text.push(LINE_FEED)?;
    }
    Ok(())
}

/// A line for each piece, and their number. `Err` is want of memory.
pub fn ledger_text(alloc: Global, pieces: &[Piece]) -> Result<Vec<u8>, AllocError>
    ensures { IfOk result (λ text. text.items ≡ ledger_text pieces.now) }
{
    let mut text = Vec::new(alloc);
    put_pieces(alloc, &mut text, pieces)?;
    text.extend_from_slice(b"pieces ")?;
    put_number(alloc, &mut text, pieces.len() as u64)?;
    text.push(LINE_FEED)?;
    Ok(text)
}

/// Puts a line for the bounds of an entry at the end of the text.
fn put_line(alloc: Global, text: &mut Vec<u8>, bounds: Bounds) -> Result<(), AllocError>
    ensures ok { OnOk result (text.new.items ≡ text.old.items ++ bounds_line bounds) }
    ensures grown { Grows text.old.items text.new.items }
{
    put_bounds(alloc, text, bounds)?;
    text.push(LINE_FEED)?;
    Ok(())
}

/// Puts a line for the bounds of each entry at the end of the text.
fn put_column(alloc: Global, text: &mut Vec<u8>, column: &[Bounds]) -> Result<(), AllocError>
    ensures ok { OnOk result (text.new.items ≡ text.old.items ++ flat_map bounds_line column.now) }
    ensures grown { Grows text.old.items text.new.items }
{
    for bounds in column {
        put_line(alloc, text, *bounds)?;
    }
    Ok(())
}

/// Puts a line of one word before an id, and what follows it, at the end of the text.
fn put_accepted(
    alloc: Global,
    text: &mut Vec<u8>,
    id: &[u8],
    size: Option<u32>,
) -> Result<(), AllocError>
    ensures ok { OnOk result (text.new.items ≡ text.old.items ++ ended (codes "accepted " ++ id.now ++ size_text size)) }
    ensures grown { Grows text.old.items text.new.items }
{
    text.extend_from_slice(b"accepted ")?;
    text.extend_from_slice(id)?;
    put_size(alloc, text, size)?;
    text.push(LINE_FEED)?;
    Ok(())
}

/// Puts the line of a withdrawal at the end of the text.
fn put_withdrawn(text: &mut Vec<u8>, id: &[u8]) -> Result<(), AllocError>
    ensures ok { OnOk result (text.new.items ≡ text.old.items ++ ended (codes "withdrawn " ++ id.now)) }
    ensures grown { Grows text.old.items text.new.items }
{
    text.extend_from_slice(b"withdrawn ")?;
    text.extend_from_slice(id)?;
    text.push(LINE_FEED)?;
    Ok(())
}

/// Puts the line of a withdrawal of so many pieces at the end of the text.
fn put_withdrawn_all(
    alloc: Global,
    text: &mut Vec<u8>,
    id: &[u8],
    count: u32,
) -> Result<(), AllocError>
    ensures ok { OnOk result (text.new.items ≡ text.old.items ++ ended (codes "withdrawn " ++ id.now ++ codes " count " ++ decimal count)) }
    ensures grown { Grows text.old.items text.new.items }
{
    text.extend_from_slice(b"withdrawn ")?;
    text.extend_from_slice(id)?;
    text.extend_from_slice(b" count ")?;
    put_number(alloc, text, u64::from(count))?;
    text.push(LINE_FEED)?;
    Ok(())
}

/// Puts the line of a refusal at the end of the text.
fn put_refused(alloc: Global, text: &mut Vec<u8>, refusal: &Refusal) -> Result<(), AllocError>
    ensures ok { OnOk result (text.new.items ≡ text.old.items ++ ended (codes "refused " ++ refusal_text refusal.now)) }
    ensures grown { Grows text.old.items text.new.items }
{
    text.extend_from_slice(b"refused ")?;
    put_refusal(alloc, text, refusal)?;
    text.push(LINE_FEED)?;
    Ok(())
}

/// Puts the reply at the end of the text. After an `Err`, a part of it may stand there.
#[tactic(auto, unfolding(crate::specs::Text::reply_text))]
fn put_lines(alloc: Global, text: &mut Vec<u8>, reply: &Reply) -> Result<(), AllocError>
    ensures ok { OnOk result (text.new.items ≡ text.old.items ++ reply_text reply.now) }
    ensures grown { Grows text.old.items text.new.items }
{
    match reply {
        Reply::Accepted(id, size) => put_accepted(alloc, text, id.text(), *size),
        Reply::Withdrawn(id) => put_withdrawn(text, id.text()),
        Reply::WithdrawnAll(id, count) => put_withdrawn_all(alloc, text, id.text(), *count),
        Reply::Shown(bounds) => put_line(alloc, text, *bounds),
        Reply::Table(column) => put_column(alloc, text, column.as_slice()),
        Reply::Lines(lines) => text.extend_from_slice(lines.bytes()),
        Reply::Refused(refusal) => put_refused(alloc, text, refusal),
    }
}

/// Puts the reply at the end of the text. After an `Err`, which is want of memory, the text is as before.
pub fn put_reply(alloc: Global, text: &mut Vec<u8>, reply: &Reply) -> Result<(), AllocError>
    ensures ok { OnOk result (text.new.items ≡ text.old.items ++ reply_text reply.now) }
    ensures err { OnErr result (text.new.items ≡ text.old.items) }
{
    let length = text.len();
    let put = put_lines(alloc, text, reply);
    if put.is_err() {
        text.truncate(length);
    }
    put
}
