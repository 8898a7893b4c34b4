//! The text of a dual that is proposed.

ghost use Rattle.ct_find.specs.Inside.Texts.{bound_line, dual_evidence, pair_text, pairs_text, weight_part};
ghost use Rattle.std.specs.Prelude.{◌≡◌, ◌++◌, [], codes, IfOk, OnOk};
ghost use Rattle.ct_words.specs.Entry.{IsEntry};
ghost use Rattle.ct_duals.specs.Dual.{IsDual};
ghost use Rattle.ct_files.specs.Evidence.{IsSound};
ghost use Rattle.ct_find.specs.Proposal.{comments, find_id, found_dual, primal_line, stop_text, AnswersEntry, IsProposal};

use crate::found::found_for;
use ct_commands::put_submission;
use ct_duals::Dual;
use ct_files::write_evidence;
use ct_finder::{Found, Stop};
use ct_kind::Evidence;
use ct_text::{LINE_FEED, put_number};
use ct_words::Entry;
use std::alloc::{AllocError, Global};

/// The dual, which allows nothing, as evidence: of kind dual where its entry has no weight, else of kind jdual.
fn dual_evidence(dual: Dual) -> Evidence
    requires form { IsDual dual }
    requires nothing { dual.y ≡ [] }
    ensures evidence { result ≡ dual_evidence dual.entry.w dual }
    ensures sound { IsSound result }
{
    match dual.entry.w {
        None => Evidence::Dual(dual),
        Some(_) => Evidence::JohnsonDual(dual),
    }
}

/// Puts at the end of the text how the run stopped.
fn put_stop(alloc: Global, text: &mut Vec<u8>, stop: &Stop) -> Result<(), AllocError>
    ensures { OnOk result (text.new.items ≡ text.old.items ++ stop_text stop.now) }
{
    match stop {
        Stop::Least(_) => text.extend_from_slice(b"least"),
        Stop::Turns(pivots) => {
            text.extend_from_slice(b"turns ")?;
            put_number(alloc, text, u64::from(*pivots))
        }
        Stop::Wide(_) => text.extend_from_slice(b"wide"),
    }
}

/// Puts the comment with the bound at the end of the text.
fn put_bound(alloc: Global, text: &mut Vec<u8>, bound: u32, stop: &Stop) -> Result<(), AllocError>
    ensures { OnOk result (text.new.items ≡ text.old.items ++ bound_line bound stop.now) }
{
    text.extend_from_slice(b"# bound ")?;
    put_number(alloc, text, u64::from(bound))?;
    text.push(b' ')?;
    put_stop(alloc, text, stop)?;
    text.push(LINE_FEED)?;
    Ok(())
}

/// Puts an index of a primal with its number at the end of the text.
fn put_pair(alloc: Global, text: &mut Vec<u8>, i: u32, number: i64) -> Result<(), AllocError>
    ensures { OnOk result (text.new.items ≡ text.old.items ++ pair_text (i, number)) }
{
    text.push(b' ')?;
    put_number(alloc, text, u64::from(i))?;
    text.push(b':')?;
    put_number(alloc, text, number.unsigned_abs())
}

/// Puts the indices of a primal with their numbers at the end of the text.
fn put_pairs(alloc: Global, text: &mut Vec<u8>, pairs: &[(u32, i64)]) -> Result<(), AllocError>
    ensures { OnOk result (text.new.items ≡ text.old.items ++ pairs_text pairs.now) }
{
    for (i, number) in pairs {
        put_pair(alloc, text, *i, *number)?;
    }
    Ok(())
}

/// Puts the comment with the primal, where the run stopped as least, at the end of the text.
fn put_primal(alloc: Global, text: &mut Vec<u8>, stop: &Stop) -> Result<(), AllocError>
    ensures { OnOk result (text.new.items ≡ text.old.items ++ primal_line stop.now) }
{
    let Stop::Least(primal) = stop else {
        return Ok(());
    };
    text.extend_from_slice(b"# primal ")?;
    put_number(alloc, text, primal.q.unsigned_abs())?;
    put_pairs(alloc, text, &primal.a)?;
    text.push(LINE_FEED)?;
    Ok(())
}

/// Puts the comments at the end of the text.
fn put_comments(
    alloc: Global,
    text: &mut Vec<u8>,
    bound: u32,
    stop: &Stop,
) -> Result<(), AllocError>
    ensures { OnOk result (text.new.items ≡ text.old.items ++ comments bound stop.now) }
{
    put_bound(alloc, text, bound, stop)?;
    put_primal(alloc, text, stop)
}

/// Puts a dash and the weight, where there is one, at the end of the text.
fn put_weight(alloc: Global, text: &mut Vec<u8>, w: Option<u32>) -> Result<(), AllocError>
    ensures { OnOk result (text.new.items ≡ text.old.items ++ weight_part w) }
{
    match w {
        None => Ok(()),
        Some(w) => {
            text.push(b'-')?;
            put_number(alloc, text, u64::from(w))
        }
    }
}

/// The id of the proposal for the entry.
fn find_id(alloc: Global, entry: Entry) -> Result<Vec<u8>, AllocError>
    ensures { IfOk result (λ id. id.items ≡ find_id entry) }
{
    let mut id = Vec::new(alloc);
    id.extend_from_slice(b"find-")?;
    put_number(alloc, &mut id, u64::from(entry.n))?;
    id.push(b'-')?;
    put_number(alloc, &mut id, u64::from(entry.d))?;
    put_weight(alloc, &mut id, entry.w)?;
    Ok(id)
}

/// The text of what was found: its bound, the primal that shows it, and its dual as a submission.
fn proposal(alloc: Global, entry: Entry, found: Found) -> Result<Vec<u8>, AllocError>
    requires form { IsDual found.dual }
    requires nothing { found.dual.y ≡ [] }
    ensures { IfOk result (λ text. IsProposal entry found.dual found.bound found.stop text.items) }
{
    let id = find_id(alloc, entry)?;
    let mut text = Vec::new(alloc);
    put_comments(alloc, &mut text, found.bound, &found.stop)?;
    let document = write_evidence(alloc, &dual_evidence(found.dual))?;
    put_submission(&mut text, &id, &document)?;
    Ok(text)
}

/// The bytes once more.
pub(crate) fn owned(alloc: Global, bytes: &[u8]) -> Result<Vec<u8>, AllocError>
    ensures { IfOk result (λ text. text.items ≡ bytes.now) }
{
    let mut text = Vec::new(alloc);
    text.extend_from_slice(bytes)?;
    Ok(text)
}

/// What is written for an entry of the table: the proposal of its dual, or `none`. `Err` is want of memory.
pub(crate) fn answer_entry(alloc: Global, entry: Entry) -> Result<Vec<u8>, AllocError>
    requires { IsEntry entry }
    ensures { IfOk result (λ text. AnswersEntry entry (found_dual entry) text.items) }
{
    match found_for(alloc, entry)? {
        None => owned(alloc, b"none\n"),
        Some(found) => proposal(alloc, entry, found),
    }
}
