//! The commands of the sample.

ghost use Rattle.std.specs.Prelude.{◌≡◌, not, IfOk};
ghost use Rattle.ct_sample.specs.Command.{step_id, is_used, first_unused, command_drawn};

use crate::drawing::drawn_evidence;
use ct_kind::Evidence;
use ct_ledger::Piece;
use ct_names::Id;
use ct_text::put_number;
use std::alloc::{AllocError, Global};

/// A command of the sample.
#[derive(Drop)]
pub enum Command {
    /// The evidence is submitted under the id, with a document that is written from it.
    Submit(Id, Evidence),
    /// The piece of the id is withdrawn.
    Withdraw(Id),
}

/// The id of a step's piece. `Err` is want of memory.
fn step_id(alloc: Global, step: u32) -> Result<Id, AllocError>
    ensures { IfOk result (λ id. id ≡ step_id step) }
{
    let mut text = vec![in alloc; b's']?;
    put_number(alloc, &mut text, u64::from(step))?;
    let Some(id) = Id::parse(&text) else {
        unreachable!()
    };
    Ok(id)
}

/// Whether one of the pieces names the id.
fn is_used(pieces: &[Piece], id: Id) -> bool
    ensures { result ≡ is_used pieces.now id }
{
    pieces.iter().any(|piece| piece.names(id))
}

/// The id of the first of the pieces that none of them names.
fn first_unused(pieces: &[Piece]) -> Option<Id>
    ensures { result ≡ first_unused pieces.now }
{
    pieces
        .iter()
        .find(|piece| !is_used(pieces, piece.id()))
        .map(|piece| piece.id())
}

/// The command of a step, which draws h, over the pieces that stand; none where no piece can be withdrawn. `Err` is want of
/// memory.
pub(crate) fn command_of(
    alloc: Global,
    step: u32,
    h: u32,
    pieces: &[Piece],
) -> Result<Option<Command>, AllocError>
    ensures { IfOk result (λ command. command ≡ command_drawn step h pieces.now) }
{
    if step % 3 == 0 {
        return Ok(match first_unused(pieces) {
            Some(id) => Some(Command::Withdraw(id)),
            None => None,
        });
    }
    let id = step_id(alloc, step)?;
    let evidence = drawn_evidence(alloc, h, pieces)?;
    Ok(Some(Command::Submit(id, evidence)))
}
