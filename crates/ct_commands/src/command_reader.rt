//! The commands that the lines of an input make, one line after the other.

ghost use Rattle.std.specs.Prelude.{◌≡◌, true, None, OnOk, IfOk};
ghost use Rattle.std.specs.Option.{option_to_list, is_some};
ghost use Rattle.ct_commands.specs.Command.{open_after, completed_by, cut_off};

use crate::command::Command;
use crate::form::{Form, read_form};
use ct_names::Id;
use ct_text::{Gathered, Gathering};
use std::alloc::{AllocError, Global};
use std::marker::Model;

/// A submission whose document has not ended: its id, if its line is of a form of `submit`, and the document as far as it
/// has come.
#[derive(Drop)]
pub struct Pending {
    /// The id.
    pub id: Option<Id>,
    /// The document.
    pub document: Gathering,
}

/// Takes the lines of an input one by one, and gives the commands that they complete. Contracts see it as the submission
/// that is open, if one is.
#[derive(Drop)]
pub struct CommandReader {
    pending: Option<Pending>,
}

impl Model for CommandReader {
    ghost use Rattle.std.specs.Prelude.{Option};
    ghost use Rattle.ct_commands.specs.declared.command_reader.Pending.{Pending};

    ghost Value = { Option Pending };

    ghost view = { λ r. r.pending };
}

/// Takes a line into an open submission: the one that is still open, or the whole command.
fn go_on(pending: Pending, line: &[u8]) -> Result<(Option<Pending>, Option<Command>), AllocError>
    ensures { IfOk result (λ r. (r.0 ≡ open_after (Some pending) line.now)
        × (r.1 ≡ completed_by (Some pending) line.now)) }
{
    let id = pending.id;
    match pending.document.take_line(line)? {
        Gathered::More(document) => Ok((Some(Pending { id, document }), None)),
        Gathered::Whole(text) => Ok((None, Some(Command::Submission(id, text)))),
    }
}

/// Reads a line outside a document: the submission that it opens, or the command that it is.
fn begin(alloc: Global, line: &[u8]) -> Result<(Option<Pending>, Option<Command>), AllocError>
    ensures { IfOk result (λ r. (r.0 ≡ open_after None line.now) × (r.1 ≡ completed_by None line.now)) }
{
    match read_form(alloc, line)? {
        Form::Nothing => Ok((None, None)),
        Form::Submit(id, extent) => {
            let document = Gathering::new(alloc, extent);
            Ok((Some(Pending { id, document }), None))
        }
        Form::Whole(command) => Ok((None, Some(command))),
    }
}

/// Whether no submission is open and the line is empty, so that it asks for nothing.
fn is_idle(pending: &Option<Pending>, line: &[u8]) -> bool
    ensures open { result ≡ true → open_after pending.now line.now ≡ pending.now }
    ensures none { result ≡ true → completed_by pending.now line.now ≡ None }
{
    match pending {
        None => line.is_empty(),
        Some(_) => false,
    }
}

impl CommandReader {
    /// A reader before the first line.
    pub fn new() -> CommandReader
        ensures { result ≡ None }
    {
        CommandReader { pending: None }
    }

    /// Whether a submission is open, whose document goes on.
    pub fn has_open_submission(&self) -> bool
        ensures { result ≡ is_some self.now }
    {
        self.pending.is_some()
    }

    /// Takes the next line: the command that it completes, if it completes one. `Err` is want of memory; the submission
    /// that was open may be lost then.
    pub fn take_line(&mut self, alloc: Global, line: &[u8]) -> Result<Option<Command>, AllocError>
        ensures command { IfOk result (λ command. command ≡ completed_by self.old line.now) }
        ensures pending { OnOk result (self.new ≡ open_after self.old line.now) }
    {
        if is_idle(&self.pending, line) {
            return Ok(None);
        }
        let (pending, command) = match self.pending.take() {
            Some(pending) => go_on(pending, line)?,
            None => begin(alloc, line)?,
        };
        self.pending = pending;
        Ok(command)
    }

    /// The command that the end of the input makes: a submission that is open is cut off.
    pub fn finish(self) -> Option<Command>
        ensures { option_to_list result ≡ cut_off self }
    {
        match self.pending {
            Some(_) => Some(Command::CutOff),
            None => None,
        }
    }
}
