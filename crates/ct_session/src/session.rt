//! A session: its lines are taken one by one, and the replies put to a text.

ghost use Rattle.std.specs.Prelude.{◌≡◌, ◌||◌, Bool, ◌∷◌, ◌++◌, [], IsSome, OnOk, OnErr, IfOk, fold};
ghost use Rattle.std.specs.Option.{option_to_list, is_some};
ghost use Rattle.ct_commands.specs.Command.{cut_off};
ghost use Rattle.ct_session.specs.Reply.{pieces_after};
ghost use Rattle.ct_session.specs.Run.{PutsAnswers};
ghost use Rattle.ct_replies.specs.LongReply.{owed_text};

use crate::answers::Answers;
use ct_commands::{Command, CommandReader};
use ct_replies::{AnyReply, LongReply, Refusal, Reply, put_reply};
use std::alloc::{AllocError, Global};
use std::marker::Model;

/// A session after some of its lines.
#[derive(Drop)]
pub(crate) struct Session<A: Answers> {
    answers: A,
    reader: CommandReader,
    refused: bool,
}

impl<A: Answers> Model for Session<A> {
    ghost use Rattle.ct_session.specs.Inside.State.{State};

    ghost Value = { State };

    ghost view = { λ s. record { pieces = A.standing s.answers; pending = s.reader; refused = s.refused } };
}

/// Answers a command: whether the reply is a refusal. It is put at the end of the text, but for one that may be long, which is owed then.
/// After an `Err`, which is want of memory, the text is as before.
fn respond<A: Answers>(
    alloc: Global,
    answers: &mut A,
    command: Command,
    replies: &mut Vec<u8>,
) -> Result<(Option<LongReply>, bool), AllocError>
    ensures reply { IfOk result (λ r. PutsAnswers (A.standing answers.old) (command ∷ []) r.1
        replies.old.items (replies.new.items ++ owed_text r.0 (A.standing answers.new))) }
    ensures unput { IfOk result (λ r. IsSome r.0 → replies.new.items ≡ replies.old.items) }
    ensures pieces { OnOk result (A.standing answers.new ≡ pieces_after (A.standing answers.old) command) }
    ensures unchanged { OnErr result (replies.new.items ≡ replies.old.items) }
{
    match answers.answer(alloc, command)? {
        AnyReply::Short(reply) => {
            put_reply(alloc, replies, &reply)?;
            Ok((None, reply.is_refusal()))
        }
        AnyReply::Long(reply) => Ok((Some(reply), false)),
    }
}

/// Answers the command, if there is one, as `respond` does.
fn respond_to_any<A: Answers>(
    alloc: Global,
    answers: &mut A,
    command: Option<Command>,
    replies: &mut Vec<u8>,
) -> Result<(Option<LongReply>, bool), AllocError>
    ensures reply { IfOk result (λ r. PutsAnswers (A.standing answers.old) (option_to_list command) r.1
        replies.old.items (replies.new.items ++ owed_text r.0 (A.standing answers.new))) }
    ensures unput { IfOk result (λ r. IsSome r.0 → replies.new.items ≡ replies.old.items) }
    ensures pieces { OnOk result (A.standing answers.new ≡ fold pieces_after (A.standing answers.old) (option_to_list command)) }
    ensures unchanged { OnErr result (replies.new.items ≡ replies.old.items) }
{
    match command {
        Some(command) => respond(alloc, answers, command, replies),
        None => Ok((None, false)),
    }
}

impl<A: Answers> Session<A> {
    ghost use Rattle.ct_session.specs.Inside.State.{fresh_state, PutsLines};

    /// A session before its first line, whose commands are answered so; no piece stands.
    pub(crate) fn new(answers: A) -> Session<A>
        requires { A.standing answers ≡ [] }
        ensures { result ≡ fresh_state }
    {
        Session {
            answers,
            reader: CommandReader::new(),
            refused: false,
        }
    }

    /// Whether a submission is open, whose document goes on.
    pub(crate) fn has_open_submission(&self) -> bool
        ensures { result ≡ is_some self.now.pending }
    {
        self.reader.has_open_submission()
    }

    /// What answers its commands.
    pub(crate) fn answers(&self) -> &A
        ensures { A.standing result.now ≡ self.now.pieces }
    {
        &self.answers
    }

    /// Takes the next line, and puts the reply to the command that it completes, if it completes one, at the end of the text, or tells
    /// which long reply is owed there. After an `Err`, which is want of memory, the text is as before, and the session is not to be gone on
    /// with: its open submission may be lost.
    pub(crate) fn take_line(
        &mut self,
        alloc: Global,
        line: &[u8],
        replies: &mut Vec<u8>,
    ) -> Result<Option<LongReply>, AllocError>
        ensures line { IfOk result (λ owed. PutsLines self.old self.new (line.now ∷ []) replies.old.items
            (replies.new.items ++ owed_text owed self.new.pieces)) }
        ensures unput { IfOk result (λ owed. IsSome owed → replies.new.items ≡ replies.old.items) }
        ensures unchanged { OnErr result (replies.new.items ≡ replies.old.items) }
    {
        let command = self.reader.take_line(alloc, line)?;
        let (owed, refused) = respond_to_any(alloc, &mut self.answers, command, replies)?;
        self.refused = self.refused || refused;
        Ok(owed)
    }

    /// Takes the end of the input, and puts the reply to a submission that it cuts off, if one is open, at the end of the text: whether
    /// any reply of the session is a refusal. After an `Err`, which is want of memory, the text is as before.
    pub(crate) fn finish(self, alloc: Global, replies: &mut Vec<u8>) -> Result<bool, AllocError>
        ensures end { IfOk result (λ all. (refused : Bool) × PutsAnswers self.pieces (cut_off self.pending) refused
            replies.old.items replies.new.items × (all ≡ (self.refused || refused))) }
        ensures unchanged { OnErr result (replies.new.items ≡ replies.old.items) }
    {
        match self.reader.finish() {
            None => Ok(self.refused),
            Some(_) => {
                put_reply(alloc, replies, &Reply::Refused(Refusal::CutOff))?;
                Ok(true)
            }
        }
    }
}
