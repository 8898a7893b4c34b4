//! The replies to lines.

ghost use Rattle.ct_find.specs.Inside.Replies.{IsReplyToEntry, IsReplyToNumbers, IsReplyToWords};
ghost use Rattle.std.specs.Prelude.{◌≡◌, ◌++◌, ◌||◌, false, true, map, IfOk, OnOk, IfSome};
ghost use Rattle.ct_words.specs.Entry.{IsEntry};
ghost use Rattle.ct_io.specs.Lines.{lines_of};
ghost use Rattle.ct_find.specs.Reply.{AreFoundReplies, IsFoundReply};

use crate::proposal::{answer_entry, owned};
use ct_io::next_line;
use ct_text::{EntryNumbers, first_words, parse_entry_numbers};
use ct_words::Entry;
use std::alloc::{AllocError, Global};

// So many words of a line tell what it asks for: numbers of an entry are three at most, and a fourth shows that there are too many.
const MOST_WORDS: usize = 4;

/// Replies, and whether one of them is a refusal.
#[derive(Drop)]
pub(crate) struct Replies {
    pub(crate) text: Vec<u8>,
    pub(crate) refused: bool,
}

/// The refusal of these bytes.
fn refusal(alloc: Global, bytes: &[u8]) -> Result<Replies, AllocError>
    ensures text { IfOk result (λ reply. reply.text.items ≡ bytes.now) }
    ensures refused { IfOk result (λ reply. reply.refused ≡ true) }
{
    let text = owned(alloc, bytes)?;
    Ok(Replies {
        text,
        refused: true,
    })
}

/// The reply to the numbers of an entry of the table, or of none.
fn reply_to_entry(alloc: Global, entry: Option<Entry>) -> Result<Replies, AllocError>
    requires { IfSome entry IsEntry }
    ensures { IfOk result (λ reply. IsReplyToEntry entry reply.text.items reply.refused) }
{
    match entry {
        None => refusal(alloc, b"refused entry\n"),
        Some(entry) => {
            let text = answer_entry(alloc, entry)?;
            Ok(Replies {
                text,
                refused: false,
            })
        }
    }
}

/// The reply to the numbers that a line is, or to another line.
fn reply_to_numbers(alloc: Global, numbers: Option<EntryNumbers>) -> Result<Replies, AllocError>
    ensures { IfOk result (λ reply. IsReplyToNumbers numbers reply.text.items reply.refused) }
{
    match numbers {
        None => refusal(alloc, b"refused command\n"),
        Some(numbers) => reply_to_entry(alloc, numbers.entry()),
    }
}

/// The reply to the words of a line.
fn reply_to_words(alloc: Global, words: &[&[u8]]) -> Result<Replies, AllocError>
    ensures { IfOk result (λ reply. IsReplyToWords (map (λ word. word.now) words.now) reply.text.items reply.refused) }
{
    if words.is_empty() {
        return Ok(Replies {
            text: Vec::new(alloc),
            refused: false,
        });
    }
    reply_to_numbers(alloc, parse_entry_numbers(words))
}

/// The reply to a line.
fn reply_to(alloc: Global, line: &[u8]) -> Result<Replies, AllocError>
    ensures { IfOk result (λ reply. IsFoundReply line.now reply.text.items reply.refused) }
{
    let words = first_words(alloc, line, MOST_WORDS)?;
    reply_to_words(alloc, &words)
}

/// Puts a reply to the end of replies.
fn put(replies: &mut Replies, reply: &Replies) -> Result<(), AllocError>
    ensures text { OnOk result (replies.new.text.items ≡ replies.old.text.items ++ reply.now.text.items) }
    ensures refused { OnOk result (replies.new.refused ≡ (replies.old.refused || reply.now.refused)) }
{
    replies.text.extend_from_slice(&reply.text)?;
    replies.refused = replies.refused || reply.refused;
    Ok(())
}

/// The replies to the lines of an input, in order. `Err` is want of memory.
pub(crate) fn replies_to(alloc: Global, input: &[u8]) -> Result<Replies, AllocError>
    ensures { IfOk result (λ replies. AreFoundReplies (lines_of input.now) replies.text.items replies.refused) }
{
    let mut replies = Replies {
        text: Vec::new(alloc),
        refused: false,
    };
    let mut rest = input;
    while !rest.is_empty() {
        let (line, after) = next_line(rest);
        let reply = reply_to(alloc, line)?;
        put(&mut replies, &reply)?;
        rest = after;
    }
    Ok(replies)
}
