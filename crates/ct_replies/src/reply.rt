//! Replies to commands.

use ct_names::Id;
use ct_piece::{SubmitFault, WithdrawFault};
use ct_text::Text;
use ct_words::{Code, Entry, Listed};

/// Why a command is refused.
#[derive(Drop)]
pub enum Refusal {
    /// The input ends before the document does.
    CutOff,
    /// The line is no command, or `submit` with other words after it than a form of it has.
    NoCommand,
    /// The entry is not in the table; or the table has no entry of the distance and, where one is named, the weight.
    NoEntry,
    /// The submission makes no piece.
    Submission(SubmitFault),
    /// The piece of this id is not withdrawn.
    Withdrawal(Id, WithdrawFault),
}

/// The bounds of an entry.
#[derive(Clone, Copy)]
pub struct Bounds {
    /// The entry.
    pub entry: Entry,
    /// The lower bound.
    pub lower: u32,
    /// The upper bound.
    pub upper: u32,
}

/// The reply to a command.
#[derive(Drop)]
pub enum Reply {
    /// A piece was accepted under the id; the size of its code, where it has one.
    Accepted(Id, Option<u32>),
    /// The piece of the id was withdrawn.
    Withdrawn(Id),
    /// The piece of the id was withdrawn with all that rests on it; how many pieces these are.
    WithdrawnAll(Id, u32),
    /// The bounds of an entry.
    Shown(Bounds),
    /// The bounds of all entries of a distance and, where one is named, a weight, in the order of their lengths.
    Table(Listed<Bounds>),
    /// Lines, each with its line feed.
    Lines(Text),
    /// The command was refused.
    Refused(Refusal),
}

impl Reply {
    ghost use Rattle.std.specs.Prelude.{◌≡◌};
    ghost use Rattle.ct_replies.specs.Refusals.{is_refusal};

    /// Whether the reply is a refusal.
    pub fn is_refusal(&self) -> bool
        ensures { result ≡ is_refusal self.now }
    {
        matches!(self, Reply::Refused(_))
    }
}

/// A reply that may be long, and is put out part by part.
#[derive(Drop)]
pub enum LongReply {
    /// The dump of the pieces.
    Dump,
    /// The words of this code.
    Code(Code),
}

/// What answers a command.
#[derive(Drop)]
pub enum AnyReply {
    /// This reply.
    Short(Reply),
    /// A reply that may be long.
    Long(LongReply),
}
