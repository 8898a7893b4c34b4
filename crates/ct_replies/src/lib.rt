//! Replies to commands, their texts, and how long ones are put out to a sink part by part.
#![tactic(auto)]

mod output;
mod reply;
mod text;

pub use output::put_long;
pub use reply::{AnyReply, Bounds, LongReply, Refusal, Reply};
pub use text::{ledger_text, put_reply};
