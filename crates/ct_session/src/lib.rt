//! The session: what replies to commands say over the pieces that stand, runs, and the loop that serves a source and a sink, whatever answers
//! the commands.
#![tactic(auto)]

mod answers;
mod serve;
mod session;

pub use answers::Answers;
pub use serve::serve_lines;
