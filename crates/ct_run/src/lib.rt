//! What the program `code_tables` does with a source and a sink: the modes that its command line names, the run of each, the mode `session`
//! (commands answered by a ledger, and the replies), and how it ends.
#![tactic(auto)]

mod answering;
mod dispatch;
mod in_memory;
mod serving;
mod status;

pub use answering::{explain, explanation, show, submit_any, table, withdraw, withdraw_all};
pub use ct_command_line::{Mode, after_name, first_unknown_word};
pub use dispatch::run;
pub use in_memory::{Outcome, answer};
pub use serving::serve_session;
pub use status::Status;
