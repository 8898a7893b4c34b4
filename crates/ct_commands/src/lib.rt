//! The commands of a session: what one line asks for, and the commands that the lines of an input make.
#![tactic(auto)]

mod command;
mod command_reader;
mod form;
mod submission;

pub use command::Command;
pub use command_reader::{CommandReader, Pending};
pub use form::{Form, read_form};
pub use submission::{put_submission, submission_parts};
