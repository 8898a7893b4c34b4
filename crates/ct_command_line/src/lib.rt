//! The words of the command line, read with `clap`: the mode that they name.
#![tactic(auto)]

mod laws;
mod mode;
mod reading;
mod unknown;

pub use laws::{known_command_lines, known_unknown_words};
pub use mode::{MAX_SAMPLE, Mode, after_name};
pub use reading::named_mode;
pub use unknown::first_unknown_word;
