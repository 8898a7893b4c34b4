//! Derivation documents, checked line by line; and the mode `verify`, which reads one from a source and writes the verdict to a sink.
#![tactic(auto)]

mod failure;
mod heading;
mod part;
mod reading;
mod stated_line;
mod stated_rule;
mod steps;
mod text;
mod verdict;
mod verification;
mod verifying;

pub use heading::Heading;
pub use part::{Block, Part};
pub use reading::Reading;
pub use stated_line::StatedLine;
pub use stated_rule::StatedRule;
pub use text::verdict_text;
pub use verdict::{Verdict, Why};
pub use verification::verify_source;
pub use verifying::verify;
