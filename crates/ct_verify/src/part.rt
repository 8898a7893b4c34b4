//! Where in a derivation document a reading is.

use ct_names::Id;
use ct_text::Gathering;

/// A block of evidence that is not whole.
#[derive(Drop)]
pub struct Block {
    /// The text line on which it began, counted from 1.
    pub line: usize,
    /// The id under which its document will be submitted.
    pub id: Id,
    /// Its document, as far as it has come.
    pub document: Gathering,
}

/// Where in a derivation document a reading is.
#[derive(Drop)]
pub enum Part {
    /// Before the first text line.
    Start,
    /// Where a block of evidence, a line, or the end may follow.
    Body,
    /// In a block of evidence.
    Evidence(Block),
    /// After `done`.
    Done,
}
