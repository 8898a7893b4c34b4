//! Verdicts on derivation documents.

use ct_piece::SubmitFault;

/// Why a text line of a derivation document fails: the first of these that holds of it, but for a block of evidence, which fails
/// on the line on which it begins.
#[derive(Clone, Copy)]
pub enum Why {
    /// The line is not of its form, or the document ends too early.
    Form,
    /// The rule is not defined at the entry, with its arguments and the piece that it names, or gives nothing from the values of
    /// the premises.
    Rule,
    /// The lines that are named are not as many as the rule's premises, or one of them is no earlier line that claims the
    /// premise at its place.
    Premise,
    /// The value that the line states, and the other one that its rule gives.
    Value(u32, u32),
    /// The block of evidence is refused. The fault is never want of memory.
    Evidence(SubmitFault),
}

/// The verdict on a derivation document.
#[derive(Clone, Copy)]
pub enum Verdict {
    /// Each line follows.
    Yes,
    /// The first text line that fails, counted from 1, and why.
    No(usize, Why),
}
