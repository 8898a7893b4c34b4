//! The words of a line.

ghost use Rattle.std.specs.Prelude.{◌≡◌, IfOk, map, take};
ghost use Rattle.std.specs.Str.Lines.{strip_carriage_return};
ghost use Rattle.ct_text.specs.Line.{words_of};

use std::alloc::{AllocError, Global};

/// The line without the one carriage return at its end, if it has one.
fn without_carriage_return(line: &[u8]) -> &[u8]
    ensures { result.now ≡ strip_carriage_return line.now }
{
    match line.split_last() {
        Some((b'\r', rest)) => rest,
        _ => line,
    }
}

/// The first words of a line, at most `count` of them, in order. The words are the line's parts between spaces that are
/// not empty. One carriage return at the line's end does not count; a tab is no space. `Err` is want of memory.
#[tactic(auto, unfolding(crate::specs::Line::words_of))]
pub fn first_words(alloc: Global, line: &[u8], count: usize) -> Result<Vec<&[u8]>, AllocError>
    ensures { IfOk result (λ words. map (λ word. word.now) words.items ≡ take count (words_of line.now)) }
{
    without_carriage_return(line)
        .split(|b| *b == b' ')
        .filter(|word| !word.is_empty())
        .take(count)
        .collect(alloc)
}
