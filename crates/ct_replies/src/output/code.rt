//! A code, put out many of its words at a time.

ghost use Rattle.std.specs.Prelude.{◌≡◌, ◌≤◌, ◌<◌, ◌+◌, ◌*◌, ◌^◌, All, length};
ghost use Rattle.ct_io.specs.Buffered.{buffered, IsPut};
ghost use Rattle.ct_words.specs.declared.limits.TheConstants.{MAX_N};
ghost use Rattle.ct_rule_codes.specs.CodeEntry.{entry_of_code};
ghost use Rattle.ct_replies.specs.Text.{code_heading, word_lines, listed_text};
ghost use Rattle.ct_replies.specs.Inside.Texts.{AreTexts};

use crate::output::word_lines::{EightDigits, eight_digits, print_lines};
use ct_io::{Failed, Sink, SinkBuffer};
use ct_text::{Digits, LINE_FEED};
use ct_words::{Code, MAX_N, Word};

// So many lines with words are put at a time.
const LINES_AT_ONCE: usize = 2_048;

// They have so many bytes at most.
const BLOCK: usize = LINES_AT_ONCE * (MAX_N as usize + 1);

/// Puts the line before the words of a code.
fn put_code_heading<K: Sink>(
    sink: &mut K,
    buffer: &mut SinkBuffer,
    code: &Code,
) -> Result<(), Failed>
    ensures { IsPut (buffered K.holds K.faults sink.old buffer.old)
        (buffered K.holds K.faults sink.new buffer.new) (code_heading (entry_of_code code.now) (length code.now.words)) result }
{
    let n = Digits::of(u64::from(code.n()));
    let d = Digits::of(u64::from(code.d()));
    let size = Digits::of(code.words().len() as u64);
    let (n, d, size) = (n.as_bytes(), d.as_bytes(), size.as_bytes());
    match code.w() {
        None => {
            let parts: [&[u8]; 7] = [b"code ", n, b" ", d, b" size ", size, b"\n"];
            buffer.put_parts(sink, &parts)
        }
        Some(w) => {
            let w = Digits::of(u64::from(w));
            let w = w.as_bytes();
            let parts: [&[u8]; 9] = [b"code ", n, b" ", d, b" ", w, b" size ", size, b"\n"];
            buffer.put_parts(sink, &parts)
        }
    }
}

/// Puts a line for each of these words of length n. The lines are written to the block first.
fn put_lines<K: Sink>(
    sink: &mut K,
    buffer: &mut SinkBuffer,
    texts: &EightDigits,
    n: u32,
    words: &[Word],
    block: &mut [u8],
) -> Result<(), Failed>
    requires texts { AreTexts texts.now }
    requires length { n ≤ MAX_N }
    requires words { All (λ x. x < 2 ^ n) words.now }
    requires block { length words.now * (n + 1) ≤ length block.old }
    ensures put { IsPut (buffered K.holds K.faults sink.old buffer.old)
        (buffered K.holds K.faults sink.new buffer.new) (word_lines n words.now) result }
    ensures size { length block.new ≡ length block.old }
{
    print_lines(texts, n, words, block);
    buffer.put(sink, &block[..words.len() * (n as usize + 1)])
}

/// Puts a line for each word of length n, many words at a time.
fn put_words<K: Sink>(
    sink: &mut K,
    buffer: &mut SinkBuffer,
    n: u32,
    words: &[Word],
) -> Result<(), Failed>
    requires length { n ≤ MAX_N }
    requires words { All (λ x. x < 2 ^ n) words.now }
    ensures { IsPut (buffered K.holds K.faults sink.old buffer.old)
        (buffered K.holds K.faults sink.new buffer.new) (word_lines n words.now) result }
{
    let texts = eight_digits();
    let mut block = [LINE_FEED; BLOCK];
    let mut start = 0;
    while start < words.len() {
        let end = words.len().min(start + LINES_AT_ONCE);
        put_lines(sink, buffer, &texts, n, &words[start..end], &mut block)?;
        start = end;
    }
    Ok(())
}

/// Puts the code, as `SinkBuffer::put` does: many of its words at a time, and never all of them.
pub(crate) fn put_code<K: Sink>(
    sink: &mut K,
    buffer: &mut SinkBuffer,
    code: &Code,
) -> Result<(), Failed>
    ensures { IsPut (buffered K.holds K.faults sink.old buffer.old)
        (buffered K.holds K.faults sink.new buffer.new) (listed_text code.now) result }
{
    put_code_heading(sink, buffer, code)?;
    put_words(sink, buffer, code.n(), code.words())
}
