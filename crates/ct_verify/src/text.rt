//! The texts of verdicts.

ghost use Rattle.std.specs.Prelude.{◌≡◌, ◌++◌, OnOk, IfOk};
ghost use Rattle.ct_verify.specs.Text.{why_text, verdict_text};

use crate::verdict::{Verdict, Why};
use ct_files::submit_refusal;
use ct_text::put_spaced;
use std::alloc::{AllocError, Global};

/// Puts at the end of the text why a text line fails.
fn put_why(alloc: Global, text: &mut Vec<u8>, why: Why) -> Result<(), AllocError>
    ensures { OnOk result (text.new.items ≡ text.old.items ++ why_text why) }
{
    match why {
        Why::Form => text.extend_from_slice(b"form"),
        Why::Rule => text.extend_from_slice(b"rule"),
        Why::Premise => text.extend_from_slice(b"premise"),
        Why::Value(stated, given) => {
            text.extend_from_slice(b"value")?;
            put_spaced(alloc, text, u64::from(stated))?;
            put_spaced(alloc, text, u64::from(given))
        }
        Why::Evidence(fault) => {
            text.extend_from_slice(b"evidence ")?;
            let refusal = submit_refusal(alloc, &fault)?;
            text.extend_from_slice(&refusal)
        }
    }
}

/// The verdict in words: `yes`, or `no`, the text line that fails, and why. `Err` is want of memory.
pub fn verdict_text(alloc: Global, verdict: &Verdict) -> Result<Vec<u8>, AllocError>
    ensures { IfOk result (λ text. text.items ≡ verdict_text verdict.now) }
{
    let mut text = Vec::new(alloc);
    match verdict {
        Verdict::Yes => text.extend_from_slice(b"yes")?,
        Verdict::No(line, why) => {
            text.extend_from_slice(b"no")?;
            put_spaced(alloc, &mut text, *line as u64)?;
            text.push(b' ')?;
            put_why(alloc, &mut text, *why)?;
        }
    }
    Ok(text)
}
