//! Submissions as text.

ghost use Rattle.std.specs.Prelude.{◌≡◌, ◌++◌, OnOk};
ghost use Rattle.std.specs.Fmt.{decimal};
ghost use Rattle.std.specs.List.{flat_map};
ghost use Rattle.ct_text.specs.DocumentLines.{line_count};
ghost use Rattle.ct_commands.specs.Submission.{submission_text};

use ct_text::{Digits, line_count};
use std::alloc::AllocError;

/// The parts of the submission of the document under the id, one after the other; these are the digits of its number of lines.
pub fn submission_parts<'a>(id: &'a [u8], count: &'a [u8], document: &'a [u8]) -> [&'a [u8]; 7]
    requires { count.now ≡ decimal (line_count document.now) }
    ensures { flat_map (λ part. part.now) result ≡ submission_text id.now document.now }
{
    [b"submit ", id, b" lines ", count, b"\n", document, b"\n"]
}

/// Puts the parts, one after the other, at the end of the text.
fn put_parts(text: &mut Vec<u8>, parts: &[&[u8]]) -> Result<(), AllocError>
    ensures { OnOk result (text.new.items ≡ text.old.items ++ flat_map (λ part. part.now) parts.now) }
{
    for part in parts {
        text.extend_from_slice(part)?;
    }
    Ok(())
}

/// Puts the submission of the document under the id at the end of the text. `Err` is want of memory.
pub fn put_submission(text: &mut Vec<u8>, id: &[u8], document: &[u8]) -> Result<(), AllocError>
    ensures { OnOk result (text.new.items ≡ text.old.items ++ submission_text id.now document.now) }
{
    let count = Digits::of(line_count(document));
    put_parts(text, &submission_parts(id, count.as_bytes(), document))
}
