//! The modes of the program.

ghost use Rattle.std.specs.Prelude.{◌≡◌, drop};

/// The most commands of a sample.
pub const MAX_SAMPLE: u32 = 2000;

/// A mode of the program.
#[derive(Clone, Copy)]
pub enum Mode {
    /// Reads the commands of a session, and writes their replies.
    Session,
    /// Reads a derivation document, and writes the verdict on it.
    Verify,
    /// Reads entries, and writes the duals that are found for them.
    Find,
    /// Makes so many commands, from 1 to `MAX_SAMPLE`, has a ledger obey them, and writes its summary. Nothing is read.
    Sample(u32),
}

/// The words after the first one, which is the program's name.
pub fn after_name(words: &[String]) -> &[String]
    ensures { result.now ≡ drop 1 words.now }
{
    match words {
        [_, rest @ ..] => rest,
        [] => words,
    }
}
