//! The laws of sources, sinks and the reader: what their definitions mean, with no code.

ghost use Rattle.std.specs.Prelude.{◌≡◌, ◌≢◌, ℕ, ◌-◌, ◌^◌, ◌<◌, ◌≤◌, ◌↔◌, List, ◌∷◌, ◌++◌, Some, length};
ghost use Rattle.ct_text.specs.declared.document_lines.TheConstants.{LINE_FEED};
ghost use Rattle.ct_io.specs.Lines.{IsLine};
ghost use Rattle.ct_io.specs.declared.TheConstants.{MAX_READ};
ghost use Rattle.std.specs.Io.KnownBytes.{Appends};
ghost use Rattle.ct_io.specs.Buffered.{Buffered, Puts, all_put};
ghost use Rattle.ct_io.specs.Faults.{Rose};
ghost use Rattle.ct_io.specs.Reader.{IsLineThenRead};
ghost use Rattle.ct_io.specs.Told.{AppendsPrefix, AppendsProperPrefix};

/// The law of counts of faults: a count that is greater than before rose, a count at its last value
/// is taken to have risen, and each other count did not rise.
pub fn faults_law()
    ensures greater { (old new : ℕ) → old < new → Rose old new }
    ensures last_value { (old : ℕ) → Rose old (2 ^ 64 - 1) }
    ensures no_greater { (old new : ℕ) → new ≤ old → new < 2 ^ 64 - 1 → ¬ Rose old new }
{}

/// The law of prefixes: all of a text and nothing of it are prefixes, and after a proper prefix the
/// text was not all written.
pub fn prefixes_law()
    ensures all { (held text : List ℕ) → AppendsPrefix (Some held) (Some (held ++ text)) text }
    ensures nothing { (held text : List ℕ) → AppendsPrefix (Some held) (Some held) text }
    ensures proper { (old new text : List ℕ) → AppendsProperPrefix (Some old) (Some new) text
        → AppendsPrefix (Some old) (Some new) text × (new ≢ old ++ text) }
{}

/// The law of the last read: after a line and its line feed come bytes of that read alone, so there
/// are fewer than `MAX_READ`.
pub fn last_read_law()
    ensures { (line after : List ℕ) → IsLine line
        → (IsLineThenRead (line ++ LINE_FEED ∷ after) ↔ (length after < MAX_READ)) }
{}

/// The law of a text that was put: what the sink holds and what is gathered after it, both as one, grew by the text.
pub fn puts_law()
    ensures { (old new : Buffered) (text : List ℕ) → Puts old new text → Appends (all_put old) (all_put new) text }
{}
