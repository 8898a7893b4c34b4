ghost use Rattle.std.specs.Prelude.{◌≡◌, ◌≢◌, IfErr, ℕ, ◌+◌, ◌<◌, ◌≤◌, ◌⊎◌, ◌↔◌, IsTrue, Option, Some, None, true, false, [], IfOk, OnOk, OnErr, length, max, slice_get};
ghost use Rattle.std.specs.Io.KnownBytes.{IsAtEnd, Keeps};
ghost use Rattle.ct_text.specs.declared.document_lines.TheConstants.{LINE_FEED};
ghost use Rattle.ct_io.specs.Faults.{Rose};
ghost use Rattle.ct_io.specs.Reader.{fresh_reader, given_size, input_of, IfLine, IfNoLine, IsLineThenRead, LosesLine, LosesFirstLine, NeedsNoRead, PassesEmptyLines, Takes, lasting_fault};
ghost use Rattle.ct_io.specs.Lines.{IsLine};

use crate::intake::Intake;
use crate::line_fault::LineFault;
use crate::source::Source;
use crate::{MAX_INPUT, MAX_READ};
use std::alloc::{AllocError, Global};
use std::marker::Model;

/// Takes bytes from a source and gives their lines. One reader serves one source: it keeps the
/// bytes that it took and did not give yet.
pub struct LineReader {
    intake: Intake,
    // The fault that each further call answers.
    fault: Option<LineFault>,
}

impl Drop for LineReader {
    fn drop(self) {
        let LineReader {
            intake: _,
            fault: _,
        } = self;
    }
}

impl Model for LineReader {
    ghost use Rattle.ct_io.specs.Reader.{Reader};

    ghost Value = { Reader };

    ghost use Rattle.std.specs.Prelude.{◌≤◌, length};
    ghost use Rattle.ct_io.specs.Inside.Settled.{reader_of, IsSettled};

    ghost view = { reader_of };

    ghost invariant = { λ r. IsSettled r.intake.held.bytes r.intake.ended r.intake.taken r.fault
        × (length r.intake.held.bytes ≤ r.intake.held.kept) };
}

impl LineReader {
    ghost use Rattle.ct_io.specs.Inside.NextLine.{GivesNext};

    /// A reader that took nothing yet. `Err` is want of memory.
    pub fn new(alloc: Global) -> Result<LineReader, AllocError>
        ensures { IfOk result (λ r. r ≡ fresh_reader) }
    {
        Ok(LineReader {
            intake: Intake::new(alloc)?,
            fault: None,
        })
    }

    /// How many bytes were taken from the source.
    pub fn taken(&self) -> u64
        ensures taken { result ≡ self.now.taken }
        ensures one_read_past { result ≤ MAX_INPUT + MAX_READ }
    {
        self.intake.taken
    }

    /// Whether a whole line is held or the end of the input was seen, so that `next_line` reads
    /// nothing. It reads nothing either, and bytes that were searched for a line feed in an earlier
    /// call are not searched again.
    pub fn holds_line(&mut self) -> bool
        ensures ready { IsTrue result ↔ NeedsNoRead self.old.held self.old.ended }
        ensures same { self.new ≡ self.old }
    {
        self.intake.ended || self.intake.held.line_length().is_some()
    }

    /// Passes over the empty lines that it holds before the next line, all of them, without a read: none, where it stays with
    /// a fault.
    pub fn pass_empty_lines(&mut self)
        ensures passed { PassesEmptyLines self.old self.new }
        ensures all { self.old.fault ≡ None → slice_get self.new.held 0 ≢ Some LINE_FEED }
    {
        if self.fault.is_none() {
            self.intake.held.pass_feeds();
        }
    }

    /// The next line, without its line feed. A last line without a line feed is a line where it
    /// isn't empty. `None` is the end: the input was read to its end, and no line is left.
    ///
    /// It gives a whole line that it holds before it reads, and so it holds no more after a line
    /// than before, or than one read gives. What was given out is dropped before more is read: the
    /// memory keeps no more bytes than before, or than those that are held and those that this call
    /// gives.
    ///
    /// `TooLong` comes exactly where more than `MAX_INPUT` bytes were taken, and at most one read was
    /// taken past them. After `ReadFault` and after `TooLong` each further call answers the same; with
    /// `ReadFault` no whole line is held, with `TooLong` none but those that the last read brought.
    /// After `Memory` the lines still to come are as before the call, and a read came only where no whole line was held.
    pub fn next_line<S: Source>(&mut self, source: &mut S) -> Result<Option<Vec<u8>>, LineFault>
        // The input: its next line is taken off, or none is left, or all of it stays.
        ensures line { IfLine result (LosesLine (input_of self.old (S.left source.old))
            (input_of self.new (S.left source.new))) }
        ensures lines { IfLine result (LosesFirstLine (input_of self.old (S.left source.old))
            (input_of self.new (S.left source.new))) }
        ensures none { IfNoLine result (IsAtEnd (input_of self.old (S.left source.old))
            × IsAtEnd (input_of self.new (S.left source.new))) }
        ensures kept { OnErr result (Keeps (input_of self.old (S.left source.old))
            (input_of self.new (S.left source.new))) }

        // The bytes that were taken, and the end of the input.
        ensures taken { Takes self.old self.new (S.left source.old) (S.left source.new) result }
        ensures end { self.old.ended ≡ false → self.new.ended ≡ true → IsAtEnd (S.left source.new) }
        ensures read_to_end { IfNoLine result ((self.new.held ≡ []) × (self.new.ended ≡ true)) }
        ensures ended { self.old.ended ≡ true → self.new.ended ≡ true }
        ensures unread { NeedsNoRead self.old.held self.old.ended
            → (self.new.taken ≡ self.old.taken) × (source.new ≡ source.old) }
        ensures little { IfLine result (λ _. length self.new.held ≤ max (length self.old.held) MAX_READ) }

        // The memory: what was given out is dropped before more is read.
        ensures all_kept { length self.new.held ≤ self.new.kept }
        ensures dropped { self.new.kept
            ≤ max self.old.kept (length self.new.held + given_size result) }

        // The faults.
        ensures read_fault { result ≡ Err LineFault.ReadFault
            → (self.old.fault ≡ Some LineFault.ReadFault)
            ⊎ Rose (S.faults source.old) (S.faults source.new) }
        ensures too_long { (t : ℕ) → result ≡ Err (LineFault.TooLong t)
            → (t ≡ self.new.taken) × (MAX_INPUT < t) }
        ensures within { OnOk result (self.new.taken ≤ MAX_INPUT) }
        ensures one_read_past { self.new.taken ≤ MAX_INPUT + MAX_READ }
        ensures no_line_held { result ≡ Err LineFault.ReadFault → IsLine self.new.held }
        ensures last_read { (t : ℕ) → result ≡ Err (LineFault.TooLong t)
            → IsLineThenRead self.new.held }
        ensures unended { IfErr result (λ fault. fault ≢ LineFault.Memory → self.new.ended ≡ false) }
        ensures above_limit { MAX_INPUT < self.new.taken
            → result ≡ Err (LineFault.TooLong self.new.taken) }
        ensures remembered { self.new.fault ≡ lasting_fault result }
        ensures no_lasting_memory { result ≡ Err LineFault.Memory → self.new.fault ≡ None }
        ensures few_at_memory { result ≡ Err LineFault.Memory → (self.new.held ≡ self.old.held)
            ⊎ IsLineThenRead self.new.held }
        ensures stays { (f : LineFault) → self.old.fault ≡ Some f → (result ≡ Err f)
            × (self.new ≡ self.old) × (source.new ≡ source.old) }
        ensures counted { S.faults source.old ≤ S.faults source.new }
    {
        self.give_next(source)
    }

    // What `next_line` gives: a fault that stays, or what the intake gives.
    fn give_next<S: Source>(&mut self, source: &mut S) -> Result<Option<Vec<u8>>, LineFault>
        ensures { GivesNext S.left S.faults self.old self.new source.old source.new result }
    {
        if let Some(fault) = self.fault {
            return Err(fault);
        }
        match self.intake.next_line(source) {
            Ok(line) => Ok(line),
            Err(fault) => {
                self.fault = fault_to_keep(fault);
                Err(fault)
            }
        }
    }
}

// The fault that each call after this one answers again: want of memory is none.
fn fault_to_keep(fault: LineFault) -> Option<LineFault>
    ensures { result ≡ lasting_fault (Err fault) }
{
    match fault {
        LineFault::ReadFault | LineFault::TooLong(_) => Some(fault),
        LineFault::Memory => None,
    }
}
