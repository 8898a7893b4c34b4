ghost use Rattle.std.specs.Prelude.{◌≡◌, ◌≤◌, [], false, IfOk, vec_len};
ghost use Rattle.ct_io.specs.declared.TheConstants.{MAX_READ};
ghost use Rattle.ct_io.specs.Lines.{IsLine};
ghost use Rattle.ct_io.specs.Inside.Buffer.{empty_buffer};

use crate::held::Held;
use crate::line_fault::LineFault;
use crate::source::Source;
use crate::{MAX_INPUT, MAX_READ};
use std::alloc::{AllocError, Global};

/// What came from the source and was not yet given out, and what is known of the source.
#[derive(Drop)]
pub(crate) struct Intake {
    pub(crate) held: Held,
    // Where a read puts its bytes.
    pub(crate) piece: Vec<u8>,
    // How many bytes came.
    pub(crate) taken: u64,
    // Whether the end of the input was seen.
    pub(crate) ended: bool,
    pub(crate) ghost piece_len: { vec_len piece ≡ MAX_READ },
}

impl Intake {
    ghost use Rattle.ct_io.specs.Inside.WholeInput.{GathersAll};
    ghost use Rattle.ct_io.specs.Inside.Intake.{GathersLine, Gives, GivesOut, IsFound, ReadsOn};

    /// An intake that took nothing yet, with space for one read.
    pub(crate) fn new(alloc: Global) -> Result<Intake, AllocError>
        ensures held { IfOk result (λ i. i.held ≡ empty_buffer) }
        ensures taken { IfOk result (λ i. i.taken ≡ 0) }
        ensures ended { IfOk result (λ i. i.ended ≡ false) }
    {
        Ok(Intake {
            held: Held::new(alloc),
            piece: vec![in alloc; 0; MAX_READ]?,
            taken: 0,
            ended: false,
        })
    }

    /// Reads once more, where no whole line is held and the end was not seen.
    fn read_on<S: Source>(&mut self, source: &mut S) -> Result<(), LineFault>
        requires line { IsLine self.old.held.bytes }
        requires going { self.old.ended ≡ false }
        requires within { self.old.taken ≤ MAX_INPUT }
        ensures { ReadsOn self.old self.new (S.left source.old) (S.left source.new)
            (S.faults source.old) (S.faults source.new) result }
    {
        let count = self.held.fill(&mut self.piece, source)?;
        self.taken += count as u64;
        self.ended = count == 0;
        if self.taken > MAX_INPUT {
            return Err(LineFault::TooLong(self.taken));
        }
        Ok(())
    }

    /// Reads until a whole line is held, and gives its length without its line feed, or until the
    /// input ends.
    fn gather_line<S: Source>(&mut self, source: &mut S) -> Result<Option<usize>, LineFault>
        requires { self.old.taken ≤ MAX_INPUT }
        ensures { GathersLine S.left S.faults self.old self.new source.old source.new result }
    {
        loop {
            if let Some(length) = self.held.line_length() {
                return Ok(Some(length));
            }
            if self.ended {
                return Ok(None);
            }
            self.read_on(source)?;
        }
    }

    /// Gives out the line that was found, or the bytes after the last line feed at the end of the input.
    fn give_out(&mut self, found: Option<usize>) -> Result<Option<Vec<u8>>, LineFault>
        requires { IsFound found self.old.held.bytes self.old.ended }
        ensures { GivesOut self.old self.new found result }
    {
        match found {
            Some(length) => Ok(Some(self.held.take_line(length)?)),
            None => Ok(self.held.take_rest()?),
        }
    }

    /// Gives out the next line, or the bytes after the last line feed once the input has ended.
    pub(crate) fn next_line<S: Source>(
        &mut self,
        source: &mut S,
    ) -> Result<Option<Vec<u8>>, LineFault>
        requires { self.old.taken ≤ MAX_INPUT }
        ensures { Gives S.left S.faults self.old self.new source.old source.new result }
    {
        let found = self.gather_line(source)?;
        self.give_out(found)
    }

    /// Reads until the input ends, and holds all of its bytes.
    pub(crate) fn gather_all<S: Source>(&mut self, source: &mut S) -> Result<(), LineFault>
        requires none { self.old.held.bytes ≡ [] }
        requires taken { self.old.taken ≡ 0 }
        ensures { GathersAll (S.left source.old) (S.left source.new) (S.faults source.old) (S.faults source.new) self.new.held.bytes result }
    {
        loop {
            let count = self.held.fill(&mut self.piece, source)?;
            if count == 0 {
                return Ok(());
            }
            let taken = self.taken + count as u64;
            if taken > MAX_INPUT {
                return Err(LineFault::TooLong(taken));
            }
            self.taken = taken;
        }
    }

    /// The bytes that are held.
    pub(crate) fn into_bytes(self) -> Vec<u8>
        ensures { result.items ≡ self.held.bytes }
    {
        self.held.into_bytes()
    }
}
