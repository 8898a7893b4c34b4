ghost use Rattle.std.specs.Prelude.{◌≡◌, ◌≤◌, ◌+◌, ◌↔◌, Err, IfOk, OnOk, length};
ghost use Rattle.std.specs.Io.KnownBytes.{Consumes, IsAtEnd};
ghost use Rattle.ct_io.specs.Faults.{Rose};
ghost use Rattle.ct_io.specs.Told.{IsAboveLimit, IsTooLong, WhereTold};
ghost use Rattle.ct_io.specs.Inside.WholeInput.{ReadsInput};

use crate::intake::Intake;
use crate::line_fault::LineFault;
use crate::source::Source;
use crate::{MAX_INPUT, MAX_READ};
use std::alloc::Global;

/// All of the input, as `read_input` gives it.
fn read_all<S: Source>(alloc: Global, source: &mut S) -> Result<Vec<u8>, LineFault>
    ensures { ReadsInput (S.left source.old) (S.left source.new) (S.faults source.old) (S.faults source.new) result }
{
    let mut intake = Intake::new(alloc)?;
    intake.gather_all(source)?;
    Ok(intake.into_bytes())
}

/// All of the input: the bytes that the source has left, which is read to its end.
///
/// `TooLong` comes exactly where more than `MAX_INPUT` bytes were taken, and at most one read was taken past them.
pub fn read_input<S: Source>(alloc: Global, source: &mut S) -> Result<Vec<u8>, LineFault>
    ensures input { IfOk result (λ input. Consumes (S.left source.old) (S.left source.new) input.items) }
    ensures to_end { OnOk result (IsAtEnd (S.left source.new)) }
    ensures within { IfOk result (λ input. length input.items ≤ MAX_INPUT) }
    ensures read_fault { result ≡ Err LineFault.ReadFault → Rose (S.faults source.old) (S.faults source.new) }
    ensures too_long { WhereTold (S.left source.old) (S.left source.new)
        (λ before after. IsTooLong result ↔ IsAboveLimit before after) }
    ensures one_read_past { WhereTold (S.left source.old) (S.left source.new)
        (λ before after. length before ≤ length after + MAX_INPUT + MAX_READ) }
    ensures counted { S.faults source.old ≤ S.faults source.new }
{
    read_all(alloc, source)
}
