//! The texts of faults of duals.

ghost use Rattle.std.specs.Prelude.{◌≡◌, ◌++◌, OnOk};
ghost use Rattle.ct_dual_files.specs.DualFaultText.{spaced_integer, dual_fault_text};

use ct_duals::DualFault;
use ct_text::put_numbered;
use std::alloc::{AllocError, Global};

/// Puts a space and a whole number at the end of the text.
fn put_spaced_integer(alloc: Global, text: &mut Vec<u8>, number: i128) -> Result<(), AllocError>
    ensures { OnOk result (text.new.items ≡ text.old.items ++ spaced_integer number) }
{
    text.push(b' ')?;
    let digits = number.to_string(alloc)?;
    text.extend_from_slice(digits.as_bytes())
}

/// Puts at the end of the text why a dual is not accepted. `Err` is want of memory.
pub fn put_dual_fault(alloc: Global, text: &mut Vec<u8>, fault: DualFault) -> Result<(), AllocError>
    ensures { OnOk result (text.new.items ≡ text.old.items ++ dual_fault_text fault) }
{
    match fault {
        DualFault::Lead => text.extend_from_slice(b"lead"),
        DualFault::Above { at, value, allowed } => {
            put_numbered(alloc, text, b"above", u64::from(at))?;
            put_spaced_integer(alloc, text, value)?;
            put_spaced_integer(alloc, text, allowed)
        }
    }
}
