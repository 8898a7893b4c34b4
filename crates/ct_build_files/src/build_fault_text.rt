//! The texts of faults of builds.

ghost use Rattle.std.specs.Prelude.{◌≡◌, ◌++◌, OnOk};
ghost use Rattle.ct_build_files.specs.BuildFaultText.{build_fault_text};

use ct_build::BuildFault;
use ct_text::{put_numbered, put_numbered_pair};
use std::alloc::{AllocError, Global};

/// Puts at the end of the text why a build makes no code. `Err` is want of memory.
pub fn put_build_fault(
    alloc: Global,
    text: &mut Vec<u8>,
    fault: BuildFault,
) -> Result<(), AllocError>
    ensures { OnOk result (text.new.items ≡ text.old.items ++ build_fault_text fault) }
{
    match fault {
        BuildFault::Short(have, want) => {
            put_numbered_pair(alloc, text, b"short", u64::from(have), u64::from(want))
        }
        BuildFault::Size(count) => put_numbered(alloc, text, b"size", count),
        BuildFault::Few(have, want) => put_numbered_pair(alloc, text, b"few", have, want),
        BuildFault::Empty => text.extend_from_slice(b"empty"),
        BuildFault::WrongPart(_) | BuildFault::Memory => Ok(()),
    }
}
