//! The texts of faults of partitions.

ghost use Rattle.std.specs.Prelude.{◌≡◌, ◌++◌, OnOk};
ghost use Rattle.ct_partition_files.specs.PartitionFaultText.{partition_fault_text};

use ct_partitions::PartitionFault;
use ct_text::{put_numbered, put_numbered_pair, put_spaced};
use std::alloc::{AllocError, Global};

/// Puts at the end of the text why classes are no partition. `Err` is want of memory.
pub fn put_partition_fault(
    alloc: Global,
    text: &mut Vec<u8>,
    fault: PartitionFault,
) -> Result<(), AllocError>
    ensures { OnOk result (text.new.items ≡ text.old.items ++ partition_fault_text fault) }
{
    match fault {
        PartitionFault::Size(count) => put_numbered(alloc, text, b"size", count),
        PartitionFault::Weight(i) => put_numbered(alloc, text, b"weight", i as u64),
        PartitionFault::Repeated(i, j) => {
            put_numbered_pair(alloc, text, b"repeated", i as u64, j as u64)
        }
        PartitionFault::Close {
            i,
            j,
            distance,
            class_i,
            class_j,
            need,
        } => {
            put_numbered_pair(alloc, text, b"close", i as u64, j as u64)?;
            put_spaced(alloc, text, u64::from(distance))?;
            put_numbered_pair(alloc, text, b" classes", class_i as u64, class_j as u64)?;
            put_numbered(alloc, text, b" need", u64::from(need))
        }
        PartitionFault::Memory => Ok(()),
    }
}
