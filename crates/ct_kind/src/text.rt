//! What texts of faults are made of.

ghost use Rattle.std.specs.Prelude.{◌≡◌, ◌++◌, OnOk};

use ct_names::Id;
use std::alloc::AllocError;

/// Puts the name of a fault and an id at the end of the text. `Err` is want of memory.
pub fn put_named(text: &mut Vec<u8>, name: &[u8], id: Id) -> Result<(), AllocError>
    ensures { OnOk result (text.new.items ≡ text.old.items ++ (name.now ++ id)) }
{
    text.extend_from_slice(name)?;
    text.extend_from_slice(id.text())
}
