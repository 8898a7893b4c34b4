//! Supports that give way to others at some places, and those that are left without them.

ghost use Rattle.std.specs.Prelude.{◌≡◌, ◌<◌, IfOk, length, replicate};
ghost use Rattle.ct_rule_parts.specs.declared.support.Support.TheVariants.{Nothing};
ghost use Rattle.ct_rules.specs.Removal.{marked, only, without};
ghost use Rattle.ct_table.specs.Inside.Exchanged.{exchanged};

use ct_rules::{Support, is_gone};
use std::alloc::{AllocError, Global};
use std::mem;

/// So many marks, of which that at the place alone is set. `Err` is want of memory.
pub(crate) fn only(alloc: Global, count: usize, place: usize) -> Result<Vec<bool>, AllocError>
    requires { place < count }
    ensures { IfOk result (λ gone. marked gone.items ≡ only place) }
{
    let mut gone = vec![in alloc; false; count]?;
    gone[place] = true;
    Ok(gone)
}

/// So many supports that give nothing. `Err` is want of memory.
pub(crate) fn nothings(alloc: Global, count: usize) -> Result<Vec<Support>, AllocError>
    ensures { IfOk result (λ supports. supports.items ≡ replicate count Nothing) }
{
    let mut supports = Vec::with_capacity(alloc, count)?;
    for _ in 0..count {
        supports.push(Support::Nothing)?;
    }
    Ok(supports)
}

/// Exchanges the supports at the marked places for the others there.
pub(crate) fn exchange(supports: &mut [Support], others: &mut [Support], gone: &[bool])
    requires { length supports.old ≡ length others.old }
    ensures supports { supports.new ≡ exchanged (marked gone.now) supports.old others.old }
    ensures others { others.new ≡ exchanged (marked gone.now) others.old supports.old }
{
    for place in 0..supports.len() {
        if is_gone(gone, place) {
            mem::swap(&mut supports[place], &mut others[place]);
        }
    }
}

/// Leaves out the supports at the marked places; the others keep their order.
pub(crate) fn leave_out(supports: &mut Vec<Support>, gone: &[bool])
    ensures { supports.new.items ≡ without (marked gone.now) supports.old.items }
{
    let mut left = 0;
    for place in 0..supports.len() {
        if !is_gone(gone, place) {
            supports.swap(left, place);
            left += 1;
        }
    }
    supports.truncate(left);
}
