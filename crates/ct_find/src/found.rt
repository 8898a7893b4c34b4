//! The dual that is proposed for an entry.

ghost use Rattle.ct_words.specs.Numbers.{numbers_of};
ghost use Rattle.ct_finder.specs.Run.{run_of};
ghost use Rattle.std.specs.Prelude.{◌≡◌, None, Some, IfOk, IfSome, option_map};
ghost use Rattle.ct_words.specs.Entry.{IsEntry, unrestricted};
ghost use Rattle.ct_duals.specs.Dual.{IsDual};
ghost use Rattle.ct_finder.specs.Found.{bound_without_allowances, dual_at_end, stop_of, IsShown};
ghost use Rattle.ct_find.specs.Proposal.{is_even, found_dual, stop_for};

use ct_finder::{Found, find, find_weight};
use ct_words::Entry;
use std::alloc::{AllocError, Global};

/// The most pivots of a run.
pub const MAX_PIVOTS: u32 = 20_000;

/// The dual that the finder gives for A(n,d), with at most `MAX_PIVOTS` pivots; of even distances alone where d is even.
fn plain_found_for(alloc: Global, n: u32, d: u32) -> Result<Found, AllocError>
    requires { IsEntry (unrestricted n d) }
    ensures dual { IfOk result (λ f. Some f.dual ≡
        dual_at_end (unrestricted n d) (is_even None d) (run_of (numbers_of (unrestricted n d)) (unrestricted n d) (is_even None d) MAX_PIVOTS)) }
    ensures bound { IfOk result (λ f. f.bound ≡ bound_without_allowances f.dual) }
    ensures stop { IfOk result (λ f. f.stop ≡
        stop_of (unrestricted n d) (is_even None d) MAX_PIVOTS (run_of (numbers_of (unrestricted n d)) (unrestricted n d) (is_even None d) MAX_PIVOTS)) }
    ensures shown { IfOk result (λ f. IsShown f.stop f.dual) }
    ensures form { IfOk result (λ f. IsDual f.dual) }
    ensures of_entry { IfOk result (λ f. f.dual.entry ≡ unrestricted n d) }
{
    find(alloc, n, d, d % 2 == 0, MAX_PIVOTS)
}

/// The dual that the finder gives for the entry, with at most `MAX_PIVOTS` pivots; of even distances alone where there is no weight and d is
/// even. `None` comes where there is a weight and the run does not end as least. `Err` is want of memory.
pub(crate) fn found_for(alloc: Global, entry: Entry) -> Result<Option<Found>, AllocError>
    requires { IsEntry entry }
    ensures dual { IfOk result (λ o. option_map (λ f. f.dual) o ≡ found_dual entry) }
    ensures bound { IfOk result (λ o. IfSome o (λ f. f.bound ≡ bound_without_allowances f.dual)) }
    ensures stop { IfOk result (λ o. IfSome o (λ f. f.stop ≡ stop_for entry)) }
    ensures shown { IfOk result (λ o. IfSome o (λ f. IsShown f.stop f.dual)) }
    ensures form { IfOk result (λ o. IfSome o (λ f. IsDual f.dual)) }
    ensures of_entry { IfOk result (λ o. IfSome o (λ f. f.dual.entry ≡ entry)) }
{
    match entry.w {
        None => Ok(Some(plain_found_for(alloc, entry.n, entry.d)?)),
        Some(w) => find_weight(alloc, entry.n, entry.d, w, MAX_PIVOTS),
    }
}
