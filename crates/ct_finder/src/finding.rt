//! Duals of entries, found.
ghost use Rattle.std.specs.Prelude.{◌≡◌, ◌≤◌, replicate, suc, [], pos, false, None, Some, Option, IfOk, IfSome, option_map, unwrap_or};
ghost use Rattle.ct_words.specs.Code.{IsTrueUpper};
ghost use Rattle.ct_words.specs.Entry.{IsEntry, unrestricted, constant_weight};
ghost use Rattle.ct_duals.specs.Dual.{IsDual};
ghost use Rattle.ct_duals.specs.Check.{dual_fault};
ghost use Rattle.ct_words.specs.Numbers.{numbers_of};
ghost use Rattle.ct_finder.specs.Run.{IsAsked, run_of};
ghost use Rattle.ct_primal.specs.Primal.{PrimalValue};
ghost use Rattle.ct_finder.specs.Found.{dual_at_end, bound_without_allowances, stop_of, IsShown, IsLeast};
ghost use Rattle.ct_finder.specs.Ending.{multipliers_from, stop_from, stop_read};

use crate::ending::{Ending, run_over};
use crate::found::{Found, Stop};
use crate::opening::{push_repeated, range_of};
use crate::reading::Reading;
use ct_duals::{Allowances, Dual, Multipliers, check_dual_of_table};
use ct_krawtchouk::Hamming;
use ct_scheme::Johnson;
use ct_words::Entry;
use std::alloc::{AllocError, Global};

/// A dual for A(n,d), by the finder's run with at most so many pivots: the run's where it ends as least, else the one
/// whose multipliers are n + 1 ones. Where `even` is set, which is only where d is even, the run and the dual speak of
/// even distances alone. Where the stop is `Least`, its primal is accepted with the bound as its value, so no accepted dual of the
/// entry with the same mark that allows nothing has a smaller one. `Err` is want of memory.
pub fn find(alloc: Global, n: u32, d: u32, even: bool, pivots: u32) -> Result<Found, AllocError>
    requires { IsAsked (unrestricted n d) even }
    ensures dual { IfOk result (λ f. Some f.dual ≡ dual_at_end (unrestricted n d) even (run_of (numbers_of (unrestricted n d)) (unrestricted n d) even pivots)) }
    ensures bound { IfOk result (λ f. f.bound ≡ bound_without_allowances f.dual) }
    ensures stop { IfOk result (λ f. f.stop ≡ stop_of (unrestricted n d) even pivots (run_of (numbers_of (unrestricted n d)) (unrestricted n d) even pivots)) }
    ensures shown { IfOk result (λ f. IsShown f.stop f.dual) }
    ensures least { IfOk result (λ f. (p : PrimalValue) → f.stop ≡ Stop.Least p → IsLeast f.dual) }
    ensures form { IfOk result (λ f. IsDual f.dual) }
    ensures accepted { IfOk result (λ f. dual_fault (numbers_of f.dual.entry) f.dual ≡ None) }
    ensures entry { IfOk result (λ f. f.dual.entry ≡ unrestricted n d) }
    ensures nothing_allowed { IfOk result (λ f. f.dual.y ≡ []) }
    ensures true_upper { IfOk result (λ f. IsTrueUpper (unrestricted n d) f.bound) }
{
    let entry = Entry { n, d, w: None };
    let range = range_of(alloc, entry, even)?;
    let ending = run_over(alloc, &Hamming { n }, entry, even, &range, pivots)?;
    let (multipliers, stop) = parts(pivots, ending);
    let c = multipliers_or_ones(alloc, n, multipliers)?;
    Ok(found(alloc, entry, even, c, stop))
}

/// A dual for A(n,d,w), by the finder's run with at most so many pivots: the run's where it ends as least, else `None`.
/// Its stop is `Least` where its primal fits, and else `Wide`. `Err` is want of memory.
pub fn find_weight(
    alloc: Global,
    n: u32,
    d: u32,
    w: u32,
    pivots: u32,
) -> Result<Option<Found>, AllocError>
    requires { IsEntry (constant_weight n d w) }
    ensures dual { IfOk result (λ o. option_map (λ f. f.dual) o ≡
        dual_at_end (constant_weight n d w) false (run_of (numbers_of (constant_weight n d w)) (constant_weight n d w) false pivots)) }
    ensures bound { IfOk result (λ o. IfSome o (λ f. f.bound ≡ bound_without_allowances f.dual)) }
    ensures stop { IfOk result (λ o. IfSome o (λ f.
        f.stop ≡ stop_of (constant_weight n d w) false pivots (run_of (numbers_of (constant_weight n d w)) (constant_weight n d w) false pivots))) }
    ensures shown { IfOk result (λ o. IfSome o (λ f. IsShown f.stop f.dual)) }
    ensures least { IfOk result (λ o. IfSome o (λ f. (p : PrimalValue) → f.stop ≡ Stop.Least p → IsLeast f.dual)) }
    ensures form { IfOk result (λ o. IfSome o (λ f. IsDual f.dual)) }
    ensures accepted { IfOk result (λ o. IfSome o (λ f. dual_fault (numbers_of f.dual.entry) f.dual ≡ None)) }
    ensures of_entry { IfOk result (λ o. IfSome o (λ f. f.dual.entry ≡ constant_weight n d w)) }
    ensures nothing_allowed { IfOk result (λ o. IfSome o (λ f. f.dual.y ≡ [])) }
    ensures true_upper { IfOk result (λ o. IfSome o (λ f. IsTrueUpper (constant_weight n d w) f.bound)) }
{
    let entry = Entry { n, d, w: Some(w) };
    let range = range_of(alloc, entry, false)?;
    let ending = run_over(alloc, &Johnson { n, w }, entry, false, &range, pivots)?;
    let (multipliers, stop) = parts(pivots, ending);
    match multipliers {
        None => Ok(None),
        Some(c) => Ok(Some(found(alloc, entry, false, c, stop))),
    }
}

/// The dual of an entry with these multipliers, which is accepted, with its bound.
fn found(alloc: Global, entry: Entry, even: bool, c: Multipliers, stop: Stop) -> Found
    requires form { IsDual (record { entry = entry; even = even; c = c; y = [] }) }
    requires accepted { dual_fault (numbers_of entry) (record { entry = entry; even = even; c = c; y = [] }) ≡ None }
    ensures dual { result.dual ≡ record { entry = entry; even = even; c = c; y = [] } }
    ensures bound { result.bound ≡ bound_without_allowances result.dual }
    ensures stop { result.stop ≡ stop }
    ensures true_upper { IsTrueUpper entry result.bound }
{
    let y = Allowances::from_vec(Vec::new(alloc));
    let dual = Dual { entry, even, c, y };
    let bound = bound(&dual);
    Found { dual, bound, stop }
}

/// The bound of a dual that is accepted and allows nothing.
fn bound(dual: &Dual) -> u32
    requires form { IsDual dual.now }
    requires accepted { dual_fault (numbers_of dual.now.entry) dual.now ≡ None }
    requires nothing { dual.now.y ≡ [] }
    ensures value { result ≡ bound_without_allowances dual.now }
    ensures true_upper { IsTrueUpper dual.now.entry result }
{
    let Ok(accepted) = check_dual_of_table(dual) else {
        unreachable!()
    };
    accepted.bound(&[])
}

/// How a run that ended as least stopped: with its primal, or with the first number of it that is too large.
fn stop_read(reading: Reading) -> Stop
    ensures { result ≡ stop_read reading }
{
    match reading {
        Reading::Primal(primal) => Stop::Least(primal),
        Reading::Wide(number) => Stop::Wide(number),
    }
}

/// The multipliers of a run that ended as least, and how the run stopped, with the pivots that were asked for.
fn parts(pivots: u32, ending: Ending) -> (Option<Multipliers>, Stop)
    ensures multipliers { result.0 ≡ multipliers_from ending }
    ensures stop { result.1 ≡ stop_from pivots ending }
{
    match ending {
        Ending::Least(c, reading) => (Some(c), stop_read(reading)),
        Ending::Turns => (None, Stop::Turns(pivots)),
        Ending::Wide(entry) => (None, Stop::Wide(entry)),
    }
}

/// The multipliers, or 1, n + 1 times, where there are none.
fn multipliers_or_ones(
    alloc: Global,
    n: u32,
    multipliers: Option<Multipliers>,
) -> Result<Multipliers, AllocError>
    ensures { IfOk result (λ c. c ≡ unwrap_or multipliers (replicate (suc n) (pos 1))) }
{
    match multipliers {
        Some(c) => Ok(c),
        None => ones(alloc, n),
    }
}

/// The multipliers 1, n + 1 times.
fn ones(alloc: Global, n: u32) -> Result<Multipliers, AllocError>
    ensures { IfOk result (λ c. c ≡ replicate (suc n) (pos 1)) }
{
    let mut numbers = Vec::new(alloc);
    push_repeated(&mut numbers, 1, n as usize + 1)?;
    Ok(Multipliers::from_vec(numbers))
}
