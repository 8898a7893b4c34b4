//! The check of a dual in the scheme of its entry.
ghost use Rattle.std.specs.Prelude.{◌≡◌, IfOk};
ghost use Rattle.std.specs.Result.{result_err};
ghost use Rattle.ct_duals.specs.Dual.{IsDual};
ghost use Rattle.ct_duals.specs.Check.{dual_fault};
ghost use Rattle.ct_words.specs.Numbers.{numbers_of, combination};

use crate::accepted::Accepted;
use crate::check::check_dual;
use crate::dual::Dual;
use crate::fault::DualFault;
use ct_krawtchouk::Hamming;
use ct_scheme::Johnson;

/// The dual as an accepted one, checked with the Krawtchouk numbers of its length, and with a weight with the Johnson
/// numbers. It takes no memory.
pub fn check_dual_of_table<'a>(dual: &'a Dual) -> Result<Accepted<'a>, DualFault>
    requires form { IsDual dual.now }
    ensures fault { result_err result ≡ dual_fault (numbers_of dual.now.entry) dual.now }
    ensures accepted { IfOk result
        (λ a. a ≡ record { dual = dual.now; at_zero = combination (numbers_of dual.now.entry) dual.now.c 0 }) }
{
    let n = dual.entry.n;
    match dual.entry.w {
        None => check_dual(&Hamming { n }, dual),
        Some(w) => check_dual(&Johnson { n, w }, dual),
    }
}
