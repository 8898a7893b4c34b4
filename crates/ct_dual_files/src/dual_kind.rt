//! Evidence of kind dual, jdual, jlocal or odd: a dual of Delsarte's linear program.

ghost use Rattle.std.specs.Prelude.{◌≡◌, ◌≢◌, ◌<◌, ◌^◌, Some, None, IfOk, IfErr, OnOk, option_map, false, IsSome};
ghost use Rattle.ct_duals.specs.Dual.{IsDual};
ghost use Rattle.ct_duals.specs.Check.{dual_fault};
ghost use Rattle.ct_dual_files.specs.DualKind.{with_at_zero, dual_support, odd_support, local_support};
ghost use Rattle.ct_words.specs.Numbers.{numbers_of};

use ct_duals::{AcceptedDual, Dual, check_dual_of_table};
use ct_kind::{Kind, SubmitFault};
use ct_rule_parts::{LocalDual, Support};
use std::alloc::Global;

/// What the evidence comes to, whose kind has this word.
pub fn kind(text: &'static [u8], dual: &Dual) -> Kind
    ensures text { result.text.now ≡ text.now }
    ensures entry { result.entry ≡ dual.now.entry }
    ensures is_stored { result.is_stored ≡ false }
    ensures has_code { result.has_code ≡ false }
{
    Kind {
        text,
        entry: dual.entry,
        is_stored: false,
        has_code: false,
    }
}

/// The dual as an accepted one, with a copy of its numbers; or why it is not accepted. Only that copy takes memory.
fn accepted(dual: &Dual) -> Result<AcceptedDual, SubmitFault>
    requires form { IsDual dual.now }
    ensures kept { IfOk result (λ accepted. accepted ≡ with_at_zero dual.now) }
    ensures accepted { OnOk result (dual_fault (numbers_of dual.now.entry) dual.now ≡ None) }
    ensures fault { IfErr result (λ fault. fault ≢ SubmitFault.Memory
        → option_map SubmitFault.Dual (dual_fault (numbers_of dual.now.entry) dual.now) ≡ Some fault) }
{
    match check_dual_of_table(dual) {
        Ok(accepted) => Ok(accepted.try_keep()?),
        Err(fault) => Err(SubmitFault::Dual(fault)),
    }
}

/// What the dual gives to the table, its bound; or why it is not accepted. Only a copy of its numbers takes memory.
pub fn check(dual: &Dual) -> Result<Support, SubmitFault>
    requires form { IsDual dual.now }
    ensures support { IfOk result (λ support. support ≡ dual_support (dual_fault (numbers_of dual.now.entry) dual.now) dual.now) }
    ensures accepted { OnOk result (dual_fault (numbers_of dual.now.entry) dual.now ≡ None) }
    ensures fault { IfErr result (λ fault. fault ≢ SubmitFault.Memory
        → option_map SubmitFault.Dual (dual_fault (numbers_of dual.now.entry) dual.now) ≡ Some fault) }
{
    let dual = accepted(dual)?;
    Ok(Support::Bound(dual))
}

/// What the dual gives to the table with a number of words, that parity may exclude so many by it; or why it is not accepted. It is
/// accepted exactly where it is by `check`, whatever the number. Only a copy of its numbers takes memory.
pub fn check_odd(dual: &Dual, m: u32) -> Result<Support, SubmitFault>
    requires form { IsDual dual.now }
    ensures support { IfOk result (λ support. support ≡ odd_support m (dual_fault (numbers_of dual.now.entry) dual.now) dual.now) }
    ensures accepted { OnOk result (dual_fault (numbers_of dual.now.entry) dual.now ≡ None) }
    ensures fault { IfErr result (λ fault. fault ≢ SubmitFault.Memory
        → option_map SubmitFault.Dual (dual_fault (numbers_of dual.now.entry) dual.now) ≡ Some fault) }
{
    let dual = accepted(dual)?;
    Ok(Support::Odd { dual, m })
}

/// What the dual, of an entry with weight, gives to the table, its local bound; or why it is not accepted. It is accepted exactly where it
/// is by `check`. The bounds of doubly constant codes that it counts with are worked out here, once. Only a copy of its numbers and these
/// bounds take memory.
pub fn check_local(alloc: Global, dual: &Dual) -> Result<Support, SubmitFault>
    requires form { IsDual dual.now }
    requires weight { IsSome dual.now.entry.w }
    ensures support { IfOk result (λ support. support ≡ local_support (dual_fault (numbers_of dual.now.entry) dual.now) dual.now) }
    ensures accepted { OnOk result (dual_fault (numbers_of dual.now.entry) dual.now ≡ None) }
    ensures fault { IfErr result (λ fault. fault ≢ SubmitFault.Memory
        → option_map SubmitFault.Dual (dual_fault (numbers_of dual.now.entry) dual.now) ≡ Some fault) }
{
    let dual = accepted(dual)?;
    Ok(Support::Local(LocalDual::new(alloc, dual)?))
}
