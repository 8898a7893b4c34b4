//! The form of a dual.
ghost use Rattle.std.specs.Prelude.{◌≡◌, ◌↔◌, ◌≤◌, IsTrue};
ghost use Rattle.std.specs.List.{list_all};
ghost use Rattle.ct_words.specs.declared.limits.TheConstants.{MAX_N};
ghost use Rattle.ct_words.specs.Entry.{IsEntry};
ghost use Rattle.ct_duals.specs.Dual.{IsDual, degree_of, is_in_range};
ghost use Rattle.ct_duals.specs.Form.{is_dual, are_multipliers, are_allowances, is_mark, is_number};

use crate::dual::Dual;
use ct_words::Entry;

impl Dual {
    /// Whether the dual has the form of one: its entry is in the table; there are 1 to degree + 1 multipliers, all at least
    /// 0; the indices at which it allows something are of the range and strictly ascending, and each number that is allowed
    /// is at least 0; it speaks of even distances alone only where d is even; and with a weight it doesn't.
    pub fn is_formed(&self) -> bool
        ensures value { result ≡ is_dual self.now }
        ensures form { IsTrue result ↔ IsDual self.now }
    {
        is_dual(self)
    }
}

fn is_dual(dual: &Dual) -> bool
    ensures { result ≡ is_dual dual.now }
{
    if !dual.entry.in_table() || !is_mark(dual) {
        return false;
    }
    if !are_multipliers(dual.entry, dual.c.as_slice()) {
        return false;
    }
    are_allowances(dual.entry, dual.even, dual.y.as_slice())
}

/// Whether the mark `even` fits the weight and the distance.
fn is_mark(dual: &Dual) -> bool
    ensures { result ≡ is_mark dual.now.entry.w dual.now.entry.d dual.now.even }
{
    match dual.entry.w {
        None => !dual.even || dual.entry.d % 2 == 0,
        Some(_) => !dual.even,
    }
}

/// The greatest index of two words of the space of the entry, which is in the table: the length, and with a weight the
/// least of it and what it lacks of the length.
pub fn degree(entry: Entry) -> u32
    requires { IsEntry entry }
    ensures value { result ≡ degree_of entry }
    ensures short { result ≤ MAX_N }
{
    match entry.w {
        None => entry.n,
        Some(w) => w.min(entry.n - w),
    }
}

/// Whether there are 1 to degree + 1 numbers, all at least 0.
pub fn are_multipliers(entry: Entry, c: &[i64]) -> bool
    requires { IsEntry entry }
    ensures { result ≡ are_multipliers entry c.now }
{
    if c.is_empty() || c.len() > degree(entry) as usize + 1 {
        return false;
    }
    is_none_negative(c)
}

fn is_none_negative(c: &[i64]) -> bool
    ensures { result ≡ list_all is_number c.now }
{
    for number in c {
        if *number < 0 {
            return false;
        }
    }
    true
}

/// Whether the indices are of the range and strictly ascending, and each number is at least 0.
pub fn are_allowances(entry: Entry, even: bool, y: &[(u32, i64)]) -> bool
    requires { IsEntry entry }
    ensures { result ≡ are_allowances entry even y.now }
{
    let mut low = 0;
    for (i, number) in y {
        if *i < low || !is_in_range(entry, even, *i) || *number < 0 {
            return false;
        }
        low = *i + 1;
    }
    true
}

/// Whether two words of a code of the entry may have the index `i`; the even ones alone where `even` is set.
pub fn is_in_range(entry: Entry, even: bool, i: u32) -> bool
    requires { IsEntry entry }
    ensures { result ≡ is_in_range entry even i }
{
    let first = match entry.w {
        None => entry.d,
        Some(_) => entry.d / 2,
    };
    first <= i && i <= degree(entry) && (!even || i % 2 == 0)
}
