//! The code that each rule for lower bounds says there is, a row for each rule.

ghost use Rattle.std.specs.Prelude.{◌≡◌, IfOk};
ghost use Rattle.ct_words.specs.declared.claim.Side.TheVariants.{Lower};
ghost use Rattle.ct_rules.specs.Rule.{rule_side, parts_over};
ghost use Rattle.ct_piece.specs.Supports.{supports_of};
ghost use Rattle.ct_list.specs.Inside.Rows.{AreParts, IsMadeBy};

use crate::given::given_code;
use crate::parts::{both, only};
use ct_build::{append_one, complement, juxtapose, lengthen, parity, puncture, uuv};
use ct_ledger::Ledger;
use ct_rule_codes::{
    disjoint_words, half, one_word, opposite_words, read_as, sum_class, sums_with_even_words,
    with_one, with_zero,
};
use ct_rules::Rule;
use ct_words::{Code, Entry};
use std::alloc::{AllocError, Global};

/// The code of the entry that the rule, one for lower bounds that is defined there, says there is, made of codes of the entries
/// that it rests on. The ledger stays the same. `Err` is want of memory.
#[tactic(auto, unfolding(ct_rules::specs::Rule::row_of))]
pub(crate) fn code_by_rule(
    alloc: Global,
    ledger: &mut Ledger,
    rule: Rule,
    entry: Entry,
    codes: Vec<Code>,
) -> Result<Code, AllocError>
    requires side { rule_side rule ≡ Lower }
    requires parts { AreParts (parts_over (supports_of ledger.old.pieces) rule) entry codes.items }
    ensures code { IfOk result (IsMadeBy (parts_over (supports_of ledger.old.pieces) rule) entry codes.items) }
    ensures unchanged { ledger.new ≡ ledger.old }
{
    let Entry { n, d, w } = entry;
    match rule {
        Rule::L1 | Rule::M1 => one_word(alloc, entry),
        Rule::L2 => opposite_words(alloc, n, d),
        Rule::L3 | Rule::M3 => lengthen(alloc, &only(codes)),
        Rule::L4 | Rule::L9(_) | Rule::M8 => Ok(read_as(only(codes), d, w)),
        Rule::L5 => parity(alloc, &only(codes)),
        Rule::L6 => puncture(alloc, &only(codes), &[0]),
        Rule::L7 => half(alloc, &only(codes)),
        Rule::L8 if d < 5 => sums_with_even_words(alloc, &only(codes)),
        Rule::L8 => {
            let (first, second) = both(codes);
            uuv(alloc, &first, &second)
        }
        Rule::L10(place) | Rule::M10(place) => given_code(alloc, ledger, entry, place),
        Rule::L11(_, _) => {
            let (first, second) = both(codes);
            juxtapose(alloc, &first, &second)
        }
        Rule::M2 => disjoint_words(alloc, n, d / 2),
        Rule::M4 => append_one(alloc, &only(codes)),
        Rule::M5 => with_one(alloc, &only(codes), w.unwrap_or(0) + 1),
        Rule::M6 => with_zero(alloc, &only(codes), w.unwrap_or(0)),
        Rule::M7 => complement(alloc, &only(codes)),
        Rule::M9(r) => sum_class(alloc, entry, r),
        _ => unreachable!(),
    }
}
