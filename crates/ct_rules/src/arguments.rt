//! The arguments of rules.

ghost use Rattle.std.specs.Prelude.{◌≡◌};
ghost use Rattle.ct_rules.specs.Rule.{arguments_of, with_arguments};

use crate::rule::Rule;

/// What stands after the name of a rule.
#[derive(Clone, Copy)]
pub enum Arguments {
    /// Nothing.
    Nothing,
    /// A number.
    Number(u32),
    /// Two numbers.
    Numbers(u32, u32),
    /// The place of a support, which the text of a derivation names by the id of its piece.
    Place(u32),
}

/// The arguments of the rule.
#[tactic(auto, unfolding(crate::specs::Rule::row_of))]
pub fn arguments_of(rule: Rule) -> Arguments
    ensures { result ≡ arguments_of rule }
{
    match rule {
        Rule::L9(k) | Rule::M9(k) | Rule::U10(k) => Arguments::Number(k),
        Rule::L11(n, d) => Arguments::Numbers(n, d),
        Rule::L10(place)
        | Rule::M10(place)
        | Rule::U11(place)
        | Rule::U12(place)
        | Rule::V9(place)
        | Rule::V10(place) => Arguments::Place(place),
        _ => Arguments::Nothing,
    }
}

/// The rule with other arguments of the same form. Where these have another form, it is the rule itself.
#[tactic(auto, unfolding(crate::specs::Rule::row_of))]
pub fn with_arguments(rule: Rule, arguments: Arguments) -> Rule
    ensures { result ≡ with_arguments rule arguments }
{
    match (rule, arguments) {
        (Rule::L9(_), Arguments::Number(w)) => Rule::L9(w),
        (Rule::L10(_), Arguments::Place(place)) => Rule::L10(place),
        (Rule::L11(_, _), Arguments::Numbers(n, d)) => Rule::L11(n, d),
        (Rule::M9(_), Arguments::Number(r)) => Rule::M9(r),
        (Rule::M10(_), Arguments::Place(place)) => Rule::M10(place),
        (Rule::U10(_), Arguments::Number(w)) => Rule::U10(w),
        (Rule::U11(_), Arguments::Place(place)) => Rule::U11(place),
        (Rule::U12(_), Arguments::Place(place)) => Rule::U12(place),
        (Rule::V9(_), Arguments::Place(place)) => Rule::V9(place),
        (Rule::V10(_), Arguments::Place(place)) => Rule::V10(place),
        _ => rule,
    }
}
