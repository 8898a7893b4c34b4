//! The rules of the table, derivations by them from what evidence supports, best values; what becomes of rules and derivations once supports are taken out.
#![tactic(auto)]

mod arguments;
mod instance;
mod line;
mod listing;
mod lowering;
mod rows;
mod rule;

pub use arguments::{Arguments, arguments_of, with_arguments};
pub use ct_rule_parts::{Entries, Support};
pub use instance::{applies, defined_on, premise, premise_count, value, value_where_defined};
pub use line::Line;
pub use listing::{rule_named, rules_alone};
pub use lowering::{is_gone, lowered, names_one};
pub use rows::{place_of, rested_on_by, rests_on, rule_side, with_place};
pub use rule::{
    LOWER_RULES, LOWER_WEIGHT_RULES, OTHER_LOWER_RULES, OTHER_UPPER_RULES, Rule, UPPER_RULES,
    UPPER_WEIGHT_RULES, rule_name,
};
