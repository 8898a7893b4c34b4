//! Rules with their arguments, as the words of a line state them.

ghost use Rattle.std.specs.Prelude.{◌≡◌, ◌-◌, ◌^◌, nat_lt, if◌then◌else◌, ◌∷◌, [], List, ℕ, Option, Some, None, IfSome, map, option_map};
ghost use Rattle.ct_text.specs.Number.{number_of};
ghost use Rattle.ct_names.specs.Id.{is_id};
ghost use Rattle.ct_piece.specs.Piece.{place_of_id};
ghost use Rattle.ct_verify.specs.Stated.{argument_of, resolved};
ghost use Rattle.ct_verify.specs.Inside.StatedRule.{first_argument, second_argument, first_id, numbered, citing, with_words, stated_rule};

use ct_names::Id;
use ct_pieces::Pieces;
use ct_rules::{Arguments, Rule, arguments_of, rule_named, with_arguments, with_place};
use ct_text::parse_number;
use ct_words::Side;

/// A rule with its arguments, as the words of a line state it.
#[derive(Clone, Copy)]
pub struct StatedRule {
    /// The rule. Where it names a piece, the place is not said.
    pub rule: Rule,
    /// The id of the piece that it names, where it names one.
    pub id: Option<Id>,
    /// How many of the words after its name are its arguments.
    pub arguments: usize,
}

/// The number that an argument writes. One from 2^32 on stands for the greatest below it: neither is an argument of a rule at any
/// entry.
fn parse_argument(word: &[u8]) -> Option<u32>
    ensures { result ≡ argument_of word.now }
{
    let number = parse_number(word)?;
    if number < 1 << 32 {
        Some(number as u32)
    } else {
        Some(u32::MAX)
    }
}

/// The number that the first word writes.
fn first_argument(words: &[&[u8]]) -> Option<u32>
    ensures { result ≡ first_argument (map (λ word. word.now) words.now) }
{
    match words {
        [word, ..] => parse_argument(word),
        _ => None,
    }
}

/// The number that the second word writes.
fn second_argument(words: &[&[u8]]) -> Option<u32>
    ensures { result ≡ second_argument (map (λ word. word.now) words.now) }
{
    match words {
        [_, word, ..] => parse_argument(word),
        _ => None,
    }
}

/// The id that the first word is.
fn first_id(words: &[&[u8]]) -> Option<Id>
    ensures { result ≡ first_id (map (λ word. word.now) words.now) }
{
    match words {
        [word, ..] => Id::parse(word),
        _ => None,
    }
}

/// A rule that states so many arguments, and no piece.
fn numbered(arguments: usize, rule: Rule) -> StatedRule
    ensures { result ≡ numbered arguments rule }
{
    StatedRule {
        rule,
        id: None,
        arguments,
    }
}

/// A rule that names the piece of the id.
fn citing(rule: Rule, id: Id) -> StatedRule
    ensures { result ≡ citing rule id }
{
    StatedRule {
        rule,
        id: Some(id),
        arguments: 1,
    }
}

/// The rule with arguments of this form that the words begin with.
fn with_words(rule: Rule, arguments: Arguments, words: &[&[u8]]) -> Option<StatedRule>
    ensures { result ≡ with_words rule arguments (map (λ word. word.now) words.now) }
{
    match arguments {
        Arguments::Nothing => Some(numbered(0, rule)),
        Arguments::Number(_) => {
            let number = first_argument(words)?;
            Some(numbered(1, with_arguments(rule, Arguments::Number(number))))
        }
        Arguments::Numbers(_, _) => {
            let first = first_argument(words)?;
            let second = second_argument(words)?;
            Some(numbered(2, with_arguments(rule, Arguments::Numbers(first, second))))
        }
        Arguments::Place(_) => {
            let id = first_id(words)?;
            Some(citing(rule, id))
        }
    }
}

/// The rule of this side that a name and the words after it state.
pub(crate) fn parse_rule(side: Side, name: &[u8], words: &[&[u8]]) -> Option<StatedRule>
    ensures { result ≡ stated_rule side name.now (map (λ word. word.now) words.now) }
{
    let rule = rule_named(side, name)?;
    with_words(rule, arguments_of(rule), words)
}

impl StatedRule {
    /// The rule over the pieces: where it names one, with its place, and nothing where no piece has the id.
    pub(crate) fn over(&self, pieces: &Pieces) -> Option<Rule>
        ensures { result ≡ resolved pieces.now self.now.rule self.now.id }
    {
        match self.id {
            None => Some(self.rule),
            Some(id) => {
                let place = pieces.place_of(id)?;
                Some(with_place(self.rule, place as u32))
            }
        }
    }
}
