//! Juxtaposition: words of two codes side by side.

ghost use Rattle.std.specs.Prelude.{◌≡◌, ◌+◌, ℕ, true, false, ◌∷◌, [], Some};
ghost use Rattle.ct_words.specs.declared.limits.TheConstants.{MAX_N};
ghost use Rattle.ct_words.specs.declared.entry.Entry.{Entry};
ghost use Rattle.ct_words.specs.Entry.{unrestricted, constant_weight};
ghost use Rattle.ct_rule_parts.specs.Entries.{listed};
ghost use Rattle.ct_rule_parts.specs.Parts.{is_defined};
ghost use Rattle.ct_plain_rules.specs.Juxtaposition.{juxtaposition};

use ct_rule_parts::Entries;
use ct_words::Entry;

/// The entries of the premises of L11 with the length m and the distance c: A(m,c), and A(n−m,d−c).
pub fn parts_of_juxtaposition(m: u32, c: u32, entry: Entry) -> Entries<'static>
    ensures { listed result ≡ (juxtaposition m c).rests_on entry }
{
    let first = Entry {
        n: m,
        d: c,
        w: None,
    };
    let second = Entry {
        n: entry.n.saturating_sub(m),
        d: entry.d.saturating_sub(c),
        w: None,
    };
    Entries::Two(first, second)
}

/// Where the rule is defined, with the least lengths and distances of its parts, what it rests on and what it gives.
pub fn known_juxtaposition()
    ensures middle { is_defined (juxtaposition 5 3) (unrestricted 12 7) ≡ true }
    ensures middle_rests_on { (juxtaposition 5 3).rests_on (unrestricted 12 7) ≡ unrestricted 5 3 ∷ unrestricted 7 4 ∷ [] }
    ensures first_short { is_defined (juxtaposition 1 4) (unrestricted 12 7) ≡ true }
    ensures first_short_rests_on { (juxtaposition 1 4).rests_on (unrestricted 12 7) ≡ unrestricted 1 4 ∷ unrestricted 11 3 ∷ [] }
    ensures second_short { is_defined (juxtaposition 11 3) (unrestricted 12 6) ≡ true }
    ensures second_short_rests_on { (juxtaposition 11 3).rests_on (unrestricted 12 6) ≡ unrestricted 11 3 ∷ unrestricted 1 3 ∷ [] }
    ensures value { (juxtaposition 5 3).number (unrestricted 12 7) (4 ∷ 8 ∷ []) ≡ Some 4 }
    ensures turned_value { (juxtaposition 7 4).number (unrestricted 12 7) (8 ∷ 4 ∷ []) ≡ Some 4 }
    ensures no_first { is_defined (juxtaposition 0 3) (unrestricted 12 6) ≡ false }
    ensures no_second { is_defined (juxtaposition 12 3) (unrestricted 12 6) ≡ false }
    ensures first_near { is_defined (juxtaposition 5 2) (unrestricted 12 6) ≡ false }
    ensures second_near { is_defined (juxtaposition 5 4) (unrestricted 12 6) ≡ false }
    ensures within { is_defined (juxtaposition 4 3) (unrestricted 8 6) ≡ true }
    ensures of_weight { is_defined (juxtaposition 4 3) (constant_weight 8 6 4) ≡ false }
    ensures no_entry { is_defined (juxtaposition 4 3) (unrestricted (MAX_N + 1) 6) ≡ false }
{}
