//! The rules by which bounds enter the table: each, and its name.

ghost use Rattle.std.specs.Prelude.{◌≡◌};
ghost use Rattle.ct_words.specs.declared.claim.Side.TheVariants.{Lower, Upper};
ghost use Rattle.ct_rules.specs.Rule.{rule_side, name_of};

use crate::rows::rule_side;
use ct_words::Side;

/// A rule of the table. Those whose name begins with L give lower bounds and those with U upper bounds of A(n,d); those with
/// M give lower bounds and those with V upper bounds of A(n,d,w). docs/RULES.md has the source of each.
#[derive(Clone, Copy, PartialEq, Eq)]
pub enum Rule {
    /// A(n,d) ≥ 1: one word.
    L1,
    /// A(n,d) ≥ 2 where d ≤ n: two words that differ at each place.
    L2,
    /// A(n,d) ≥ A(n−1,d): words with a 0 added.
    L3,
    /// A(n,d) ≥ A(n,d+1): a code of a greater distance.
    L4,
    /// A(n,d) ≥ A(n−1,d−1) for even d: words with the parity of their weight added.
    L5,
    /// A(n,d) ≥ A(n+1,d+1): words without a place.
    L6,
    /// A(n,d) ≥ ⌈A(n+1,d)/2⌉: the words that have the more frequent digit at a place.
    L7,
    /// A(2m,d) ≥ A(m,⌈d/2⌉)·A(m,d), and 2^(m−1)·A(m,d) where d is 3 or 4: u followed by u + v.
    L8,
    /// A(n,d) ≥ A(n,2⌈d/2⌉,w) for this weight w: a code of constant weight, read without it.
    L9(u32),
    /// A(n,d) is at least the size of the code of the support at this place.
    L10(u32),
    /// A(n,d) ≥ min(A(m,c), A(n−m,d−c)) for this length m and distance c: words of two codes side by side.
    L11(u32, u32),
    /// A(n,d,w) ≥ 1: one word.
    M1,
    /// A(n,d,w) ≥ ⌊n/w⌋ for w = d/2: words of w ones that have none in common.
    M2,
    /// A(n,d,w) ≥ A(n−1,d,w): words with a 0 added.
    M3,
    /// A(n,d,w) ≥ A(n−1,d,w−1): words with a 1 added.
    M4,
    /// A(n,d,w) ≥ ⌈(w+1)·A(n+1,d,w+1)/(n+1)⌉: the words with a one at the place that holds most.
    M5,
    /// A(n,d,w) ≥ ⌈(n+1−w)·A(n+1,d,w)/(n+1)⌉: the words with a zero at the place that holds most.
    M6,
    /// A(n,d,w) ≥ A(n,d,n−w): each digit is turned.
    M7,
    /// A(n,d,w) ≥ A(n,d+2,w): a code of a greater distance.
    M8,
    /// A(n,4,w) is at least the number of words of length n and weight w with ones at places that add up to this residue modulo n:
    /// a sum class (Graham and Sloane).
    M9(u32),
    /// A(n,d,w) is at least the size of the code of constant weight of the support at this place.
    M10(u32),
    /// A(n,d) ≤ 2^n: all words.
    U0,
    /// A(n,d) ≤ 1 where d > n: two words differ at no more places than there are.
    U1,
    /// A(n,d) ≤ 2⌊d/(2d−n)⌋ for even d and d ≤ n < 2d, 4d for n = 2d; at odd d that of A(n+1,d+1): the average distance of the
    /// words (Plotkin).
    U2,
    /// A(n,d) ≤ ⌊2^n/V(n,⌊(d−1)/2⌋)⌋, V(n,e) the size of a ball: balls about the words have no word in common (Hamming).
    U3,
    /// A(n,d) ≤ A(n+1,d+1) for odd d: words with the parity of their weight added.
    U4,
    /// A(n,d) ≤ A(n−1,d−1): words without a place.
    U5,
    /// A(n,d) ≤ 2·A(n−1,d): the words with a 0 and those with a 1 at a place, without it.
    U6,
    /// A(n,d) ≤ A(n,d−1): a code of a smaller distance.
    U7,
    /// A(n,d) ≤ A(n+1,d): words with a 0 added.
    U8,
    /// A(n,d) ≤ ⌊2^n·F/(F·V(n,δ−1)+R)⌋ for d = 2δ−1, F = ⌊n/δ⌋ and R = C(n,δ) − C(d,δ−1)·A(n,d+1,d) above 0: words outside
    /// the balls (Johnson).
    U9,
    /// A(n,d) ≤ ⌊2^(n−1)·A(n,d,w)/C(n,w)⌋ for even d and this weight w: the average over translates (Elias; Bassalygo).
    U10(u32),
    /// A(n,d) ≤ ⌊(f(0)+S+T)/c_0⌋ for the dual of the support at this place, f its combination, S and T from y_i·A(n,2⌈d/2⌉,i) for
    /// each i where it allows y_i above 0: in the group G, 2i ≥ 2n−d, the greatest is T, and of the others the sum is S (Delsarte;
    /// Best, Brouwer, MacWilliams, Odlyzko and Sloane).
    U11(u32),
    /// A(n,d) ≤ m − 1 for the dual and the odd m of the support at this place, where L > m·E: E is f(0)+S+T as in U11, and L the sum
    /// c_0·m² + c_1·C(n,1) + c_2·C(n,2) + .. that f reaches over the pairs of any m words; nothing elsewhere (Best, Brouwer,
    /// MacWilliams, Odlyzko and Sloane).
    U12(u32),
    /// A(n,d,w) ≤ C(n,w): all words of the weight.
    V0,
    /// A(n,d,w) ≤ 1 where d > 2·min(w, n−w): two words differ at no more places than they have ones, or zeros.
    V1,
    /// A(n,d,w) ≤ ⌊n/w⌋ for d = 2w: words have no one in common.
    V2,
    /// A(n,d,w) ≤ A(n,d,n−w): each digit is turned.
    V3,
    /// A(n,d,w) ≤ ⌊n·A(n−1,d,w−1)/w⌋: the words with a one at a place, counted at all places (Johnson).
    V4,
    /// A(n,d,w) ≤ ⌊n·A(n−1,d,w)/(n−w)⌋: the words with a zero at a place, counted at all places (Johnson).
    V5,
    /// A(n,d,w) ≤ A(n−1,d,w) + A(n−1,d,w−1): the words with a 0 and those with a 1 at a place, without it.
    V6,
    /// A(n,d,w) ≤ A(n,d−2,w): a code of a smaller distance.
    V7,
    /// A(n,d,w) ≤ M−1 for the least M from 2 to 1,000 that is too many: with wM = nq + r and 0 ≤ r < n, nq(q−1) + 2qr is above
    /// (w−d/2)·M(M−1), the pairs of words with a one at one place (Johnson).
    V8,
    /// A(n,d,w) ≤ ⌊f(0)/c_0⌋ for the dual of constant weight of the support at this place, f its combination (Delsarte).
    V9(u32),
    /// A(n,d,w) ≤ ⌊(f(0)+Σ y_i·U_i)/c_0⌋ for the dual of constant weight of the support at this place, f its combination, and for each i
    /// where it allows y_i above 0 the lesser U_i of A(n,d,2i) and a bound of the doubly constant codes of (w,i,n−w,i,d): a code seen from
    /// one of its words (Johnson; Agrell, Vardy and Zeger).
    V10(u32),
}

/// The rules that bound A(n,d) from below by bounds of A(n,d), without arguments.
pub const LOWER_RULES: [Rule; 8] = [
    Rule::L1,
    Rule::L2,
    Rule::L3,
    Rule::L4,
    Rule::L5,
    Rule::L6,
    Rule::L7,
    Rule::L8,
];

/// Those that bound A(n,d) from above.
pub const UPPER_RULES: [Rule; 9] = [
    Rule::U0,
    Rule::U1,
    Rule::U2,
    Rule::U3,
    Rule::U4,
    Rule::U5,
    Rule::U6,
    Rule::U7,
    Rule::U8,
];

/// Those that bound A(n,d,w) from below.
pub const LOWER_WEIGHT_RULES: [Rule; 8] = [
    Rule::M1,
    Rule::M2,
    Rule::M3,
    Rule::M4,
    Rule::M5,
    Rule::M6,
    Rule::M7,
    Rule::M8,
];

/// Those that bound A(n,d,w) from above.
pub const UPPER_WEIGHT_RULES: [Rule; 9] = [
    Rule::V0,
    Rule::V1,
    Rule::V2,
    Rule::V3,
    Rule::V4,
    Rule::V5,
    Rule::V6,
    Rule::V7,
    Rule::V8,
];

/// The others that give lower bounds, with arguments that are 0.
pub const OTHER_LOWER_RULES: [Rule; 5] = [
    Rule::L9(0),
    Rule::L10(0),
    Rule::L11(0, 0),
    Rule::M9(0),
    Rule::M10(0),
];

/// The others that give upper bounds, with arguments that are 0.
pub const OTHER_UPPER_RULES: [Rule; 6] = [
    Rule::U9,
    Rule::U10(0),
    Rule::U11(0),
    Rule::U12(0),
    Rule::V9(0),
    Rule::V10(0),
];

/// The name of a rule for lower bounds.
#[tactic(auto, unfolding(crate::specs::Rule::row_of))]
fn lower_name(rule: Rule) -> &'static str
    requires { rule_side rule ≡ Lower }
    ensures { result.now ≡ name_of rule }
{
    match rule {
        Rule::L1 => "L1",
        Rule::L2 => "L2",
        Rule::L3 => "L3",
        Rule::L4 => "L4",
        Rule::L5 => "L5",
        Rule::L6 => "L6",
        Rule::L7 => "L7",
        Rule::L8 => "L8",
        Rule::L9(_) => "L9",
        Rule::L10(_) => "L10",
        Rule::L11(_, _) => "L11",
        Rule::M1 => "M1",
        Rule::M2 => "M2",
        Rule::M3 => "M3",
        Rule::M4 => "M4",
        Rule::M5 => "M5",
        Rule::M6 => "M6",
        Rule::M7 => "M7",
        Rule::M8 => "M8",
        Rule::M9(_) => "M9",
        Rule::M10(_) => "M10",
        _ => unreachable!(),
    }
}

/// The name of a rule for upper bounds.
#[tactic(auto, unfolding(crate::specs::Rule::row_of))]
fn upper_name(rule: Rule) -> &'static str
    requires { rule_side rule ≡ Upper }
    ensures { result.now ≡ name_of rule }
{
    match rule {
        Rule::U0 => "U0",
        Rule::U1 => "U1",
        Rule::U2 => "U2",
        Rule::U3 => "U3",
        Rule::U4 => "U4",
        Rule::U5 => "U5",
        Rule::U6 => "U6",
        Rule::U7 => "U7",
        Rule::U8 => "U8",
        Rule::U9 => "U9",
        Rule::U10(_) => "U10",
        Rule::U11(_) => "U11",
        Rule::U12(_) => "U12",
        Rule::V0 => "V0",
        Rule::V1 => "V1",
        Rule::V2 => "V2",
        Rule::V3 => "V3",
        Rule::V4 => "V4",
        Rule::V5 => "V5",
        Rule::V6 => "V6",
        Rule::V7 => "V7",
        Rule::V8 => "V8",
        Rule::V9(_) => "V9",
        Rule::V10(_) => "V10",
        _ => unreachable!(),
    }
}

/// The name of the rule.
pub fn rule_name(rule: Rule) -> &'static str
    ensures { result.now ≡ name_of rule }
{
    match rule_side(rule) {
        Side::Lower => lower_name(rule),
        Side::Upper => upper_name(rule),
    }
}
