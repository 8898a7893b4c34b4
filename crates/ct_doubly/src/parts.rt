//! What is left of the words where some of their places are taken out.

ghost use Rattle.std.specs.Prelude.{◌≡◌, ℕ, ◌+◌, ◌-◌, ◌*◌, ◌/◌, ◌%◌, ◌<◌, ◌≤◌, Some, IfSome};
ghost use Rattle.ct_words.specs.declared.limits.TheConstants.{MAX_N};
ghost use Rattle.ct_doubly.specs.Inside.Tables.{place_of};

/// The length and the weight of the first half of each word, and of the last.
#[derive(Clone, Copy)]
pub(crate) struct Parts {
    pub n1: u32,
    pub w1: u32,
    pub n2: u32,
    pub w2: u32,
}

/// The parts without as many ones and zeros of each half as the place of a table says; `None` where they have not so many, or
/// these are more than `most` in all.
///
/// The digits of the place in base 4 are the numbers of ones and of zeros of the first half, and of ones and of zeros of the last.
pub(crate) fn left_at(parts: Parts, place: usize, most: u32) -> Option<Parts>
    requires place { place < 256 }
    requires length { parts.n1 + parts.n2 ≤ MAX_N }
    requires first { parts.w1 ≤ parts.n1 }
    requires last { parts.w2 ≤ parts.n2 }
    ensures few { IfSome result (λ _. place / 64 + place / 16 % 4 + place / 4 % 4 + place % 4 ≤ most) }
    ensures length { IfSome result (λ left. left.n1 + left.n2 ≤ parts.n1 + parts.n2) }
    ensures first { IfSome result (λ left. left.w1 ≤ left.n1) }
    ensures last { IfSome result (λ left. left.w2 ≤ left.n2) }
    ensures value { (a b c e : ℕ) → place ≡ place_of a b c e → a + b + c + e ≤ most → most ≤ 3 →
        a ≤ parts.w1 → b ≤ parts.n1 - parts.w1 → c ≤ parts.w2 → e ≤ parts.n2 - parts.w2 →
        result ≡ Some (record {
          n1 = parts.n1 - (a + b);
          w1 = parts.w1 - a;
          n2 = parts.n2 - (c + e);
          w2 = parts.w2 - c;
        }) }
{
    let place = place as u32;
    let (first_ones, first_zeros) = (place / 64, place / 16 % 4);
    let (last_ones, last_zeros) = (place / 4 % 4, place % 4);
    if most < first_ones + first_zeros + last_ones + last_zeros {
        return None;
    }
    if parts.w1 < first_ones || parts.n1 - parts.w1 < first_zeros {
        return None;
    }
    if parts.w2 < last_ones || parts.n2 - parts.w2 < last_zeros {
        return None;
    }
    Some(Parts {
        n1: parts.n1 - (first_ones + first_zeros),
        w1: parts.w1 - first_ones,
        n2: parts.n2 - (last_ones + last_zeros),
        w2: parts.w2 - last_ones,
    })
}
