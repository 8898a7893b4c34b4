//! Lines over the supports that are left once some are taken out.

ghost use Rattle.std.specs.Prelude.{◌≡◌, ◌↔◌, false, All, map};
ghost use Rattle.ct_rules.specs.Derivation.{LineValue};
ghost use Rattle.ct_rules.specs.Rule.{named_place};
ghost use Rattle.ct_rules.specs.Removal.{names_one, marked, lowered_line};

use ct_rules::{Line, lowered, names_one};

/// Lowers the rule of each line, as it is over the supports that are left once those at the marked places are taken out.
pub(crate) fn lower_lines(lines: &mut [Line], gone: &[bool])
    ensures { lines.new ≡ map (lowered_line (marked gone.now)) lines.old }
{
    for line in lines.iter_mut() {
        line.rule = lowered(gone, line.rule);
    }
}

/// Whether the rule of a line names a support at a marked place.
pub(crate) fn names_place(lines: &[Line], gone: &[bool]) -> bool
    ensures { (result ≡ false) ↔ All (λ (l : LineValue). names_one (marked gone.now) (named_place l.rule) ≡ false) lines.now }
{
    for line in lines {
        if names_one(gone, line.rule) {
            return true;
        }
    }
    false
}
