//! The check of evidence by its kind, and what it gives.

ghost use Rattle.std.specs.Prelude.{◌≡◌, Some, length, false};
ghost use Rattle.std.specs.Result.{result_map_both};
ghost use Rattle.ct_kind.specs.KindParts.{support_from};
ghost use Rattle.ct_files.specs.Evidence.{IsSound};
ghost use Rattle.ct_files.specs.ByKind.{is_kept};
ghost use Rattle.ct_files.specs.Checked.{code_checked, classes_checked, dual_checked, IsCheck};

use ct_build_files::build_kind;
use ct_dual_files::dual_kind;
use ct_kind::{Evidence, Partitions, SubmitFault, support_from};
use ct_partition_files::{partition_kind, product_kind};
use ct_rule_parts::Support;
use ct_word_files::{cosets_kind, words_kind};
use ct_words::{Code, Entry};
use std::alloc::Global;

/// What the check of evidence gives: the size of its piece, where it has one, the code that is kept beside it, where the check has made
/// it, and what the piece gives to a table.
#[derive(Drop)]
pub struct Checked {
    /// The number of words of its code or of its classes; none for a dual.
    pub size: Option<u32>,
    /// The code, where it is kept beside the piece and the check has made it.
    pub kept: Option<Code>,
    /// What the piece gives to a table.
    pub support: Support,
}

impl Checked {
    /// What the check of a code of the entry gives, of which so many words were counted, and which is not kept; or why there is none.
    pub fn of_code(entry: Entry, size: Result<u32, SubmitFault>) -> Result<Checked, SubmitFault>
        ensures { result ≡ result_map_both (code_checked entry) (λ fault. fault) size }
    {
        let size = size?;
        Ok(Checked {
            size: Some(size),
            kept: None,
            support: support_from(entry, Some(size)),
        })
    }

    /// What the check of a partition gives, of which so many words were counted; or why there is none.
    fn of_classes(count: Result<u32, SubmitFault>) -> Result<Checked, SubmitFault>
        ensures { result ≡ result_map_both classes_checked (λ fault. fault) count }
    {
        let count = count?;
        Ok(Checked {
            size: Some(count),
            kept: None,
            support: Support::Nothing,
        })
    }

    /// The code of the entry that a build makes, which the check has made, and which is kept.
    pub fn of_build(entry: Entry, code: Code) -> Checked
        ensures size { result.size ≡ Some (length code.words) }
        ensures kept { result.kept ≡ Some code }
        ensures support { result.support ≡ support_from entry (Some (length code.words)) }
    {
        let size = Some(build_kind::size_of(&code));
        Checked {
            size,
            kept: Some(code),
            support: support_from(entry, size),
        }
    }

    /// What the check of a dual gives which gives this to a table; or why it is refused.
    fn of_dual(support: Result<Support, SubmitFault>) -> Result<Checked, SubmitFault>
        ensures { result ≡ result_map_both dual_checked (λ fault. fault) support }
    {
        let support = support?;
        Ok(Checked {
            size: None,
            kept: None,
            support,
        })
    }
}

/// What the evidence comes to over the pieces, of which a product asks which partitions they are; or the first reason why it makes no piece.
///
/// The evidence is no build, and has the forms and ranges of its kind, as `read_evidence` gives it. A part that does not stand is `NoSuch`,
/// one that does not fit `WrongPart`; else the reason is that of its kind's own check: `Code`, `Partition`, `Build` for a distance that is too
/// short, `Dual`. `Memory` is want of memory.
pub fn check_listed<P: Partitions>(
    alloc: Global,
    pieces: &P,
    evidence: &Evidence,
) -> Result<Checked, SubmitFault>
    requires sound { IsSound evidence.now }
    requires listed { is_kept evidence.now ≡ false }
    ensures { IsCheck (P.known pieces.now) evidence.now result }
{
    match evidence {
        Evidence::Words { entry, words } => {
            let size = words_kind::check(alloc, *entry, words.as_slice());
            Checked::of_code(*entry, size)
        }
        Evidence::Cosets {
            entry,
            basis,
            representatives,
        } => {
            let representatives = representatives.as_slice();
            let size = cosets_kind::check(alloc, *entry, basis.as_slice(), representatives);
            Checked::of_code(*entry, size)
        }
        Evidence::Partition {
            entry,
            between,
            classes,
        } => {
            let count = partition_kind::check(alloc, *entry, *between, classes.as_slice());
            Checked::of_classes(count)
        }
        Evidence::Build { .. } => unreachable!(),
        Evidence::Product { entry, pairs } => {
            let size = product_kind::check(alloc, pieces, *entry, pairs.as_slice());
            Checked::of_code(*entry, size)
        }
        Evidence::Dual(dual) => Checked::of_dual(dual_kind::check(dual)),
        Evidence::JohnsonDual(dual) => Checked::of_dual(dual_kind::check(dual)),
        Evidence::Odd { dual, m } => Checked::of_dual(dual_kind::check_odd(dual, *m)),
        Evidence::JohnsonLocal(dual) => Checked::of_dual(dual_kind::check_local(alloc, dual)),
    }
}
