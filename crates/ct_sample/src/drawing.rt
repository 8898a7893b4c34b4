//! The evidence that a step of the sample submits.

ghost use Rattle.std.specs.Prelude.{◌≡◌, ◌≤◌, IfOk};
ghost use Rattle.ct_piece.specs.Piece.{PieceValue};
ghost use Rattle.ct_sample.specs.Drawn.{drawn_words, golay_words, drawn_cosets, drawn_dual, is_code_kind, may_lengthen, lengthening, last_lengthening, drawn_evidence};

use ct_build::Step;
use ct_duals::{Allowances, Dual, Multipliers};
use ct_kind::Evidence;
use ct_ledger::Piece;
use ct_names::Id;
use ct_sum_classes::sum_class_list;
use ct_words::{Entry, Listed, Word};
use std::alloc::{AllocError, Global};

/// The first digits of the words of the Golay code that are summed: those of its generator polynomial.
const GENERATOR: Word = 0b1010_1110_0011;

/// The longest length of a code that is lengthened.
const MAX_PART: u32 = 27;

/// The words of a sum class.
fn drawn_words(alloc: Global, h: u32) -> Result<Evidence, AllocError>
    ensures { IfOk result (λ evidence. evidence ≡ drawn_words h) }
{
    let n = 8 + h / 4 % 9;
    let w = 3 + h / 64 % 2;
    let r = h / 256 % n;
    let words = sum_class_list(alloc, n, w, r)?.into_words();
    Ok(Evidence::Words {
        entry: Entry {
            n,
            d: 4,
            w: Some(w),
        },
        words: Listed::from_vec(words),
    })
}

/// The first of the basis words of the Golay code, so many, of at most 12.
fn golay_words(alloc: Global, count: u32) -> Result<Vec<Word>, AllocError>
    requires { count ≤ 12 }
    ensures { IfOk result (λ words. words.items ≡ golay_words count) }
{
    let mut words = Vec::new(alloc);
    for place in 0..count {
        words.push((GENERATOR << (12 - place)) + 1)?;
    }
    Ok(words)
}

/// A part of the Golay code.
fn drawn_cosets(alloc: Global, h: u32) -> Result<Evidence, AllocError>
    ensures { IfOk result (λ evidence. evidence ≡ drawn_cosets h) }
{
    let basis = golay_words(alloc, 1 + h / 4 % 8)?;
    let representatives = vec![in alloc; 0]?;
    Ok(Evidence::Cosets {
        entry: Entry {
            n: 24,
            d: 8,
            w: None,
        },
        basis: Listed::from_vec(basis),
        representatives: Listed::from_vec(representatives),
    })
}

/// A dual whose numbers are ones.
fn drawn_dual(alloc: Global, h: u32) -> Result<Evidence, AllocError>
    ensures { IfOk result (λ evidence. evidence ≡ drawn_dual h) }
{
    let n = 8 + h / 4 % 21;
    let ones = vec![in alloc; 1; n as usize + 1]?;
    Ok(Evidence::Dual(Dual {
        entry: Entry {
            n,
            d: 3 + h / 128 % 4,
            w: None,
        },
        even: false,
        c: Multipliers::from_vec(ones),
        y: Allowances::from_vec(Vec::new(alloc)),
    }))
}

/// Whether the evidence is words, cosets or a build.
fn is_code_kind(evidence: &Evidence) -> bool
    ensures { result ≡ is_code_kind evidence.now }
{
    match evidence {
        Evidence::Words { .. } | Evidence::Cosets { .. } | Evidence::Build { .. } => true,
        _ => false,
    }
}

/// Whether the piece is words, cosets or a build, and its length at most `MAX_PART`.
fn may_lengthen(piece: &Piece) -> bool
    ensures { result ≡ may_lengthen piece.now }
{
    is_code_kind(piece.evidence()) && piece.entry().n <= MAX_PART
}

/// The code of the piece of this id and entry with a zero after each word.
fn lengthening(id: Id, entry: Entry) -> Evidence
    requires { entry.n ≤ MAX_PART }
    ensures { (p : PieceValue) → p.id ≡ id → p.entry ≡ entry → result ≡ lengthening p }
{
    Evidence::Build {
        entry: Entry {
            n: entry.n + 1,
            d: entry.d,
            w: entry.w,
        },
        step: Step::Lengthen,
        part: id,
        other: None,
    }
}

/// The last of the codes of the pieces that may be lengthened, lengthened, where there is one.
fn last_lengthening(pieces: &[Piece]) -> Option<Evidence>
    ensures { result ≡ last_lengthening pieces.now }
{
    let mut found = None;
    for piece in pieces {
        if may_lengthen(piece) {
            found = Some(lengthening(piece.id(), piece.entry()));
        }
    }
    found
}

/// The evidence of a step, which draws h, over the pieces that stand. `Err` is want of memory.
#[tactic(auto, unfolding(crate::specs::Drawn::drawn_evidence))]
pub(crate) fn drawn_evidence(
    alloc: Global,
    h: u32,
    pieces: &[Piece],
) -> Result<Evidence, AllocError>
    ensures { IfOk result (λ evidence. evidence ≡ drawn_evidence h pieces.now) }
{
    match h % 4 {
        0 => drawn_words(alloc, h),
        1 => drawn_cosets(alloc, h),
        3 => match last_lengthening(pieces) {
            Some(evidence) => Ok(evidence),
            None => drawn_dual(alloc, h),
        },
        _ => drawn_dual(alloc, h),
    }
}
