//! Verdicts on derivation documents.

ghost use Rattle.std.specs.Prelude.{◌≡◌, ℕ, List};
ghost use Rattle.ct_kind.specs.declared.fault.SubmitFault.TheVariants.{Memory};
ghost use Rattle.ct_verify.specs.Document.{IsFirstFailure, IsVerdict};
ghost use Rattle.ct_verify.specs.declared.verdict.Verdict.{Verdict};
ghost use Rattle.ct_verify.specs.declared.verdict.Why.TheVariants.{Evidence};

/// Each document has just one verdict: it is verified, or it has one first failure. No verdict is for want of memory.
pub fn documents_have_one_verdict()
    ensures some { (document : List ℕ) → (v : Verdict) × IsVerdict document v }
    ensures one { (document : List ℕ) (v w : Verdict) → IsVerdict document v → IsVerdict document w → v ≡ w }
    ensures not_memory { (document : List ℕ) (k : ℕ) → IsFirstFailure document k (Evidence Memory) → ⊥ }
{}
