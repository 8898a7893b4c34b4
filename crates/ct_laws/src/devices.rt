//! What is said of a source and a sink that tell their bytes: the clauses of `run` on faults say no less than this. The functions do nothing.

ghost use Rattle.std.specs.Prelude.{◌≡◌, ◌≤◌, ◌<◌, ◌+◌, ◌^◌, ◌↔◌, ◌<ℤ◌, pos, ℕ, Bool, List, [], ◌++◌, length, All, Option, Some, None};
ghost use Rattle.ct_io.specs.Lines.{lines_of, whole_lines};
ghost use Rattle.ct_io.specs.Told.{WhereTold, IsAboveLimit, IsWithinLimit};
ghost use Rattle.ct_session.specs.Run.{AnswersAll};
ghost use Rattle.ct_session.specs.Serve.{AnswersTaken, AnswersButLastBytes, WritesWholeReplies};
ghost use Rattle.ct_duals.specs.declared.dual.Dual.{Dual};
ghost use Rattle.ct_primal.specs.Primal.{PrimalValue};
ghost use Rattle.ct_finder.specs.Found.{IsShownBy};

/// An input is within the limit, which is 67,108,864 bytes, or above it, and not both. A fact about what a source has left before and after says that
/// the source goes on telling its bytes, and holds of them; here that they are no more than before.
pub fn limits_and_told_bytes()
    ensures limit { (input : List ℕ) → IsWithinLimit (Some input) ↔ (length input ≤ 67108864) }
    ensures above { (input : List ℕ) → IsAboveLimit input [] ↔ (67108864 < length input) }
    ensures untold { IsWithinLimit None → ⊥ }
    ensures told { (before : List ℕ) → WhereTold (Some before) None (λ b a. length a ≤ length b) → ⊥ }
    ensures known { (before after : List ℕ) → WhereTold (Some before) (Some after) (λ b a. length a ≤ length b) → length after ≤ length before }
{}

/// What a session that is broken off leaves, where source and sink tell their bytes: the sink grew by the replies to the commands that some whole
/// lines at the front of the input complete. After a failed read these are all that were taken; of too many bytes at most the last 65,536 stay
/// unanswered; where memory runs out at most 65,537 of the lines that were taken.
pub fn what_a_broken_session_leaves()
    ensures after_read_fault { (input held : List ℕ) (left new : Option (List ℕ)) → AnswersTaken (Some input) left (Some held) new
        → (taken rest text : List ℕ) × (refused : Bool) × (left ≡ Some rest) × (input ≡ taken ++ rest)
        × AnswersAll [] (whole_lines taken) text refused × (new ≡ Some (held ++ text)) }
    ensures after_too_long { (input held : List ℕ) (left new : Option (List ℕ)) → AnswersButLastBytes (Some input) left (Some held) new
        → (front last rest text : List ℕ) × (refused : Bool) × (left ≡ Some rest) × (input ≡ front ++ last ++ rest) × (length last ≤ 65536)
        × AnswersAll [] (whole_lines front) text refused × (new ≡ Some (held ++ text)) }
    ensures after_memory { (input rest held : List ℕ) (new : Option (List ℕ)) → WritesWholeReplies (Some input) (Some rest) (Some held) new
        → (lines others : List (List ℕ)) × (text : List ℕ) × (refused : Bool) × (lines_of input ≡ lines ++ others)
        × (length others ≤ length (lines_of rest) + 65537) × AnswersAll [] lines text refused × (new ≡ Some (held ++ text)) }
{}

/// A primal that shows the bound of a dual is of the same mark, and its scale and its numbers are below 2^63.
pub fn shown_primals_are_small()
    ensures mark { (p : PrimalValue) (d : Dual) → IsShownBy p d → p.even ≡ d.even }
    ensures scale { (p : PrimalValue) (d : Dual) → IsShownBy p d → p.q <ℤ pos (2 ^ 63) }
    ensures numbers { (p : PrimalValue) (d : Dual) → IsShownBy p d → All (λ u. u.1 <ℤ pos (2 ^ 63)) p.a }
{}
