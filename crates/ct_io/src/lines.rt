ghost use Rattle.std.specs.Prelude.{◌≡◌, ℕ, List, [], ◌∷◌, ◌++◌, All, codes};
ghost use Rattle.ct_io.specs.Lines.{lines_of, AreLines, IsLine, IsNextLine, ended_lines, whole_lines};

/// The law of lines, with no code: the lines of an input are what it is made of, and taking the
/// next line off an input takes the first of its lines. The rest are worked examples.
pub fn lines_law()
    ensures made_of_lines { (input : List ℕ) → AreLines input (lines_of input) }
    ensures next_is_first { (before line after : List ℕ) → IsNextLine before line after
        → lines_of before ≡ line ∷ lines_of after }
    ensures whole { (lines : List (List ℕ)) (tail : List ℕ) → All IsLine lines → IsLine tail
        → whole_lines (ended_lines lines ++ tail) ≡ lines }
    ensures no_bytes { lines_of [] ≡ [] }
    ensures one_line { lines_of (codes "a\n") ≡ codes "a" ∷ [] }
    ensures open_end { lines_of (codes "a\nb") ≡ codes "a" ∷ codes "b" ∷ [] }
    ensures empty_lines { lines_of (codes "\n\n") ≡ [] ∷ [] ∷ [] }
{}
