ghost use Rattle.std.specs.Prelude.{◌≡◌, ℕ, List, map};
ghost use Rattle.std.specs.List.{AllByRecursion, enumerate_from};
ghost use Rattle.ipe_lex.specs.Lines.{lines_of, placed_lines, placed_tokens, tokens_of, uncommented};
ghost use Rattle.ipe_lex.specs.Places.{IsLineOf, IsTokenOf};

/// Where lines and tokens stand, and that without their places they are the lines and tokens of the text.
pub fn stand_in_their_text()
    ensures lines { (text : List ℕ) → AllByRecursion (IsLineOf text) (placed_lines 1 0 (lines_of text)) }
    ensures tokens { (start : ℕ) (line : List ℕ) → AllByRecursion (IsTokenOf start line) (placed_tokens start line) }
    ensures lines_without_places { (number start : ℕ) (lines : List (List ℕ)) →
        map {B = ℕ × List ℕ} (λ line. (line.number, line.bytes)) (placed_lines number start lines)
        ≡ map {B = ℕ × List ℕ} (λ (line : ℕ × List ℕ). (line.0, uncommented line.1)) (enumerate_from number lines) }
    ensures tokens_without_places { (start : ℕ) (line : List ℕ) →
        map (λ token. token.bytes) (placed_tokens start line) ≡ tokens_of line }
{}
