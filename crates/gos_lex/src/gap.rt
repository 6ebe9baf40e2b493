// Blanks and comments.

ghost use Rattle.std.specs.Prelude.{◌≡◌, ℕ, ◌≤◌, ◌≢◌, false, List, ◌∷◌, length, MatchOption};
ghost use Rattle.gos_lex.specs.Bytes.{is_blank};
ghost use Rattle.gos_lex.specs.Gaps.{IsGap, IsSkipped};

// The place of the first byte, from `at` on, that is in no blank and no comment, or the text's end.
pub(crate) fn gap_end(text: &[u8], at: usize) -> usize
    requires { at ≤ length text.now }
    ensures { IsSkipped text.now at result }
{
    let mut in_comment = false;
    for i in at..text.len() {
        match after_byte(in_comment, text[i]) {
            Some(now) => in_comment = now,
            None => return i,
        }
    }
    text.len()
}

// Whether the bytes after `b` begin inside a comment, where `b` is in a gap.
fn after_byte(in_comment: bool, b: u8) -> Option<bool>
    ensures none { MatchOption result ((in_comment ≡ false) × (is_blank b ≡ false) × (b ≢ 35)) (λ _. Unit {0}) }
    ensures some { MatchOption result (Unit {0}) (λ now. (gap rest : List ℕ) → IsGap now gap rest → IsGap in_comment (b ∷ gap) rest) }
{
    if in_comment {
        if b == b'\n' { Some(false) } else { Some(true) }
    } else if is_blank(b) {
        Some(false)
    } else if b == b'#' {
        Some(true)
    } else {
        None
    }
}

// Whether the byte is a space, a tab, a carriage return or a line feed.
fn is_blank(b: u8) -> bool
    ensures { result ≡ is_blank b }
{
    b == b' ' || b == b'\t' || b == b'\r' || b == b'\n'
}
