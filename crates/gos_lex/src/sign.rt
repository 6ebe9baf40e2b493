// The signs of the source language.

ghost use Rattle.std.specs.Prelude.{◌≡◌, ℕ, ◌≤◌, ◌<◌, false, length, take, MatchOption, IsTrue};
ghost use Rattle.gos_lex.specs.Signs.{is_sign, sign_text};

/// A sign of the source language.
#[derive(Clone, Copy, Debug, PartialEq, Eq)]
pub enum Sign {
    /// `(`
    Open,
    /// `)`
    Close,
    /// `[`
    OpenSquare,
    /// `]`
    CloseSquare,
    /// `,`
    Comma,
    /// `.`
    Dot,
    /// `:`
    Colon,
    /// `;`
    Semicolon,
    /// `:=`
    Assign,
    /// `||`
    Parallel,
    /// `|`
    Or,
    /// `&`
    And,
    /// `^`
    Xor,
    /// `+`
    Plus,
    /// `-`
    Minus,
    /// `=`
    Equal,
    /// `<`
    Less,
    /// `!`
    Bang,
    /// `*`
    Star,
    /// `->`
    Arrow,
}

// Each sign once.
const SIGNS: [Sign; 20] = [
    Sign::Open,
    Sign::Close,
    Sign::OpenSquare,
    Sign::CloseSquare,
    Sign::Comma,
    Sign::Dot,
    Sign::Colon,
    Sign::Semicolon,
    Sign::Assign,
    Sign::Parallel,
    Sign::Or,
    Sign::And,
    Sign::Xor,
    Sign::Plus,
    Sign::Minus,
    Sign::Equal,
    Sign::Less,
    Sign::Bang,
    Sign::Star,
    Sign::Arrow,
];

impl Sign {
    // How the sign is written.
    fn text(self) -> &'static [u8]
        ensures { result.now ≡ sign_text self }
    {
        match self {
            Sign::Open => b"(",
            Sign::Close => b")",
            Sign::OpenSquare => b"[",
            Sign::CloseSquare => b"]",
            Sign::Comma => b",",
            Sign::Dot => b".",
            Sign::Colon => b":",
            Sign::Semicolon => b";",
            Sign::Assign => b":=",
            Sign::Parallel => b"||",
            Sign::Or => b"|",
            Sign::And => b"&",
            Sign::Xor => b"^",
            Sign::Plus => b"+",
            Sign::Minus => b"-",
            Sign::Equal => b"=",
            Sign::Less => b"<",
            Sign::Bang => b"!",
            Sign::Star => b"*",
            Sign::Arrow => b"->",
        }
    }
}

// The sign that these bytes are.
pub(crate) fn sign_of(bytes: &[u8]) -> Option<Sign>
    ensures { MatchOption result (is_sign bytes.now ≡ false) (λ sign. bytes.now ≡ sign_text sign) }
{
    for sign in SIGNS.iter() {
        if bytes == sign.text() {
            return Some(*sign);
        }
    }
    None
}

// Whether the first so many bytes of the text are a sign.
fn begins(text: &[u8], count: usize) -> bool
    ensures within { IsTrue result → count ≤ length text.now }
    ensures sign { IsTrue result → IsTrue (is_sign (take count text.now)) }
    ensures none { count ≤ length text.now → IsTrue (is_sign (take count text.now)) → IsTrue result }
{
    count <= text.len() && sign_of(&text[..count]).is_some()
}

// How many bytes the longest sign at the front of the text has; 0 where none stands there.
pub(crate) fn sign_len(text: &[u8]) -> usize
    ensures within { result ≤ length text.now }
    ensures sign { 0 < result → IsTrue (is_sign (take result text.now)) }
    ensures longest { (n : ℕ) → n ≤ length text.now → IsTrue (is_sign (take n text.now)) → n ≤ result }
{
    if begins(text, 2) {
        2
    } else if begins(text, 1) {
        1
    } else {
        0
    }
}
