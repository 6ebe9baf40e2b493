// The words of the source language.

ghost use Rattle.std.specs.Prelude.{◌≡◌, false, MatchOption};
ghost use Rattle.gos_lex.specs.Words.{is_word, word_text};

/// A word of the source language, which is no name there.
#[derive(Clone, Copy, Debug, PartialEq, Eq)]
pub enum Word {
    Import,
    Export,
    Fun,
    Fst,
    Snd,
    If,
    Then,
    Else,
    While,
    Do,
    New,
    In,
    Skip,
    Not,
    Com,
    Exp,
    Var,
}

// Each word once.
const WORDS: [Word; 17] = [
    Word::Import,
    Word::Export,
    Word::Fun,
    Word::Fst,
    Word::Snd,
    Word::If,
    Word::Then,
    Word::Else,
    Word::While,
    Word::Do,
    Word::New,
    Word::In,
    Word::Skip,
    Word::Not,
    Word::Com,
    Word::Exp,
    Word::Var,
];

impl Word {
    // How the word is written.
    fn text(self) -> &'static [u8]
        ensures { result.now ≡ word_text self }
    {
        match self {
            Word::Import => b"import",
            Word::Export => b"export",
            Word::Fun => b"fun",
            Word::Fst => b"fst",
            Word::Snd => b"snd",
            Word::If => b"if",
            Word::Then => b"then",
            Word::Else => b"else",
            Word::While => b"while",
            Word::Do => b"do",
            Word::New => b"new",
            Word::In => b"in",
            Word::Skip => b"skip",
            Word::Not => b"not",
            Word::Com => b"com",
            Word::Exp => b"exp",
            Word::Var => b"var",
        }
    }
}

// The word that these bytes are.
pub(crate) fn word_of(bytes: &[u8]) -> Option<Word>
    ensures { MatchOption result (is_word bytes.now ≡ false) (λ word. bytes.now ≡ word_text word) }
{
    for word in WORDS.iter() {
        if bytes == word.text() {
            return Some(*word);
        }
    }
    None
}
