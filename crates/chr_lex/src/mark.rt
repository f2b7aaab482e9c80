//! Operators and marks, and how they are spelled.

ghost use Rattle.std.specs.Prelude.{◌≡◌, nat_eq, find};
ghost use Rattle.std.specs.List.{starts_with};
ghost use Rattle.std.specs.Str.{bytes_eq};
ghost use Rattle.chr_lex.specs.Marks.{spelling, marks, word_marks};

/// An operator or a mark.
#[derive(Clone, Copy, Debug, PartialEq, Eq)]
pub enum Mark {
    /// `<=>`
    Simplify,
    /// `==>`
    Propagate,
    /// `=:=`
    SameValue,
    /// `=\=`
    OtherValue,
    /// `\==`
    Differs,
    /// `:-`
    Declares,
    /// `==`
    Equals,
    /// `=<`
    AtMost,
    /// `>=`
    AtLeast,
    /// `//`
    Quotient,
    /// `<`
    Less,
    /// `>`
    Greater,
    /// `(`
    Open,
    /// `)`
    Close,
    /// `,`
    Comma,
    /// `|`
    Bar,
    /// `@`
    At,
    /// `\`
    Backslash,
    /// `/`
    Slash,
    /// `+`
    Plus,
    /// `-`
    Minus,
    /// `*`
    Star,
    /// `is`
    Is,
    /// `mod`
    Mod,
    /// `rem`
    Rem,
}

/// A longer one before a shorter one.
const MARKS: [Mark; 22] = [
    Mark::Simplify,
    Mark::Propagate,
    Mark::SameValue,
    Mark::OtherValue,
    Mark::Differs,
    Mark::Declares,
    Mark::Equals,
    Mark::AtMost,
    Mark::AtLeast,
    Mark::Quotient,
    Mark::Less,
    Mark::Greater,
    Mark::Open,
    Mark::Close,
    Mark::Comma,
    Mark::Bar,
    Mark::At,
    Mark::Backslash,
    Mark::Slash,
    Mark::Plus,
    Mark::Minus,
    Mark::Star,
];

const WORD_MARKS: [Mark; 3] = [Mark::Is, Mark::Mod, Mark::Rem];

impl Mark {
    /// Its bytes in a text.
    pub fn spelling(self) -> &'static [u8]
        ensures { result.now ≡ spelling self }
    {
        match self {
            Mark::Simplify => b"<=>",
            Mark::Propagate => b"==>",
            Mark::SameValue => b"=:=",
            Mark::OtherValue => b"=\\=",
            Mark::Differs => b"\\==",
            Mark::Declares => b":-",
            Mark::Equals => b"==",
            Mark::AtMost => b"=<",
            Mark::AtLeast => b">=",
            Mark::Quotient => b"//",
            Mark::Less => b"<",
            Mark::Greater => b">",
            Mark::Open => b"(",
            Mark::Close => b")",
            Mark::Comma => b",",
            Mark::Bar => b"|",
            Mark::At => b"@",
            Mark::Backslash => b"\\",
            Mark::Slash => b"/",
            Mark::Plus => b"+",
            Mark::Minus => b"-",
            Mark::Star => b"*",
            Mark::Is => b"is",
            Mark::Mod => b"mod",
            Mark::Rem => b"rem",
        }
    }
}

/// The longest mark at the front that is no word.
pub(crate) fn mark_at(text: &[u8]) -> Option<Mark>
    ensures { result ≡ find (λ m. starts_with nat_eq text.now (spelling m)) marks }
{
    MARKS
        .iter()
        .copied()
        .find(|mark| text.starts_with(mark.spelling()))
}

/// The operator that is this word. Such a word is never a name.
pub(crate) fn word_mark(word: &[u8]) -> Option<Mark>
    ensures { result ≡ find (λ m. bytes_eq word.now (spelling m)) word_marks }
{
    WORD_MARKS
        .iter()
        .copied()
        .find(|mark| word == mark.spelling())
}
