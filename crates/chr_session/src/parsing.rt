//! What a line says.
ghost use Rattle.std.specs.Prelude.{◌≡◌};
ghost use Rattle.chr_session.specs.Parsing.{without_cr, is_blank, after_blanks, before_blanks, trimmed, word_of, rest_of, number_of, parsed_of};

/// What a line says, without the text of a post.
#[derive(Clone, Copy, Debug, PartialEq, Eq)]
pub enum ParsedLine {
    /// Blanks and tabs alone, or nothing.
    Blank,
    /// `load`, with the number of bytes that follow the line.
    Load(u32),
    /// `post`; its text is the rest of the line.
    Post,
    /// `wait`, with its number.
    Wait(u32),
    /// `store`.
    Store,
    /// `log`, with its number, which is at least 1.
    Log(u32),
    /// `quit`.
    Quit,
    /// Anything else.
    Unknown,
}

/// A line without the CR directly before its LF.
pub fn without_cr(line: &[u8]) -> &[u8]
    ensures { result.now ≡ without_cr line.now }
{
    match line {
        [front @ .., b'\r'] => front,
        _ => line,
    }
}

/// Whether a byte is a blank or a tab.
fn is_blank(byte: u8) -> bool
    ensures { result ≡ is_blank byte }
{
    byte == b' ' || byte == b'\t'
}

/// The text after the blanks and tabs at its beginning.
fn after_blanks(text: &[u8]) -> &[u8]
    ensures { result.now ≡ after_blanks text.now }
{
    let mut rest = text;
    while let [byte, after @ ..] = rest {
        if !is_blank(*byte) {
            break;
        }
        rest = after;
    }
    rest
}

/// The text before the blanks and tabs at its end.
fn before_blanks(text: &[u8]) -> &[u8]
    ensures { result.now ≡ before_blanks text.now }
{
    let mut rest = text;
    while let [before @ .., byte] = rest {
        if !is_blank(*byte) {
            break;
        }
        rest = before;
    }
    rest
}

/// A line without its end and the blanks at both ends.
pub fn trimmed(line: &[u8]) -> &[u8]
    ensures { result.now ≡ trimmed line.now }
{
    before_blanks(after_blanks(without_cr(line)))
}

/// A text's first word, and the text after it and its blanks.
#[tactic(auto, using(crate::proofs::Words::word_longer, crate::proofs::Words::rest_later, crate::proofs::Words::word_whole, crate::proofs::Words::rest_whole))]
pub fn split_word(text: &[u8]) -> (&[u8], &[u8])
    ensures word { result.0.now ≡ word_of text.now }
    ensures rest { result.1.now ≡ rest_of text.now }
{
    for (i, byte) in text.iter().enumerate() {
        if is_blank(*byte) {
            return (&text[..i], after_blanks(&text[i + 1..]));
        }
    }
    (text, &[])
}

/// A number of 1 to 10 digits, at most 4,294,967,295.
#[tactic(auto, using(crate::proofs::Words::answer_none))]
fn number(text: &[u8]) -> Option<u32>
    ensures { result ≡ number_of text.now }
{
    if text.is_empty() || text.len() > 10 {
        return None;
    }
    let mut n: u32 = 0;
    let mut rest = text;
    while let [digit, after @ ..] = rest {
        if *digit < b'0' || *digit > b'9' {
            return None;
        }
        let next = 10 * u64::from(n) + u64::from(*digit - b'0');
        if next > 4_294_967_295 {
            return None;
        }
        n = next as u32;
        rest = after;
    }
    Some(n)
}

/// What a line says whose first word and rest are these.
pub fn parse_line(word: &[u8], rest: &[u8]) -> ParsedLine
    ensures { result ≡ parsed_of word.now rest.now }
{
    if word.is_empty() {
        return ParsedLine::Blank;
    }
    if word == b"load".as_slice() {
        return match number(rest) {
            Some(n) => ParsedLine::Load(n),
            None => ParsedLine::Unknown,
        };
    }
    if word == b"post".as_slice() {
        return ParsedLine::Post;
    }
    if word == b"wait".as_slice() {
        return match number(rest) {
            Some(n) => ParsedLine::Wait(n),
            None => ParsedLine::Unknown,
        };
    }
    if word == b"store".as_slice() {
        return if rest.is_empty() {
            ParsedLine::Store
        } else {
            ParsedLine::Unknown
        };
    }
    if word == b"log".as_slice() {
        return match number(rest) {
            None | Some(0) => ParsedLine::Unknown,
            Some(n) => ParsedLine::Log(n),
        };
    }
    if word == b"quit".as_slice() && rest.is_empty() {
        return ParsedLine::Quit;
    }
    ParsedLine::Unknown
}
