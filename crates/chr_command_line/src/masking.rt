//! Words and paths as a message has them.
ghost use Rattle.std.specs.Prelude.{◌≡◌, ◌⊎◌};
ghost use Rattle.chr_command_line.specs.Masking.{IsPrinted};

use std::alloc::{AllocError, Global};
use std::convert::AsStr;
use std::fmt::{self, Display, Formatter};

/// Returns the character that stands for one in a message: a blank for a tab or a carriage return, `?` for another control
/// character.
fn mask_of(c: char) -> char
    ensures printed { IsPrinted result }
    ensures same { IsPrinted c → result ≡ c }
    ensures masked { (result ≡ c) ⊎ (result ≡ 32) ⊎ (result ≡ 63) }
{
    match c {
        '\t' | '\r' => ' ',
        '\u{0}'..='\u{1f}' | '\u{7f}'..='\u{9f}' => '?',
        _ => c,
    }
}

/// A word or a path as a message shows it, with a blank or `?` for each control character, so that it can't move a
/// terminal's cursor or end the message's line.
#[derive(Clone, Copy, Debug)]
pub struct Masked<'w>(pub &'w str);

impl Display for Masked<'_> {
    fn fmt<W: fmt::Write>(&self, f: &mut Formatter<W>) -> fmt::Result {
        for c in self.0.chars() {
            f.write_char(mask_of(c))?;
        }
        Ok(())
    }
}

/// Whether a message shows a word in another way than it is.
fn is_masked(word: &str) -> bool {
    word.chars().any(|c| mask_of(c) != c)
}

/// Whether a message shows one of the words in another way than it is.
pub(crate) fn are_masked<S: AsStr>(words: &[S]) -> bool {
    words.iter().any(|word| is_masked(word.as_str()))
}

/// Returns the words as a message shows them.
pub(crate) fn masked_words<S: AsStr>(
    alloc: Global,
    words: &[S],
) -> Result<Vec<String>, AllocError> {
    let mut masked = Vec::new(alloc);
    for word in words {
        let word = Masked(word.as_str());
        masked.push(format!(in alloc; "{word}")?)?;
    }
    Ok(masked)
}
