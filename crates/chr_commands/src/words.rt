//! Words of the command line that aren't text.
use std::rt::Env;

/// The most bytes of a word that are looked at, which is as many as the system passes on.
const MOST_BYTES: usize = 131_072;

/// The most words that are looked at.
const MOST_WORDS: usize = 65_536;

/// Returns the number of the first word of the command line that isn't UTF-8, from 1 for the one after the program's name.
/// None where there is no such word, or no memory to look.
pub fn first_not_text<R: Env + AllocGlobal>(rt: &R) -> Option<usize> {
    let mut bytes = Vec::new(rt.alloc());
    bytes.resize(MOST_BYTES, 0u8).ok()?;
    for number in 1..MOST_WORDS {
        let length = rt.arg(number, bytes.as_mut_slice()).ok()?;
        if std::str::from_utf8(&bytes[..length]).is_err() {
            return Some(number);
        }
    }
    None
}
