//! The items of a text without comments.
//!
//! An item begins at the first byte that is neither layout nor a comment, and ends with the first end point: a point
//! before layout or at the end of the text. Where a text ends inside an item, that item has not ended.

ghost use Rattle.std.specs.Prelude.{◌≡◌, ◌≤◌, ◌<◌, ◌+◌, ◌^◌, zero, [], ◌∷◌, length, take, true, false, ◌↔◌, IsTrue, MatchOption, IfSome};
ghost use Rattle.chr_lex.specs.Items.{Item, is_gap, is_end, before_end, has_end, line_after, items, BeginsItem, lines_after, entry};

use crate::plain::{COMMENT, is_layout};

/// An item without its end point.
#[derive(Clone, Copy, Debug)]
pub struct Item<'a> {
    /// The line of its first byte.
    pub line: u32,
    /// Its bytes, with comments replaced.
    pub text: &'a [u8],
    /// Whether it has an end point.
    pub ended: bool,
}

/// Whether a byte is layout or stands for a comment.
pub(crate) fn is_gap(b: u8) -> bool
    ensures { result ≡ is_gap b }
{
    is_layout(b) || b == COMMENT
}

fn is_end(b: u8, after: &[u8]) -> bool
    ensures { result ≡ is_end b after.now }
{
    b == b'.'
        && match after {
            [] => true,
            [next, ..] => is_layout(*next),
        }
}

/// How many bytes there are before the first end point.
fn item_len(text: &[u8]) -> usize
    ensures within { result ≤ length text.now }
    ensures taken { take result text.now ≡ before_end text.now }
    ensures ended { IsTrue (has_end text.now) ↔ (result < length text.now) }
{
    let mut len = 0;
    while len < text.len() && !is_end(text[len], &text[len + 1..]) {
        len += 1;
    }
    len
}

/// Passes over layout and comments: the line and the text from the next item on.
fn skip_gap(line: u32, text: &[u8]) -> (u32, &[u8])
    requires { line + length text.now < 2 ^ 32 }
    ensures same { items zero line text.now ≡ items zero result.0 result.1.now }
    ensures first { BeginsItem result.1.now }
    ensures fits { result.0 + length result.1.now ≤ line + length text.now }
    ensures shorter { length result.1.now ≤ length text.now }
{
    let mut line = line;
    let mut rest = text;
    while let [b, after @ ..] = rest {
        if !is_gap(*b) {
            break;
        }
        if *b == b'\n' {
            line += 1;
        }
        rest = after;
    }
    (line, rest)
}

fn lines_after(line: u32, text: &[u8]) -> u32
    requires { line + length text.now < 2 ^ 32 }
    ensures same { result ≡ lines_after text.now line }
    ensures fits { result ≤ line + length text.now }
{
    let mut line = line;
    let mut rest = text;
    while let [b, after @ ..] = rest {
        if *b == b'\n' {
            line += 1;
        }
        rest = after;
    }
    line
}

/// The item at the front, and the line and the text after it.
fn item_at(line: u32, text: &[u8]) -> (Item, u32, &[u8])
    requires fits { line + length text.now < 2 ^ 32 }
    requires some { 0 < length text.now }
    requires first { BeginsItem text.now }
    ensures same { items zero line text.now ≡ entry result.0 ∷ items zero result.1 result.2.now }
    ensures fits { result.1 + length result.2.now ≤ line + length text.now }
    ensures shorter { length result.2.now < length text.now }
{
    let (text, after) = text.split_at(item_len(text));
    let next_line = lines_after(line, text);
    match after {
        [] => (
            Item {
                line,
                text,
                ended: false,
            },
            next_line,
            after,
        ),
        [_, after @ ..] => (
            Item {
                line,
                text,
                ended: true,
            },
            next_line,
            after,
        ),
    }
}

/// The next item, and the line and the text after it. None where only layout and comments are left.
pub fn next_item(line: u32, text: &[u8]) -> Option<(Item, u32, &[u8])>
    requires { line + length text.now < 2 ^ 32 }
    ensures same { MatchOption result (items zero line text.now ≡ [])
        (λ r. items zero line text.now ≡ entry r.0 ∷ items zero r.1 r.2.now) }
    ensures fits { IfSome result (λ r. (r.1 + length r.2.now ≤ line + length text.now) × (length r.2.now < length text.now)) }
{
    let (line, rest) = skip_gap(line, text);
    if rest.is_empty() {
        None
    } else {
        Some(item_at(line, rest))
    }
}
