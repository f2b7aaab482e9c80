//! The text without its comments.
//!
//! Comments are replaced by bytes that no text may have outside of comments, so that the items and tokens after them
//! are read from one list of bytes, and each line keeps its number.

ghost use Rattle.std.specs.Prelude.{◌≡◌, ◌≤◌, ◌<◌, ◌+◌, ◌++◌, ◌∷◌, false, true, length, take, drop, IfOk, OnOk, MatchOption};
ghost use Rattle.std.specs.List.{take_while};
ghost use Rattle.chr_lex.specs.Plain.{is_layout, as_text, closes_here, closes, before_close, is_within_line, line_ends, block, plain_of, has_bad};

use std::alloc::{AllocError, Allocator};

/// Stands for each byte outside of comments that no text may have.
pub const BAD: u8 = 0;
/// Stands for a comment by `/*` and `*/`.
pub const COMMENT: u8 = 1;
/// Stands for a `/*` that nothing closes, and for all that follows it.
pub const UNCLOSED: u8 = 2;

/// Whether a byte is a blank, a tab, a CR or an LF.
pub(crate) fn is_layout(b: u8) -> bool
    ensures { result ≡ is_layout b }
{
    matches!(b, b' ' | b'\t' | b'\r' | b'\n')
}

fn as_text(b: u8) -> u8
    ensures { result ≡ as_text b }
{
    if is_layout(b) || (b >= b' ' && b <= b'~') {
        b
    } else {
        BAD
    }
}

fn closes_here(b: u8, after: &[u8]) -> bool
    ensures { result ≡ closes_here b after.now }
{
    b == b'*' && after.first() == Some(&b'/')
}

/// How many bytes there are before the first `*/`.
fn comment_len(text: &[u8]) -> Option<usize>
    ensures { MatchOption result (closes text.now ≡ false) (λ n. (closes text.now ≡ true) × (n ≤ length text.now) × (take n text.now ≡ before_close text.now)) }
{
    let mut len = 0;
    while len < text.len() && !closes_here(text[len], &text[len + 1..]) {
        len += 1;
    }
    if len < text.len() { Some(len) } else { None }
}

/// How many bytes there are before the end of the line.
fn line_len(text: &[u8]) -> usize
    ensures { result ≡ length (take_while is_within_line text.now) }
{
    text.iter().take_while(|b| **b != b'\n').count()
}

fn put_line_ends<A: Allocator>(out: &mut Vec<u8, A>, comment: &[u8]) -> Result<(), AllocError>
    ensures { OnOk result (out.new.items ≡ out.old.items ++ line_ends comment.now) }
{
    for b in comment {
        if *b == b'\n' {
            out.push(b'\n')?;
        }
    }
    Ok(())
}

#[tactic(auto, using(crate::proofs::Replaced::line_same))]
/// Writes what a byte, or the comment that begins with it, stands for. The result is how many bytes of the comment follow.
fn put<A: Allocator>(out: &mut Vec<u8, A>, first: u8, after: &[u8]) -> Result<usize, AllocError>
    ensures same { IfOk result (λ n. out.new.items ++ plain_of (drop n after.now) ≡ out.old.items ++ plain_of (first ∷ after.now)) }
    ensures fits { IfOk result (λ n. n ≤ length after.now) }
    ensures room { IfOk result (λ n. length out.new.items ≤ length out.old.items + (n + 1)) }
{
    if first == b'%' {
        out.push(b' ')?;
        return Ok(line_len(after));
    }
    if first == b'/' && after.first() == Some(&b'*') {
        return put_block(out, after);
    }
    out.push(as_text(first))?;
    Ok(0)
}

/// Writes what the comment by `/*` stands for, whose star is the first byte.
fn put_block<A: Allocator>(out: &mut Vec<u8, A>, text: &[u8]) -> Result<usize, AllocError>
    requires { 0 < length text.now }
    ensures same { IfOk result (λ n. out.new.items ++ plain_of (drop n text.now) ≡ out.old.items ++ block text.now) }
    ensures fits { IfOk result (λ n. n ≤ length text.now) }
    ensures room { IfOk result (λ n. length out.new.items ≤ length out.old.items + (n + 1)) }
{
    match comment_len(&text[1..]) {
        Some(len) => {
            out.push(COMMENT)?;
            put_line_ends(out, &text[1..len + 1])?;
            Ok(len + 3)
        }
        None => {
            out.push(UNCLOSED)?;
            Ok(text.len())
        }
    }
}

/// The text without its comments, which are found from left to right. A `%` and the rest of its line become a blank, a closed `/*` becomes [`COMMENT`]
/// and the line ends in it, an open one becomes [`UNCLOSED`] and ends the text. Any other byte that no text may have
/// becomes [`BAD`]. Fails only where memory runs out (E01).
pub fn plain_text<A: Allocator>(alloc: A, text: &[u8]) -> Result<Vec<u8, A>, AllocError>
    ensures same { IfOk result (λ v. v.items ≡ plain_of text.now) }
    ensures fits { IfOk result (λ v. length v.items ≤ length text.now) }
{
    let mut out = Vec::with_capacity(alloc, text.len())?;
    let mut rest = text;
    while let [b, after @ ..] = rest {
        let len = put(&mut out, *b, after)?;
        rest = &after[len..];
    }
    Ok(out)
}

/// Whether a byte that no text may have is outside of comments.
pub fn has_bad_byte(text: &[u8]) -> bool
    ensures { result ≡ has_bad text.now }
{
    text.iter().any(|b| *b == BAD)
}
