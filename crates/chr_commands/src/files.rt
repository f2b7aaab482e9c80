//! Reading files and standard input.
ghost use Rattle.std.specs.Prelude.{◌≡◌, ◌+◌, ◌++◌, ◌∷◌, [], ℕ, map, length, take, IfOk, IfSome, OnOk};
ghost use Rattle.chr_commands.specs.Files.{most_bytes, of_kind};

use crate::message::Text;
use chr_command_line::STANDARD_INPUT;
use std::alloc::{AllocError, Allocator, Global};
use std::fs::File;
use std::io::{self, Read};
use std::rt::Files;

/// What a file is read as, and its path.
pub type TextPath<'p> = (Text, &'p str);

/// The most bytes of a text of rules or of posts, as `chr_text` has it.
const MOST_TEXT_BYTES: u32 = 65_536;

/// The most bytes of a text of a log or of a store, as `chr_log_text` has it.
const MOST_LOG_BYTES: u32 = 67_108_864;

const _: () = prove!(MOST_TEXT_BYTES as usize == chr_text::MOST_BYTES);

const _: () = prove!(MOST_LOG_BYTES as usize == chr_log_text::MOST_BYTES);

/// Returns the most bytes of a text.
fn most_bytes(text: Text) -> u32
    ensures { result ≡ most_bytes text }
{
    match text {
        Text::Program | Text::Posts => MOST_TEXT_BYTES,
        Text::Log | Text::Store => MOST_LOG_BYTES,
    }
}

/// Returns what messages call the file of a path.
pub fn called(path: &str) -> &str {
    if path == STANDARD_INPUT {
        "standard input"
    } else {
        path
    }
}

/// Adds the bytes that a reader has left, but no more than those that a text may have and one, which shows that they are
/// too many.
pub fn fetch<S: Read + Drop, A: Allocator>(
    reader: S,
    text: Text,
    bytes: &mut Vec<u8, A>,
) -> io::Result<()>
    ensures { OnOk result (IfSome (S.remaining reader) (λ left. bytes.new.items ≡ bytes.old.items ++ take (most_bytes text + 1) left)) }
{
    let mut taken = reader.take(u64::from(most_bytes(text)) + 1);
    taken.read_to_end(bytes)?;
    Ok(())
}

/// Adds the bytes of a file, or of standard input for the path that stands for it, as [`fetch`] takes them.
fn fetch_file<R: Files + Input, A: Allocator>(
    rt: &R,
    (text, path): TextPath<'_>,
    bytes: &mut Vec<u8, A>,
) -> io::Result<()> {
    if path == STANDARD_INPUT {
        fetch(rt.reader(), text, bytes)
    } else {
        fetch(File::open(rt, path)?, text, bytes)
    }
}

/// Adds the bytes of a file to those of others.
fn push_file<R: Files + Input + AllocGlobal>(
    rt: &R,
    path: TextPath<'_>,
    files: &mut Vec<Vec<u8>>,
) -> io::Result<()>
    ensures { OnOk result (length files.new.items ≡ length files.old.items + 1) }
{
    let mut bytes = Vec::new(rt.alloc());
    fetch_file(rt, path, &mut bytes)?;
    files.push(bytes)?;
    Ok(())
}

/// A file that can't be read, and why.
#[derive(Clone, Copy)]
pub struct Unread<'p> {
    pub path: &'p str,
    pub error: io::Error,
}

/// Returns the bytes of each file, in order.
pub fn fetch_all<'p, R: Files + Input + AllocGlobal>(
    rt: &R,
    paths: &[TextPath<'p>],
) -> Result<Vec<Vec<u8>>, Unread<'p>>
    ensures { IfOk result (λ files. length files.items ≡ length paths.now) }
{
    let mut files = Vec::new(rt.alloc());
    for path in paths {
        if let Err(error) = push_file(rt, *path, &mut files) {
            return Err(Unread {
                path: path.1,
                error,
            });
        }
    }
    Ok(files)
}

/// Returns some paths, and after them those of further files of one kind of text, all in order.
pub fn all_paths<'p>(
    alloc: Global,
    first: &[TextPath<'p>],
    text: Text,
    more: &[&'p str],
) -> Result<Vec<TextPath<'p>>, AllocError>
    ensures { IfOk result (λ paths. paths.items ≡ first.now ++ of_kind text more.now) }
{
    let mut paths = Vec::new(alloc);
    paths.extend_from_slice(first)?;
    for path in more {
        paths.push((text, *path))?;
    }
    Ok(paths)
}
