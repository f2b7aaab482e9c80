//! The texts that a command reads. Several files may hold parts of one text.
ghost use Rattle.std.specs.Prelude.{◌≡◌, ◌⊎◌, List, [], ◌∷◌, ◌++◌, map, length, IfOk};
ghost use Rattle.chr_commands.specs.declared.message.Source.{Source};
ghost use Rattle.chr_commands.specs.Parts.{line_ends, counted_after, CountFrom, IsPartWith};

use crate::files::{TextPath, called};
use crate::message::{Source, Text};
use std::alloc::{AllocError, Global};

/// Returns how many lines end in these bytes.
fn line_ends(bytes: &[u8]) -> u64
    ensures { result ≡ line_ends bytes.now }
{
    bytes.iter().filter(|b| **b == b'\n').count() as u64
}

/// Whether there are several files of one kind of text.
fn are_several(paths: &[TextPath<'_>], text: Text) -> bool {
    1 < paths.iter().filter(|path| path.0 == text).count()
}

/// Returns how many lines are counted before a text of a kind: none where it is the only one of its kind.
fn part_of(paths: &[TextPath<'_>], text: Text, before: u64) -> Option<u64>
    ensures { (result ≡ None) ⊎ (result ≡ Some before) }
{
    if are_several(paths, text) {
        Some(before)
    } else {
        None
    }
}

/// Returns how many lines are counted before what comes after a text.
fn counted_after(before: u64, text: Text, bytes: &[u8]) -> u64
    ensures { result ≡ counted_after before text bytes.now }
{
    match text {
        Text::Log => before.saturating_add(line_ends(bytes)),
        Text::Program | Text::Posts | Text::Store => before,
    }
}

/// Returns the sources of the texts with the paths of their files, in order. Where there are several of a kind, each is a
/// part, for a log by the number of lines before it.
pub fn sources<'a>(
    alloc: Global,
    paths: &[TextPath<'a>],
    files: &'a [Vec<u8>],
) -> Result<Vec<Source<'a>>, AllocError>
    requires { length paths.now ≡ length files.now }
    ensures kinds { IfOk result (λ sources. map (λ source. source.text) sources.items ≡ map (λ path. path.0) paths.now) }
    ensures bytes { IfOk result (λ sources. map (λ source. source.bytes.now) sources.items ≡ map (λ file. file.items) files.now) }
    ensures parts { IfOk result (λ sources. CountFrom 0 sources.items) }
{
    let mut sources = Vec::new(alloc);
    let mut before = 0u64;
    for (i, path) in paths.iter().enumerate() {
        let (text, path) = (path.0, called(path.1));
        let bytes = files[i].as_slice();
        let part = part_of(paths, text, before);
        sources.push(Source {
            text,
            path,
            bytes,
            part,
        })?;
        before = counted_after(before, text, bytes);
    }
    Ok(sources)
}

/// Returns the bytes of sources, in order.
pub fn texts<'a>(alloc: Global, sources: &[Source<'a>]) -> Result<Vec<&'a [u8]>, AllocError>
    ensures { IfOk result (λ texts. map (λ text. text.now) texts.items ≡ map (λ source. source.bytes.now) sources.now) }
{
    let mut texts = Vec::new(alloc);
    for source in sources {
        texts.push(source.bytes)?;
    }
    Ok(texts)
}

/// Returns the part with a line, once a further part is looked at.
fn later_part<'a>(found: Option<Source<'a>>, source: Source<'a>, line: u64) -> Option<Source<'a>>
    ensures { (earlier : List Source) → IsPartWith earlier line found.entry → IsPartWith (earlier ++ source.entry ∷ []) line result }
{
    match found {
        Some(_) if line <= source.part.unwrap_or(0) => found,
        _ => Some(source),
    }
}

/// Returns the part of a log that has the line of this number: the last one with fewer lines before it, or the first where
/// there is none.
pub fn part_with<'a>(log: &[Source<'a>], line: u64) -> Option<Source<'a>>
    ensures { IsPartWith log.now line result }
{
    let mut found = None;
    for source in log {
        let part = *source;
        found = later_part(found, part, line);
    }
    found
}
