//! The files that paths to write lead to.
ghost use Rattle.std.specs.Prelude.{◌↔◌, IsTrue};
ghost use Rattle.chr_commands.specs.Outputs.{AreOneFile};

use std::alloc::AllocError;
use std::fs::{self, Metadata};
use std::io::{self, ErrorKind};
use std::os::unix::fs::MetadataExt;
use std::rt::Files;

/// The most symbolic links that are followed from one path, as the system has it.
const MOST_LINKS: u32 = 40;

/// The path of the file that standard output writes to, on a system that has one.
pub const STANDARD_OUTPUT: &str = "/dev/stdout";

/// The directory of the files that this process has open, on a system that has one.
const DESCRIPTORS: &str = "/proc/self/fd";

/// A file by the numbers that the system gives it, whatever its path is.
#[derive(Clone, Copy, Debug, PartialEq, Eq)]
pub struct Node {
    pub device: u64,
    pub number: u64,
}

impl Node {
    /// Returns the numbers of a file that the system has described.
    pub fn of(found: &Metadata) -> Node {
        Node {
            device: found.dev(),
            number: found.ino(),
        }
    }
}

/// Where a path to write leads.
#[derive(Debug, Drop)]
pub enum Place {
    /// To a file that is there.
    There(Node),
    /// To no file yet, but to this name in this directory.
    New { directory: Node, name: String },
    /// To a device, a pipe or a directory, or to no directory.
    Other,
}

impl Place {
    /// Returns whether both lead to one file, so that the second text would replace the first.
    pub fn is_file_of(&self, other: &Place) -> bool
        ensures { IsTrue result ↔ AreOneFile self.now other.now }
    {
        match (self, other) {
            (Place::There(node), Place::There(other)) => *node == *other,
            (
                Place::New { directory, name },
                Place::New {
                    directory: other,
                    name: other_name,
                },
            ) => *directory == *other && name.as_str() == other_name.as_str(),
            _ => false,
        }
    }
}

/// Returns the directory of a path, and the name there.
pub fn split(path: &str) -> (&str, &str) {
    match path.rsplit_once('/') {
        Some(("", name)) => ("/", name),
        Some((directory, name)) => (directory, name),
        None => (".", path),
    }
}

/// Returns whether the system answers so where no symbolic link is at a path.
fn is_no_link(error: &io::Error) -> bool {
    matches!(error.kind(), ErrorKind::InvalidInput | ErrorKind::NotFound)
}

/// Returns whether a path is a link to a file that a process has open, as `/dev/fd/3` is.
fn is_descriptor<R: Files>(rt: &R, path: &str) -> bool {
    match (
        fs::symlink_metadata(rt, path),
        fs::metadata(rt, DESCRIPTORS),
    ) {
        (Ok(found), Ok(descriptors)) => found.dev() == descriptors.dev(),
        _ => false,
    }
}

/// Returns the path to which a symbolic link leads that is at a path.
fn target<R: AllocGlobal>(rt: &R, path: &str, link: &str) -> Result<String, AllocError> {
    let (directory, _) = split(path);
    if link.starts_with('/') {
        String::from_str(rt.alloc(), link)
    } else {
        format!(in rt.alloc(); "{directory}/{link}")
    }
}

/// Returns the path at which the symbolic links end that begin at a path, whether or not a file is there. None where one of
/// them leads to a file that a process has open.
pub fn end_of_links<R: Files + AllocGlobal>(rt: &R, path: &str) -> io::Result<Option<String>> {
    let mut end = String::from_str(rt.alloc(), path)?;
    for _ in 0..MOST_LINKS {
        let link = match fs::read_link(rt, end.as_str()) {
            Ok(link) => link,
            Err(error) if is_no_link(&error) => break,
            Err(error) => return Err(error),
        };
        if is_descriptor(rt, end.as_str()) {
            return Ok(None);
        }
        end = target(rt, end.as_str(), link.as_str())?;
    }
    Ok(Some(end))
}

/// Returns where a path leads at which there is no file.
fn new_place<R: Files + AllocGlobal>(rt: &R, path: &str) -> io::Result<Place> {
    let Some(end) = end_of_links(rt, path)? else {
        return Ok(Place::Other);
    };
    let (directory, name) = split(end.as_str());
    match fs::metadata(rt, directory) {
        Ok(found) => Ok(Place::New {
            directory: Node::of(&found),
            name: String::from_str(rt.alloc(), name)?,
        }),
        Err(_) => Ok(Place::Other),
    }
}

/// Returns where a path to write leads.
pub fn place_of<R: Files + AllocGlobal>(rt: &R, path: &str) -> io::Result<Place> {
    match fs::metadata(rt, path) {
        Ok(found) if found.is_file() => Ok(Place::There(Node::of(&found))),
        Ok(_) => Ok(Place::Other),
        Err(error) if error.kind() == ErrorKind::NotFound => new_place(rt, path),
        Err(error) => Err(error),
    }
}
