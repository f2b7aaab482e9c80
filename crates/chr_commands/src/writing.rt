//! Writing several files, all or none.
//!
//! Each text is written to a new file in a folder of its own beside its place, and once all are written each file is put in
//! its place by its name, which is one step of the file system. So no file is ever half written, and a fault leaves all as
//! they were: where a file can't be put, those that were put before it are taken back. What is no regular file, as a device
//! or a pipe, what another process has open, as `/dev/fd/3`, and a file in a directory that takes no folder, is written in
//! its place, after the texts beside their places and before they are put.
use crate::outputs::{end_of_links, split};
use std::alloc::{AllocError, Global};
use std::fs::{self, File, Metadata, OpenOptions, Permissions};
use std::io::{self, ErrorKind, Write};
use std::os::unix::fs::{MetadataExt, PermissionsExt};
use std::rt::Files;

/// The most names that are tried for a folder beside a place: one is taken where another run is writing, or was killed.
const MOST_NAMES: u32 = 1_000;

/// The bits of who may read, write and run a file.
const ACCESS: u32 = 0o777;

/// A file to write, and its text.
#[derive(Clone, Copy, Debug)]
pub struct Output<'o> {
    pub path: &'o str,
    pub bytes: &'o [u8],
}

/// A file that can't be written, and why.
#[derive(Clone, Copy, Debug)]
pub struct Unwritten<'o> {
    pub path: &'o str,
    pub error: io::Error,
}

/// A folder that one output alone uses, with the names that are used there.
#[derive(Debug, Drop)]
struct Folder {
    path: String,
    /// Where the text is until its file is put in its place.
    new: String,
    /// Where the file is kept that was in the place.
    old: String,
}

impl Folder {
    /// The names of the folder of this number.
    fn named(alloc: Global, directory: &str, number: u32) -> Result<Folder, AllocError> {
        Ok(Folder {
            path: format!(in alloc; "{directory}/.chr-{number}")?,
            new: format!(in alloc; "{directory}/.chr-{number}/new")?,
            old: format!(in alloc; "{directory}/.chr-{number}/old")?,
        })
    }

    /// Makes a folder in a directory, under a name that nothing has there.
    fn create<R: Files + AllocGlobal>(rt: &R, directory: &str) -> io::Result<Folder> {
        for number in 0..MOST_NAMES {
            let folder = Folder::named(rt.alloc(), directory, number)?;
            match fs::create_dir(rt, folder.path.as_str()) {
                Ok(()) => return Ok(folder),
                Err(error) if error.kind() == ErrorKind::AlreadyExists => {}
                Err(error) => return Err(error),
            }
        }
        Err(ErrorKind::AlreadyExists.into())
    }

    /// Removes the folder with what is there.
    fn remove(&self, rt: &impl Files) {
        let _ = fs::remove_file(rt, self.new.as_str());
        let _ = fs::remove_file(rt, self.old.as_str());
        let _ = fs::remove_dir(rt, self.path.as_str());
    }
}

/// How far a file is.
#[derive(Clone, Copy, Debug, PartialEq, Eq)]
enum Step {
    /// Its text stands in its folder.
    Written,
    /// So does the file that is in its place, or was.
    Kept,
    /// It is in its place, where there was none.
    Put,
    /// It is in its place, and the file that was there may stand in the folder.
    Replaced,
}

/// A text that stands beside the place of its file.
#[derive(Debug, Drop)]
struct Staged<'o> {
    path: &'o str,
    /// Where its file goes: `path`, but for symbolic links.
    place: String,
    folder: Folder,
    /// Whether a file is there.
    replaces: bool,
    step: Step,
}

/// Gives a new file the owner of the file that it is to replace, as far as the system allows, and lets the same users read,
/// write and run it.
fn keep_access<R: Files>(rt: &R, name: &str, found: &Metadata) -> io::Result<()> {
    let _ = rt.chown(name, Some(found.uid()), Some(found.gid()));
    let access = found.permissions().mode() & ACCESS;
    fs::set_permissions(rt, name, Permissions::from_mode(access))
}

/// Writes a text to a new file, which is to replace the one that was found, if one was.
fn fill<R: Files>(rt: &R, name: &str, bytes: &[u8], found: Option<&Metadata>) -> io::Result<()> {
    let mut file = File::create_new(rt, name)?;
    file.write_all(bytes)?;
    match found {
        Some(found) => keep_access(rt, name, found),
        None => Ok(()),
    }
}

/// Writes a text beside its place.
fn stage_beside<'o, R: Files + AllocGlobal>(
    rt: &R,
    output: Output<'o>,
    place: String,
    found: Option<&Metadata>,
) -> io::Result<Staged<'o>> {
    let (directory, _) = split(place.as_str());
    let folder = Folder::create(rt, directory)?;
    if let Err(error) = fill(rt, folder.new.as_str(), output.bytes, found) {
        folder.remove(rt);
        return Err(error);
    }
    Ok(Staged {
        path: output.path,
        place,
        folder,
        replaces: found.is_some(),
        step: Step::Written,
    })
}

/// Opens a file for writing and closes it, which changes nothing. An error says why it can't be written.
fn open_to_write<R: Files>(rt: &R, path: &str) -> io::Result<()> {
    let _file = OpenOptions::new().write(true).open(rt, path)?;
    Ok(())
}

/// Writes a text beside the place of its file, where nothing or a regular file is. None where the text is to be written in
/// its place.
fn stage<'o, R: Files + AllocGlobal>(rt: &R, output: Output<'o>) -> io::Result<Option<Staged<'o>>> {
    let found = match fs::metadata(rt, output.path) {
        Ok(found) if found.is_file() => Some(found),
        Ok(_) => return Ok(None),
        Err(error) if error.kind() == ErrorKind::NotFound => None,
        Err(error) => return Err(error),
    };
    let Some(place) = end_of_links(rt, output.path)? else {
        return Ok(None);
    };
    if found.is_some() {
        open_to_write(rt, output.path)?;
    }
    match stage_beside(rt, output, place, found.as_ref()) {
        Ok(staged) => Ok(Some(staged)),
        Err(error) if found.is_some() && error.kind() == ErrorKind::PermissionDenied => Ok(None),
        Err(error) => Err(error),
    }
}

/// Writes a text beside the place of its file and adds it, or adds it to those that are written in their place.
fn push_stage<'o, R: Files + AllocGlobal>(
    rt: &R,
    output: Output<'o>,
    staged: &mut Vec<Staged<'o>>,
    in_place: &mut Vec<Output<'o>>,
) -> io::Result<()> {
    match stage(rt, output)? {
        Some(beside) => {
            if let Err(refused) = staged.push(beside) {
                refused.value.take_back(rt);
                return Err(ErrorKind::OutOfMemory.into());
            }
        }
        None => in_place.push(output)?,
    }
    Ok(())
}

/// Writes the texts beside their places, and then those that are written in their place.
fn stage_all<'o, R: Files + AllocGlobal>(
    rt: &R,
    outputs: &[Output<'o>],
    staged: &mut Vec<Staged<'o>>,
) -> Result<(), Unwritten<'o>> {
    let mut in_place = Vec::new(rt.alloc());
    for output in outputs {
        if let Err(error) = push_stage(rt, *output, staged, &mut in_place) {
            let path = output.path;
            return Err(Unwritten { path, error });
        }
    }
    for output in &in_place {
        if let Err(error) = fs::write(rt, output.path, output.bytes) {
            let path = output.path;
            return Err(Unwritten { path, error });
        }
    }
    Ok(())
}

/// Gives a file another name too, or another name alone where the file system has one for each file.
fn keep<R: Files>(rt: &R, place: &str, old: &str) -> io::Result<()> {
    match fs::hard_link(rt, place, old) {
        Ok(()) => Ok(()),
        Err(_) => fs::rename(rt, place, old),
    }
}

impl Staged<'_> {
    /// Puts the text in its place, and keeps the file that was there, if one was and this is asked for.
    fn put<R: Files>(&mut self, rt: &R, keeps: bool) -> io::Result<()> {
        let place = self.place.as_str();
        if self.replaces && keeps {
            keep(rt, place, self.folder.old.as_str())?;
            self.step = Step::Kept;
        }
        fs::rename(rt, self.folder.new.as_str(), place)?;
        self.step = if self.replaces {
            Step::Replaced
        } else {
            Step::Put
        };
        Ok(())
    }

    /// Makes all as it was before the text was written.
    fn take_back<R: Files>(&self, rt: &R) {
        let place = self.place.as_str();
        match self.step {
            Step::Written => {}
            Step::Kept | Step::Replaced => {
                let _ = fs::rename(rt, self.folder.old.as_str(), place);
            }
            Step::Put => {
                let _ = fs::remove_file(rt, place);
            }
        }
        self.folder.remove(rt);
    }
}

/// Puts each text in its place, in order. The files that were there are kept, but for the last, after which no fault comes.
fn put_all<'o, R: Files>(rt: &R, staged: &mut [Staged<'o>]) -> Result<(), Unwritten<'o>> {
    let count = staged.len();
    for (i, one) in staged.iter_mut().enumerate() {
        let is_last = count - i == 1;
        if let Err(error) = one.put(rt, !is_last) {
            let path = one.path;
            return Err(Unwritten { path, error });
        }
    }
    Ok(())
}

/// Writes files. After a fault each is as it was, but for those that are written in their place, and nothing is left beside
/// them.
pub fn write_files<'o, R: Files + AllocGlobal>(
    rt: &R,
    outputs: &[Output<'o>],
) -> Result<(), Unwritten<'o>> {
    let mut staged = Vec::new(rt.alloc());
    let written = match stage_all(rt, outputs, &mut staged) {
        Ok(()) => put_all(rt, staged.as_mut_slice()),
        Err(unwritten) => Err(unwritten),
    };
    for one in staged.iter().rev() {
        match written {
            Ok(()) => one.folder.remove(rt),
            Err(_) => one.take_back(rt),
        }
    }
    written
}
