//! A system for tests: its files are those of the test, its standard input is given, what is written to its standard output
//! and standard error is kept, and a write or a renaming can be made to fail.
use std::alloc::{Allocator, Global};
use std::cell::{Cell, RefCell};
use std::env::FillError;
use std::fmt::{Display, Write as _};
use std::fs::{Metadata, OpenOptions, Permissions};
use std::io::{self, BufRead, ErrorKind, Lines};
use std::path::PathBuf;
use std::rt::{Clock, Env, Files};
use std::time::Duration;

/// What a test runs a command on.
#[derive(Drop)]
pub struct Stage<'r> {
    rt: &'r HostRuntime,
    input: &'r [u8],
    /// How many bytes standard output takes before it is full.
    room: usize,
    /// How many files are renamed before that fails.
    renamings: Cell<u32>,
    /// The words of the command line, the program's own name first.
    words: &'r [&'r [u8]],
    printed: RefCell<String>,
    said: RefCell<String>,
}

impl<'r> Stage<'r> {
    /// A system on which nothing fails, with this standard input and these words of the command line.
    fn of(rt: &'r HostRuntime, input: &'r [u8], words: &'r [&'r [u8]]) -> Stage<'r> {
        Stage {
            rt,
            input,
            room: usize::MAX,
            renamings: Cell::new(u32::MAX),
            words,
            printed: RefCell::new(String::new(rt.alloc())),
            said: RefCell::new(String::new(rt.alloc())),
        }
    }

    /// A system on which nothing fails, with this standard input.
    pub fn new(rt: &'r HostRuntime, input: &'r [u8]) -> Stage<'r> {
        Stage::of(rt, input, &[])
    }

    /// A system whose standard output takes so many bytes.
    pub fn with_room(rt: &'r HostRuntime, room: usize) -> Stage<'r> {
        let mut stage = Stage::new(rt, b"");
        stage.room = room;
        stage
    }

    /// A system on which so many files can be renamed.
    pub fn with_renamings(rt: &'r HostRuntime, renamings: u32) -> Stage<'r> {
        let mut stage = Stage::new(rt, b"");
        stage.renamings = Cell::new(renamings);
        stage
    }

    /// A system with these words of the command line.
    pub fn with_words(rt: &'r HostRuntime, words: &'r [&'r [u8]]) -> Stage<'r> {
        Stage::of(rt, b"", words)
    }

    /// Whether this is what was printed.
    pub fn has_printed(&self, wanted: &str) -> bool {
        self.printed
            .try_borrow()
            .is_ok_and(|printed| printed.as_str() == wanted)
    }

    /// Whether this is a part of what was printed.
    pub fn has_printed_part(&self, wanted: &str) -> bool {
        self.printed
            .try_borrow()
            .is_ok_and(|printed| printed.as_str().contains(wanted))
    }

    /// Whether this is what was said on standard error.
    pub fn has_said(&self, wanted: &str) -> bool {
        self.said
            .try_borrow()
            .is_ok_and(|said| said.as_str() == wanted)
    }
}

/// Adds a value to what was written.
fn keep<D: Display + Drop>(kept: &RefCell<String>, value: D) -> io::Result<()> {
    match kept.try_borrow_mut() {
        Ok(mut kept) => write!(kept, "{value}").map_err(io::Error::from),
        Err(_) => Err(ErrorKind::Other.into()),
    }
}

impl Print for Stage<'_> {
    fn print<D: Display + Drop>(&self, value: D) -> io::Result<()> {
        let text = format!(in self.rt.alloc(); "{value}")?;
        Print::write_all(self, text.as_bytes())
    }

    fn println<D: Display + Drop>(&self, value: D) -> io::Result<()> {
        self.print(value)?;
        self.print("\n")
    }

    fn write_all(&self, bytes: &[u8]) -> io::Result<()> {
        let Ok(text) = std::str::from_utf8(bytes) else {
            return Err(ErrorKind::InvalidData.into());
        };
        let length = match self.printed.try_borrow() {
            Ok(printed) => printed.len(),
            Err(_) => return Err(ErrorKind::Other.into()),
        };
        if self.room.saturating_sub(length) < bytes.len() {
            return Err(ErrorKind::StorageFull.into());
        }
        keep(&self.printed, text)
    }
}

impl Eprint for Stage<'_> {
    fn eprint<D: Display + Drop>(&self, value: D) -> io::Result<()> {
        keep(&self.said, value)
    }

    fn eprintln<D: Display + Drop>(&self, value: D) -> io::Result<()> {
        keep(&self.said, value)?;
        keep(&self.said, "\n")
    }
}

impl Clock for Stage<'_> {
    fn monotonic(&self) -> io::Result<Duration> {
        Err(ErrorKind::Unsupported.into())
    }

    fn since_1970(&self) -> io::Result<Duration> {
        Err(ErrorKind::Unsupported.into())
    }
}

impl Alloc for Stage<'_> {
    type A = Global;

    fn alloc(&self) -> Global {
        self.rt.alloc()
    }
}

impl<'r> Input for Stage<'r> {
    type Reader = &'r [u8];

    fn read_line<A: Allocator + Clone>(&self, buf: &mut String<A>) -> io::Result<usize> {
        let mut reader = self.input;
        reader.read_line(buf)
    }

    fn lines<A: Allocator>(&self, alloc: A) -> Lines<&'r [u8], A> {
        self.input.lines(alloc)
    }

    fn reader(&self) -> &'r [u8] {
        self.input
    }
}

impl Env for Stage<'_> {
    fn arg(&self, i: usize, buf: &mut [u8]) -> Result<usize, FillError> {
        let Some(word) = self.words.get(i) else {
            return Err(FillError::NotPresent);
        };
        let word = *word;
        if buf.len() < word.len() {
            return Err(FillError::TooLong);
        }
        buf[..word.len()].copy_from_slice(word);
        Ok(word.len())
    }

    fn var(&self, _name: &str, _buf: &mut [u8]) -> Result<usize, FillError> {
        Err(FillError::NotPresent)
    }

    fn var_at(&self, _i: usize, _buf: &mut [u8]) -> Result<usize, FillError> {
        Err(FillError::NotPresent)
    }
}

impl Files for Stage<'_> {
    type File = <HostRuntime as Files>::File;

    type Dir = <HostRuntime as Files>::Dir;

    fn open_file(&self, how: &OpenOptions, path: &str) -> io::Result<Self::File> {
        self.rt.open_file(how, path)
    }

    fn open_dir(&self, path: &str) -> io::Result<Self::Dir> {
        self.rt.open_dir(path)
    }

    fn metadata(&self, path: &str) -> io::Result<Metadata> {
        self.rt.metadata(path)
    }

    fn symlink_metadata(&self, path: &str) -> io::Result<Metadata> {
        self.rt.symlink_metadata(path)
    }

    fn copy(&self, from: &str, to: &str) -> io::Result<u64> {
        self.rt.copy(from, to)
    }

    fn rename(&self, from: &str, to: &str) -> io::Result<()> {
        let left = self.renamings.get();
        self.renamings.set(left.saturating_sub(1));
        if left == 0 && from.ends_with("new") {
            return Err(ErrorKind::Other.into());
        }
        self.rt.rename(from, to)
    }

    fn remove_file(&self, path: &str) -> io::Result<()> {
        self.rt.remove_file(path)
    }

    fn create_dir(&self, path: &str) -> io::Result<()> {
        self.rt.create_dir(path)
    }

    fn remove_dir(&self, path: &str) -> io::Result<()> {
        self.rt.remove_dir(path)
    }

    fn remove_dir_all<B: Allocator>(&self, alloc: B, path: &str) -> io::Result<()> {
        self.rt.remove_dir_all(alloc, path)
    }

    fn read_link<B: Allocator>(&self, alloc: B, path: &str) -> io::Result<PathBuf<B>> {
        self.rt.read_link(alloc, path)
    }

    fn hard_link(&self, original: &str, link: &str) -> io::Result<()> {
        self.rt.hard_link(original, link)
    }

    fn set_permissions(&self, path: &str, perm: Permissions) -> io::Result<()> {
        self.rt.set_permissions(path, perm)
    }
}
