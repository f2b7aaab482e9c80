//! The manual page and the completions against the help.
use chr_command_line::{VERSION, read};
use std::alloc::{AllocError, Global};
use std::rt::Files;
use std::{fs, io};

/// The command lines that print the help.
const LINES: [&[&str]; 7] = [
    &["chr", "--help"],
    &["chr", "run", "--help"],
    &["chr", "check", "--help"],
    &["chr", "explain", "--help"],
    &["chr", "picture", "--help"],
    &["chr", "session", "--help"],
    &["chr", "serve", "--help"],
];

/// All the help, text after text.
fn help(alloc: Global) -> Result<Vec<u8>, AllocError> {
    let mut help = Vec::new(alloc);
    for words in LINES {
        if let Err(error) = read(alloc, words) {
            let text = format!(in alloc; "{error}")?;
            help.extend_from_slice(text.as_bytes())?;
        }
    }
    Ok(help)
}

/// Words of a text, each once.
#[derive(Drop)]
struct Words<'t> {
    list: Vec<&'t [u8]>,
}

impl<'t> Words<'t> {
    fn new(alloc: Global) -> Words<'t> {
        Words {
            list: Vec::new(alloc),
        }
    }

    fn add(&mut self, word: &'t [u8]) -> Result<(), AllocError> {
        if !self.list.contains(&word) {
            self.list.push(word)?;
        }
        Ok(())
    }

    /// Adds the options of a text, as `--steps`.
    fn add_options(&mut self, text: &'t [u8]) -> Result<(), AllocError> {
        for word in text.split(|b| !b.is_ascii_lowercase() && *b != b'-') {
            if word.starts_with(b"--") && 2 < word.len() {
                self.add(word)?;
            }
        }
        Ok(())
    }

    /// Adds the commands that a help lists: the first word of each line that is set in by two blanks and tells what a
    /// command does.
    fn add_commands(&mut self, help: &'t [u8]) -> Result<(), AllocError> {
        let mut is_listed = false;
        for line in help.split(|b| *b == b'\n') {
            if line == b"Commands:".as_slice() {
                is_listed = true;
            } else if line.is_empty() {
                is_listed = false;
            } else if is_listed {
                let mut words = line.split(|b| *b == b' ').filter(|word| !word.is_empty());
                if let Some(word) = words.next() {
                    self.add(word)?;
                }
            }
        }
        Ok(())
    }

    /// Adds the arguments of a help, the values that an option may have and the ranges: what stands between `<` and `>`,
    /// where `|` separates them.
    fn add_arguments(&mut self, help: &'t [u8]) -> Result<(), AllocError> {
        for rest in help.split(|b| *b == b'<').skip(1) {
            if let Some(inside) = rest.split(|b| *b == b'>').next() {
                for word in inside.split(|b| *b == b'|') {
                    self.add(word)?;
                }
            }
        }
        Ok(())
    }

    /// Adds the defaults of a help, as of `[default: all]`.
    fn add_defaults(&mut self, help: &'t [u8]) -> Result<(), AllocError> {
        for rest in help.split(|b| *b == b'[').skip(1) {
            if let Some(inside) = rest.split(|b| *b == b']').next() {
                if let Some(word) = inside.strip_prefix(b"default: ") {
                    self.add(word)?;
                }
            }
        }
        Ok(())
    }
}

/// Whether a text has a word.
fn has(text: &[u8], word: &[u8]) -> bool {
    word.is_empty() || text.windows(word.len()).any(|part| part == word)
}

/// Prints the words that a file lacks. Returns whether there is one.
fn print_lacks(rt: &impl Print, path: &str, text: &[u8], wanted: &[&[u8]]) -> io::Result<bool> {
    let mut lacks = false;
    for word in wanted {
        if !has(text, word) {
            println!(rt; "{path} lacks {}", word.escape_ascii())?;
            lacks = true;
        }
    }
    Ok(lacks)
}

/// Prints whether a file has these words of the help, and no option but those of the help.
fn print_one(
    rt: &(impl Print + AllocGlobal),
    path: &str,
    text: &[u8],
    wanted: &[&[u8]],
) -> io::Result<()> {
    let mut own = Words::new(rt.alloc());
    own.add_options(text)?;
    let lacks = print_lacks(rt, path, text, wanted)?;
    let others = own
        .list
        .iter()
        .filter(|option| !wanted.contains(option))
        .count();
    if others != 0 {
        println!(rt; "{path} has {others} options that no help has")
    } else if !lacks {
        println!(rt; "{path}: as the help")
    } else {
        Ok(())
    }
}

/// The text of a file without backslashes, which a manual page has before each `-`.
fn fetch<R: Files + AllocGlobal>(rt: &R, path: &str) -> io::Result<Vec<u8>> {
    let mut text = fs::read(rt, path)?;
    text.retain(|b| *b != b'\\');
    Ok(text)
}

/// Prints a line for the manual page and for each completion.
pub fn print_all<R: Files + Print + AllocGlobal>(rt: &R) -> io::Result<()> {
    let help = help(rt.alloc())?;
    let mut wanted = Words::new(rt.alloc());
    wanted.add_options(&help)?;
    wanted.add_commands(&help)?;
    for path in ["completions/chr.bash", "completions/_chr"] {
        print_one(rt, path, &fetch(rt, path)?, &wanted.list)?;
    }
    wanted.add_arguments(&help)?;
    wanted.add_defaults(&help)?;
    wanted.add(VERSION.as_bytes())?;
    let path = "man/chr.1";
    print_one(rt, path, &fetch(rt, path)?, &wanted.list)
}
