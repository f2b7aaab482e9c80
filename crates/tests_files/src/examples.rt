//! The examples against their runs.
use crate::runs::Example;
use chr_run_text::Show;
use std::alloc::Global;
use std::rt::Files;
use std::{fs, io};

/// The names of the folders of examples, in alphabetical order.
fn names<R: Files + Alloc + Clone + Drop>(rt: &R) -> io::Result<Vec<String<R::A>, R::A>>
where
    R::A: Clone,
{
    let mut names = Vec::new(rt.alloc());
    for entry in fs::read_dir(rt, "examples")? {
        let entry = entry?;
        if entry.file_type()?.is_dir() {
            names.push(String::from_str(rt.alloc(), entry.file_name())?)?;
        }
    }
    names.sort_unstable();
    Ok(names)
}

/// How many firings a log has.
fn firings(log: &[u8]) -> usize {
    let lines = log.split(|b| *b == b'\n');
    lines.filter(|line| line.starts_with(b"F ")).count()
}

/// Whether the run of an example prints this.
fn is_run(alloc: Global, example: &Example, expected: &[u8]) -> bool {
    match example.run(alloc, Show::All) {
        Some(printed) => printed.as_slice() == expected,
        None => false,
    }
}

/// Prints how many firings an example makes, or that its run isn't as expected.
fn print_one<R: Files + Print + AllocGlobal>(rt: &R, name: &str) -> io::Result<()> {
    let alloc = rt.alloc();
    let example = Example::read(rt, name)?;
    let expected = fs::read(rt, format!(in alloc; "examples/{name}/expected.txt")?)?;
    if is_run(alloc, &example, &expected) {
        println!(rt; "{name}: {} firings", firings(&expected))
    } else {
        println!(rt; "{name}: the run isn't as expected")
    }
}

/// Prints a line for each example.
pub fn print_all<R: Files + Print + AllocGlobal + Clone + Drop>(rt: &R) -> io::Result<()> {
    for name in &names(rt)? {
        print_one(rt, name)?;
    }
    Ok(())
}
