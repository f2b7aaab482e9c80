//! The pictures of examples against their runs.
use crate::runs::Example;
use chr_picture::{Range, draw_text};
use chr_run_text::Show;
use std::alloc::Global;
use std::rt::Files;
use std::{fs, io};

/// The examples that are drawn.
const DRAWN: [&str; 3] = ["gcd", "scheduler", "union_find"];

/// All entries of a log.
const ALL: Range = Range {
    from: 1,
    to: 4_294_967_295,
};

/// Whether this is the picture of the run of an example.
fn is_drawn(alloc: Global, example: &Example, picture: &[u8]) -> bool {
    match example.run(alloc, Show::Log) {
        Some(log) => match draw_text(alloc, &example.rules, &log, ALL) {
            Ok(drawn) => drawn.as_slice() == picture,
            Err(_) => false,
        },
        None => false,
    }
}

/// Prints whether the picture of an example is that of its run.
fn print_one<R: Files + Print + AllocGlobal>(rt: &R, name: &str) -> io::Result<()> {
    let alloc = rt.alloc();
    let example = Example::read(rt, name)?;
    let picture = fs::read(rt, format!(in alloc; "pictures/{name}.svg")?)?;
    if is_drawn(alloc, &example, &picture) {
        println!(rt; "pictures/{name}.svg: as drawn")
    } else {
        println!(rt; "pictures/{name}.svg: not as drawn")
    }
}

/// Prints a line for each picture.
pub fn print_all<R: Files + Print + AllocGlobal>(rt: &R) -> io::Result<()> {
    for name in DRAWN {
        print_one(rt, name)?;
    }
    Ok(())
}
