//! Holds the files that users read against the program.
//!
//! Each folder of `examples` has rules, posts and what `chr run` must print of them: the three are named `NAME.chr`,
//! `posts.txt` and `expected.txt` in the folder NAME. Each run is compared with what is expected, byte by byte. The
//! manual page and the completions are compared with the help of `chr`: they must have each command, argument, option,
//! range and default that a help has, and no option besides. Each picture is compared with what is drawn of the run of its
//! example.
//!
//! A line of the output says of each example how many firings its run makes, and of each other file whether it agrees.
//! This is a program since a test can't read files: the gate runs it on `data`, and compares its output with `stdout`.
#![tactic(auto)]

mod examples;
mod help;
mod pictures;
mod runs;

use std::io;

fn main(rt: HostRuntime) -> io::Result<()> {
    examples::print_all(&rt)?;
    help::print_all(&rt)?;
    pictures::print_all(&rt)
}
