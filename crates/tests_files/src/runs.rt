//! Runs of examples.
use chr_run_text::{Show, run_text};
use std::alloc::Global;
use std::rt::Files;
use std::{fs, io};

/// The calls that a run makes at most, as `chr run` has it where no option is given.
const STEPS: u64 = 1_000_000;

/// The greatest label of such a run.
const LABELS: u64 = 4_294_967_295;

/// The rules and the posts of an example.
#[derive(Drop)]
pub struct Example {
    pub rules: Vec<u8>,
    pub posts: Vec<u8>,
}

impl Example {
    /// Reads those of an example with this name.
    pub fn read<R: Files + AllocGlobal>(rt: &R, name: &str) -> io::Result<Example> {
        let alloc = rt.alloc();
        let rules = fs::read(rt, format!(in alloc; "examples/{name}/{name}.chr")?)?;
        let posts = fs::read(rt, format!(in alloc; "examples/{name}/posts.txt")?)?;
        Ok(Example { rules, posts })
    }

    /// What its run prints. None where it fails.
    pub fn run(&self, alloc: Global, show: Show) -> Option<Vec<u8>> {
        match run_text(alloc, &self.rules, &self.posts, STEPS, LABELS, show) {
            Ok(made) => Some(made.bytes),
            Err(_) => None,
        }
    }
}
