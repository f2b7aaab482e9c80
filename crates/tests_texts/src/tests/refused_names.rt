//! A table of names.
use crate::tests::refused_texts::Memory;
use chr_value::{Name, Names};
use refusing::Refusing;
use std::alloc::Global;

static TEXTS: [&str; 12] = ["a", "b", "c", "d", "e", "f", "g", "h", "i", "j", "k", "l"];

/// Numbers each text, again where that fails.
fn intern_all<'m>(memory: Memory<'m>, n: u64, names: &mut Names<Memory<'m>>) -> Option<bool> {
    let mut fails = false;
    memory.refuse(n);
    for text in &TEXTS {
        if text.len() <= 64 && names.intern(text).is_err() {
            fails = true;
            names.intern(text).ok()?;
        }
    }
    if names.len() != 12 {
        return None;
    }
    memory.is_refused(fails)
}

pub fn intern(memory: &Refusing<Global>, n: u64) -> Option<bool> {
    let mut names = Names::new(memory);
    intern_all(memory, n, &mut names)
}

/// Whether a copy of a table has the number of a text. None where memory is refused.
fn is_copied<'m>(memory: Memory<'m>, names: &Names<Memory<'m>>, name: Name) -> Option<bool> {
    match names.copy(memory) {
        Ok(copy) => Some(copy.find("gcd") == Some(name)),
        Err(_) => None,
    }
}

/// Copies a table after a text has its number.
fn copy_of<'m>(memory: Memory<'m>, n: u64, names: &mut Names<Memory<'m>>) -> Option<bool> {
    let name = names.intern("gcd").ok()?;
    memory.refuse(n);
    let fails = is_copied(memory, names, name).is_none();
    let refused = memory.is_refused(fails)?;
    is_copied(memory, names, name)?.then_some(refused)
}

pub fn copy(memory: &Refusing<Global>, n: u64) -> Option<bool> {
    let mut names = Names::new(memory);
    copy_of(memory, n, &mut names)
}
