//! Books of programs whose names aren't all in the table.
use crate::tests::script::adds_names;
use chr_book::{Book, OpenFault};
use chr_text::read_program;
use chr_value::Names;
use std::alloc::Global;

/// Why a book of a program isn't opened over the table of other posts, if it isn't. None where a text isn't read.
fn fault(alloc: Global, program: &str, posts: &str) -> Option<Option<OpenFault>> {
    let mut names = Names::new(alloc);
    if !adds_names(alloc, posts, &mut names) {
        return None;
    }
    let mut numbered = Names::new(alloc);
    let program = read_program(alloc, program.as_bytes(), &mut numbered).ok()?;
    Some(Book::new(alloc, program, names, 10).err())
}

/// Programs, with posts of as many names, and of one name less.
const ROWS: [(&str, &str, &str); 18] = [
    ("a <=> true.", "a.", ""),
    ("a(b) <=> true.", "a, b.", "a."),
    ("a \\ b <=> true.", "a, b.", "a."),
    ("b, a \\ a <=> true.", "a, b.", "a."),
    ("a(b) \\ a <=> true.", "a, b.", "a."),
    ("a <=> b == a | true.", "a, b.", "a."),
    ("a <=> a \\== b | true.", "a, b.", "a."),
    ("a <=> b.", "a, b.", "a."),
    ("a <=> a, b.", "a, b.", "a."),
    ("a <=> a(b).", "a, b.", "a."),
    ("a <=> true. b <=> true.", "a, b.", "a."),
    ("a(X) <=> X =< 1 | Y is X, a(Y).", "a.", ""),
    ("a(a(b)) <=> true.", "a, b.", "a."),
    ("a(b(1)) <=> true.", "a, b.", "a."),
    ("a(a(1,b(X))) <=> true.", "a, b.", "a."),
    ("a(X) <=> X == a(1,a(b)) | true.", "a, b.", "a."),
    ("a(X) <=> b(X) \\== a | true.", "a, b.", "a."),
    ("a(X) <=> a(a(X,b)).", "a, b.", "a."),
];

#[test]
fn names_outside_the_table(rt: HostRuntime) {
    for (i, (program, whole, less)) in ROWS.iter().enumerate() {
        let faults = (
            fault(rt.alloc(), program, whole),
            fault(rt.alloc(), program, less),
        );
        let expected = (Some(None), Some(Some(OpenFault::UnknownName)));
        assert!(rt; faults == expected, "row {i}");
    }
}
