//! Texts of programs and of posts, each with what the reader gives.
use crate::tests::logs::full_table;
use chr_lex::fault::ReadError;
use chr_text::{read_atoms, read_program};
use chr_value::Names;
use std::alloc::{AllocError, Allocator, Global};
use std::test::Fail;

/// Texts of programs with what the reader gives: how many rules they have, or the first fault and its line. In a text
/// `~` stands for the end of a line, and `{3 ab}` for `ababab`.
const PROGRAMS: &[u8] = b"
E04 Syntax 1: p(X) <=> q(X-1).
E04 Syntax 1: a.b <=> c.
E04 Syntax 1: a ==> b, fail.
E07 TooMany 1: a,a,a,a,a,a,a <=> b.
E08 Binding 1: p(X) <=> X < Y | q.
E08 Binding 1: p(X) <=> X is 1, q(X).
E03 BadByte 2: p <=> true.~\xff~
E05 Propagation 1: a ==> b.
E05 Propagation 1: p(99999999999999999999) ==> q(Y).
E08 Binding 4: % a~% b~% c~p(X) <=> q(Y).
E06 NumberRange 1: p(9223372036854775808) <=> true.
E06 NumberRange 1: p(-9223372036854775809) <=> true.
E04 Syntax 1: p(X) <=> q(X)
E04 Syntax 1: p(X) \\ q(X) ==> r(X).
E04 Syntax 1: \\ q <=> r.
E04 Syntax 1: p \\ <=> r.
E04 Syntax 1: p \\ q \\ r <=> s.
E04 Syntax 1: <=> r.
E04 Syntax 1: p <=> .
E04 Syntax 1: p <=> | q.
E04 Syntax 1: p <=> true | .
E04 Syntax 1: p <=> true | true | q.
E04 Syntax 1: p <=> q <=> r.
E04 Syntax 1: p.
E04 Syntax 1: p() <=> q.
E04 Syntax 1: p(1,) <=> q.
E04 Syntax 1: true <=> q.
E04 Syntax 1: p, fail <=> q.
E04 Syntax 1: p <=> false.
E04 Syntax 1: p <=> q, .
E04 Syntax 1: p <=> q(1+2).
E04 Syntax 1: p(X) <=> X = 1 | q.
E04 Syntax 1: p(X) <=> X + 1 == 2 | q.
E04 Syntax 1: p(X) <=> a < X | q.
E04 Syntax 1: p(X) <=> X < 1 < 2 | q.
E04 Syntax 1: p(X) <=> true(1) | q.
E04 Syntax 1: p(X) <=> Y is (X, q(Y).
E04 Syntax 1: p(X) <=> q is X, r.
E04 Syntax 1: 1 @ p <=> q.
E04 Syntax 1: x @ y @ p <=> q.
E04 Syntax 1: 'p' <=> q.
E04 Syntax 2: p <=> q.~/* open
E04 Syntax 1: p <=> /* \xff
E04 Syntax 1: p/**/.q <=> r.
E04 Syntax 1: p <=> q./**/~
E04 Syntax 1: :- use_module(library(clp)).
E04 Syntax 1: :- use_module(library(chr)), p <=> q.
E04 Syntax 1: :- chr_constraint p.
E04 Syntax 1: :- chr_constraint p/-1.
E04 Syntax 1: :- chr_constraint.
E04 Syntax 1: :- chr_type p/1.
E04 Syntax 1: :- chr_constraint p/1,.
E06 NumberRange 1: :- chr_constraint p/9223372036854775808.
E08 Binding 1: p(_) <=> q(_).
E08 Binding 1: p(_) <=> _ < 1 | q.
E08 Binding 1: p(X) <=> Y is Y + X, q(Y).
E08 Binding 1: p(X) <=> q(Y), Y is X.
E08 Binding 1: p(X) <=> a == Y | q.
E05 Propagation 1: p(9223372036854775808) ==> q(Y).
E06 NumberRange 1: p(X) <=> X < 9223372036854775808 | q(Y).
E07 TooMany 1: a, a, a, a \\ a, a, a <=> q(Y).
E08 Binding 1: p(X) <=> X is 1, q.
ok 0:
ok 0: % nothing~/* and nothing */
ok 1: p(X) <=> Y is 3 -1, q(Y).
ok 1: p(X) <=> Y is 3 - -1, q(Y).
ok 1: p(_,_) <=> q.
ok 1: p(X) <=> _ is 1 // X, q.
ok 1: p(X) <=> X \\== 1 | q.
ok 0: :- use_module(library(chr)).~:- chr_constraint p/1, q/2.
ok 1: :-chr_constraint p / 1 , q/0.~p<=>q.
ok 0: :- chr_constraint p/9223372036854775807.
ok 1: true @ p <=> q.
ok 1: p @ p <=> q.
ok 1: p <=> true | true.
ok 1: p <=> true, true.
ok 1: p(X) <=> true, X > 1, true | true.
ok 1: p(true) <=> q(fail).
ok 1: p <=> true(1).
ok 1: p(X) <=> true == X | q.
ok 1: p(X) <=> a \\== -1 | q.
ok 1: p(X) <=> X =:= 1, X =\\= 2, X =< 3, X >= 4, X < 5, X > 6 | q.
ok 1: p(X) <=> (X) < ((X)) | q.
ok 1: p(X) <=> Y is X * 2 + 3 // X mod 4 rem 5 - 6, q(Y).
ok 1: p(X) <=> Y is X /*/ */ /* b */ + 1, q(Y).
ok 1: p(X) <=> Y is X+1,Z is Y-X, q(Z).
ok 1: p(X)<=>q(X).%end
ok 3: p <=> q.~p <=> r.~~p <=> s.
ok 1: p(a,b) \\ q(0012) <=> r.
ok 1: p(9223372036854775807, -9223372036854775808) <=> true.
ok 1: p(X) <=> Y is -1 * X, q(Y).
ok 1: p(_A, _B) <=> q(_B).
ok 1: p(_, X) <=> _ is X, q(X).
";

/// The limits, from both sides.
const LIMITS: &[u8] = b"
ok 0:{65536  }
E09 TooLong 0:{65537  }
ok 256: {256 a <=> b.~}
E07 TooMany 257: {257 a <=> b.~}
ok 256: {256 a <=> b.~}:- chr_constraint a/0.
ok 1: p <=> X is 1{15 +1}, q(X).
E04 Syntax 1: p <=> X is 1{16 +1}, q(X).
ok 1: p <=> X is 1{15 *1}, q(X).
E04 Syntax 1: p <=> X is 1{16 *1}, q(X).
E04 Syntax 1: p <=> X is 1{15 *1}+1, q(X).
ok 1: p <=> X is {15 (}1{15 )}, q(X).
E04 Syntax 1: p <=> X is {16 (}1{16 )}, q(X).
E04 Syntax 1: p <=> X is {60000 (}1, q(X).
ok 1: a{5 ,a} <=> b.
E07 TooMany 1: a{6 ,a} <=> b.
ok 1: a \\ a{4 ,a} <=> b.
E07 TooMany 1: a,a \\ a{4 ,a} <=> b.
ok 1: p(1{7 ,1}) <=> true.
E07 TooMany 1: p(1{8 ,1}) <=> true.
E07 TooMany 1: p <=> q(1{8 ,1}).
ok 1: p(X) <=> 1 < X{15 , 1 < X}, true | q.
E07 TooMany 1: p(X) <=> 1 < X{16 , 1 < X} | q.
ok 1: p <=> true{16 , q}.
E07 TooMany 1: p <=> true{17 , q}.
ok 1: p(_{7 ,_}){2 , p(_,_,_,_,_,_,_,_)} <=> q.
E07 TooMany 1: p(_{7 ,_}){2 , p(_,_,_,_,_,_,_,_)} <=> _ is 1, q.
ok 1: {64 a} @ p <=> q.
E07 TooMany 1: {65 a} @ p <=> q.
E07 TooMany 1: :- chr_constraint {65 a}/1.
ok 1: p <=> q({64 a}).
E07 TooMany 1: p <=> q({65 a}).
ok 1: p({64 X}) <=> q.
E07 TooMany 1: p({65 X}) <=> q.
";

/// Texts of programs whose terms are compound, and what the reader gives.
const TERMS: &[u8] = b"
ok 1: p(f(X,Y)) <=> q(f(Y,X)).
ok 1: n(X) <=> n(s(X)).
ok 1: p(f( X ,/* a */g(1)),h(_)) \\ q(true(fail,false)) <=> r(f(X),-1).
ok 1: p(f(_,_)) <=> q.
ok 1: p(f(X)) <=> Y is X + 1, q(g(Y)).
ok 1: p(X) <=> X \\== f | q.
ok 1: p(X) <=> f(X) == g(1,a) | q.
ok 1: p(X) <=> X == f(X,g(X)), f(1) \\== X, X > 1 | q.
ok 1: f @ f(f(f(X))) <=> f(X).
E04 Syntax 1: p(f()) <=> q.
E04 Syntax 1: p(f(1,)) <=> q.
E04 Syntax 1: p(f(,1)) <=> q.
E04 Syntax 1: p(f(1) <=> q.
E04 Syntax 1: p(f(1))) <=> q.
E04 Syntax 1: p(f(1)(2)) <=> q.
E04 Syntax 1: p(f(1)2) <=> q.
E04 Syntax 1: p(X(1)) <=> q.
E04 Syntax 1: p(1(2)) <=> q.
E04 Syntax 1: p((f(1))) <=> q.
E04 Syntax 1: p(f((1))) <=> q.
E04 Syntax 1: p(mod(1)) <=> q.
E04 Syntax 1: p(f(X+1)) <=> q.
E04 Syntax 1: p(f(g(1)) <=> q.
E04 Syntax 1: p(f(true) <=> q.
E04 Syntax 1: p(X) <=> f(X) | q.
E04 Syntax 1: p(X) <=> f(X) < 1 | q.
E04 Syntax 1: p(X) <=> 1 < f(X) | q.
E04 Syntax 1: p(X) <=> 1 < (f(X)) | q.
E04 Syntax 1: p(X) <=> (f(X)) == X | q.
E04 Syntax 1: p(X) <=> f(X) == X + 1 | q.
E04 Syntax 1: p(X) <=> f(X) == X == X | q.
E04 Syntax 1: p(X) <=> f(X) == | q.
E04 Syntax 1: p(X) <=> f(X) == X, q | r.
E04 Syntax 1: p(X) <=> Y is f(X), q(Y).
E04 Syntax 1: p(X) <=> f(X) is 1, q.
E04 Syntax 1: p(X) <=> f(X) == X.
E04 Syntax 1: f(X) == X <=> q.
E04 Syntax 1: :- chr_constraint p(1)/1.
E05 Propagation 1: p({8 s(}99999999999999999999{8 )}) ==> q(Y).
E06 NumberRange 1: p(f(9223372036854775808)) <=> true.
E06 NumberRange 1: p(X) <=> X == {8 s(}-9223372036854775809{8 )} | q(Y).
E08 Binding 1: p(X) <=> q(f(Y)).
E08 Binding 1: p(X) <=> q(f(X,g(_))).
E08 Binding 1: p(X) <=> f(X) == g(Y) | q.
E08 Binding 1: p(X) <=> g(_) \\== X | q.
E08 Binding 1: p(f(X)) <=> X is 1, q.
E08 Binding 1: p <=> q(f(X)), X is 1.
";

/// The limits of compound terms, from both sides: in heads and bodies, on both sides of `==`, and past all of them.
const TERM_LIMITS: &[u8] = b"
ok 1: p({7 s(}z{7 )}) <=> true.
E07 TooMany 1: p({8 s(}z{8 )}) <=> true.
ok 1: p({7 s(}X{7 )}) <=> q({7 s(}X{7 )}).
E07 TooMany 1: p({8 s(}X{8 )}) <=> true.
E07 TooMany 1: p(X) <=> q({8 s(}X{8 )}).
E07 TooMany 1: p <=> q(a,g(1,{7 s(}z{7 )})).
E07 TooMany 1: p <=> q({7 s(}f(1,2){7 )}).
ok 1: p(X) <=> {7 s(}X{7 )} == {7 s(}z{7 )} | q.
E07 TooMany 1: p(X) <=> {8 s(}X{8 )} == X | q.
E07 TooMany 1: p(X) <=> X \\== {8 s(}z{8 )} | q.
ok 1: p(g({7 f(1,2,3,4,5,6,7),}f(1,2,3,4,5,6))) <=> true.
E07 TooMany 1: p(g({7 f(1,2,3,4,5,6,7),}f(1,2,3,4,5,6,7))) <=> true.
ok 1: p(X) <=> q(g({7 f(X,X,X,X,X,X,X),}f(X,X,X,X,X,X))).
E07 TooMany 1: p(X) <=> q(g({7 f(X,X,X,X,X,X,X),}f(X,X,X,X,X,X,X))).
ok 1: p(X) <=> X == g({7 f(X,2,3,4,5,6,7),}f(1,2,3,4,5,6)) | q.
E07 TooMany 1: p(X) <=> X == g({7 f(X,2,3,4,5,6,7),}f(1,2,3,4,5,6,7)) | q.
E07 TooMany 1: p(X) <=> g({7 f(X,2,3,4,5,6,7),}f(1,2,3,4,5,6,7)) \\== X | q.
ok 1: p({7 g(1,2,3,4,5,6,f(1,2,3,4,5,6)),}0) <=> true.
E07 TooMany 1: p({8 g(1,2,3,4,5,6,f(1,2,3,4,5,6)),}0) <=> true.
ok 1: p(f(1{7 ,1})) <=> true.
E07 TooMany 1: p(f(1{8 ,1})) <=> true.
E07 TooMany 1: p(g(a,f(1{8 ,1}))) <=> true.
ok 1: p(X) <=> f(X{7 ,X}) == X, X \\== f(1{7 ,1}) | q(f(X{7 ,X})).
E07 TooMany 1: p(X) <=> f(X{8 ,X}) == X | q.
E07 TooMany 1: p(X) <=> X \\== g(f(1{8 ,1})) | q.
E07 TooMany 1: p(X) <=> q(f(X{8 ,X})).
ok 1: p(f(_{7 ,_}),f(_{7 ,_}),f(_{7 ,_})) <=> q.
E07 TooMany 1: p(f(_{7 ,_}),f(_{7 ,_}),f(_{7 ,_}),f(_)) <=> q.
ok 1: p({64 f}(1)) <=> q.
E07 TooMany 1: p({65 f}(1)) <=> q.
E07 TooMany 1: p(X) <=> q({8 s(}Y{8 )}).
E07 TooMany 1: p({20000 s(}z{20000 )}) <=> true.
E04 Syntax 1: p({20000 s(}z{19999 )}) <=> true.
E04 Syntax 1: p({20000 s(}{20000 )}) <=> true.
E06 NumberRange 1: p({20000 s(}99999999999999999999{20000 )}) <=> true.
E07 TooMany 1: p <=> q({20000 s(}Y{20000 )}).
E07 TooMany 1: p(X) <=> {20000 s(}X{20000 )} == X | q.
E04 Syntax 1: p(X) <=> {20000 s(}X{20000 )} < X | q.
E04 Syntax 1: p(X) <=> {20000 s(}X{20000 )} | q.
E07 TooMany 1: p(f(1{30000 ,1})) <=> true.
E04 Syntax 1: p(f(1{30000 ,1},)) <=> true.
";

/// Texts of posts with what the reader gives: how many atoms they have, or the first fault and its line.
const POSTS: &[u8] = b"
ok 0:
ok 0: % nothing~
ok 1: p(0).
ok 4: p(1,2), q(-3, a).% end~r. /* x~ */ s(true).
ok 1: p(a/* b */ , 007).
ok 1: p(-9223372036854775808).
ok 1: /*/ p. /**/ q.
E04 Syntax 1: a.b.
E04 Syntax 2: p.~q
E03 BadByte 2: p.~\xff.
E04 Syntax 2: p.~/* open
E06 NumberRange 1: p(9223372036854775808).
E06 NumberRange 1: p(X, 99999999999999999999).
E07 TooMany 1: p(X), q(1{8 ,1}).
E07 TooMany 1: p(1{8 ,1}).
E07 TooMany 1: {65 p}.
E08 Binding 3:~~p(X).
E08 Binding 1: p(_).
E04 Syntax 1: true.
E04 Syntax 1: p(3 -1).
E04 Syntax 1: a ==> b.
E04 Syntax 1: p().
ok 1: p(f(1,a)).
ok 2: p(f( g(-3) , h(true,fail)),f), q(f(f)).
ok 1: p({7 s(}z{7 )}).
E07 TooMany 1: p({8 s(}z{8 )}).
E07 TooMany 2: p(f(1)).~q(a), q({8 s(}z{8 )}).
ok 1: p(g({7 f(1,2,3,4,5,6,7),}f(1,2,3,4,5,6))).
E07 TooMany 1: p(g({7 f(1,2,3,4,5,6,7),}f(1,2,3,4,5,6,7))).
ok 1: p(f(1{7 ,1})).
E07 TooMany 1: p(f(1{8 ,1})).
E07 TooMany 1: p({65 f}(1)).
E04 Syntax 1: p(f()).
E04 Syntax 1: p(f(1).
E04 Syntax 1: p(f(1)) q.
E04 Syntax 1: p(f(1)(2)).
E06 NumberRange 1: p(f(9223372036854775808)).
E08 Binding 1: p(f(X)).
E08 Binding 1: p(f(1,g(_))).
E07 TooMany 1: p({20000 s(}z{20000 )}).
E07 TooMany 1: p({20000 s(}X{20000 )}).
E04 Syntax 1: p({20000 s(}z{19999 )}).
E06 NumberRange 1: p({20000 s(}9223372036854775808{20000 )}).
";

/// Texts over a full table, whose names are n0 to n65535: of programs, and of posts.
const FULL: [&[u8]; 2] = [
    b"
E02 NamesFull 2: n0 <=> n1.~n2 <=> new.
E02 NamesFull 2: n0 <=> n1.~n2(X) <=> n3(n4(new(X))).
E02 NamesFull 2: n0 <=> n1.~n2(X) <=> X == n3(1,new) | n4.
E02 NamesFull 1: n0(new(X)) <=> n1.
E08 Binding 1: n0 <=> new(Y).~n0 <=> new.
E07 TooMany 1: n0(new(1{8 ,1})) <=> n1.
ok 1: n0(n1) \\ n2(X) <=> X == n4 | n65535.
ok 1: n0(n1(X,n65535(2))) <=> X == n4(n5) | n6(n7(X)).
",
    b"
E02 NamesFull 2: n0, n1(n2).~n3(new).
E02 NamesFull 2: n0, n1(n2).~n3(n4(new(1))).
E02 NamesFull 1: n0(n1(n2,new)).
E08 Binding 1: new(X).~new.
E08 Binding 1: n0(new(X)).~new.
ok 2: n0(n65535), n1.
ok 1: n0(n65535(n1(n2))).
",
];

/// Each table of texts, and whether they are of posts.
static TABLES: [(bool, &[u8]); 2] = [(false, PROGRAMS), (true, POSTS)];

/// The tables of texts with compound terms.
static TABLES_OF_TERMS: [(bool, &[u8]); 2] = [(false, TERMS), (false, TERM_LIMITS)];

/// The number that the digits at the front spell.
fn times(piece: &[u8]) -> usize {
    let mut number: usize = 0;
    for b in piece {
        if !b.is_ascii_digit() {
            return number;
        }
        number = number
            .saturating_mul(10)
            .saturating_add(usize::from(b.saturating_sub(b'0')));
    }
    number
}

fn put(out: &mut Vec<u8>, text: &[u8]) -> Result<(), AllocError> {
    for b in text {
        out.push(if *b == b'~' { b'\n' } else { *b })?;
    }
    Ok(())
}

/// What stands before the first byte of this value, and what stands after it.
fn split_once(text: &[u8], byte: u8) -> Option<(&[u8], &[u8])> {
    let at = text.iter().position(|b| *b == byte)?;
    Some((&text[..at], &text[at + 1..]))
}

fn put_repeated(out: &mut Vec<u8>, piece: &[u8]) -> Result<(), AllocError> {
    if let Some((count, text)) = split_once(piece, b' ') {
        for _ in 0..times(count) {
            put(out, text)?;
        }
    }
    Ok(())
}

/// Adds the text that a row writes.
fn put_row(out: &mut Vec<u8>, row: &[u8]) -> Result<(), AllocError> {
    for piece in row.split(|b| *b == b'}') {
        match split_once(piece, b'{') {
            None => put(out, piece)?,
            Some((before, repeated)) => {
                put(out, before)?;
                put_repeated(out, repeated)?;
            }
        }
    }
    Ok(())
}

/// How many rules the reader gives over a table of names.
pub fn rules<A: Allocator + Copy>(
    alloc: A,
    text: &[u8],
    names: &mut Names<A>,
) -> Result<usize, ReadError> {
    Ok(read_program(alloc, text, names)?.len())
}

/// How many atoms the reader of posts gives over a table of names.
pub fn atoms<A: Allocator + Copy>(
    alloc: A,
    text: &[u8],
    names: &mut Names<A>,
) -> Result<usize, ReadError> {
    Ok(read_atoms(alloc, text, names)?.len())
}

fn answer(
    alloc: Global,
    names: &mut Names<Global>,
    are_posts: bool,
    text: &[u8],
) -> Result<String, AllocError> {
    let read = if are_posts {
        atoms(alloc, text, names)
    } else {
        rules(alloc, text, names)
    };
    match read {
        Ok(count) => format!(in alloc; "ok {count}"),
        Err(ReadError::Fault(fault)) => format!(in alloc; "{} {}", fault.kind, fault.line),
        Err(ReadError::Memory) => format!(in alloc; "E01"),
    }
}

/// Whether the reader gives this of a text.
fn gives(
    alloc: Global,
    names: &mut Names<Global>,
    are_posts: bool,
    text: &[u8],
    wanted: &[u8],
) -> bool {
    match answer(alloc, names, are_posts, text) {
        Ok(given) => given.as_bytes() == wanted,
        Err(_) => false,
    }
}

/// Whether the reader gives what stands in front of the row's first colon.
fn is_given(alloc: Global, names: &mut Names<Global>, are_posts: bool, row: &[u8]) -> bool {
    let Some((wanted, row)) = split_once(row, b':') else {
        return true;
    };
    let mut text = Vec::new(alloc);
    put_row(&mut text, row).is_ok() && gives(alloc, names, are_posts, &text, wanted)
}

/// The same over an empty table.
fn is_given_alone(alloc: Global, are_posts: bool, row: &[u8]) -> bool {
    let mut names = Names::new(alloc);
    is_given(alloc, &mut names, are_posts, row)
}

/// The first table, and its row, for which the reader gives something else over an empty table of names.
fn first_other_alone(alloc: Global, tables: &[(bool, &[u8])]) -> Option<(usize, usize)> {
    for (number, (are_posts, table)) in tables.iter().enumerate() {
        for (i, row) in table.split(|b| *b == b'\n').enumerate() {
            if !is_given_alone(alloc, *are_posts, row) {
                return Some((number, i));
            }
        }
    }
    None
}

#[test]
fn texts_of_programs_and_posts(rt: HostRuntime) {
    assert_eq!(rt; first_other_alone(rt.alloc(), &TABLES), None);
}

#[test]
fn texts_of_terms(rt: HostRuntime) {
    assert_eq!(rt; first_other_alone(rt.alloc(), &TABLES_OF_TERMS), None);
}

#[test]
fn texts_at_the_limits(rt: HostRuntime) {
    assert_eq!(rt; first_other_alone(rt.alloc(), &[(false, LIMITS)]), None);
}

/// The first row for which the reader gives something else.
fn first_other(
    alloc: Global,
    names: &mut Names<Global>,
    are_posts: bool,
    table: &[u8],
) -> Option<usize> {
    for (i, row) in table.split(|b| *b == b'\n').enumerate() {
        if !is_given(alloc, names, are_posts, row) {
            return Some(i);
        }
    }
    None
}

#[test]
fn texts_over_a_full_table(rt: HostRuntime) -> Result<(), Fail> {
    let mut names = full_table(rt.alloc())?;
    let of_programs = first_other(rt.alloc(), &mut names, false, FULL[0]);
    let of_posts = first_other(rt.alloc(), &mut names, true, FULL[1]);
    assert_eq!(rt; (of_programs, of_posts), (None, None));
    assert_eq!(rt; names.len(), 65_536);
    Ok(())
}
