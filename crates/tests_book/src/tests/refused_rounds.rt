//! Rounds of calls for each ticket of a worked run, with a request of each call refused.
use crate::tests::plays::{Play, Played, play_each};
use crate::tests::script::{Opening, has_lines, open};
use chr_book::Book;
use chr_calls::TicketState;
use std::alloc::Allocator;

const SEAT: u32 = 1;

/// How many tickets the run has.
const TICKETS: u64 = 7;

/// What a book is opened with, what is posted, and the lines in which all rounds end.
struct Scene {
    opening: Opening<'static>,
    posts: &'static str,
    lines: &'static str,
}

/// The same run with numbers and with compound values.
static SCENES: [Scene; 2] = [
    Scene {
        opening: Opening {
            program: "t \\ n(X) <=> r(X). r(X) <=> s(X,X).",
            names: "",
            limit: 100,
        },
        posts: "n(1), t, n(2).",
        lines: "quiet\nP 1 n(1)\nP 2 t\nP 3 n(2)\nA 1 1\nD 1\nA 2 2\nF 2 1 2\\1\nD 2\nA 3 3\nF 3 1 2\\3\nA 4 4\nF 4 2 \\4\nA 5 5\nF 5 2 \\5\nA 6 6\nD 6\nA 7 7\nD 7\n#2 t\n#6 s(1,1)\n#7 s(2,2)\n",
    },
    Scene {
        opening: Opening {
            program: "t \\ n(f(X)) <=> r(g(X)). r(g(X)) <=> s(f(X),X).",
            names: "",
            limit: 100,
        },
        posts: "n(f(h(1))), t, n(f(2)).",
        lines: "quiet\nP 1 n(f(h(1)))\nP 2 t\nP 3 n(f(2))\nA 1 1\nD 1\nA 2 2\nF 2 1 2\\1\nD 2\nA 3 3\nF 3 1 2\\3\nA 4 4\nF 4 2 \\4\nA 5 5\nF 5 2 \\5\nA 6 6\nD 6\nA 7 7\nD 7\n#2 t\n#6 s(f(h(1)),h(1))\n#7 s(f(2),2)\n",
    },
];

/// Makes rounds for a ticket in this state. Whether that fails.
fn fails<A: Allocator + Copy>(book: &mut Book<A>, ticket: u64, state: TicketState) -> bool {
    if state == TicketState::Waiting {
        book.start(SEAT, ticket, 9).is_err()
    } else {
        book.go_on(SEAT, ticket, 9).is_err()
    }
}

/// Makes rounds for a ticket to its end, each call with a request refused, and again where it was. Whether one was. None where
/// a call doesn't fail exactly then, or where the ticket doesn't end.
fn take<A: Allocator + Copy>(book: &mut Book<A>, play: &Play<A>, ticket: u64) -> Option<bool> {
    let mut any = false;
    let mut refuses = true;
    for _ in 0..20u8 {
        let state = book.state(ticket);
        if state == TicketState::Ended {
            return Some(any);
        }
        play.memory.refuse(if refuses { play.n } else { 0 });
        let refused = play.memory.is_refused(fails(book, ticket, state))?;
        any = any || refused;
        refuses = !refused;
    }
    None
}

/// The same for all tickets after the posts. None where the book doesn't end in the lines either.
fn play_on<A: Allocator + Copy>(book: &mut Book<A>, play: &Play<A>, scene: &Scene) -> Option<bool> {
    if book.post_text(SEAT, scene.posts.as_bytes()).is_err() {
        return None;
    }
    let mut any = false;
    for ticket in 1..TICKETS + 1 {
        any = take(book, play, ticket)? || any;
    }
    has_lines(play.texts, book, scene.lines.as_bytes()).then_some(any)
}

impl Played for Scene {
    fn is_refused<A: Allocator + Copy>(&self, play: &Play<A>) -> Option<bool> {
        let mut book = open(play.alloc, self.opening)?;
        play_on(&mut book, play, self)
    }
}

#[test]
fn each_request_of_a_round_is_refused(rt: HostRuntime) {
    for scene in &SCENES {
        let (is_right, n) = play_each(rt.alloc(), scene);
        assert!(rt; is_right, "request {n} of {}", scene.posts);
    }
}
