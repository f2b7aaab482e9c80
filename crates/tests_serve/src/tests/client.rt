//! Servers in a process of their clients, and these clients.
ghost use Rattle.std.specs.Prelude.{◌≤◌};
ghost use denote.Param.Send.{IsSend, IsSync, Frees};

use chr_check::Verdict;
use chr_check_text::check_text;
use chr_serve::{Listener, Ready, ServerFault, serve_on};
use std::alloc::{AllocError, AllocGlobal, Allocator, Global};
use std::fs::Files;
use std::io::{self, BufRead, BufReader, ErrorKind, Write};
use std::net::Net;
use std::os::unix::net::{SocketAddr, UnixListener, UnixStream};
use std::rt::Clock;
use std::sync::Wait;
use std::sync::atomic::{AtomicU64, Ordering};
use std::thread;
use std::thread::Threads;

/// Two rules, of 75 bytes.
const GCD: &str = "gcd(0) <=> true.\ngcd(N) \\ gcd(M) <=> 0 < N, N =< M | L is M mod N, gcd(L).\n";

/// The command that loads them.
pub const LOAD: &str =
    "load 75\ngcd(0) <=> true.\ngcd(N) \\ gcd(M) <=> 0 < N, N =< M | L is M mod N, gcd(L).\n";

/// Rules over the numbers of constraints, and how these are written.
#[derive(Clone, Copy)]
pub struct Rules {
    program: &'static str,
    /// The command that loads them.
    pub load: &'static str,
    /// What stands before a number and after it.
    around: (&'static str, &'static str),
}

/// The two rules.
pub const NUMBERS: Rules = Rules {
    program: GCD,
    load: LOAD,
    around: ("gcd(", ")"),
};

/// The same with compound values.
pub const COMPOUND: Rules = Rules {
    program: "gcd(f(0)) <=> true.\ngcd(f(N)) \\ gcd(f(M)) <=> 0 < N, N =< M | L is M mod N, gcd(f(L)).\n",
    load: "load 87\ngcd(f(0)) <=> true.\ngcd(f(N)) \\ gcd(f(M)) <=> 0 < N, N =< M | L is M mod N, gcd(f(L)).\n",
    around: ("gcd(f(", "))"),
};

/// Whether the check finds in a log and a store a run to its end.
fn is_run_and_final(alloc: Global, program: &[u8], log: &[u8], store: &[u8]) -> bool {
    match check_text(alloc, program, log, store) {
        Ok(checked) => checked.answer == Ok(Verdict::RunAndFinal),
        Err(_) => false,
    }
}

impl Rules {
    /// The command that posts two numbers, and one that reads the log.
    pub fn post_and_log(self, alloc: Global, numbers: (u64, u64)) -> Result<String, AllocError> {
        let (one, other) = numbers;
        let (before, after) = self.around;
        format!(in alloc; "post {before}{one}{after}, {before}{other}{after}.\nlog 1\n")
    }

    /// Whether a log has the posts of two numbers under this ticket and the next, one after the other.
    fn has_posts(self, alloc: Global, log: &str, ticket: u64, numbers: (u64, u64)) -> bool {
        let next = ticket.wrapping_add(1);
        let (one, other) = numbers;
        let (before, after) = self.around;
        has_part(
            log,
            format!(in alloc;
                "\nP {ticket} {before}{one}{after}\nP {next} {before}{other}{after}\n"
            ),
        )
    }

    /// Whether a store's reply has one constraint, of this number.
    fn is_alone(self, alloc: Global, store: &str, number: u64) -> bool {
        let (before, after) = self.around;
        match format!(in alloc; " {before}{number}{after}\n") {
            Ok(atom) => store.starts_with("store 1\n#") && store.ends_with(atom.as_str()),
            Err(_) => false,
        }
    }

    /// The same of the replies to `log 1` and to `store`.
    fn have_run(self, alloc: Global, log: &str, store: &str) -> Option<bool> {
        let (_, store) = store.split_once('\n')?;
        let (_, lines) = log.split_once('\n')?;
        let log = format!(in alloc; "chr-log 2\n{lines}").ok()?;
        let program = self.program.as_bytes();
        Some(is_run_and_final(alloc, program, log.as_bytes(), store.as_bytes()))
    }
}

/// Whether a text has a part that is made with memory.
pub fn has_part(text: &str, wanted: Result<String, AllocError>) -> bool {
    match wanted {
        Ok(wanted) => text.contains(wanted.as_str()),
        Err(_) => false,
    }
}

/// The first ticket that the reply to a post of two numbers names.
fn first_ticket(posted: &str) -> Option<u64> {
    let ticket = posted
        .trim_end()
        .strip_prefix("posted ")?
        .strip_suffix(" 2")?;
    ticket.parse::<u64>().ok()
}

/// A listener at an address that the system picks, and this address.
pub fn listen<R: Files + Net>(rt: &R) -> io::Result<(UnixListener, SocketAddr)> {
    let listener = UnixListener::bind(rt, "")?;
    let address = listener.local_addr()?;
    Ok((listener, address))
}

/// Whom it makes no difference when a server can serve.
#[derive(Clone, Copy)]
pub struct Anybody {
    pub workers: usize,
}

impl Ready for Anybody {
    ghost expected = { λ anybody. anybody.workers };

    fn tell(&self, _workers: usize) {}
}

/// What clients find beside a server that takes so many connections. None where it ends with a fault.
pub fn found_beside<
    R: Threads + Wait + Clock + Sync + AllocGlobal,
    A: Allocator + Copy + Send + Sync,
    T: Drop,
    F: FnOnce() -> T,
>(rt: &R, alloc: A, listener: &UnixListener, workers: usize, sessions: u32, talk: F) -> Option<T>
    requires workers { (1 ≤ workers) × (workers ≤ 16) }
    requires talk { F.pre talk }
{
    let serve = || -> bool
        requires { IsSync R.row × IsSend A.row × IsSync A.row × Frees A.Allocator A.dealloc_token × (1 ≤ workers) × (workers ≤ 16) }
    {
        serve_on(
            rt,
            alloc,
            rt.alloc(),
            listener,
            &Anybody { workers },
            workers,
            Some(sessions),
        )
        .is_ok()
    };
    let (ended, found) = thread::join(rt, serve, talk);
    ended.then_some(found)
}

/// A listener that fails for good once it is told to.
#[derive(Drop)]
struct Closable<'l> {
    listener: &'l UnixListener,
    /// 1 once it is told to.
    closed: &'l AtomicU64,
}

impl Listener for Closable<'_> {
    fn next_connection(&self) -> io::Result<UnixStream> {
        if self.closed.load(Ordering::SeqCst) == 0 {
            let stream = self.listener.next_connection()?;
            if self.closed.load(Ordering::SeqCst) == 0 {
                return Ok(stream);
            }
        }
        Err(ErrorKind::Other.into())
    }
}

/// What clients find beside a server that takes connections until they are done. None where it ends otherwise.
pub fn found_until<
    R: Files + Net + Threads + Wait + Clock + Sync + AllocGlobal,
    T: Drop,
    F: FnOnce(&SocketAddr) -> T,
>(rt: &R, workers: usize, talk: F) -> Option<T>
    requires workers { (1 ≤ workers) × (workers ≤ 16) }
    requires talk { F.IsAlwaysCallable talk }
{
    let (listener, address) = listen(rt).ok()?;
    let listener = &listener;
    let address = &address;
    let flag = AtomicU64::new(0);
    let closed = &flag;
    let serve = || -> bool
        requires { IsSync R.row × (1 ≤ workers) × (workers ≤ 16) }
    {
        let closable = Closable { listener, closed };
        let alloc = rt.alloc();
        let ended = serve_on(
            rt,
            alloc,
            alloc,
            &closable,
            &Anybody { workers },
            workers,
            None,
        );
        matches!(ended, Err(ServerFault::Listener(_)))
    };
    let talk_and_close = || {
        let found = talk(address);
        closed.store(1, Ordering::SeqCst);
        // A server that waits for a connection gets one, and finds that the listener is closed.
        let _ = UnixStream::connect_addr(rt, address);
        found
    };
    let (ended, found) = thread::join(rt, serve, talk_and_close);
    ended.then_some(found)
}

/// What clients find who are told the address of such a server.
pub fn found_at<
    R: Files + Net + Threads + Wait + Clock + Sync + AllocGlobal,
    T: Drop,
    F: FnOnce(&SocketAddr) -> T,
>(rt: &R, workers: usize, sessions: u32, talk: F) -> Option<T>
    requires workers { (1 ≤ workers) × (workers ≤ 16) }
    requires talk { F.IsAlwaysCallable talk }
{
    let (listener, address) = listen(rt).ok()?;
    found_beside(
        rt,
        rt.alloc(),
        &listener,
        workers,
        sessions,
        || talk(&address),
    )
}

/// How many lines follow the first line of a reply.
fn lines_after(first: &str) -> usize {
    let count = first
        .strip_prefix("store ")
        .or_else(|| first.strip_prefix("log "));
    match count {
        Some(count) => count.trim().parse::<usize>().unwrap_or(0),
        None => 0,
    }
}

/// Adds a client. Whether there is one.
pub fn is_added(clients: &mut Vec<Client>, client: Option<Client>) -> bool {
    match client {
        Some(client) => clients.push(client).is_ok(),
        None => false,
    }
}

/// Whether so many new clients connect. They are added.
pub fn connect_all<R: Net + AllocGlobal>(
    rt: &R,
    address: &SocketAddr,
    count: usize,
    clients: &mut Vec<Client>,
) -> bool {
    for _ in 0..count {
        if !is_added(clients, Client::connect(rt, address)) {
            return false;
        }
    }
    true
}

/// What a client tells, and the reply: none is told where the first is empty, and the end comes where the second is.
pub type Row<'t> = (&'t str, &'t str);

/// What a client is told where there is no seat.
pub static NO_SEAT: [Row; 2] = [("", "fault E18 NoSeat\n"), ("", "")];

/// Whether a new client is told the replies of these rows. It goes away then.
pub fn plays<R: Net + AllocGlobal>(rt: &R, address: &SocketAddr, rows: &[Row]) -> bool {
    match Client::connect(rt, address) {
        Some(mut client) => client.plays(rows),
        None => false,
    }
}

/// A client of a server, and the reply that it has read last.
pub struct Client {
    pub alloc: Global,
    reader: BufReader<UnixStream, Global>,
    reply: String,
}

impl Drop for Client {
    fn drop(self) {
        let Self {
            alloc: _,
            reader: _,
            reply: _,
        } = self;
    }
}

impl Client {
    /// A client over a connection.
    pub fn over(alloc: Global, stream: UnixStream) -> Option<Client> {
        let reader = BufReader::new(alloc, stream).ok()?;
        let reply = String::new(alloc);
        Some(Client {
            alloc,
            reader,
            reply,
        })
    }

    /// A new connection.
    pub fn connect<R: Net + AllocGlobal>(rt: &R, address: &SocketAddr) -> Option<Client> {
        match UnixStream::connect_addr(rt, address) {
            Ok(stream) => Client::over(rt.alloc(), stream),
            Err(_) => None,
        }
    }

    /// A new connection that has told this.
    pub fn that_tells<R: Net + AllocGlobal>(
        rt: &R,
        address: &SocketAddr,
        told: &str,
    ) -> Option<Client> {
        match Client::connect(rt, address) {
            Some(mut client) => client.tell(told).then_some(client),
            None => None,
        }
    }

    /// A new connection to a server that may not listen yet. It is tried until it does.
    pub fn connect_at<R: Net + AllocGlobal>(rt: &R, path: &str) -> Option<Client> {
        for _ in 0..u64::MAX {
            if let Ok(stream) = UnixStream::connect(rt, path) {
                return Client::over(rt.alloc(), stream);
            }
            thread::yield_now();
        }
        None
    }

    /// Sends bytes. Whether all were taken.
    pub fn tell(&mut self, told: &str) -> bool {
        self.reader.get_mut().write_all(told.as_bytes()).is_ok()
    }

    /// The next reply, or nothing at the end.
    pub fn reply(&mut self) -> io::Result<&str> {
        self.reply.clear();
        self.reader.read_line(&mut self.reply)?;
        for _ in 0..lines_after(self.reply.as_str()) {
            self.reader.read_line(&mut self.reply)?;
        }
        Ok(self.reply.as_str())
    }

    /// Whether the next reply is this, or the end where it is nothing.
    fn is_told(&mut self, reply: &str) -> bool {
        match self.reply() {
            Ok(told) => told == reply,
            Err(_) => false,
        }
    }

    /// Whether the reply to a command is this.
    pub fn replies(&mut self, told: &str, reply: &str) -> bool {
        self.tell(told) && self.is_told(reply)
    }

    /// Whether it is told the replies of these rows.
    pub fn plays(&mut self, rows: &[Row]) -> bool {
        for (told, reply) in rows {
            if !self.replies(told, reply) {
                return false;
            }
        }
        true
    }

    /// Whether its session ends when it says so.
    pub fn takes_leave(&mut self) -> bool {
        self.plays(&[("quit\n", "bye\n"), ("", "")])
    }

    /// Waits until no ticket is open. Whether each wait before was answered `open`.
    pub fn becomes_quiet(&mut self) -> bool {
        for _ in 0..u64::MAX {
            if !self.tell("wait 1000000\n") {
                return false;
            }
            match self.reply() {
                Ok("quiet\n") => return true,
                Ok("open\n") => {}
                _ => return false,
            }
        }
        false
    }

    /// Whether the replies to a post of two numbers and to `log 1` name tickets under which the log has them.
    pub fn finds_posts(&mut self, rules: Rules, numbers: (u64, u64)) -> bool {
        let alloc = self.alloc;
        let ticket = match self.reply() {
            Ok(posted) => first_ticket(posted),
            Err(_) => None,
        };
        match (ticket, self.reply()) {
            (Some(ticket), Ok(log)) => rules.has_posts(alloc, log, ticket, numbers),
            _ => false,
        }
    }

    /// Adds the reply to `store` to a text. Whether it could.
    fn reads_store(&mut self, store: &mut String) -> bool {
        self.tell("store\n")
            && match self.reply() {
                Ok(reply) => store.push_str(reply).is_ok(),
                Err(_) => false,
            }
    }

    /// Whether the whole log is that of a run to its end which leaves this store.
    fn has_run(&mut self, rules: Rules, store: &str) -> bool {
        let alloc = self.alloc;
        self.tell("log 1\n")
            && match self.reply() {
                Ok(log) => rules.have_run(alloc, log, store) == Some(true),
                Err(_) => false,
            }
    }

    /// Whether the log is that of a run to its end, and the store has one constraint, of this number.
    pub fn ends_with(&mut self, rules: Rules, number: u64) -> bool {
        let mut store = String::new(self.alloc);
        self.reads_store(&mut store)
            && rules.is_alone(self.alloc, store.as_str(), number)
            && self.has_run(rules, store.as_str())
    }
}
