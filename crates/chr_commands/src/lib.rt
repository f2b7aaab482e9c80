//! What the commands of `chr` do, but for its server: they read files or standard input, call the layers below, and print.
//!
//! [`run`](run::run) runs rules on posts, [`check`](check::check) checks the log of a run,
//! [`explain`](explain::explain) tells how a constraint of a log came to be, [`picture`](picture::picture) draws a log, and
//! [`session`](session::session) serves a session over standard input and output. Each is the whole of its command: it takes
//! what the command line asks for, writes its result to standard output and what is wrong to standard error, and returns the
//! [`Status`] that the program ends with. What they run on is a bound, as `Files`, `Print` or `Clock`, so that tests can give
//! one that fails.
//!
//! A command is safe and returns, whatever the files and the streams hold. Besides it promises:
//!
//! - What its status says, by the bytes that it read: 0 where the run ended with no open goal, the explanation or the
//!   picture that was asked for was made, the check that was made said yes, or the session ended between commands; 3 where
//!   the run ended with open goals; 1 where a text has a fault or the log is refused. A status of 2 or 5 may come at any
//!   time: a file, a stream or memory failed.
//! - What is read of a file: its bytes up to its text's limit and one, which shows a text that is too long ([`files`]).
//! - That paths, posts and parts of a log are taken in order, and which part has a line ([`parts`]).
//! - That a run prints, and writes to each file, the texts that its book has. It makes all of them before it writes any
//!   ([`run`]). It refuses two outputs that lead to one file ([`outputs`]).
//!
//! That files are written all or none ([`writing`]) is tested, since no clause says what a file holds. That the bytes that
//! were read are what a run, a check, an explanation, a picture or a session has is proved below, in `chr_run_text`,
//! `chr_check_text`, `chr_explain`, `chr_picture` and `chr_session`. Nothing but a fault goes to standard error, unless that
//! is a terminal ([`Detail`]): then each fault is followed by what it means and where it is ([`message`]), and long work
//! tells each second how far it is ([`progress`]). Paths and words stand there as [`Masked`] shows them.
//!
//! The rest of the program ends by the same words: [`Status`], [`report_failure`], [`report_no_memory`], [`report_words`]
//! and [`print_usage`].
#![tactic(auto)]

pub mod check;
pub mod ending;
pub mod explain;
pub mod files;
pub mod message;
pub mod outputs;
pub mod parts;
pub mod picture;
pub mod progress;
mod refused;
mod report;
pub mod run;
pub mod session;
mod task;
mod words;
pub mod writing;

pub use chr_command_line::Masked;
pub use ending::Status;
pub use message::Detail;
pub use outputs::Node;
pub use report::{print_usage, report_failure, report_no_memory, report_words};
