//! `chr session`.
ghost use Rattle.std.specs.Prelude.{◌≡◌, ◌≢◌, ◌⊎◌, ℕ, List, None, Ok, IfOk};
ghost use Rattle.chr_commands.specs.Sessions.{IsServedAlone};

use crate::ending::Status;
use crate::message::Detail;
use crate::report::{report_failure, report_no_memory};
use chr_session::{Ended, ServeFault, Sink, Source, Stream, serve};
use chr_solo::SoloDesk;
use std::alloc::Allocator;
use std::io::{self, Read, Write};

/// A reader or a writer that keeps the error of its last failure.
#[derive(Drop)]
struct Remembering<T> {
    inner: T,
    /// Before a failure it says that more bytes came than may pass, which is the one failure of the streams' own.
    error: io::Error,
}

impl<T> Remembering<T> {
    fn new(inner: T) -> Remembering<T> {
        Remembering {
            inner,
            error: io::ErrorKind::FileTooLarge.into(),
        }
    }
}

impl<R: Read> Read for Remembering<R> {
    ghost remaining = { λ r. R.remaining r.inner };

    fn read(&mut self, buf: &mut [u8]) -> io::Result<usize> {
        match self.inner.read(buf) {
            Ok(n) => Ok(n),
            Err(error) => {
                let kind = error.kind();
                self.error = error;
                Err(kind.into())
            }
        }
    }
}

impl<W: Write> Write for Remembering<W> {
    ghost contents = { λ w. W.contents w.inner };

    fn write(&mut self, buf: &[u8]) -> io::Result<usize> {
        match self.inner.write(buf) {
            Ok(0) => {
                self.error = io::ErrorKind::WriteZero.into();
                Ok(0)
            }
            Ok(n) => Ok(n),
            Err(error) => {
                let kind = error.kind();
                self.error = error;
                Err(kind.into())
            }
        }
    }

    fn flush(&mut self) -> io::Result<()> {
        self.inner.flush()
    }
}

/// Serves a session with a desk of its own, which gives no label above `labels`.
#[tactic(auto, using(crate::proofs::Alone::served_alone))]
fn serve_alone<S: Source, W: Sink, A: Allocator + Copy>(
    alloc: A,
    labels: u32,
    source: &mut S,
    sink: &mut W,
) -> Result<Ended, ServeFault>
    ensures { IfOk result (λ how. (input : List ℕ) → S.left source.old input → IsServedAlone labels (W.taken sink.old) (W.taken sink.new) how input) }
{
    let mut desk = SoloDesk::new(alloc, u64::from(labels));
    serve(alloc, source, sink, &mut desk)
}

/// Writes to standard error why a session could not be served to its end.
fn report_end<R: Read, W: Write>(
    rt: &impl Eprint,
    detail: Detail,
    source: &Stream<Remembering<R>>,
    sink: &Stream<Remembering<W>>,
    ended: Result<Ended, ServeFault>,
) -> Status
    ensures done { result ≡ Status.Done → (ended ≡ Ok Ended.Quit) ⊎ (ended ≡ Ok Ended.End) }
    ensures cut { result ≡ Status.Fault → ended ≡ Ok Ended.Cut }
    ensures closed { result ≢ Status.Open }
{
    match ended {
        Ok(Ended::Quit | Ended::End) => Status::Done,
        Ok(Ended::Cut) => Status::Fault,
        Err(ServeFault::NoMemory) => report_no_memory(rt, detail),
        Err(ServeFault::Device) if source.failures > 0 => {
            report_failure(rt, detail, "standard input", &source.inner.error)
        }
        Err(ServeFault::Device) => {
            report_failure(rt, detail, "standard output", &sink.inner.error)
        }
    }
}

/// Serves a session over a reader and a writer, with a desk of its own, which gives no label above `labels`. Writes to
/// standard error why it could not be served to its end, where the reader stands for standard input and the writer for
/// standard output.
pub fn serve_streams<E: Eprint + AllocGlobal, R: Read + Drop, W: Write + Drop>(
    rt: &E,
    detail: Detail,
    labels: u32,
    reader: R,
    writer: W,
) -> Status {
    let mut source = Stream::new(Remembering::new(reader));
    let mut sink = Stream::new(Remembering::new(writer));
    let ended = serve_alone(rt.alloc(), labels, &mut source, &mut sink);
    report_end(rt, detail, &source, &sink, ended)
}

/// Serves a session over standard input and standard output, which gives no label above `labels`. Neither has a buffer: a
/// reply is out before the next line is read.
pub fn session<R: Input + Print + Eprint + AllocGlobal>(
    rt: &R,
    detail: Detail,
    labels: u32,
) -> Status {
    serve_streams(rt, detail, labels, rt.reader(), io::writer(rt))
}
