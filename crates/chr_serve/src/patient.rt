//! How long a client is waited for.

use chr_shared_desk::Patience;
use std::io::Write;
use std::os::unix::net::UnixStream;

/// Lasts while the other end of a connection is open.
#[derive(Drop)]
pub struct WhileConnected<'a> {
    pub stream: &'a UnixStream,
}

impl Patience for WhileConnected<'_> {
    fn goes_on(&mut self) -> bool {
        // The system refuses even a write of no bytes once the other end is closed. A client that only sends no more is
        // still told of.
        let mut stream = self.stream;
        stream.write(&[]).is_ok()
    }
}
