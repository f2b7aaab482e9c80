//! Where connections come from.

use std::io;
use std::os::unix::net::{UnixListener, UnixStream};

/// Where connections come from.
pub trait Listener {
    /// Waits for the next connection.
    fn next_connection(&self) -> io::Result<UnixStream>;
}

impl Listener for UnixListener {
    fn next_connection(&self) -> io::Result<UnixStream> {
        let (stream, _) = self.accept()?;
        Ok(stream)
    }
}
