//! What a client has sent that no session reads.

use std::io::Read;
use std::net::Shutdown;
use std::os::unix::net::UnixStream;

/// How many bytes one call reads away.
const PART: usize = 4096;

/// How many such calls are made at most: together they read more than the system keeps for a socket by default.
const MOST_PARTS: usize = 256;

/// Takes no more from a client, and reads away what it has sent. A socket that is closed with bytes that nobody has read
/// resets its client, which is then told of a failure where it should come to the end of the replies.
pub(crate) fn discard_unread(stream: &UnixStream) {
    // Nothing can be sent from here on, so no read waits.
    if stream.shutdown(Shutdown::Read).is_err() {
        return;
    }
    let mut part = [0; PART];
    for _ in 0..MOST_PARTS {
        if !matches!((&mut &*stream).read(&mut part), Ok(1..)) {
            return;
        }
    }
}
