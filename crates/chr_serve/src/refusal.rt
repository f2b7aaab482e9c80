//! What a connection is told that finds no seat.
ghost use Rattle.std.specs.Prelude.{◌≡◌, OnOk};
ghost use Rattle.std.specs.Io.KnownBytes.{Appends};
ghost use Rattle.chr_serve.specs.Refusals.{no_seat_line};

use std::io::{self, Write};

/// The line of E18.
const NO_SEAT: &[u8] = b"fault E18 NoSeat\n";

/// Writes that all seats are out (E18). On an `Err` only a beginning of the line may be written.
pub fn refuse<W: Write>(writer: &mut W) -> io::Result<()>
    ensures { OnOk result (Appends (W.contents writer.old) (W.contents writer.new) no_seat_line) }
{
    writer.write_all(NO_SEAT)
}
