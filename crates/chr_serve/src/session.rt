//! A session of a place.
ghost use Rattle.std.specs.Prelude.{◌≡◌, ℕ, List, IfOk, OnErr, IsErrOf};
ghost use Rattle.chr_pool.specs.Inlets.{inlet_id};
ghost use Rattle.chr_session.specs.Sessions.{Served, Broken};
ghost use Rattle.chr_serve.specs.Sessions.{SharedStep};

use crate::patient::WhileConnected;
use crate::unread::discard_unread;
use chr_crew::Place;
use chr_pool::Inlet;
use chr_seats::{PostLedger, Seat};
use chr_session::{Ended, Failed, Rooms, ServeFault, Sink, Source, Stream, serve, serve_in};
use chr_shared::Shared;
use chr_shared_desk::{LentDesk, Patience, SharedDesk};
use std::alloc::Allocator;
use std::os::unix::net::UnixStream;
use std::sync::Wait;
use std::sync::ledger::Ledger;

/// Serves a session by the seat and the inlet of a place, and gives them back. E25 and E01 come as in
/// [`serve`](chr_session::serve).
pub fn serve_at<S: Source, W: Sink, R: Wait, L1: PostLedger, L2: Ledger, A: Allocator + Copy>(
    rt: &R,
    alloc: A,
    shared: &Shared<L1, L2, A>,
    place: Place<L1, L2>,
    reader: &mut S,
    writer: &mut W,
) -> (Place<L1, L2>, Result<Ended, ServeFault>)
    ensures served { IfOk result.1 (λ how. (input : List ℕ) → S.left reader.old input →
        Served SharedStep (place.seat, inlet_id place.inlet) (result.0.seat, inlet_id result.0.inlet) (W.taken writer.old) (W.taken writer.new) how input) }
    ensures broken { IsErrOf result.1 ServeFault.Device → (input : List ℕ) → S.left reader.old input →
        Broken SharedStep (place.seat, inlet_id place.inlet) (result.0.seat, inlet_id result.0.inlet) (W.taken writer.old) (W.taken writer.new) input }
    ensures memory { IsErrOf result.1 ServeFault.NoMemory → (reader.new ≡ reader.old) × (writer.new ≡ writer.old)
        × (result.0.seat ≡ place.seat) × (inlet_id result.0.inlet ≡ inlet_id place.inlet) }
{
    let Place { seat, inlet } = place;
    let mut desk = SharedDesk::new(rt, alloc, shared, seat, inlet);
    let ended = serve(alloc, reader, writer, &mut desk);
    let (seat, inlet) = desk.end();
    (Place { seat, inlet }, ended)
}

/// Serves a session by a desk whose seat and inlet are lent to it, in memory that was taken before. An `Err` is E25, as in
/// [`serve_in`].
pub fn serve_lent<
    S: Source,
    W: Sink,
    R: Wait,
    L1: PostLedger,
    L2: Ledger,
    A: Allocator + Copy,
    P: Patience + Drop,
>(
    rooms: &mut Rooms<A>,
    desk: &mut LentDesk<'_, R, L1, L2, A, P>,
    reader: &mut S,
    writer: &mut W,
) -> Result<Ended, Failed>
    ensures served { IfOk result (λ how. (input : List ℕ) → S.left reader.old input →
        Served SharedStep (desk.old.seat.now, inlet_id desk.old.inlet.now) (desk.new.seat.now, inlet_id desk.new.inlet.now) (W.taken writer.old) (W.taken writer.new) how input) }
    ensures broken { OnErr result ((input : List ℕ) → S.left reader.old input →
        Broken SharedStep (desk.old.seat.now, inlet_id desk.old.inlet.now) (desk.new.seat.now, inlet_id desk.new.inlet.now) (W.taken writer.old) (W.taken writer.new) input) }
{
    serve_in(rooms, reader, writer, desk)
}

/// Serves a connection by a seat and an inlet. A `wait` ends soon after its client has gone. What a client has sent behind
/// the end of its session is read away.
pub(crate) fn serve_stream<R: Wait, L1: PostLedger, L2: Ledger, A: Allocator + Copy>(
    rt: &R,
    alloc: A,
    shared: &Shared<L1, L2, A>,
    seat: &mut Seat<L1, L2>,
    inlet: &mut Inlet<u64>,
    rooms: &mut Rooms<A>,
    stream: &UnixStream,
) {
    let mut reader = Stream::new(stream);
    let mut writer = Stream::new(stream);
    let mut desk = LentDesk {
        rt,
        alloc,
        shared,
        seat,
        inlet,
        patience: WhileConnected { stream },
        looks: 0,
    };
    // Where the connection failed, its client has gone.
    let _ = serve_lent(rooms, &mut desk, &mut reader, &mut writer);
    discard_unread(stream);
}
