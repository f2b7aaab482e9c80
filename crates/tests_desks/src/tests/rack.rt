//! The rack of places of sessions.
use crate::tests::hall::{Hall, Visit, visited};
use chr_crew::Rack;
use chr_seats::PostLedger;
use std::alloc::Global;
use std::sync::Wait;
use std::sync::ledger::Ledger;
use std::test::*;

/// Takes sixteen places of a rack, and gives one of them back. Whether it lends these, and no seventeenth.
fn lends_sixteen<L1: PostLedger, L2: Ledger, R: Wait>(
    rt: &R,
    alloc: Global,
    rack: &Rack<L1, L2, Global>,
) -> bool {
    let mut places = Vec::new(alloc);
    for _ in 0..16 {
        let Ok(place) = rack.take(rt) else {
            return false;
        };
        if places.push(place).is_err() {
            return false;
        }
    }
    let none_is_left = rack.take(rt).is_err();
    if let Some(place) = places.pop() {
        rack.give_back(rt, place);
    }
    none_is_left
}

/// A rack that lends sixteen places, no seventeenth, and one that came back once more.
#[derive(Drop)]
struct Sixteen;

impl Visit<Global> for Sixteen {
    type Seen = bool;

    fn visit<L1: PostLedger, L2: Ledger, R: Wait>(
        &self,
        rt: &R,
        hall: &mut Hall<L1, L2, Global>,
    ) -> Option<bool> {
        let lends = lends_sixteen(rt, hall.alloc, &hall.rack);
        Some(lends && hall.rack.take(rt).is_ok() && hall.rack.take(rt).is_err())
    }
}

#[test]
fn a_seventeenth_place_is_refused(rt: HostRuntime) {
    assert_eq!(rt; visited(&rt, rt.alloc(), rt.alloc(), &Sixteen), Some(true));
}
