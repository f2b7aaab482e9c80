//! A pool with more room than there is memory.
use chr_pool::{Numbered, make};
use std::test::*;

/// A task of 64 KiB: 2^32 of them are more than an address can reach.
#[derive(Drop)]
struct Large {
    number: u64,
    rest: [u64; 8191],
}

impl Numbered for Large {
    ghost number = { λ task. task.number };

    fn number(&self) -> u64 {
        self.number
    }
}

#[test]
fn too_much_room_is_refused(rt: HostRuntime) {
    for hands in [1, 16] {
        assert!(rt; make::<Large>(rt.alloc(), hands, 1, 4_294_967_295).is_err());
        assert!(rt; make::<Large>(rt.alloc(), hands, 1, 0).is_ok());
    }
}
