//! Bytes that are added where there is room for them.
ghost use Rattle.std.specs.Prelude.{◌≡◌, ◌+◌, ◌<◌, ◌≤◌, ◌++◌, ◌∷◌, [], length, vec_capacity, vec_len};

use std::alloc::Allocator;

/// Adds a byte for which there is room.
pub fn push<A: Allocator>(out: &mut Vec<u8, A>, byte: u8)
    requires { vec_len out.old < vec_capacity out.old }
    ensures items { out.new.items ≡ out.old.items ++ byte ∷ [] }
    ensures room { vec_capacity out.old ≤ vec_capacity out.new }
{
    if out.push(byte).is_err() {
        unreachable!();
    }
}

/// Adds bytes for which there is room.
pub fn append<A: Allocator>(out: &mut Vec<u8, A>, bytes: &[u8])
    requires { vec_len out.old + length bytes.now ≤ vec_capacity out.old }
    ensures items { out.new.items ≡ out.old.items ++ bytes.now }
    ensures len { vec_len out.new ≡ vec_len out.old + length bytes.now }
    ensures room { vec_capacity out.old ≤ vec_capacity out.new }
{
    if out.extend_from_slice(bytes).is_err() {
        unreachable!();
    }
}
