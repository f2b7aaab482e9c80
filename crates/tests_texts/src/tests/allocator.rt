//! The allocator itself: which request it refuses.
use refusing::Refusing;
use std::test::Fail;

#[test]
fn the_named_request_is_refused(rt: HostRuntime) -> Result<(), Fail> {
    let memory = Refusing::new(rt.alloc(), 2);
    let mut first = Vec::new(&memory);
    first.push(1u64)?;
    assert_eq!(rt; (memory.requests(), memory.was_refused()), (1, false));
    let mut second = Vec::new(&memory);
    assert!(rt; second.push(2u64).is_err());
    assert_eq!(rt; (memory.requests(), memory.was_refused()), (2, true));
    memory.refuse(2);
    assert!(rt; !memory.was_refused());
    second.push(2u64)?;
    let mut third = Vec::new(&memory);
    assert!(rt; third.push(3u64).is_err());
    memory.refuse(0);
    third.push(3u64)?;
    assert!(rt; !memory.was_refused());
    Ok(())
}
