// Packets that are held until their rounds are applied.
use spec_barrier::Barrier;
use std::test::*;

#[test]
fn packets_leave_with_their_round_and_in_order(rt: HostRuntime) -> Result<(), Fail> {
    let alloc = rt.alloc();
    let mut barrier = Barrier::new(alloc);
    assert_eq!(rt; barrier.applied(), 0);
    barrier.hold(1, vec![in alloc; 20, 21]?)?;
    barrier.hold(0, vec![in alloc; 10]?)?;
    barrier.hold(1, vec![in alloc; 22]?)?;
    barrier.advance();
    barrier.advance();
    assert_eq!(rt; barrier.applied(), 2);
    let first = barrier.release(0);
    assert_eq!(rt; first.as_slice(), [10].as_slice());
    let second = barrier.release(1);
    assert_eq!(rt; second.as_slice(), [20, 21, 22].as_slice());
    assert!(rt; barrier.release(1).is_empty());
    Ok(())
}
