//! Tests that a call to make or close an executor fails if memory is refused, and that the call can then be repeated.
use arachne_exec::Executor;
use arachne_shortage::Hoard;
use std::test::Fail;

const TRIES: usize = 200;

const BYTES: usize = 2_000;

#[test]
fn each_growth_is_refused_in_turn(rt: HostRuntime) -> Result<(), Fail> {
    let (executor, mut seat) = Executor::new(rt.alloc(), 1)?;
    executor.spawn(&mut seat, 0, 7);
    let mut hoard = Hoard::take(rt.alloc())?;
    let (executor, seat) = executor.close(rt.alloc(), seat).err().ok_or("closed")?;
    let mut refused = 0;
    while refused < TRIES && Executor::new(rt.alloc(), 1).is_err() {
        refused += 1;
        hoard.give_back(BYTES);
    }
    assert!(rt; refused > 0 && refused < TRIES);
    let left = executor.close(rt.alloc(), seat).ok().ok_or("no memory")?;
    assert!(rt; left.len() == 1 && left[0] == 7);
    Ok(())
}
