// Threads at a lock.
ghost use Rattle.std.specs.Prelude.{◌≡◌};
ghost use Rattle.txc_table_lock_tests.specs.declared.lock.TheConstants.{STEP};

use crate::counter::{Counter, Guard, HasStep};
use std::process::Abort;
use std::sync::Wait;
use std::thread::join;
use txc_table_lock::Lock;

/// How often each thread adds.
const TIMES: u64 = 20_000;

const STEP: u64 = 3;

/// Takes the lock and adds, so often.
fn add<R: Wait + Abort>(rt: &R, lock: &Lock<Counter, u64, HasStep>, tries: u32) {
    for _ in 0..TIMES {
        let mut guard = Guard::take(rt, lock, tries);
        let step = guard.add();
        drop(guard);
        assert!(rt; step > 0);
    }
}

/// A counter at 0.
fn fresh() -> Counter
    ensures { result.step ≡ STEP }
{
    Counter {
        step: STEP,
        count: 0,
    }
}

#[test]
fn one_thread_takes_a_free_lock(rt: HostRuntime) {
    let lock: Lock<Counter, u64, HasStep> = Lock::new(rt.alloc(), fresh(), &STEP).expect(
        &rt, "memory",
    );
    add(&rt, &lock, 0);
    assert!(&rt; lock.into_inner(&rt).count == TIMES * STEP);
}

#[test]
fn no_write_of_four_threads_is_lost(rt: HostRuntime) {
    for tries in [0, 12] {
        let lock: Lock<Counter, u64, HasStep> = Lock::new(rt.alloc(), fresh(), &STEP).expect(
            &rt, "memory",
        );
        join(
            &rt,
            || join(&rt, || add(&rt, &lock, tries), || add(&rt, &lock, tries)),
            || join(&rt, || add(&rt, &lock, tries), || add(&rt, &lock, 0)),
        );
        assert!(&rt; lock.into_inner(&rt).count == 4 * TIMES * STEP);
    }
}
