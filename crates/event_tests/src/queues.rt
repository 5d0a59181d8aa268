//! Keys come out of queues in order.
ghost use Rattle.std.specs.Prelude.{◌≡◌, ◌-◌, ◌<◌, ◌^◌, [], ◌∷◌, IfSome};

use core_queue::CoreQueue;
use domain_queue::Ready;
use std::process::Abort;
use zs_num::{Cycle, Key};

/// A start, and a number.
type Row = (u64, u32);

/// A queue of three keys.
fn filled(rt: &(impl Abort + AllocGlobal)) -> Ready {
    let mut ready = Ready::with_room(rt.alloc(), 3).expect(rt, "memory");
    ready.push(Key {
        start: 5,
        number: 2,
    });
    ready.push(Key {
        start: 5,
        number: 1,
    });
    ready.push(Key {
        start: 4,
        number: 9,
    });
    ready
}

/// Checks a key.
fn is_key(rt: &impl Abort, found: Option<Key>, wanted: Row) {
    let Some(key) = found else {
        panic!(rt; "no key");
    };
    assert!(rt; key.start == wanted.0 && key.number == wanted.1);
}

/// Checks that these keys come out, each as the first, and then none.
fn come_out(rt: &impl Abort, ready: &mut Ready, rows: &[Row]) {
    for &row in rows {
        is_key(rt, ready.first(), row);
        is_key(rt, ready.pop(), row);
    }
    assert!(rt; ready.pop().is_none());
}

static ORDER: [Row; 3] = [(4, 9), (5, 1), (5, 2)];

#[test]
fn keys_come_out_by_start_and_then_by_number(rt: HostRuntime) {
    come_out(&rt, &mut filled(&rt), &ORDER);
}

/// A queue with keys of two cores, of five.
fn of_cores(rt: &(impl Abort + AllocGlobal)) -> CoreQueue {
    let mut queue = CoreQueue::with_room(rt.alloc(), 5).expect(rt, "memory");
    queue.push(Key {
        start: 7,
        number: 4,
    });
    queue.push(Key {
        start: 7,
        number: 1,
    });
    queue
}

/// Checks the first key, and goes on with the core's next event, where it has one.
fn goes_on(rt: &impl Abort, queue: &mut CoreQueue, wanted: Row, start: Option<Cycle>)
    requires { IfSome start (λ s. s < 2 ^ 64 - 1) }
{
    let found = queue.first();
    is_key(rt, found, wanted);
    let Some(key) = found else {
        panic!(rt; "no key");
    };
    queue.settle(key.number, start);
}

#[test]
fn the_least_start_of_the_first_core_comes_first(rt: HostRuntime) {
    let mut queue = of_cores(&rt);
    goes_on(&rt, &mut queue, (7, 1), Some(7));
    goes_on(&rt, &mut queue, (7, 1), Some(9));
    goes_on(&rt, &mut queue, (7, 4), Some(8));
    goes_on(&rt, &mut queue, (8, 4), None);
    goes_on(&rt, &mut queue, (9, 1), None);
    assert!(&rt; queue.first().is_none());
}
