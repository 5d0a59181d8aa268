//! What every layer speaks of: lists of bytes, keys of events, and requests.
use crate::checks::{are_bytes, is_number};
use std::process::Abort;
use zs_num::{AmoOp, Bytes, Key, Request};

/// Checks that a list of these bytes keeps them.
fn keeps(rt: &(impl Abort + AllocGlobal), wanted: &[u8]) {
    let bytes = Bytes::from_slice(rt.alloc(), wanted).expect(rt, "memory");
    are_bytes(rt, bytes.as_slice(), wanted);
    are_bytes(rt, bytes.into_list().as_slice(), wanted);
}

#[test]
fn bytes_keep_what_they_copy(rt: HostRuntime) {
    keeps(&rt, b"zsim");
}

#[test]
fn keys_are_ordered_by_start_and_then_by_number(rt: HostRuntime) {
    let early = Key {
        start: 4,
        number: 9,
    };
    let first = Key {
        start: 5,
        number: 1,
    };
    let second = Key {
        start: 5,
        number: 2,
    };
    assert!(rt; early < first && first < second);
}

#[test]
fn a_request_tells_its_address_width_and_line(rt: HostRuntime) {
    let add = Request::Amo {
        op: AmoOp::Add,
        addr: 0x11078,
        width: 8,
        value: 1,
    };
    is_number(&rt, add.addr(), add.addr(), 0x11078);
    is_number(&rt, add.addr(), u64::from(add.width()), 8);
    is_number(&rt, add.addr(), add.line(), 0x441);
}
