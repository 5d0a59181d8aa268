//! What a domain can do next, by its first ready event and its first open crossing.
ghost use Rattle.std.specs.Prelude.{◌≡◌, ◌<◌, IfSome, length};
ghost use Rattle.weave_core.specs.Answer.{IsBlocking, answer_of, blocked_by, fire_of, lesser_start, numbered_key};

use crate::Next;
use crate::incoming::Stub;
use event_graph::Event;
use zs_num::{Cycle, Key};

/// The answer by the first ready place and the first open stub, where there are any.
pub(crate) fn answer(here: &[Event], stubs: &[Stub], ready: Option<Key>, first: Option<Key>) -> Next
    requires ready { IfSome ready (λ key. key.number < length here.now) }
    requires first { IfSome first (IsBlocking stubs.now) }
    ensures { result ≡ answer_of here.now stubs.now ready first }
{
    match (ready, first) {
        (None, None) => Next::Done,
        (Some(key), None) => fire(here, key),
        (None, Some(stub)) => blocked(stubs, stub),
        (Some(key), Some(stub)) => {
            if key.start < stub.start {
                fire(here, key)
            } else {
                blocked(stubs, stub)
            }
        }
    }
}

/// The event of a place can fire.
fn fire(here: &[Event], key: Key) -> Next
    requires { key.number < length here.now }
    ensures { result ≡ fire_of here.now key }
{
    Next::Fire {
        key: numbered(here, key),
    }
}

/// The child of a stub could come first.
fn blocked(stubs: &[Stub], key: Key) -> Next
    requires { IsBlocking stubs.now key }
    ensures { result ≡ blocked_by stubs.now key }
{
    let stub = &stubs[key.number as usize];
    Next::Blocked {
        crossing: stub.number,
        bound: key.start - stub.delay,
    }
}

/// The key of the event at a key's place.
pub(crate) fn numbered(here: &[Event], key: Key) -> Key
    requires { key.number < length here.now }
    ensures { result ≡ numbered_key here.now key }
{
    Key {
        start: key.start,
        number: here[key.number as usize].number,
    }
}

/// The lesser of the starts of the first ready place and the first open stub, where there are any.
pub(crate) fn limit(ready: Option<Key>, first: Option<Key>) -> Option<Cycle>
    ensures { result ≡ lesser_start ready first }
{
    match (ready, first) {
        (None, None) => None,
        (Some(key), None) | (None, Some(key)) => Some(key.start),
        (Some(key), Some(stub)) => Some(key.start.min(stub.start)),
    }
}
