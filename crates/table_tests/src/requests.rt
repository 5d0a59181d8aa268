//! Requests of eight bytes.
ghost use Rattle.std.specs.Prelude.{◌≡◌};

use zs_num::{AmoOp, Request};

pub(crate) fn load_of(addr: u64) -> Request
    ensures { result ≡ Request.Load 8 addr }
{
    Request::Load { addr, width: 8 }
}

pub(crate) fn store_of(addr: u64, value: u64) -> Request
    ensures { result ≡ Request.Store 8 addr value }
{
    Request::Store {
        addr,
        width: 8,
        value,
    }
}

pub(crate) fn one_more_at(addr: u64) -> Request
    ensures { result ≡ Request.Amo 8 AmoOp.Add addr 1 }
{
    Request::Amo {
        op: AmoOp::Add,
        addr,
        width: 8,
        value: 1,
    }
}
