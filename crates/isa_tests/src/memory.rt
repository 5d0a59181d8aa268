//! Accesses of two cores on known numbers, in 4,096 bytes of memory from 0x10000 on.
ghost use Rattle.std.specs.Prelude.{◌≡◌, ◌<◌, length, IsTrue, true};
ghost use Rattle.zs_num.specs.Servable.{IsServable};

use crate::checks::is_number;
use crate::executables::{BASE, loaded};
use flat_memory::FlatMemory;
use std::process::Abort;
use zs_num::{AmoOp, Request};

/// How many bytes of memory there are.
const BYTES: u64 = 4096;

/// Memory of two cores.
#[derive(Drop)]
struct Small {
    memory: FlatMemory,
    ghost base: { memory.base ≡ 0x10000 },
    ghost size: { length memory.bytes ≡ 4096 },
    ghost cores: { length memory.reservations ≡ 2 },
}

/// Whether the small memory can be asked this.
fn is_servable(request: &Request) -> bool
    ensures { IsTrue result → IsServable 0x10000 4096 true request.now }
{
    let (addr, width) = (request.addr(), u64::from(request.width()));
    let is_there = addr >= BASE && addr - BASE + width <= BYTES;
    let is_aligned = match *request {
        Request::Load { .. } | Request::Store { .. } => true,
        _ => (width == 4 || width == 8) && addr % width == 0,
    };
    is_there && is_aligned && width >= 1 && width <= 8 && addr % 64 + width <= 64
}

impl Small {
    /// Memory loaded with an executable of one instruction, which lies at the base.
    fn fresh(rt: &(impl Abort + AllocGlobal)) -> Self {
        // ecall
        let image = loaded(rt, &[0x73], BASE, BYTES);
        Small {
            memory: FlatMemory::loaded(rt.alloc(), &image, 2).expect(rt, "memory"),
        }
    }

    /// Checks the byte at an address.
    fn has_byte(&self, rt: &impl Abort, addr: u64, byte: u8) {
        assert!(rt; addr >= BASE && addr < BASE + BYTES);
        is_number(rt, addr, u64::from(self.memory.byte(addr)), u64::from(byte));
    }

    /// Checks the byte at each address.
    fn has_bytes(&self, rt: &impl Abort, rows: &[(u64, u8)]) {
        for &(addr, byte) in rows {
            self.has_byte(rt, addr, byte);
        }
    }

    /// Serves an access of a core, and answers its reply.
    fn serve(&mut self, core: u16, request: Request) -> u64
        requires core { core < 2 }
        requires servable { IsServable 0x10000 4096 true request }
    {
        self.memory.serve(core, request)
    }

    /// Checks the reply to an access of a core.
    fn replies(&mut self, rt: &impl Abort, access: &Access) {
        let &(core, request, reply) = access;
        assert!(rt; core < 2);
        assert!(rt; is_servable(&request));
        is_number(rt, request.addr(), self.serve(core, request), reply);
    }
}

#[test]
fn memory_holds_the_executable(rt: HostRuntime) {
    Small::fresh(&rt).has_bytes(&rt, &HELD);
}

/// Addresses, and their bytes.
static HELD: [(u64, u8); 3] = [(0x10000, 0x73), (0x10001, 0), (0x10fff, 0)];

/// A core, its access, and the reply.
type Access = (u16, Request, u64);

/// Checks accesses of cores to a fresh memory.
fn answers(rt: &(impl Abort + AllocGlobal), accesses: &[Access]) {
    let mut memory = Small::fresh(rt);
    for access in accesses {
        memory.replies(rt, access);
    }
}

#[test]
fn a_pair_stores_unless_another_core_stored_to_its_line(rt: HostRuntime) {
    answers(&rt, &STORES_ONCE);
    answers(&rt, &ENDED);
    answers(&rt, &LEFT);
}

const RESERVE: Request = Request::Lr {
    addr: 0x10100,
    width: 8,
};

const STORE_PAIRED: Request = Request::Sc {
    addr: 0x10100,
    width: 8,
    value: 9,
    paired: true,
};

const LOAD: Request = Request::Load {
    addr: 0x10100,
    width: 8,
};

/// A pair stores once.
static STORES_ONCE: [Access; 3] = [(0, RESERVE, 0), (0, STORE_PAIRED, 0), (0, STORE_PAIRED, 1)];

/// A store of another core ends a pair.
static ENDED: [Access; 4] = [
    (0, RESERVE, 0),
    (
        1,
        Request::Store {
            addr: 0x10108,
            width: 1,
            value: 5,
        },
        0,
    ),
    (0, STORE_PAIRED, 1),
    (0, LOAD, 0),
];

/// Own stores, and other lines, leave a pair.
static LEFT: [Access; 5] = [
    (
        0,
        Request::Lr {
            addr: 0x10100,
            width: 4,
        },
        0,
    ),
    (
        0,
        Request::Store {
            addr: 0x10104,
            width: 4,
            value: 7,
        },
        0,
    ),
    (
        1,
        Request::Store {
            addr: 0x10140,
            width: 4,
            value: 7,
        },
        0,
    ),
    (
        0,
        Request::Sc {
            addr: 0x10100,
            width: 4,
            value: 9,
            paired: true,
        },
        0,
    ),
    (1, LOAD, 0x7_0000_0009),
];

#[test]
fn an_amo_answers_the_old_number_and_stores_the_new_one(rt: HostRuntime) {
    answers(&rt, &AMOS);
}

const ADD: Request = Request::Amo {
    op: AmoOp::Add,
    addr: 0x10100,
    width: 4,
    value: 0xffff_ffff,
};

static AMOS: [Access; 4] = [
    (
        0,
        Request::Store {
            addr: 0x10100,
            width: 3,
            value: 0xff_ffff,
        },
        0,
    ),
    (1, ADD, 0xff_ffff),
    (1, ADD, 0xff_fffe),
    (
        0,
        Request::Load {
            addr: 0x10101,
            width: 2,
        },
        0xffff,
    ),
];
