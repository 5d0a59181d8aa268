//! Load-reserved, store-conditional and atomic read-modify-writes.
ghost use Rattle.std.specs.Prelude.{◌≡◌, ◌<◌, ◌≤◌, ◌+◌, ◌%◌, ◌==◌, ◌⊎◌, IsTrue, false, [], ◌∷◌};
ghost use Rattle.zs_num.specs.PairedRight.{IsPairedRight};
ghost use Rattle.zs_num.specs.Request.{addr_of, line_bytes, width_of};
ghost use Rattle.zs_num.specs.Servable.{MayFetch};
ghost use Rattle.rv_core.specs.Effect.{atomic, load_reserved, store_conditional, updates};
ghost use Rattle.rv_core.specs.CoreState.{ToRegister};
ghost use Rattle.rv_core.specs.Step.{is_free};
ghost use Rattle.rv_core.specs.Asked.{is_idle};

use crate::replies::low_bytes;
use crate::{Core, Destination, Why};
use rv_decode::Inst;
use zs_num::{AmoOp, Request};

impl Core {
    /// A load-reserved of so many bytes.
    pub(crate) fn load_reserved(&mut self, width: u8, inst: &Inst) -> bool
        requires idle { IsTrue (is_idle self.old) }
        requires width { (width ≡ 4) ⊎ (width ≡ 8) }
        requires rd { inst.now.rd < 32 }
        requires rs1 { inst.now.rs1 < 32 }
        ensures value { self.new ≡ load_reserved width inst.now self.old }
        ensures free { result ≡ is_free self.new }
    {
        let addr = self.reg(inst.rs1);
        self.ask_atomic(Request::Lr { addr, width }, number_to(inst.rd, width, true))
    }

    /// A store-conditional of so many bytes.
    pub(crate) fn store_conditional(&mut self, width: u8, inst: &Inst) -> bool
        requires idle { IsTrue (is_idle self.old) }
        requires width { (width ≡ 4) ⊎ (width ≡ 8) }
        requires rd { inst.now.rd < 32 }
        requires rs1 { inst.now.rs1 < 32 }
        requires rs2 { inst.now.rs2 < 32 }
        ensures value { self.new ≡ store_conditional width inst.now self.old }
        ensures free { result ≡ is_free self.new }
    {
        let addr = self.reg(inst.rs1);
        let request = Request::Sc {
            addr,
            width,
            value: low_bytes(width, self.reg(inst.rs2)),
            paired: self.is_paired(addr, width),
        };
        self.ask_atomic(request, number_to(inst.rd, width, false))
    }

    /// An atomic read-modify-write of so many bytes.
    pub(crate) fn update(&mut self, op: AmoOp, width: u8, inst: &Inst) -> bool
        requires idle { IsTrue (is_idle self.old) }
        requires width { (width ≡ 4) ⊎ (width ≡ 8) }
        requires rd { inst.now.rd < 32 }
        requires rs1 { inst.now.rs1 < 32 }
        requires rs2 { inst.now.rs2 < 32 }
        ensures value { self.new ≡ updates op width inst.now self.old }
        ensures free { result ≡ is_free self.new }
    {
        let request = Request::Amo {
            op,
            addr: self.reg(inst.rs1),
            width,
            value: low_bytes(width, self.reg(inst.rs2)),
        };
        self.ask_atomic(request, number_to(inst.rd, width, true))
    }

    /// Asks for the access of an atomic, unless it is not aligned or not in memory.
    #[tactic(auto, unfolding(crate::specs::Effect::accesses, crate::specs::Effect::atomic))]
    fn ask_atomic(&mut self, request: Request, destination: Destination) -> bool
        requires idle { IsTrue (is_idle self.old) }
        requires width { (width_of request ≡ 4) ⊎ (width_of request ≡ 8) }
        requires rd { destination.rd < 32 }
        requires same_width { destination.width ≡ width_of request }
        requires paired { IsPairedRight self.old.pairing request }
        requires no_fetch { MayFetch false request }
        ensures value { self.new ≡ atomic (addr_of request) (width_of request) request (ToRegister destination) self.old }
        ensures free { result ≡ is_free self.new }
    {
        let addr = request.addr();
        let width = request.width();
        if !is_aligned(addr, width) {
            self.stop(Why::AtomicAlign { addr })
        } else if self.has(addr, u64::from(width)) {
            self.begin(request, Some(destination));
            false
        } else {
            self.stop(Why::Access { addr })
        }
    }
}

/// A register that gets a number of so many bytes.
fn number_to(rd: u8, width: u8, signed: bool) -> Destination
    ensures { result ≡ record { rd = rd; width = width; signed = signed } }
{
    Destination {
        rd: u16::from(rd),
        width,
        signed,
    }
}

/// Whether an address is a multiple of a width.
fn is_aligned(addr: u64, width: u8) -> bool
    requires { (width ≡ 4) ⊎ (width ≡ 8) }
    ensures value { result ≡ (addr % width == 0) }
    ensures in_line { IsTrue result → addr % line_bytes + width ≤ line_bytes }
{
    if width == 4 {
        addr % 4 == 0
    } else {
        addr % 8 == 0
    }
}
