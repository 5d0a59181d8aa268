//! Loads and stores.
ghost use Rattle.std.specs.Prelude.{◌≡◌, ◌<◌, ◌≤◌, IsTrue};
ghost use Rattle.rv_core.specs.Accesses.{is_in_line, left_in_line, low_bytes};
ghost use Rattle.rv_core.specs.Effect.{loads, stores};
ghost use Rattle.rv_core.specs.Step.{is_free};
ghost use Rattle.rv_core.specs.Asked.{is_idle};

use crate::replies::{high_bytes, low_bytes};
use crate::{Core, Destination, Why};
use rv_decode::Inst;
use zs_num::{LINE, Request};

impl Core {
    /// A load of so many bytes: one access, or two where it crosses a line.
    #[tactic(auto, unfolding(crate::specs::Accesses::load_requests, crate::specs::Effect::accesses))]
    pub(crate) fn load(&mut self, width: u8, signed: bool, inst: &Inst) -> bool
        requires idle { IsTrue (is_idle self.old) }
        requires some { 1 ≤ width }
        requires few { width ≤ 8 }
        requires rd { inst.now.rd < 32 }
        requires rs1 { inst.now.rs1 < 32 }
        ensures value { self.new ≡ loads width signed inst.now self.old }
        ensures free { result ≡ is_free self.new }
    {
        let addr = self.reg(inst.rs1).wrapping_add(inst.imm.cast_unsigned());
        let destination = Some(Destination {
            rd: u16::from(inst.rd),
            width,
            signed,
        });
        if !self.has(addr, u64::from(width)) {
            return self.stop(Why::Access { addr });
        }
        if is_in_line(addr, width) {
            self.begin(Request::Load { addr, width }, destination);
        } else {
            let lower = left_in_line(addr);
            let next = Request::Load { addr, width: lower };
            let upper = Request::Load {
                addr: addr + u64::from(lower),
                width: width - lower,
            };
            self.begin_crossing(next, upper, destination);
        }
        false
    }

    /// A store of the lowest bytes of rs2: one access, or two where it crosses a line, of which the
    /// lower line gets the lower bytes.
    #[tactic(auto, unfolding(crate::specs::Accesses::store_requests, crate::specs::Effect::accesses))]
    pub(crate) fn store(&mut self, width: u8, inst: &Inst) -> bool
        requires idle { IsTrue (is_idle self.old) }
        requires some { 1 ≤ width }
        requires few { width ≤ 8 }
        requires rs1 { inst.now.rs1 < 32 }
        requires rs2 { inst.now.rs2 < 32 }
        ensures value { self.new ≡ stores width inst.now self.old }
        ensures free { result ≡ is_free self.new }
    {
        let addr = self.reg(inst.rs1).wrapping_add(inst.imm.cast_unsigned());
        let value = self.reg(inst.rs2);
        if !self.has(addr, u64::from(width)) {
            return self.stop(Why::Access { addr });
        }
        if is_in_line(addr, width) {
            self.begin(store_of(addr, width, value), None);
        } else {
            let lower = left_in_line(addr);
            let upper = store_of(
                addr + u64::from(lower),
                width - lower,
                high_bytes(lower, value),
            );
            self.begin_crossing(store_of(addr, lower, value), upper, None);
        }
        false
    }
}

/// An access that stores the lowest bytes of a number.
fn store_of(addr: u64, width: u8, value: u64) -> Request
    requires { width ≤ 8 }
    ensures { result ≡ Request.Store width addr (low_bytes width value) }
{
    Request::Store {
        addr,
        width,
        value: low_bytes(width, value),
    }
}

/// Whether so many bytes from an address on lie in one line.
#[inline(always)]
pub fn is_in_line(addr: u64, width: u8) -> bool
    ensures { result ≡ is_in_line addr width }
{
    addr % LINE + u64::from(width) <= LINE
}

/// How many bytes there are from an address on to the end of its line.
fn left_in_line(addr: u64) -> u8
    ensures value { result ≡ left_in_line addr }
    ensures some { 1 ≤ result }
{
    (LINE - addr % LINE) as u8
}
