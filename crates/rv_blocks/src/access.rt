//! The accesses of loads and stores.
ghost use Rattle.std.specs.Prelude.{◌≡◌, ◌+◌, ◌-◌, ◌*◌, ◌^◌, ◌<◌, ◌≤◌, ℕ, false, [], ◌∷◌, nat_lt, ◌&&◌, slice_index, Some, IfSome, IsTrue};
ghost use Rattle.rv_core.specs.CoreState.{CoreState};
ghost use Rattle.rv_core.specs.Executions.{at, Meets};
ghost use Rattle.zs_num.specs.declared.request.Request.TheVariants as access;
ghost use Rattle.rv_core.specs.Accesses.{reply_to};
ghost use Rattle.rv_core.specs.Effect.{received};
ghost use Rattle.rv_core.specs.Single.{begun, single_load, single_store};
ghost use Rattle.rv_blocks.specs.Flows.{is_access_flow, AccessesBy};
ghost use Rattle.rv_blocks.specs.Served.{IsServed};
ghost use Rattle.rv_blocks.specs.Tries.{is_served, met_in};
ghost use Rattle.rv_blocks.specs.Slots.{address_by, destination_by, is_access, is_load, is_signed, is_store, loads_by, met_by, stores_by, width_of, AccessesFor};

use crate::flow::Flow;
use crate::hits::Left;
use crate::slot::{Op, Slot};
use crate::tried::Tried;
use elf_load::Image;
use rv_core::{Destination, MemoryRange, Port, Single, Stint, is_single, low_bytes};
use rv_decode::Name;
use zs_num::Cycle;

/// The one access of the slot at a place, if it is a load or a store whose bytes are in memory and
/// in one line. Memory lies there. The type `T` means nothing: each loop takes one of its own, and
/// the compiler then sets this behind it.
#[inline(always)]
pub(crate) fn met<T>(
    _image: &Image,
    slot: &Slot,
    _first: u64,
    _place: usize,
    _count: usize,
    x: &[u64; 32],
    memory: &MemoryRange,
) -> Option<Single>
    requires rs1 { slot.now.rs1 < 32 }
    requires rs2 { slot.now.rs2 < 32 }
    requires accesses { AccessesFor _image.now (record { first = _first; count = _count }) _place slot.now }
    requires reach { memory.now.base + memory.now.size ≤ 2 ^ 48 }
    ensures value { result ≡ met_by slot.now memory.now x.now }
    ensures meets { IfSome result (λ single. Meets _image.now memory.now x.now (_first + 4 * _place) single) }
{
    let width = width_of::<T>(slot.name);
    match slot.op {
        Op::Load => load::<T>(slot, width, x, memory),
        Op::Store => store::<T>(slot, width, x, memory),
        _ => None,
    }
}

/// The hits of loads, and those of stores: what is compiled for each is compiled for one call.
struct Loads;

struct Stores;

/// Makes the access of a slot at which the loop stopped, if it is a load or a store, where it ends in
/// time and the port serves it at once. If it doesn't, nothing changes. `left` is what is left of the
/// stint before the instruction, which takes a cycle of its own. The type `T` means nothing, as that of
/// [`met`].
#[inline(always)]
pub(crate) fn hit<Q: Port, T>(
    flow: Flow,
    slot: &Slot,
    x: &mut [u64; 32],
    memory: &MemoryRange,
    stint: &Stint,
    left: &Left,
    port: &mut Q,
) -> Tried
    requires access { AccessesBy flow slot.now.op }
    requires rd { slot.now.rd < 32 }
    requires rs1 { slot.now.rs1 < 32 }
    requires rs2 { slot.now.rs2 < 32 }
    requires reach { memory.now.base + memory.now.size ≤ 2 ^ 48 }
    requires left { left.now.cycles ≤ stint.now.end }
    requires base { Q.base port.old ≡ memory.now.base }
    requires size { Q.size port.old ≡ memory.now.size }
    requires room { 0 < left.now.accesses → 1 ≤ Q.room port.old }
    ensures time { IsTrue (is_served result) → stint.now.hit < left.now.cycles }
    ensures few { IsTrue (is_served result) → 0 < left.now.accesses }
    ensures access { IsTrue (is_served result) → IsTrue (is_access slot.now.op) }
    ensures flow { IsTrue (is_served result) → IsTrue (is_access_flow flow) }
    ensures served { IsTrue (is_served result) → IsServed memory.now Q.gives Q.core Q.logged slot.now (stint.now.end - left.now.cycles + 1) x.old port.old x.new port.new }
    ensures none { is_served result ≡ false → x.new ≡ x.old }
    ensures same { is_served result ≡ false → port.new ≡ port.old }
    ensures early { IfSome (met_in result) (λ single. 0 < left.now.cycles) }
    ensures met_flow { IfSome (met_in result) (λ single. IsTrue (is_access_flow flow)) }
    ensures met { IfSome (met_in result) (λ single. met_by slot.now memory.now x.old ≡ Some single) }
    ensures port_core { Q.core port.new ≡ Q.core port.old }
    ensures port_base { Q.base port.new ≡ Q.base port.old }
    ensures port_size { Q.size port.new ≡ Q.size port.old }
    ensures port_l1i { Q.l1i port.new ≡ Q.l1i port.old }
    ensures port_room { Q.room port.old ≤ Q.room port.new + 1 }
{
    if !may_hit(stint, left) {
        return Tried::Not;
    }
    match flow {
        Flow::Load => load_hit::<Q, T>(slot, x, memory, stint.end - (left.cycles - 1), port),
        Flow::Store => store_hit::<Q, T>(slot, x, memory, stint.end - (left.cycles - 1), port),
        _ => Tried::Not,
    }
}

/// Whether one more access may be made, and ends in time where it is a hit.
#[inline(always)]
fn may_hit(stint: &Stint, left: &Left) -> bool
    ensures { result ≡ (nat_lt stint.now.hit left.now.cycles && nat_lt 0 left.now.accesses) }
{
    left.cycles > stint.hit && left.accesses > 0
}

/// Makes the access of a load, where it is of one line and the port serves it at once. If it
/// doesn't, nothing changes.
#[inline(always)]
fn load_hit<Q: Port, T>(
    slot: &Slot,
    x: &mut [u64; 32],
    memory: &MemoryRange,
    start: Cycle,
    port: &mut Q,
) -> Tried
    requires is_load { slot.now.op ≡ Op.Load }
    requires rd { slot.now.rd < 32 }
    requires rs1 { slot.now.rs1 < 32 }
    requires reach { memory.now.base + memory.now.size ≤ 2 ^ 48 }
    requires base { Q.base port.old ≡ memory.now.base }
    requires size { Q.size port.old ≡ memory.now.size }
    requires room { 1 ≤ Q.room port.old }
    ensures served { IsTrue (is_served result) → IsServed memory.now Q.gives Q.core Q.logged slot.now start x.old port.old x.new port.new }
    ensures none { is_served result ≡ false → x.new ≡ x.old }
    ensures same { is_served result ≡ false → port.new ≡ port.old }
    ensures met { IfSome (met_in result) (λ single. met_by slot.now memory.now x.old ≡ Some single) }
    ensures port_core { Q.core port.new ≡ Q.core port.old }
    ensures port_base { Q.base port.new ≡ Q.base port.old }
    ensures port_size { Q.size port.new ≡ Q.size port.old }
    ensures port_l1i { Q.l1i port.new ≡ Q.l1i port.old }
    ensures port_room { Q.room port.old ≤ Q.room port.new + 1 }
{
    let addr = x[slot.rs1 as usize].wrapping_add(slot.value);
    let width = width_of::<(T, Loads)>(slot.name);
    if !is_single(memory, addr, width) {
        return Tried::Not;
    }
    match port.load_hit(start, addr, width) {
        Some(reply) => {
            if slot.rd != 0 {
                x[slot.rd as usize] = loaded(slot.name, width, reply);
            }
            Tried::Served
        }
        None => {
            let destination = destination(slot, width);
            Tried::Meets(Single::Load { addr, destination })
        }
    }
}

/// What gets the number of a load of so many bytes.
#[inline(always)]
fn destination(slot: &Slot, width: u8) -> Destination
    requires { width ≡ width_of slot.now.name }
    ensures { result ≡ destination_by slot.now }
{
    Destination {
        rd: u16::from(slot.rd),
        width,
        signed: is_signed(slot.name),
    }
}

/// The number that a load gives its register, by the reply to its access.
#[inline(always)]
fn loaded(name: Name, width: u8, reply: u64) -> u64
    requires { width ≡ width_of name }
    ensures { result ≡ received (record { rd = 0; width = width; signed = is_signed name }) (reply_to (access.Load width 0) reply ∷ []) }
{
    let unused = 64 - 8 * u32::from(width);
    let high = reply << unused;
    if is_signed(name) {
        (high.cast_signed() >> unused).cast_unsigned()
    } else {
        high >> unused
    }
}

/// The same of a store.
#[inline(always)]
fn store_hit<Q: Port, T>(
    slot: &Slot,
    x: &[u64; 32],
    memory: &MemoryRange,
    start: Cycle,
    port: &mut Q,
) -> Tried
    requires is_store { slot.now.op ≡ Op.Store }
    requires rs1 { slot.now.rs1 < 32 }
    requires rs2 { slot.now.rs2 < 32 }
    requires reach { memory.now.base + memory.now.size ≤ 2 ^ 48 }
    requires base { Q.base port.old ≡ memory.now.base }
    requires size { Q.size port.old ≡ memory.now.size }
    requires room { 1 ≤ Q.room port.old }
    ensures served { IsTrue (is_served result) → IsServed memory.now Q.gives Q.core Q.logged slot.now start x.now port.old x.now port.new }
    ensures same { is_served result ≡ false → port.new ≡ port.old }
    ensures met { IfSome (met_in result) (λ single. met_by slot.now memory.now x.now ≡ Some single) }
    ensures port_core { Q.core port.new ≡ Q.core port.old }
    ensures port_base { Q.base port.new ≡ Q.base port.old }
    ensures port_size { Q.size port.new ≡ Q.size port.old }
    ensures port_l1i { Q.l1i port.new ≡ Q.l1i port.old }
    ensures port_room { Q.room port.old ≤ Q.room port.new + 1 }
{
    let addr = x[slot.rs1 as usize].wrapping_add(slot.value);
    let width = width_of::<(T, Stores)>(slot.name);
    if !is_single(memory, addr, width) {
        return Tried::Not;
    }
    let value = low_bytes(width, x[slot.rs2 as usize]);
    if port.store_hit(start, addr, width, value) {
        Tried::Served
    } else {
        Tried::Meets(Single::Store { addr, width, value })
    }
}

/// That of a load of so many bytes.
#[inline(always)]
fn load<T>(slot: &Slot, width: u8, x: &[u64; 32], memory: &MemoryRange) -> Option<Single>
    requires rs1 { slot.now.rs1 < 32 }
    requires width { width ≡ width_of slot.now.name }
    requires reach { memory.now.base + memory.now.size ≤ 2 ^ 48 }
    ensures value { result ≡ single_load memory.now (address_by slot.now x.now) (destination_by slot.now) }
    ensures begins { IfSome result (λ single. (core : CoreState) (pc : ℕ) → core.memory ≡ memory.now → begun single (at core x.now pc) ≡ loads_by slot.now (at core x.now pc)) }
{
    let addr = x[slot.rs1 as usize].wrapping_add(slot.value);
    Single::load(memory, addr, destination(slot, width))
}

/// That of a store.
#[inline(always)]
fn store<T>(slot: &Slot, width: u8, x: &[u64; 32], memory: &MemoryRange) -> Option<Single>
    requires rs1 { slot.now.rs1 < 32 }
    requires rs2 { slot.now.rs2 < 32 }
    requires width { width ≡ width_of slot.now.name }
    requires few { width ≤ 8 }
    requires reach { memory.now.base + memory.now.size ≤ 2 ^ 48 }
    ensures value { result ≡ single_store memory.now (address_by slot.now x.now) (width_of slot.now.name) (slice_index x.now slot.now.rs2) }
    ensures begins { IfSome result (λ single. (core : CoreState) (pc : ℕ) → core.memory ≡ memory.now → begun single (at core x.now pc) ≡ stores_by slot.now (at core x.now pc)) }
{
    let addr = x[slot.rs1 as usize].wrapping_add(slot.value);
    Single::store(memory, addr, width, x[slot.rs2 as usize])
}

/// Whether an instruction is a load.
pub(crate) fn is_load(name: Name) -> bool
    ensures { result ≡ is_load name }
{
    matches!(
        name,
        Name::Lb | Name::Lh | Name::Lw | Name::Ld | Name::Lbu | Name::Lhu | Name::Lwu
    )
}

/// Whether it is a store.
pub(crate) fn is_store(name: Name) -> bool
    ensures { result ≡ is_store name }
{
    matches!(name, Name::Sb | Name::Sh | Name::Sw | Name::Sd)
}

/// How many bytes a load or a store has.
#[inline(always)]
fn width_of<T>(name: Name) -> u8
    ensures value { result ≡ width_of name }
    ensures few { result ≤ 8 }
{
    match name {
        Name::Lb | Name::Lbu | Name::Sb => 1,
        Name::Lh | Name::Lhu | Name::Sh => 2,
        Name::Lw | Name::Lwu | Name::Sw => 4,
        _ => 8,
    }
}

/// Whether the number that a load gives is sign-extended.
#[inline(always)]
fn is_signed(name: Name) -> bool
    ensures { result ≡ is_signed name }
{
    matches!(name, Name::Lb | Name::Lh | Name::Lw | Name::Ld)
}
