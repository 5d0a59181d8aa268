//! What an access reads of a line and writes to it.
ghost use Rattle.std.specs.Prelude.{◌≡◌, ◌+◌, ◌<◌, ◌≤◌, ◌&&◌, IsSome, not, length, slice_index_or};
ghost use Rattle.home.specs.HomeState.{is_marked_by_others};
ghost use Rattle.l1_cache.specs.L1State.{answered_in, copy_at, letter_of, no_l1, number_of, place_in_line, set_free_in, written_in};
ghost use Rattle.zs_num.specs.Request.{addr_of, line_at, line_bytes, line_of, width_of};
ghost use Rattle.zs_num.specs.declared.request.Request.TheVariants.{Load, Store};
ghost use Rattle.zs_num.specs.Servable.{IsAligned};
ghost use Rattle.flat_memory.specs.FlatMemory.{after_write, number_in};
ghost use Rattle.shard.specs.BankSteps.{bank_with};
ghost use Rattle.shard.specs.Coherence.{is_alone};
ghost use Rattle.shard.specs.Marks.{bytes_after, marks_after, reply_from};
ghost use Rattle.shard.specs.Seen.{no_home};
ghost use Rattle.shard.specs.SharedStep.{answered, bytes_of, own_letter, with_l1};

use super::others::letter_at;
use cache_set::Letter;
use flat_memory::numbers;
use home::Home;
use l1_cache::L1;
use rv_alu::amo;
use zs_num::{LINE, Request};

/// Serves an access from the core's copy of its line. The answer is the reply.
pub(super) fn answer(home: &mut Home, l1s: &mut [L1], core: u16, request: Request) -> u64
    requires core { core < length l1s.old }
    requires marks { core < length home.old.marks }
    requires there { IsSome (copy_at (slice_index_or l1s.old core no_l1) (line_of request)) }
    requires some { 1 ≤ width_of request }
    requires few { width_of request ≤ 8 }
    requires within { place_in_line (addr_of request) + width_of request ≤ line_bytes }
    requires aligned { IsAligned request }
    ensures after { bank_with home.new l1s.new ≡ answered core request (bank_with home.old l1s.old) }
    ensures reply { result ≡ reply_from (bytes_of (copy_at (slice_index_or l1s.old core no_l1) (line_of request))) (place_in_line (addr_of request)) home.old.marks core request }
    ensures cores { length l1s.new ≡ length l1s.old }
{
    if let Request::Load { addr, width } = request {
        return answer_load(home, l1s, core, addr, width);
    }
    if let Request::Store { addr, width, value } = request {
        answer_store(home, l1s, core, addr, width, value);
        return 0;
    }
    answer_by_copy(home, l1s, core, request)
}

/// Serves a load where the line stands: it keeps its bytes.
fn answer_load(home: &Home, l1s: &mut [L1], core: u16, addr: u64, width: u8) -> u64
    requires core { core < length l1s.old }
    requires there { IsSome (copy_at (slice_index_or l1s.old core no_l1) (line_at addr)) }
    requires some { 1 ≤ width }
    requires few { width ≤ 8 }
    requires within { place_in_line addr + width ≤ line_bytes }
    ensures after { bank_with home.now l1s.new ≡ answered core (Load width addr) (bank_with home.now l1s.old) }
    ensures reply { result ≡ number_in (bytes_of (copy_at (slice_index_or l1s.old core no_l1) (line_at addr))) (place_in_line addr) width }
    ensures cores { length l1s.new ≡ length l1s.old }
{
    let marked = home.is_marked_by_others(core, addr / LINE);
    load_at(l1s, core, addr, width, marked)
}

/// Serves a store where the line stands.
fn answer_store(home: &mut Home, l1s: &mut [L1], core: u16, addr: u64, width: u8, value: u64)
    requires core { core < length l1s.old }
    requires there { IsSome (copy_at (slice_index_or l1s.old core no_l1) (line_at addr)) }
    requires few { width ≤ 8 }
    requires within { place_in_line addr + width ≤ line_bytes }
    ensures after { bank_with home.new l1s.new ≡ answered core (Store width addr value) (bank_with home.old l1s.old) }
    ensures cores { length l1s.new ≡ length l1s.old }
{
    end_other_marks(home, core, addr);
    let marked = home.is_marked_by_others(core, addr / LINE);
    store_at(l1s, core, addr, width, value, marked);
}

/// Writes to a line that a core has. It is free to write from now on where the core alone has it,
/// and unless others have marked it.
#[inline(always)]
fn store_at(l1s: &mut [L1], core: u16, addr: u64, width: u8, value: u64, marked: bool)
    requires core { core < length l1s.old }
    requires there { IsSome (copy_at (slice_index_or l1s.old core no_l1) (line_at addr)) }
    requires few { width ≤ 8 }
    requires within { place_in_line addr + width ≤ line_bytes }
    ensures after { bank_with no_home l1s.new ≡ with_l1 core (λ l1. written_in addr width value (is_alone (letter_of (copy_at l1 (line_at addr))) && not marked) l1) (bank_with no_home l1s.old) }
    ensures cores { length l1s.new ≡ length l1s.old }
{
    l1s[usize::from(core)].store_shared(addr, width, value, marked);
}

/// Reads from a line that a core has. It is free to write from now on where the core alone has it,
/// and unless others have marked it.
#[inline(always)]
fn load_at(l1s: &mut [L1], core: u16, addr: u64, width: u8, marked: bool) -> u64
    requires core { core < length l1s.old }
    requires there { IsSome (copy_at (slice_index_or l1s.old core no_l1) (line_at addr)) }
    requires some { 1 ≤ width }
    requires few { width ≤ 8 }
    requires within { place_in_line addr + width ≤ line_bytes }
    ensures after { bank_with no_home l1s.new ≡ with_l1 core (λ l1. set_free_in (line_at addr) (is_alone (letter_of (copy_at l1 (line_at addr))) && not marked) l1) (bank_with no_home l1s.old) }
    ensures reply { result ≡ number_of (copy_at (slice_index_or l1s.old core no_l1) (line_at addr)) (place_in_line addr) width }
    ensures cores { length l1s.new ≡ length l1s.old }
{
    l1s[usize::from(core)].load_shared(addr, width, marked)
}

/// Serves an access in a copy of the line's bytes, which then stands for them.
fn answer_by_copy(home: &mut Home, l1s: &mut [L1], core: u16, request: Request) -> u64
    requires core { core < length l1s.old }
    requires marks { core < length home.old.marks }
    requires there { IsSome (copy_at (slice_index_or l1s.old core no_l1) (line_of request)) }
    requires some { 1 ≤ width_of request }
    requires few { width_of request ≤ 8 }
    requires within { place_in_line (addr_of request) + width_of request ≤ line_bytes }
    requires aligned { IsAligned request }
    ensures after { bank_with home.new l1s.new ≡ answered core request (bank_with home.old l1s.old) }
    ensures reply { result ≡ reply_from (bytes_of (copy_at (slice_index_or l1s.old core no_l1) (line_of request))) (place_in_line (addr_of request)) home.old.marks core request }
    ensures cores { length l1s.new ≡ length l1s.old }
{
    let line = request.line();
    let mut bytes = [0; LINE as usize];
    copy_line(&mut bytes, l1s, core, line);
    let reply = serve(
        &mut bytes,
        home,
        core,
        (request.addr() % LINE) as usize,
        request,
    );
    let free = is_free_at(home, l1s, core, line);
    answer_at(l1s, core, line, &bytes, free);
    reply
}

/// Copies the bytes of a line that a core has.
fn copy_line(bytes: &mut [u8], l1s: &[L1], core: u16, line: u64)
    requires core { core < length l1s.now }
    requires there { IsSome (copy_at (slice_index_or l1s.now core no_l1) line) }
    requires whole { length bytes.old ≡ line_bytes }
    ensures value { bytes.new ≡ bytes_of (copy_at (slice_index_or l1s.now core no_l1) line) }
    ensures whole { length bytes.new ≡ line_bytes }
{
    if let Some(line) = l1s[usize::from(core)].bytes(line) {
        bytes.copy_from_slice(line);
    }
}

/// Whether a line is free to write for a core: it has the line in M or E, and no other core has a
/// mark on it.
fn is_free_at(home: &Home, l1s: &[L1], core: u16, line: u64) -> bool
    requires { core < length l1s.now }
    ensures { result ≡ (is_alone (own_letter (bank_with no_home l1s.now) core line) && not (is_marked_by_others home.now.marks core line)) }
{
    match letter_at(l1s, core, line) {
        Letter::M | Letter::E => !home.is_marked_by_others(core, line),
        Letter::S | Letter::I => false,
    }
}

/// An access leaves these bytes of a line that a core has.
#[inline(always)]
fn answer_at(l1s: &mut [L1], core: u16, line: u64, bytes: &[u8], free: bool)
    requires core { core < length l1s.old }
    requires there { IsSome (copy_at (slice_index_or l1s.old core no_l1) line) }
    requires whole { length bytes.now ≡ line_bytes }
    ensures after { bank_with no_home l1s.new ≡ with_l1 core (answered_in line bytes.now free) (bank_with no_home l1s.old) }
    ensures cores { length l1s.new ≡ length l1s.old }
{
    l1s[usize::from(core)].answer(line, bytes, free);
}

/// A core that wrote at an address ends the other cores' marks in the line.
#[inline(always)]
fn end_other_marks(home: &mut Home, core: u16, addr: u64)
    ensures after { home.new ≡ record home.old { marks = after_write core addr home.old.marks } }
    ensures cores { length home.new.marks ≡ length home.old.marks }
{
    home.end_other_marks(core, addr);
}

/// Serves an access of a core to the bytes from a place on, and answers its reply.
#[tactic(auto, unfolding(crate::specs::Marks::reply_from, crate::specs::Marks::bytes_after, crate::specs::Marks::marks_after))]
fn serve(bytes: &mut [u8], home: &mut Home, core: u16, place: usize, request: Request) -> u64
    requires core { core < length home.old.marks }
    requires some { 1 ≤ width_of request }
    requires few { width_of request ≤ 8 }
    requires within { place + width_of request ≤ length bytes.old }
    requires aligned { IsAligned request }
    ensures reply { result ≡ reply_from bytes.old place home.old.marks core request }
    ensures bytes { bytes.new ≡ bytes_after bytes.old place home.old.marks core request }
    ensures marks { home.new ≡ record home.old { marks = marks_after home.old.marks core request } }
    ensures size { length bytes.new ≡ length bytes.old }
{
    match request {
        Request::Load { width, .. } => numbers::read(bytes, place, width),
        Request::Store { addr, width, value } => {
            numbers::write(bytes, place, width, value);
            end_other_marks(home, core, addr);
            0
        }
        Request::Lr { addr, width } => {
            home.mark(core, addr, width);
            numbers::read(bytes, place, width)
        }
        Request::Sc {
            addr,
            width,
            value,
            paired,
        } => {
            let stores = paired && home.has_mark(core, addr, width);
            if stores {
                numbers::write(bytes, place, width, value);
                end_other_marks(home, core, addr);
            }
            home.end_mark(core);
            if stores { 0 } else { 1 }
        }
        Request::Amo {
            op,
            addr,
            width,
            value,
        } => {
            let old = numbers::read(bytes, place, width);
            numbers::write(bytes, place, width, amo(op, width, old, value));
            end_other_marks(home, core, addr);
            old
        }
        Request::Fetch { .. } => 0,
    }
}
