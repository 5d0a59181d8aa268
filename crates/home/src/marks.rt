//! What the cores have marked in a home.
ghost use Rattle.std.specs.Prelude.{◌≡◌, ◌<◌, length, slice_index_or, slice_set, replicate, is_some, IfOk, None, Some};
ghost use Rattle.flat_memory.specs.FlatMemory.{after_write, is_reservation};
ghost use Rattle.std.specs.List.{count_by};
ghost use Rattle.home.specs.HomeState.{is_marked_by_others, is_on_line};

use flat_memory::{Reservation, end_others, is_reserved};
use std::alloc::Global;
use std::marker::Model;
use zs_num::{LINE, NoMemory};

/// By core, the mark of its latest load-reserved in this home, where it has not ended.
#[derive(Drop)]
pub(crate) struct Marks {
    list: Vec<Option<Reservation>>,
    // How many cores have a mark. Mostly none has, and then a write has no mark to end.
    count: usize,
}

impl Model for Marks {
    ghost use Rattle.std.specs.Prelude.{◌≡◌, List, Option, is_some};
    ghost use Rattle.std.specs.List.{count_by};
    ghost use Rattle.flat_memory.specs.declared.reservation.Reservation.{Reservation};

    ghost Value = { List (Option Reservation) };

    ghost view = { λ m. m.list.items };

    ghost invariant = { λ m. m.count ≡ count_by is_some m.list.items };
}

impl Marks {
    /// Those of so many cores, of which none has a mark.
    pub(crate) fn new(alloc: Global, cores: u16) -> Result<Self, NoMemory>
        ensures { IfOk result (λ marks. marks ≡ replicate cores None) }
    {
        Ok(Marks {
            list: vec![in alloc; None; usize::from(cores)]?,
            count: 0,
        })
    }

    /// Whether a core has marked these bytes.
    pub(crate) fn has(&self, core: u16, addr: u64, width: u8) -> bool
        requires { core < length self.now }
        ensures { result ≡ is_reservation (slice_index_or self.now core None) addr width }
    {
        is_reserved(self.list[usize::from(core)], addr, width)
    }

    /// Marks these bytes for a core.
    pub(crate) fn mark(&mut self, core: u16, addr: u64, width: u8)
        requires { core < length self.old }
        ensures value { self.new ≡ slice_set self.old core (Some (record { addr = addr; width = width })) }
        ensures cores { length self.new ≡ length self.old }
    {
        let core = usize::from(core);
        if self.list[core].is_none() {
            self.count += 1;
        }
        self.list[core] = Some(Reservation { addr, width });
    }

    /// Ends the mark of a core.
    pub(crate) fn end(&mut self, core: u16)
        requires { core < length self.old }
        ensures value { self.new ≡ slice_set self.old core None }
        ensures cores { length self.new ≡ length self.old }
    {
        let core = usize::from(core);
        if self.list[core].is_some() {
            self.count -= 1;
        }
        self.list[core] = None;
    }

    /// Ends the marks of the other cores in the line that a core wrote to.
    #[inline(always)]
    pub(crate) fn end_others(&mut self, core: u16, addr: u64)
        ensures value { self.new ≡ after_write core addr self.old }
        ensures cores { length self.new ≡ length self.old }
    {
        if self.count != 0 {
            end_others(&mut self.list, core, addr);
            self.count = count(&self.list);
        }
    }

    /// Whether another core than this one has a mark on a line.
    #[inline(always)]
    pub(crate) fn others_on(&self, core: u16, line: u64) -> bool
        ensures { result ≡ is_marked_by_others self.now core line }
    {
        self.count != 0 && has_others_on(&self.list, core, line)
    }
}

/// Whether another core than this one has a mark on a line.
#[tactic(auto, unfolding(crate::specs::HomeState::is_marked_by_others))]
fn has_others_on(marks: &[Option<Reservation>], core: u16, line: u64) -> bool
    ensures { result ≡ is_marked_by_others marks.now core line }
{
    marks.iter().enumerate().any(|(number, mark)| number != usize::from(core)
        && is_on_line(line, mark))
}

fn is_on_line(line: u64, mark: &Option<Reservation>) -> bool
    ensures { result ≡ is_on_line line mark.now }
{
    match mark {
        Some(mark) => mark.addr / LINE == line,
        None => false,
    }
}

/// How many cores have a mark.
fn count(marks: &[Option<Reservation>]) -> usize
    ensures { result ≡ count_by is_some marks.now }
{
    marks.iter().filter(|mark| mark.is_some()).count()
}
