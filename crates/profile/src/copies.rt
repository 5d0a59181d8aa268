//! What there is of a core's copy of a line.
ghost use Rattle.std.specs.Prelude.{◌≡◌, ◌==◌, ◌<◌, ◌||◌, ℕ, Bool, [], if◌then◌else◌, OnOk, count_by, is_some, length, true};
ghost use Rattle.std.specs.List.{range_with_len};
ghost use Rattle.zs_num.specs.Request.{is_fetch, line_of};
ghost use Rattle.profile.specs.Copies.{changes_others, copy_after, has_other, invalidates, is_held, is_of, is_others, is_this, left, left_l2, made_room, no_copies, reads, taken_away, when_taken, when_used, writes, downgrades, own_copy};
ghost use Rattle.profile.specs.CopyTables.{all_left, copies_in, is_spared, one_left};
ghost use Rattle.sparse_table.specs.ByCore.{value_at};
ghost use Rattle.stats.specs.Counted.{is_hit};

use shard::Leaving;
use sparse_table::SparseTable;
use sparse_table::by_core::{set_at, set_there, value_at};
use std::alloc::Global;
use zs_num::{Entry, NoMemory, Outcome, Request};

/// Why a copy left a core's own cache.
#[derive(Clone, Copy)]
pub enum Leave {
    /// Another core wrote to the line.
    Coherence,
    /// The line left the L2.
    Inclusion,
    /// It made room in the core's own cache.
    Eviction,
}

/// What there is of a copy.
#[derive(Clone, Copy)]
pub enum CopyState {
    /// The core never had one.
    Never,
    Held,
    /// The last one left.
    Gone(Leave),
}

impl CopyState {
    /// What there is of it once it left, if it was there.
    fn left(self, why: Leave) -> CopyState
        ensures { result ≡ left why self }
    {
        match self {
            CopyState::Never => CopyState::Never,
            CopyState::Held => CopyState::Gone(why),
            CopyState::Gone(earlier) => CopyState::Gone(earlier),
        }
    }

    fn is_held(self) -> bool
        ensures { result ≡ is_held self }
    {
        matches!(self, CopyState::Held)
    }
}

/// The copy of a line leaves a core's cache.
#[inline(never)]
fn leave_one(
    alloc: Global,
    tables: &mut Vec<SparseTable<CopyState>>,
    core: u16,
    line: u64,
    why: Leave,
) -> Result<(), NoMemory>
    ensures { OnOk result ((c n : ℕ) → value_at CopyState.Never tables.new.items c n ≡ one_left why core line (value_at CopyState.Never tables.old.items) c n) }
{
    let copy = value_at(tables, CopyState::Never, core, line).left(why);
    set_at(alloc, tables, CopyState::Never, core, line, copy)
}

/// The copies of a line leave the caches of all cores, but for one.
#[inline(never)]
fn leave_all(
    tables: &mut Vec<SparseTable<CopyState>>,
    spared: Option<u16>,
    line: u64,
    why: Leave,
) -> Result<(), NoMemory>
    ensures { OnOk result ((c n : ℕ) → value_at CopyState.Never tables.new.items c n ≡ all_left why spared line (value_at CopyState.Never tables.old.items) c n) }
{
    for core in 0..tables.len() {
        leave_there(tables, spared, core, line, why)?;
    }
    Ok(())
}

/// That of this core leaves, if it is not that one.
fn leave_there(
    tables: &mut Vec<SparseTable<CopyState>>,
    spared: Option<u16>,
    core: usize,
    line: u64,
    why: Leave,
) -> Result<(), NoMemory>
    requires { core < length tables.old.items }
    ensures ok { OnOk result ((c n : ℕ) → value_at CopyState.Never tables.new.items c n ≡ (if core == c then all_left why spared line (value_at CopyState.Never tables.old.items) c n else value_at CopyState.Never tables.old.items c n)) }
    ensures count { length tables.new.items ≡ length tables.old.items }
{
    if is_spared(spared, core) {
        return Ok(());
    }
    let copy = tables[core].get(line);
    set_there(tables, CopyState::Never, core, line, copy.left(why))?;
    Ok(())
}

fn is_spared(spared: Option<u16>, core: usize) -> bool
    ensures { result ≡ is_spared spared core }
{
    match spared {
        Some(spared) => usize::from(spared) == core,
        None => false,
    }
}

/// The copies of all cores: those of data, and those of instructions.
#[derive(Drop)]
pub(crate) struct Copies {
    pub(crate) of_data: Vec<SparseTable<CopyState>>,
    pub(crate) of_instructions: Vec<SparseTable<CopyState>>,
}

impl Copies {
    /// No core ever had one.
    pub(crate) fn new(alloc: Global) -> Copies
        ensures { copies_in result.of_data.items result.of_instructions.items ≡ no_copies }
    {
        Copies {
            of_data: Vec::new(alloc),
            of_instructions: Vec::new(alloc),
        }
    }

    /// A core's copy of a line.
    #[inline(always)]
    fn copy(&self, fetching: bool, core: u16, line: u64) -> CopyState
        ensures { result ≡ copies_in self.now.of_data.items self.now.of_instructions.items fetching core line }
    {
        if fetching {
            value_at(&self.of_instructions, CopyState::Never, core, line)
        } else {
            value_at(&self.of_data, CopyState::Never, core, line)
        }
    }

    /// What the core of an access has of its line.
    #[inline(always)]
    pub(crate) fn own(&self, entry: &Entry) -> CopyState
        ensures { result ≡ own_copy (copies_in self.now.of_data.items self.now.of_instructions.items) entry.now }
    {
        self.copy(entry.request.is_fetch(), entry.core, entry.request.line())
    }

    /// How many copies of other cores an access takes away.
    pub(crate) fn taken_away(&self, cores: u16, entry: &Entry) -> u64
        ensures { result ≡ taken_away cores (copies_in self.now.of_data.items self.now.of_instructions.items) entry.now }
    {
        if invalidates(entry) {
            others(&self.of_data, cores, entry.core, entry.request.line())
        } else {
            0
        }
    }

    /// A line leaves the L2.
    #[inline(always)]
    fn leave_l2(&mut self, shared: Option<u64>) -> Result<(), NoMemory>
        ensures { OnOk result ((f : Bool) (c n : ℕ) → copies_in self.new.of_data.items self.new.of_instructions.items f c n ≡ left_l2 shared n (copies_in self.old.of_data.items self.old.of_instructions.items f c n)) }
    {
        let Some(line) = shared else {
            return Ok(());
        };
        leave_all(&mut self.of_data, None, line, Leave::Inclusion)?;
        leave_all(&mut self.of_instructions, None, line, Leave::Inclusion)?;
        Ok(())
    }

    /// A line makes room in a cache of a core.
    #[inline(always)]
    fn make_room(
        &mut self,
        alloc: Global,
        fetching: bool,
        core: u16,
        room: Option<u64>,
    ) -> Result<(), NoMemory>
        ensures { OnOk result ((f : Bool) (c n : ℕ) → copies_in self.new.of_data.items self.new.of_instructions.items f c n ≡ made_room (is_of fetching core f c) (is_this room n) (copies_in self.old.of_data.items self.old.of_instructions.items f c n)) }
    {
        let Some(line) = room else {
            return Ok(());
        };
        if fetching {
            leave_one(
                alloc,
                &mut self.of_instructions,
                core,
                line,
                Leave::Eviction,
            )?;
        } else {
            leave_one(alloc, &mut self.of_data, core, line, Leave::Eviction)?;
        }
        Ok(())
    }

    /// A write takes a line away from other cores, if it does.
    #[inline(always)]
    fn take_away(&mut self, writes: bool, core: u16, line: u64) -> Result<(), NoMemory>
        ensures { OnOk result ((f : Bool) (c n : ℕ) → copies_in self.new.of_data.items self.new.of_instructions.items f c n ≡ when_taken writes (is_others core f c) (line == n) (copies_in self.old.of_data.items self.old.of_instructions.items f c n)) }
    {
        if !writes {
            return Ok(());
        }
        leave_all(&mut self.of_data, Some(core), line, Leave::Coherence)?;
        Ok(())
    }

    /// A core has a line. It mostly has it already, and then nothing is written.
    #[inline(always)]
    fn hold(&mut self, alloc: Global, fetching: bool, core: u16, line: u64) -> Result<(), NoMemory>
        ensures { OnOk result ((f : Bool) (c n : ℕ) → copies_in self.new.of_data.items self.new.of_instructions.items f c n ≡ when_used (is_of fetching core f c) (line == n) (copies_in self.old.of_data.items self.old.of_instructions.items f c n)) }
    {
        if self.copy(fetching, core, line).is_held() {
            return Ok(());
        }
        self.take_in(alloc, fetching, core, line)
    }

    /// A core takes a line in.
    #[inline(never)]
    fn take_in(
        &mut self,
        alloc: Global,
        fetching: bool,
        core: u16,
        line: u64,
    ) -> Result<(), NoMemory>
        ensures { OnOk result ((f : Bool) (c n : ℕ) → copies_in self.new.of_data.items self.new.of_instructions.items f c n ≡ when_used (is_of fetching core f c) (line == n) (copies_in self.old.of_data.items self.old.of_instructions.items f c n)) }
    {
        if fetching {
            set_at(
                alloc,
                &mut self.of_instructions,
                CopyState::Never,
                core,
                line,
                CopyState::Held,
            )?;
        } else {
            set_at(
                alloc,
                &mut self.of_data,
                CopyState::Never,
                core,
                line,
                CopyState::Held,
            )?;
        }
        Ok(())
    }

    /// What there is of all copies after an access, for which these lines left.
    #[inline(always)]
    pub(crate) fn pass(
        &mut self,
        alloc: Global,
        entry: &Entry,
        leaving: &Leaving,
    ) -> Result<(), NoMemory>
        ensures { OnOk result ((f : Bool) (c n : ℕ) → copies_in self.new.of_data.items self.new.of_instructions.items f c n ≡ copy_after entry.now leaving.now f c n (copies_in self.old.of_data.items self.old.of_instructions.items f c n)) }
    {
        let fetching = entry.request.is_fetch();
        let line = entry.request.line();
        let writes = invalidates(entry);
        self.leave_l2(leaving.shared)?;
        self.make_room(alloc, fetching, entry.core, leaving.own)?;
        self.take_away(writes, entry.core, line)?;
        self.hold(alloc, fetching, entry.core, line)?;
        Ok(())
    }

    /// The same of a hit. It takes no copy of another core away, and where no line left for it, which
    /// is nearly always so, it only makes sure that the core has its own.
    #[inline(always)]
    pub(crate) fn pass_hit(
        &mut self,
        alloc: Global,
        entry: &Entry,
        leaving: &Leaving,
    ) -> Result<(), NoMemory>
        requires { is_hit entry.now.outcome ≡ true }
        ensures { OnOk result ((f : Bool) (c n : ℕ) → copies_in self.new.of_data.items self.new.of_instructions.items f c n ≡ copy_after entry.now leaving.now f c n (copies_in self.old.of_data.items self.old.of_instructions.items f c n)) }
    {
        if names_line(leaving) {
            return self.pass_leaving(alloc, entry, leaving);
        }
        self.hold(
            alloc,
            entry.request.is_fetch(),
            entry.core,
            entry.request.line(),
        )?;
        Ok(())
    }

    /// The same of an access for which lines left. It stands apart, so that a hit for which none left
    /// is short.
    #[inline(never)]
    fn pass_leaving(
        &mut self,
        alloc: Global,
        entry: &Entry,
        leaving: &Leaving,
    ) -> Result<(), NoMemory>
        ensures { OnOk result ((f : Bool) (c n : ℕ) → copies_in self.new.of_data.items self.new.of_instructions.items f c n ≡ copy_after entry.now leaving.now f c n (copies_in self.old.of_data.items self.old.of_instructions.items f c n)) }
    {
        self.pass(alloc, entry, leaving)
    }
}

/// Whether a line leaves a cache.
#[inline(always)]
fn names_line(leaving: &Leaving) -> bool
    ensures { result ≡ (is_some leaving.now.own || is_some leaving.now.shared) }
{
    leaving.own.is_some() || leaving.shared.is_some()
}

/// Whether it has to be alone with the line.
#[inline(always)]
pub(crate) fn writes(request: &Request) -> bool
    ensures { result ≡ writes request.now }
{
    matches!(
        request,
        Request::Store { .. } | Request::Sc { .. } | Request::Amo { .. }
    )
}

/// Whether it reads data.
#[inline(always)]
pub(crate) fn reads(request: &Request) -> bool
    ensures { result ≡ reads request.now }
{
    matches!(request, Request::Load { .. } | Request::Lr { .. })
}

/// Whether copies of other cores were changed for it.
#[inline(always)]
pub(crate) fn changes_others(outcome: &Outcome) -> bool
    ensures { result ≡ changes_others outcome.now }
{
    match *outcome {
        Outcome::Hit => false,
        Outcome::Upgrade { others } => others,
        Outcome::L2 { others } => others,
        Outcome::Miss { .. } => false,
    }
}

/// Whether an access took copies of other cores away.
#[inline(always)]
pub(crate) fn invalidates(entry: &Entry) -> bool
    ensures { result ≡ invalidates entry.now }
{
    writes(&entry.request) && changes_others(&entry.outcome)
}

/// Whether it had one of another core downgraded.
pub(crate) fn downgrades(entry: &Entry) -> bool
    ensures { result ≡ downgrades entry.now }
{
    reads(&entry.request) && changes_others(&entry.outcome)
}

/// How many other cores than this one have a copy of a line for data.
pub(crate) fn others(of_data: &Vec<SparseTable<CopyState>>, cores: u16, core: u16, line: u64) -> u64
    ensures { result ≡ count_by (λ other. has_other (copies_in of_data.now.items []) core line other) (range_with_len 0 cores) }
{
    let mut count = 0;
    for other in 0..cores {
        if is_other(of_data, core, line, other) {
            count += 1;
        }
    }
    count
}

pub(crate) fn is_other(
    of_data: &Vec<SparseTable<CopyState>>,
    core: u16,
    line: u64,
    other: u16,
) -> bool
    ensures { result ≡ has_other (copies_in of_data.now.items []) core line other }
{
    core != other && value_at(of_data, CopyState::Never, other, line).is_held()
}
