//! All workers beside each other.
ghost use Rattle.std.specs.Prelude.{◌≡◌, ◌+◌, ◌<◌, ◌≤◌, ℕ, [], All, length, map, slice_index_or, vec_capacity, vec_len, IfOk, OnOk};
ghost use Rattle.std.specs.Arc.{arc_value};
ghost use Rattle.noc_mesh.specs.NetTiming.{net_time};
ghost use Rattle.crew.specs.Crews.{free_seats};
ghost use Rattle.crew.specs.Sharing.{AreDone};
ghost use Rattle.bound_workers.specs.Team.{CanWork, HasWorked, Team};
ghost use Rattle.bound_workers.specs.Works.{AreCores, CanShare, HasShared};
ghost use Rattle.bound_workers.specs.declared.work.Work.TheVariants.{Cores};

use crate::share::Share;
use crate::team::Team;
use crate::work::Work;
use crew::{Asker, Post, do_all};
use machine_desc::Memory;
use noc_mesh::Net;
use parts_table::PartsTable;
use rv_blocks::DecodedProgram;
use std::alloc::Global;
use std::sync::{Arc, Wait};
use zs_host::Gate;
use zs_num::{Cycle, NoMemory};

/// All workers run their cores to the end of the interval: the first here, and each later one at
/// the post of the number before its own, or here where that takes none.
pub(crate) fn work_all<'a, R: Wait + Sync, G: Gate>(
    rt: &'a R,
    alloc: Global,
    gate: &'a G,
    posts: &[Post<Work<'a, R, G>>],
    askers: &mut [Asker<Work<'a, R, G>>],
    table: &Arc<PartsTable>,
    program: &'a DecodedProgram<'a>,
    net: &'a Net,
    memory: &'a Memory,
    end: Cycle,
    teams: &mut Vec<Team>,
) -> Result<(), NoMemory>
    requires askers { askers.old ≡ free_seats posts.now }
    requires few { (vec_len teams.old ≤ 64) × (vec_len teams.old ≤ length posts.now + 1) }
    requires can { All (CanWork (arc_value table.now) memory.now end) teams.old.items }
    ensures askers { askers.new ≡ askers.old }
    ensures count { OnOk result (vec_len teams.new ≡ vec_len teams.old) }
    ensures worked { OnOk result ((i : ℕ) (d : Team) → i < vec_len teams.old
        → HasWorked (λ e. net_time net.now.path e) program.now end (arc_value table.now) (slice_index_or teams.old.items i d) (slice_index_or teams.new.items i d)) }
{
    let shares = shares_of(rt, alloc, gate, table, program, net, memory, end, teams)?;
    let done = do_shares(rt, alloc, posts, askers, shares)?;
    take_teams(done, teams);
    Ok(())
}

/// All workers do their shares.
fn do_shares<'a, R: Wait + Sync, G: Gate>(
    rt: &R,
    alloc: Global,
    posts: &[Post<Work<'a, R, G>>],
    askers: &mut [Asker<Work<'a, R, G>>],
    shares: Vec<Share<'a, R, G>>,
) -> Result<Vec<Share<'a, R, G>>, NoMemory>
    requires askers { askers.old ≡ free_seats posts.now }
    requires few { vec_len shares ≤ length posts.now + 1 }
    requires can { All (λ s. CanShare s) shares.items }
    ensures askers { askers.new ≡ askers.old }
    ensures done { IfOk result (λ done. AreDone (λ s t. HasShared s t) shares.entry.items done.items) }
{
    let mut spare = Vec::with_capacity(alloc, shares.len())?;
    let mut jobs = jobs_of(alloc, shares)?;
    do_all(rt, posts, askers, &mut jobs);
    take_shares(jobs, &mut spare);
    Ok(spare)
}

/// Each share as what a worker is asked for.
fn jobs_of<'a, R: Wait + Sync, G: Gate>(
    alloc: Global,
    mut shares: Vec<Share<'a, R, G>>,
) -> Result<Vec<Work<'a, R, G>>, NoMemory>
    ensures { IfOk result (λ jobs. jobs.items ≡ map (λ s. Cores s) shares.entry.items) }
{
    let mut jobs = Vec::with_capacity(alloc, shares.len())?;
    while !shares.is_empty() {
        jobs.push_reserved(Work::Cores(shares.remove(0)));
    }
    Ok(jobs)
}

/// Takes the shares out, for which there is room.
fn take_shares<'a, R: Wait + Sync, G: Gate>(
    mut jobs: Vec<Work<'a, R, G>>,
    shares: &mut Vec<Share<'a, R, G>>,
)
    requires shares { All (λ w. AreCores w) jobs.items }
    requires none { shares.old.items ≡ [] }
    requires room { vec_len jobs ≤ vec_capacity shares.old }
    ensures { map (λ s. Cores s) shares.new.items ≡ jobs.entry.items }
{
    while !jobs.is_empty() {
        let Work::Cores(share) = jobs.remove(0) else {
            unreachable!()
        };
        shares.push_reserved(share);
    }
}

/// A share for each worker, which takes its cores.
fn shares_of<'a, R: Wait + Sync, G: Gate>(
    rt: &'a R,
    alloc: Global,
    gate: &'a G,
    table: &Arc<PartsTable>,
    program: &'a DecodedProgram<'a>,
    net: &'a Net,
    memory: &'a Memory,
    end: Cycle,
    teams: &mut Vec<Team>,
) -> Result<Vec<Share<'a, R, G>>, NoMemory>
    requires few { vec_len teams.old ≤ 64 }
    ensures teams { IfOk result (λ shares. map (λ s. s.team) shares.items ≡ teams.old.items) }
    ensures tables { IfOk result (λ shares. All (λ s. arc_value s.table ≡ arc_value table.now) shares.items) }
    ensures programs { IfOk result (λ shares. All (λ s. s.program.now ≡ program.now) shares.items) }
    ensures nets { IfOk result (λ shares. All (λ s. s.net.now ≡ net.now) shares.items) }
    ensures memories { IfOk result (λ shares. All (λ s. s.memory.now ≡ memory.now) shares.items) }
    ensures ends { IfOk result (λ shares. All (λ s. s.end ≡ end) shares.items) }
    ensures none { OnOk result (teams.new.items ≡ []) }
    ensures room { OnOk result (vec_capacity teams.new ≡ vec_capacity teams.old) }
{
    let mut shares = Vec::with_capacity(alloc, teams.len())?;
    while !teams.is_empty() {
        let team = teams.remove(0);
        let worker = shares.len() as u16;
        shares.push_reserved(Share {
            rt,
            gate,
            table: Arc::try_clone(table)?,
            program,
            net,
            memory,
            end,
            worker,
            team,
        });
    }
    Ok(shares)
}

/// Takes the workers' cores back.
fn take_teams<'a, R: Wait + Sync, G: Gate>(mut shares: Vec<Share<'a, R, G>>, teams: &mut Vec<Team>)
    requires none { teams.old.items ≡ [] }
    requires room { vec_len shares ≤ vec_capacity teams.old }
    ensures { teams.new.items ≡ map (λ s. s.team) shares.entry.items }
{
    while !shares.is_empty() {
        let Share { team, .. } = shares.remove(0);
        teams.push_reserved(team);
    }
}
