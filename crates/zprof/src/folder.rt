//! The files of a profile.
ghost use Rattle.std.specs.Prelude.{◌≡◌, ◌≤◌, ◌∷◌, [], codes, IfOk, List, length};
ghost use Rattle.std.specs.List.{flat_map};
ghost use Rattle.machine_desc.specs.Components.{component_count};
ghost use Rattle.machine_desc.specs.Machine.{IsMachine};
ghost use Rattle.profile.specs.Listed.{AreAddressRows};
ghost use Rattle.profile.specs.Profiled.{series_in};
ghost use Rattle.profile.specs.Series.{AreSeries};
ghost use Rattle.profile_files.specs.CallgrindFile.{callgrind_text};
ghost use Rattle.profile_files.specs.HaltsFile.{halts_text};
ghost use Rattle.profile_files.specs.LinesFile.{lines_text};
ghost use Rattle.profile_files.specs.SeriesFile.{series_text};
ghost use Rattle.profile_rows.specs.declared.address_row.AddressRow.{AddressRow};
ghost use Rattle.profile_rows.specs.declared.halt_row.HaltRow.{HaltRow};
ghost use Rattle.profile_rows.specs.declared.line_row.LineRow.{LineRow};
ghost use Rattle.profile_rows.specs.declared.series_row.SeriesRow.{SeriesRow};
ghost use Rattle.reference.specs.Results.{HasCounts};
ghost use Rattle.zsim.specs.Outputs.{named_file};
ghost use Rattle.zsim.specs.Steps.{output_list};
ghost use Rattle.zprof.specs.CommandValue.{profiling_value};
ghost use Rattle.zprof.specs.HaltRows.{AreHaltRows};
ghost use Rattle.zprof.specs.LinesUsed.{AreLinesUsed};
ghost use Rattle.zprof.specs.ProfileFiles.{AreFilesOf, in_folder, profile_of};

use crate::command_line::Profiling;
use crate::halt_rows::halt_rows;
use crate::lines_used::lines_used;
use crate::named_file::NamedFile;
use crate::watched::Watched;
use last_jumps::LastJumps;
use line_use::LineUse;
use machine_desc::Machine;
use profile::Profile;
use profile_files::{callgrind, halts, lines, series};
use replay::Final;
use std::alloc::Global;
use zs_num::NoMemory;
use zsim::steps::OutputFile;

/// The files of a profile.
#[derive(Drop)]
pub struct Folder {
    callgrind: NamedFile,
    lines: NamedFile,
    series: NamedFile,
    halts: NamedFile,
}

impl Folder {
    /// Those of a run that was watched and gave these results.
    pub fn of(
        alloc: Global,
        machine: &Machine,
        command: &Profiling<'_>,
        results: &Final,
        watched: &Watched,
    ) -> Result<Folder, NoMemory>
        requires machine { IsMachine machine.now }
        requires counted { HasCounts machine.now results.now }
        requires profile { watched.now.first ≡ profile_of machine.now command.now.every watched.now.first.steps }
        ensures { IfOk result (λ folder. AreFilesOf machine.now (profiling_value command.now) watched.now.first.steps results.now (folder.callgrind ∷ folder.lines ∷ folder.series ∷ folder.halts ∷ [])) }
    {
        if !watched.is_whole() || !watched.second().is_whole() {
            return Err(NoMemory);
        }
        let (folder, profile) = (command.folder, watched.first());
        let (uses, jumps) = (watched.second().first(), watched.second().second());
        let callgrind = callgrind_file(alloc, folder, profile, command.separate)?;
        let lines = lines_file(alloc, folder, profile, uses)?;
        let series = series_file(alloc, machine, folder, profile)?;
        let halts = halts_file(alloc, folder, results, jumps)?;
        Ok(Folder {
            callgrind,
            lines,
            series,
            halts,
        })
    }

    /// The files in the order in which they are written.
    pub fn outputs(&self) -> [Option<OutputFile<'_>>; 4]
        ensures { flat_map output_list result ≡ self.now.callgrind ∷ self.now.lines ∷ self.now.series ∷ self.now.halts ∷ [] }
    {
        [
            Some(self.callgrind.output()),
            Some(self.lines.output()),
            Some(self.series.output()),
            Some(self.halts.output()),
        ]
    }
}

/// What was counted of each instruction.
fn callgrind_file(
    alloc: Global,
    folder: &str,
    profile: &Profile,
    separate: bool,
) -> Result<NamedFile, NoMemory>
    ensures { IfOk result (λ file. (rows : List AddressRow) × AreAddressRows profile.now separate rows × (file ≡ named_file (in_folder folder.now (codes "callgrind.out")) (callgrind_text rows))) }
{
    let rows = profile.address_rows(alloc, separate)?;
    let text = callgrind(alloc, &rows)?;
    NamedFile::of(alloc, folder, "callgrind.out", text)
}

/// What was counted of each line.
fn lines_file(
    alloc: Global,
    folder: &str,
    profile: &Profile,
    uses: &LineUse,
) -> Result<NamedFile, NoMemory>
    requires { uses.now ≡ profile.now.steps }
    ensures { IfOk result (λ file. (rows : List LineRow) × AreLinesUsed profile.now rows × (file ≡ named_file (in_folder folder.now (codes "lines.csv")) (lines_text rows))) }
{
    let rows = lines_used(alloc, profile, uses)?;
    let text = lines(alloc, &rows)?;
    NamedFile::of(alloc, folder, "lines.csv", text)
}

/// What was counted of intervals.
fn series_file(
    alloc: Global,
    machine: &Machine,
    folder: &str,
    profile: &Profile,
) -> Result<NamedFile, NoMemory>
    requires machine { IsMachine machine.now }
    requires comps { profile.now.comps ≡ component_count machine.now }
    ensures { IfOk result (λ file. (rows : List SeriesRow) × AreSeries (series_in profile.now).rows rows × (file ≡ named_file (in_folder folder.now (codes "series.csv")) (series_text machine.now rows))) }
{
    let text = series(alloc, machine, profile.series())?;
    NamedFile::of(alloc, folder, "series.csv", text)
}

/// Where each core was at the end.
fn halts_file(
    alloc: Global,
    folder: &str,
    results: &Final,
    jumps: &LastJumps,
) -> Result<NamedFile, NoMemory>
    requires { length results.now.cores ≤ 256 }
    ensures { IfOk result (λ file. (rows : List HaltRow) × AreHaltRows jumps.now results.now.cores rows × (file ≡ named_file (in_folder folder.now (codes "halts.txt")) (halts_text rows))) }
{
    let rows = halt_rows(alloc, results, jumps)?;
    let text = halts(alloc, &rows)?;
    NamedFile::of(alloc, folder, "halts.txt", text)
}
