//! The events file of a run, as it grows.
ghost use Rattle.std.specs.Prelude.{◌≡◌, ◌<◌, ◌≤◌, ◌^◌, ◌++◌, ◌∷◌, ℕ, List, [], All, IfOk, MatchOption, OnOk, false, is_some, length, true};
ghost use Rattle.machine_desc.specs.declared.machine.Machine.{Machine};
ghost use Rattle.machine_desc.specs.Components.{component_count};
ghost use Rattle.machine_desc.specs.Machine.{IsMachine};
ghost use Rattle.elf_load.specs.MemoryImage.{MemoryImage};
ghost use Rattle.certify.specs.SoFar.{AreFiringsOf};
ghost use Rattle.stats.specs.Counts.{Interval};
ghost use Rattle.run.specs.Recording.{IsRecordedRun, IsRecordingOf, IsRecordingSoFar, is_on, stays_short};
ghost use Rattle.reference.specs.RunEvents.{IsEventsFileOf, events_limit};

use crate::limits::EVENTS_LIMIT;
use certify::EventsFile;
use event_graph::{FiredList, Graph};
use machine_desc::{Machine, component_count};
use std::alloc::Global;
use zs_num::NoMemory;

/// The events file of a run as far as it came.
#[derive(Drop)]
pub enum Recording {
    /// No events are kept.
    Off,
    /// They are kept in this file, which has 2^28 bytes at most.
    On(EventsFile),
    /// Their file would have more than 2^28 bytes, and is not kept.
    TooLong,
}

impl Recording {
    /// A recording of the events on a machine's components, of no interval yet.
    pub fn new(alloc: Global, machine: &Machine) -> Result<Self, NoMemory>
        requires { IsMachine machine.now }
        ensures { IfOk result (λ recording. IsRecordingOf machine.now [] recording × (is_on recording ≡ true)) }
    {
        certify::laws::files_have_this_length();
        let file = EventsFile::new(alloc, component_count(machine))?;
        Ok(Recording::On(file))
    }

    /// Keeps the events of an interval more, which fired so. A file that would be too long is let go
    /// of.
    pub fn keep(&mut self, graph: &Graph, fired: &FiredList) -> Result<(), NoMemory>
        requires fired { AreFiringsOf graph.now fired.now }
        requires few { length graph.now < 2 ^ 32 }
        requires there { (machine : Machine) × IsRecordingSoFar machine self.old × All (λ e. e.component < component_count machine) graph.now }
        ensures added { OnOk result ((machine : Machine) (intervals : List Interval) (i : Interval) → i.events ≡ graph.now → i.fired ≡ fired.now → IsRecordingOf machine intervals self.old → IsRecordingOf machine (intervals ++ i ∷ []) self.new) }
        ensures on { is_on self.new ≡ is_on self.old }
    {
        certify::laws::files_have_this_length();
        if !self.stays_short(graph.events().len()) {
            *self = Recording::TooLong;
            return Ok(());
        }
        if let Recording::On(file) = self {
            file.add(graph, fired)?;
        }
        Ok(())
    }

    /// Whether events are kept, be it in vain.
    pub fn is_on(&self) -> bool
        ensures { result ≡ is_on self.now }
    {
        match self {
            Recording::Off => false,
            Recording::On(_) | Recording::TooLong => true,
        }
    }

    /// The bytes of the file that is kept, and none where no events are. None where it would be too
    /// long.
    pub fn bytes(&self) -> Option<&[u8]>
        ensures kept { (machine : Machine) (image : MemoryImage) (lists : List (List ℕ)) → IsRecordedRun machine image lists self.now → is_on self.now ≡ true
            → MatchOption result ((events : List ℕ) × IsEventsFileOf machine image lists events × (events_limit < length events)) (λ bytes. IsEventsFileOf machine image lists bytes.now × (length bytes.now ≤ events_limit)) }
        ensures off { is_on self.now ≡ false → is_some result ≡ true }
    {
        match self {
            Recording::Off => Some(b"".as_slice()),
            Recording::On(file) => Some(file.bytes()),
            Recording::TooLong => None,
        }
    }

    /// Whether a file that is kept stays within its limit with so many events more.
    fn stays_short(&self, events: usize) -> bool
        requires few { events < 2 ^ 32 }
        requires so_far { (machine : Machine) × IsRecordingSoFar machine self.now }
        ensures { result ≡ stays_short self.now events }
    {
        match self {
            Recording::On(file) => file.bytes().len() + 4 + 64 * events <= EVENTS_LIMIT,
            _ => true,
        }
    }
}
