//! Writes an events file, interval by interval.
ghost use Rattle.std.specs.Prelude.{◌≡◌, ◌+◌, ◌-◌, ◌*◌, ◌<◌, ◌≤◌, ◌^◌, List, [], ◌∷◌, ◌++◌, All, length, vec_len, vec_capacity, take, drop, IfOk, OnOk, OnErr};
ghost use Rattle.byteorder.specs.Endian.{little_bytes};
ghost use Rattle.certify.specs.EventsFile.{header_bytes, interval_bytes, record_bytes, with_time, with_times};
ghost use Rattle.certify.specs.SoFar.{AreFiringsOf, events_so_far, file_bytes};

use crate::record::{RECORD_LEN, record_of};
use crate::{MAGIC, VERSION};
use byteorder::{ByteOrder, LittleEndian};
use event_graph::{Event, Fired, FiredList, Graph};
use std::alloc::Global;
use std::marker::Model;
use zs_num::NoMemory;

/// Where the header names how many intervals there are.
const COUNT_AT: usize = 12;

/// The events file of a run as far as it came: of so many components, with the intervals that were
/// added.
#[derive(Drop)]
pub struct EventsFile {
    components: u16,
    intervals: u32,
    bytes: Vec<u8>,
}

impl Model for EventsFile {
    ghost use Rattle.std.specs.Prelude.{◌≡◌, take, drop};
    ghost use Rattle.certify.specs.EventsFile.{header_bytes};
    ghost use Rattle.certify.specs.SoFar.{EventsSoFar};

    ghost Value = { EventsSoFar };

    ghost view = { λ f. record { components = f.components; count = f.intervals; body = drop 16 f.bytes.items } };

    ghost invariant = { λ f. take 16 f.bytes.items ≡ header_bytes f.components f.intervals };
}

impl EventsFile {
    /// A file for so many components, with no intervals.
    pub fn new(alloc: Global, components: u16) -> Result<Self, NoMemory>
        ensures { IfOk result (λ f. f ≡ events_so_far components []) }
    {
        let bytes = header(alloc, components)?;
        Ok(EventsFile {
            components,
            intervals: 0,
            bytes,
        })
    }

    /// Adds an interval: the events of a graph, each with the start and the finish at which it
    /// fired. A cycle of 2^60 or more is written, and refused when the file is read. Where memory
    /// runs out the file is as it was.
    pub fn add(&mut self, graph: &Graph, fired: &FiredList) -> Result<(), NoMemory>
        requires few { length graph.now < 2 ^ 32 }
        requires fired { AreFiringsOf graph.now fired.now }
        requires there { All (λ e. e.component < self.old.components) graph.now }
        requires room { self.old.count < 2 ^ 32 - 1 }
        ensures ok { OnOk result (self.new ≡ record { components = self.old.components; count = self.old.count + 1; body = self.old.body ++ interval_bytes (with_times graph.now fired.now) }) }
        ensures err { OnErr result (self.new ≡ self.old) }
    {
        let events = graph.events();
        self.bytes.reserve(4 + RECORD_LEN * events.len())?;
        put_interval(&mut self.bytes, events, fired.as_slice());
        self.intervals += 1;
        put_count(&mut self.bytes, self.intervals);
        Ok(())
    }

    /// The bytes of the file.
    pub fn bytes(&self) -> &[u8]
        ensures { result.now ≡ file_bytes self.now }
    {
        &self.bytes
    }
}

/// The magic, the version, how many components there are, and no intervals.
#[tactic(auto, unfolding(crate::specs::EventsFile::header_bytes))]
fn header(alloc: Global, components: u16) -> Result<Vec<u8>, NoMemory>
    ensures { IfOk result (λ out. out.items ≡ header_bytes components 0) }
{
    let mut out = Vec::from_slice(alloc, &MAGIC)?;
    out.extend_from_slice(&VERSION.to_le_bytes())?;
    out.extend_from_slice(&u32::from(components).to_le_bytes())?;
    out.extend_from_slice(&0u32.to_le_bytes())?;
    Ok(out)
}

/// Writes into the header how many intervals there are.
fn put_count(bytes: &mut [u8], intervals: u32)
    requires { 16 ≤ length bytes.old }
    ensures { bytes.new ≡ take 12 bytes.old ++ (little_bytes 4 intervals ++ drop 16 bytes.old) }
{
    LittleEndian::write_u32(&mut bytes[COUNT_AT..], intervals);
}

/// How many events an interval has, and these. There is room for them.
fn put_interval(out: &mut Vec<u8>, events: &[Event], fired: &[Fired])
    requires few { length events.now < 2 ^ 32 }
    requires fired { length fired.now ≡ length events.now }
    requires room { vec_len out.old + (4 + 64 * length events.now) ≤ vec_capacity out.old }
    ensures { out.new.items ≡ out.old.items ++ interval_bytes (with_times events.now fired.now) }
{
    put(out, &(events.len() as u32).to_le_bytes());
    for k in 0..events.len() {
        put(out, &record_of(&events[k], &fired[k]));
    }
}

/// Bytes for which there is room.
fn put(out: &mut Vec<u8>, bytes: &[u8])
    requires { vec_len out.old + length bytes.now ≤ vec_capacity out.old }
    ensures items { out.new.items ≡ out.old.items ++ bytes.now }
    ensures len { vec_len out.new ≡ vec_len out.old + length bytes.now }
    ensures room { vec_capacity out.old ≤ vec_capacity out.new }
{
    if out.extend_from_slice(bytes).is_err() {
        unreachable!()
    }
}
