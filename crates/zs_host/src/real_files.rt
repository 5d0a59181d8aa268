//! The files of the system.
ghost use Rattle.std.specs.Prelude.{◌≡◌, ◌≤◌, ◌<◌, None, false, take, vec_len, IfOk, IfErr, OnErr, IfSome};
ghost use Rattle.std.specs.Io.KnownBytes.{IsAtEnd, Keeps};
ghost use Rattle.std.specs.IoError.{error_kind};
ghost use Rattle.std.specs.Option.{option_copied};
ghost use Rattle.zs_host.specs.Reading.{ReadsBehind};
ghost use Rattle.zs_host.specs.RealFiles.{failed_calls, latest_failed};

use crate::fault_log::FaultLog;
use crate::{Fault, FileFail, Files, Operation};
use std::alloc::Global;
use std::fs::File;
use std::io;
use std::io::{ErrorKind, Read, Write};
use std::rt::Files as System;
use zs_num::Bytes;

/// How many bytes are read at a time.
const CHUNK: usize = 8192;

/// The files of the system, which tell no contents.
#[derive(Drop)]
pub struct RealFiles<S> {
    system: S,
    faults: FaultLog,
}

impl<S: System> RealFiles<S> {
    /// Files of which no call failed so far.
    pub fn new(system: S) -> Self
        ensures count { failed_calls result ≡ 0 }
        ensures latest { latest_failed result ≡ None }
    {
        RealFiles {
            system,
            faults: FaultLog::new(),
        }
    }

    /// How many calls failed.
    pub fn fault_count(&self) -> u64
        ensures { result ≡ failed_calls self.now }
    {
        self.faults.count
    }

    /// The latest call that failed, or None before the first.
    pub fn latest_fault(&self) -> Option<&Fault>
        ensures { option_copied result ≡ latest_failed self.now }
    {
        self.faults.latest.as_ref()
    }
}

impl<S: System> Files for RealFiles<S> {
    ghost is_seen = { false };

    ghost contents = { λ _ _. None };

    ghost faults = { λ f. failed_calls f };

    ghost latest = { λ f. latest_failed f };

    fn read(&mut self, alloc: Global, name: &str, most: usize) -> Result<Bytes, FileFail> {
        let copy = Bytes::from_slice(alloc, name.as_bytes())?;
        match read_file(&self.system, alloc, name, most) {
            Ok(bytes) => Ok(Bytes::of(bytes)),
            Err(error) => Err(self.faults.answer(error, Operation::Read, copy)),
        }
    }

    fn write(&mut self, alloc: Global, name: &str, bytes: &[u8]) -> Result<(), FileFail> {
        let copy = Bytes::from_slice(alloc, name.as_bytes())?;
        match write_file(&self.system, name, bytes) {
            Ok(()) => Ok(()),
            Err(error) => Err(self.faults.answer(error, Operation::Write, copy)),
        }
    }
}

fn read_file<S: System>(system: &S, alloc: Global, name: &str, most: usize) -> io::Result<Vec<u8>>
    ensures { IfOk result (λ bytes. vec_len bytes ≤ most) }
{
    let mut file = File::open(system, name)?;
    read_first(&mut file, alloc, most)
}

/// Reads `most` bytes, or to the end where there are fewer.
fn read_first<R: Read>(reader: &mut R, alloc: Global, most: usize) -> io::Result<Vec<u8>>
    ensures bound { IfOk result (λ bytes. vec_len bytes ≤ most) }
    ensures first { IfOk result (λ bytes. IfSome (R.remaining reader.old) (λ xs. bytes.items ≡ take most xs)) }
{
    let mut bytes = Vec::new(alloc);
    'pieces: for _ in 0..u64::MAX {
        if bytes.len() == most {
            return Ok(bytes);
        }
        let room = most - bytes.len();
        match read_piece(reader, &mut bytes, room) {
            Ok(0) => return Ok(bytes),
            Ok(_) => {}
            Err(error) if error.kind() == ErrorKind::Interrupted => {}
            Err(error) => return Err(error),
        }
    }
    Err(io::Error::from(ErrorKind::Interrupted))
}

/// Reads a piece of at most `room` bytes, puts it behind the others, and answers its length. It is
/// empty only at the end. A read that was interrupted took nothing.
fn read_piece<R: Read>(reader: &mut R, bytes: &mut Vec<u8>, room: usize) -> io::Result<usize>
    requires { 0 < room }
    ensures piece { IfOk result (λ n. ReadsBehind (R.remaining reader.old) (R.remaining reader.new) bytes.old.items bytes.new.items n room) }
    ensures end { IfOk result (λ n. n ≡ 0 → IsAtEnd (R.remaining reader.new)) }
    ensures unchanged { OnErr result (bytes.new.items ≡ bytes.old.items) }
    ensures interrupted { IfErr result (λ e. error_kind e ≡ ErrorKind.Interrupted → Keeps (R.remaining reader.old) (R.remaining reader.new)) }
{
    let mut chunk = [0; CHUNK];
    let end = room.min(CHUNK);
    let count = reader.read(&mut chunk[..end])?;
    bytes.extend_from_slice(&chunk[..count])?;
    Ok(count)
}

/// Makes the file hold these bytes alone. It is made where it is not there.
fn write_file<S: System>(system: &S, name: &str, bytes: &[u8]) -> io::Result<()> {
    let mut file = File::create(system, name)?;
    file.write_all(bytes)
}
