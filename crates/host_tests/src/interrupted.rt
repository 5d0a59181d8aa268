//! A system with one file, whose first read is interrupted.
use crate::calls::{ReadRow, reads};
use std::alloc::{Allocator, Global};
use std::cell::Cell;
use std::fs::{Metadata, OpenFile, OpenOptions};
use std::io;
use std::io::{Error, ErrorKind, Read, Seek, SeekFrom, Write};
use std::process::Abort;
use std::rt::Files as System;
use zs_host::RealFiles;

/// A file whose first read is interrupted, and which then gives two bytes a read.
#[derive(Drop)]
struct Interrupted<'a> {
    reads: &'a Cell<u32>,
    rest: &'a [u8],
}

impl<'a> Read for Interrupted<'a> {
    fn read(&mut self, buf: &mut [u8]) -> io::Result<usize> {
        let reads = self.reads.get();
        self.reads.set(reads.saturating_add(1));
        if reads == 0 {
            return Err(Error::from(ErrorKind::Interrupted));
        }
        let count = buf.len().min(self.rest.len()).min(2);
        buf[..count].copy_from_slice(&self.rest[..count]);
        self.rest = &self.rest[count..];
        Ok(count)
    }
}

impl<'a> Write for Interrupted<'a> {
    fn write(&mut self, _buf: &[u8]) -> io::Result<usize> {
        Err(Error::from(ErrorKind::Unsupported))
    }

    fn flush(&mut self) -> io::Result<()> {
        Err(Error::from(ErrorKind::Unsupported))
    }
}

impl<'a> Seek for Interrupted<'a> {
    fn seek(&mut self, _to: SeekFrom) -> io::Result<u64> {
        Err(Error::from(ErrorKind::Unsupported))
    }
}

impl<'a> OpenFile for Interrupted<'a> {
    fn metadata(&self) -> io::Result<Metadata> {
        Err(Error::from(ErrorKind::Unsupported))
    }

    fn set_len(&self, _size: u64) -> io::Result<()> {
        Err(Error::from(ErrorKind::Unsupported))
    }

    fn sync_all(&self) -> io::Result<()> {
        Err(Error::from(ErrorKind::Unsupported))
    }

    fn sync_data(&self) -> io::Result<()> {
        Err(Error::from(ErrorKind::Unsupported))
    }
}

/// A system in which each name is that of a file with the bytes `abcde`.
#[derive(Drop)]
struct Slow<'a> {
    reads: &'a Cell<u32>,
}

impl<'a> System for Slow<'a> {
    type File = Interrupted<'a>;

    type Dir = Interrupted<'a>;

    fn open_file(&self, _how: &OpenOptions, _path: &str) -> io::Result<Interrupted<'a>> {
        Ok(Interrupted {
            reads: self.reads,
            rest: b"abcde",
        })
    }

    fn open_dir(&self, _path: &str) -> io::Result<Interrupted<'a>> {
        Err(Error::from(ErrorKind::Unsupported))
    }

    fn metadata(&self, _path: &str) -> io::Result<Metadata> {
        Err(Error::from(ErrorKind::Unsupported))
    }

    fn symlink_metadata(&self, _path: &str) -> io::Result<Metadata> {
        Err(Error::from(ErrorKind::Unsupported))
    }

    fn copy(&self, _from: &str, _to: &str) -> io::Result<u64> {
        Err(Error::from(ErrorKind::Unsupported))
    }

    fn rename(&self, _from: &str, _to: &str) -> io::Result<()> {
        Err(Error::from(ErrorKind::Unsupported))
    }

    fn remove_file(&self, _path: &str) -> io::Result<()> {
        Err(Error::from(ErrorKind::Unsupported))
    }

    fn create_dir(&self, _path: &str) -> io::Result<()> {
        Err(Error::from(ErrorKind::Unsupported))
    }

    fn remove_dir(&self, _path: &str) -> io::Result<()> {
        Err(Error::from(ErrorKind::Unsupported))
    }

    fn remove_dir_all<B: Allocator>(&self, _alloc: B, _path: &str) -> io::Result<()> {
        Err(Error::from(ErrorKind::Unsupported))
    }
}

/// Files of that system, which count their reads.
fn slow_files(reads: &Cell<u32>) -> RealFiles<Slow<'_>> {
    RealFiles::new(Slow { reads })
}

/// Reads a row.
fn reads_slowly<R: Abort>(rt: &R, alloc: Global, files: &mut RealFiles<Slow<'_>>, row: ReadRow) {
    reads(rt, alloc, files, &[row]);
}

/// A file is read up to so many bytes, which are these, in so many reads.
fn is_read_in<R: Abort>(rt: &R, alloc: Global, row: ReadRow, count: u32) {
    let made = Cell::new(0);
    reads_slowly(rt, alloc, &mut slow_files(&made), row);
    assert!(rt; made.get() == count);
}

static READS: [(ReadRow, u32); 3] = [
    (("any", 100, Some("abcde")), 5),
    (("any", 5, Some("abcde")), 4),
    (("any", 3, Some("abc")), 3),
];

/// Checks each row.
fn are_read_in<R: Abort>(rt: &R, alloc: Global, rows: &[(ReadRow, u32)]) {
    for &(row, count) in rows {
        is_read_in(rt, alloc, row, count);
    }
}

#[test]
fn a_read_that_was_interrupted_goes_on(rt: HostRuntime) {
    are_read_in(&rt, rt.alloc(), &READS);
}
