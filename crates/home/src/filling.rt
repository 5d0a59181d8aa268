//! The bytes of a home's lines before the first access.
ghost use Rattle.std.specs.Prelude.{◌≡◌, ℕ, ◌+◌, ◌-◌, ◌*◌, ◌/◌, ◌%◌, ◌^◌, ◌<◌, ◌≤◌, length, slice_index, IfOk};
ghost use Rattle.zs_num.specs.Request.{line_at, line_bytes};
ghost use Rattle.elf_load.specs.MemoryImage.{byte_at, bytes_from};
ghost use Rattle.home.specs.FirstBytes.{address_at, first_bytes, lines_kept};

use crate::lines::Lines;
use elf_load::Image;
use std::alloc::Global;
use zs_num::{LINE, NoMemory};

/// How many lines the home of each of so many shards keeps.
pub(crate) fn count_lines(shards: u16, image: &Image) -> u64
    requires shards { 0 < shards }
    requires some { 0 < image.now.size }
    ensures { result ≡ lines_kept shards image.now.base image.now.size }
{
    let shards = u64::from(shards);
    let last = (image.base() + image.size() - 1) / LINE / shards;
    last.saturating_sub(image.base() / LINE / shards) + 1
}

/// What an executable left in the lines of one of so many shards. Lines that have no bytes of it are
/// not written.
#[tactic(auto, unfolding(crate::specs::FirstBytes::first_bytes))]
pub(crate) fn first_bytes(
    alloc: Global,
    shards: u64,
    number: u16,
    image: &Image,
) -> Result<Lines, NoMemory>
    requires shards { number < shards }
    requires few { shards < 2 ^ 16 }
    requires base { image.now.base % line_bytes ≡ 0 }
    requires size { image.now.size % line_bytes ≡ 0 }
    requires some { 0 < image.now.size }
    ensures { IfOk result (λ bytes. bytes ≡ first_bytes shards number image.now) }
{
    let first = image.base() / LINE / shards;
    let last = (image.base() + image.size() - 1) / LINE / shards;
    let count = last - first + 1;
    let mut lines = Lines::new(alloc, count)?;
    for segment in image.segments() {
        let from = (segment.vaddr / LINE / shards).saturating_sub(first);
        let past = segment.vaddr + segment.bytes.as_slice().len() as u64;
        let end = (past / LINE / shards).saturating_sub(first) + 1;
        fill_lines(
            image,
            shards,
            number,
            first,
            from,
            end.min(count),
            &mut lines,
        );
    }
    Ok(lines)
}

/// Fills lines of a home of which the first has this number among all its lines.
fn fill_lines(
    image: &Image,
    shards: u64,
    number: u16,
    first: u64,
    from: u64,
    end: u64,
    lines: &mut Lines,
)
    requires shards { number < shards }
    requires few { shards < 2 ^ 16 }
    requires base { image.now.base % line_bytes ≡ 0 }
    requires size { image.now.size % line_bytes ≡ 0 }
    requires last { first + end ≤ line_at (image.now.base + image.now.size - 1) / shards + 1 }
    requires reach { image.now.base + image.now.size ≤ 2 ^ 48 }
    requires length { line_bytes * end ≤ length lines.old }
    ensures length { length lines.new ≡ length lines.old }
    ensures filled { (at : ℕ) → line_bytes * from ≤ at → at < line_bytes * end → slice_index lines.new at ≡ byte_at image.now.segments (address_at shards number first at) }
    ensures others { (at : ℕ) → slice_index lines.old at ≡ byte_at image.now.segments (address_at shards number first at) → slice_index lines.new at ≡ slice_index lines.old at }
{
    for i in from..end {
        let mut line = [0; LINE as usize];
        copy_line(
            image,
            LINE * ((first + i) * shards + u64::from(number)),
            &mut line,
        );
        lines.write(i as usize, &line);
    }
}

/// Copies the bytes of a line. One that is not in memory has zeros.
fn copy_line(image: &Image, addr: u64, line: &mut [u8])
    requires length { length line.old ≡ line_bytes }
    requires addr { addr % line_bytes ≡ 0 }
    requires base { image.now.base % line_bytes ≡ 0 }
    requires size { image.now.size % line_bytes ≡ 0 }
    ensures { line.new ≡ bytes_from image.now.segments addr line_bytes }
{
    if image.base() <= addr && addr < image.base() + image.size() {
        image.copy_to(addr, line);
    } else {
        line.fill(0);
    }
}
