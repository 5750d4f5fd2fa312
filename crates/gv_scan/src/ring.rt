ghost use Rattle.std.specs.Prelude.{◌≡◌, ◌≤◌, ◌<◌, ◌+◌, ◌*◌, ◌/◌, ◌^◌, IfOk, IfErr, true, length};
ghost use Rattle.gv_ctx.specs.Image.{IsImage};
ghost use Rattle.gv_fetch.specs.Fetch.{owns_pages, ring_dwords, whole_ring, fetched};
ghost use Rattle.gv_scan.specs.Layout.{FitsWindow};
ghost use Rattle.gv_scan.specs.Scan.{IsFault, IsScanFault, RingDone, Scanned};

use crate::append::append;
use crate::batches::with_first_level;
use crate::command::{dwords_of, ring_command, started};
use crate::{Program, Reader, ScanFault};
use gv_ctx::Image;
use gv_types::{EngineId, PAGE_BYTES, Reason};
use std::alloc::Global;

/// How many dwords of privileged batches are fetched in one load at the most.
const MAX_BATCH_DWORDS: usize = 262_144;

/// Whether so many pages are owned.
fn owns_pages<R: Reader>(reader: &R, first: u64, count: u64) -> bool
    requires few { count ≤ 16 }
    requires small { first < 2 ^ 48 }
    ensures { result ≡ owns_pages (R.space reader.now) first count }
{
    for n in 0..count {
        if !reader.owned(first + n) {
            return false;
        }
    }
    true
}

/// Reads the ring's dwords from the head to the tail.
fn read_ring<R: Reader>(alloc: Global, reader: &R, image: &Image) -> Result<Vec<u32>, ScanFault>
    requires image { IsImage image.now }
    requires owned { owns_pages (R.space reader.now) (image.now.start / 4096) image.now.pages ≡ true }
    requires low { image.now.start + image.now.pages * 4096 ≤ 2 ^ 32 }
    ensures done { IfOk result (λ v. v.items ≡ ring_dwords (R.space reader.now) image.now) }
    ensures fault { IfErr result (λ e. e ≡ ScanFault.OutOfMemory) }
{
    let size = image.pages * PAGE_BYTES as u32;
    let count = (size + image.tail - image.head) % size / 4;
    let mut words: Vec<u32> = Vec::new(alloc);
    for k in 0..count {
        let at = image.start + (image.head + 4 * k) % size;
        let word = reader.word(at);
        words.push(word)?;
    }
    Ok(words)
}

/// Scans a ring's dwords.
fn scan_ring<R: Reader>(
    alloc: Global,
    reader: &R,
    engine: EngineId,
    ring: &[u32],
) -> Result<Program, ScanFault>
    requires small { length ring.now ≤ 16384 }
    ensures done { IfOk result (λ p. RingDone (whole_ring (R.space reader.now) engine.0 ring.now 262144) p.ring.items p.batches.items) }
    ensures fits { IfOk result (λ p. FitsWindow p.ring.items p.batches.items) }
    ensures fault { IfErr result (IsFault (whole_ring (R.space reader.now) engine.0 ring.now 262144)) }
{
    let mut own: Vec<u32> = Vec::new(alloc);
    let mut batches: Vec<u32> = Vec::new(alloc);
    let mut left = MAX_BATCH_DWORDS;
    let mut at = 0;
    'commands: while at < ring.len() {
        let command = match ring_command(reader, engine, &ring[at..]) {
            Ok(command) => command,
            Err(reason) => return Err(ScanFault::Refused(reason)),
        };
        at += dwords_of(&command);
        if let Some(to) = started(&command) {
            match with_first_level(
                alloc,
                reader,
                engine,
                &command,
                to,
                left,
                &mut batches,
                &mut own,
            ) {
                Ok(rest) => left = rest,
                Err(fault) => return Err(fault),
            }
            continue 'commands;
        }
        append(&mut own, &command)?;
    }
    Ok(Program { ring: own, batches })
}

/// Fetches the ring of an image that `Image::read` answers, from the head to the tail, and each
/// privileged batch each time it is started, for this engine (0 is RCS, 1 BCS, 2 VCS, 3 VECS). At most
/// 262,144 dwords of batches are fetched. The time is linear in the dwords that are fetched.
///
/// `Refused` has the first reason against it, in the order of running: `Range` where a page isn't the
/// guest's, `Command` where a command is unlisted or may not stand there, `Size` where batches are too
/// long.
pub fn scan<R: Reader>(
    alloc: Global,
    engine: EngineId,
    image: &Image,
    reader: &R,
) -> Result<Program, ScanFault>
    requires image { IsImage image.now }
    ensures items { IfOk result (λ p. Scanned (fetched (R.space reader.now) engine.0 image.now) p.ring.items p.batches.items) }
    ensures fits { IfOk result (λ p. FitsWindow p.ring.items p.batches.items) }
    ensures fault { IfErr result (IsScanFault (fetched (R.space reader.now) engine.0 image.now)) }
{
    let first = (image.start / PAGE_BYTES as u32) as u64;
    if !owns_pages(reader, first, image.pages as u64) {
        return Err(ScanFault::Refused(Reason::Range));
    }
    let words = read_ring(alloc, reader, image)?;
    scan_ring(alloc, reader, engine, &words)
}
