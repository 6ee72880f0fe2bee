//! The first bytes of a file, and what stands behind them.
ghost use Rattle.std.specs.Prelude.{◌≡◌, ◌≤◌, ℕ, List, IfOk, IfErr, IfSome, OnOk, take, vec_len};
ghost use Rattle.std.specs.Io.KnownBytes.{Consumes};
ghost use Rattle.bf_device.specs.Device.{HasGoneOn, HasHalted};
ghost use Rattle.bf_disk.specs.Source.{GivesBehind, GivesFirst, IsBehind};
ghost use Rattle.bf_disk.specs.inner.Halting.{HasHaltedSince};

use crate::source::{Source, SourceFault};
use bf_device::{Halt, MOST_INTERRUPTIONS, Read};
use std::alloc::Global;

/// How many bytes are asked for in one read, at most.
const CHUNK: usize = 8_192;

/// Reads the first `count` bytes of the file at a path, or all where it has fewer. `Err` where it can't be opened or
/// read, or at want of memory.
pub fn read_first_bytes<S: Source>(
    alloc: Global,
    path: &str,
    count: usize,
    files: &mut S,
) -> Result<Vec<u8>, SourceFault>
    ensures bound { IfOk result (λ bytes. vec_len bytes ≤ count) }
    ensures first { IfSome (S.file files.old path.now) (λ held. GivesFirst count held result) }
    ensures stays { (p : List ℕ) → S.file files.new p ≡ S.file files.old p }
{
    let mut device = files.open(path)?;
    read_front(alloc, &mut device, count)
}

/// Reads the regular file at a path that has to begin with `front`: None where it begins otherwise, for which no more bytes
/// are read than `front` has. `Err` where it isn't a regular file, can't be opened or read, or at want of memory.
pub fn read_behind<S: Source>(
    alloc: Global,
    path: &str,
    front: &[u8],
    files: &mut S,
) -> Result<Option<Vec<u8>>, SourceFault>
    ensures behind { IfSome (S.file files.old path.now) (λ held. GivesBehind front.now held result) }
    ensures stays { (p : List ℕ) → S.file files.new p ≡ S.file files.old p }
{
    let mut device = files.open_regular(path)?;
    read_device_behind(alloc, &mut device, front)
}

/// Reads all bytes off a device that has to begin with `front`; None where it begins otherwise. `Err(CannotRead)` where a
/// read fails or at the 1,001st interruption of the front or of the rest, or want of memory.
fn read_device_behind<R: Read>(
    alloc: Global,
    device: &mut R,
    front: &[u8],
) -> Result<Option<Vec<u8>>, SourceFault>
    ensures behind { IfOk result (λ read.
        IfSome (R.left device.old) (λ held. IsBehind front.now held read)) }
    ensures halted { IfErr result (λ fault. fault ≡ SourceFault.CannotRead →
        HasHaltedSince R.interruptions R.failures device.new) }
{
    let mut bytes = read_front(alloc, device, front.len())?;
    if bytes.as_slice() != front {
        return Ok(None);
    }
    let rest = read_front(alloc, device, isize::MAX as usize + 1)?;
    bytes.extend_from_slice(&rest)?;
    Ok(Some(bytes))
}

/// Reads up to `count` bytes off a device, in as many reads as it takes; fewer only where it ends. `Err(CannotRead)`
/// where a read fails or at the 1,001st interruption, or want of memory.
fn read_front<R: Read>(alloc: Global, device: &mut R, count: usize) -> Result<Vec<u8>, SourceFault>
    ensures bound { IfOk result (λ bytes. vec_len bytes ≤ count) }
    ensures first { IfOk result (λ bytes.
        IfSome (R.left device.old) (λ held. bytes.items ≡ take count held)) }
    ensures taken { IfOk result (λ bytes.
        Consumes (R.left device.old) (R.left device.new) bytes.items) }
    ensures halted { IfErr result (λ fault. fault ≡ SourceFault.CannotRead →
        HasHalted (R.failures device.old) (R.failures device.new)
        (R.interruptions device.old) (R.interruptions device.new)) }
    ensures went_on { OnOk result (HasGoneOn (R.failures device.old) (R.failures device.new)
        (R.interruptions device.old) (R.interruptions device.new)) }
{
    let mut bytes = Vec::new(alloc);
    let mut chunk = [0; CHUNK];
    let mut interruptions = 0;
    while bytes.len() < count {
        let room = CHUNK.min(count - bytes.len());
        match device.read(&mut chunk[..room]) {
            Ok(0) => return Ok(bytes),
            Ok(n) => bytes.extend_from_slice(&chunk[..n])?,
            Err(Halt::Again) => {
                if interruptions == MOST_INTERRUPTIONS {
                    return Err(SourceFault::CannotRead);
                }
                interruptions += 1;
            }
            Err(Halt::Failed) => return Err(SourceFault::CannotRead),
        }
    }
    Ok(bytes)
}
