// What no clause says: which calls of a disk fail, and that the calls go well.
use aeg_base::Bytes;
use aeg_disk::{Device, Disk, DiskErr, FuseDisk, MemDisk, SureDisk};
use std::alloc::Global;
use std::test::Fail;

/// Whether a write, a sync, a look at the length and a read of it fail.
fn failures<D: Disk>(disk: &mut D) -> [bool; 4] {
    let write = disk.write_at(0, &[7]) == Err(DiskErr::Failed);
    let sync = disk.sync() == Err(DiskErr::Failed);
    let len = disk.len() == Err(DiskErr::Failed);
    let read = disk.read(0, &mut []) == Err(DiskErr::Failed);
    [write, sync, len, read]
}

/// All bytes of a disk.
pub(crate) fn contents<D: Disk>(alloc: Global, disk: &mut D) -> Result<Bytes, DiskErr> {
    let len = disk.len()?;
    let mut bytes = Vec::new(alloc);
    if bytes.resize(len as usize, 0).is_err() {
        return Err(DiskErr::Memory);
    }
    disk.read(0, &mut bytes)?;
    Ok(Bytes::of(bytes))
}

/// Whether a stop that is armed for a second write and its sync was met, and the bytes that it left.
fn stopped<D: Device>(
    alloc: Global,
    disk: &mut D,
    nth: u8,
    keep: bool,
) -> Result<(bool, Bytes), DiskErr> {
    disk.write_at(0, &[1, 2])?;
    disk.sync()?;
    disk.arm(nth, keep);
    if disk.write_at(1, &[3, 4]).is_ok() {
        let _answer = disk.sync();
    }
    let was = disk.power();
    Ok((was, contents(alloc, disk)?))
}

/// Whether a disk's first four calls fail so, the next four too, and the last four not.
fn fails_twice_so(disk: &mut MemDisk, listed: [bool; 4]) -> bool {
    failures(disk) == listed && failures(disk) == listed && failures(disk) == [false; 4]
}

#[test]
fn a_listed_call_fails_and_no_other(rt: HostRuntime) -> Result<(), Fail> {
    let alloc = rt.alloc();
    for call in 0..4u32 {
        let mut disk = MemDisk::new(alloc, vec![in alloc; call, call + 4]?);
        let listed = [call == 0, call == 1, call == 2, call == 3];
        assert!(rt; fails_twice_so(&mut disk, listed), "{call} and {call} + 4");
    }
    Ok(())
}

/// Whether a disk that passes so many calls fails the others, and what it leaves of the write.
fn passes_so(alloc: Global, passes: u32) -> Result<bool, Fail> {
    let mut disk = FuseDisk::new(SureDisk::new(alloc), passes);
    let failing = failures(&mut disk) == [passes < 1, passes < 2, passes < 3, passes < 4];
    let mut inner = disk.into_disk();
    Ok(failing && inner.len()? == u64::from(passes.min(1)))
}

#[test]
fn a_fuse_passes_calls_and_then_none(rt: HostRuntime) -> Result<(), Fail> {
    for passes in 0..5u32 {
        assert!(rt; passes_so(rt.alloc(), passes)?, "{passes} pass");
    }
    Ok(())
}

/// The call that is to stop, whether it keeps all, whether the stop is met, and the bytes that are left.
type Stop = (u8, bool, bool, &'static [u8]);

const NEW: &[u8] = &[1, 3, 4];

const OLD: &[u8] = &[1, 2];

const STOPS: [Stop; 7] = [
    (0, true, false, NEW),
    (1, true, true, NEW),
    (1, false, true, OLD),
    (2, true, true, NEW),
    (2, false, true, OLD),
    (3, true, false, NEW),
    (3, false, false, NEW),
];

/// Whether the stop is met, and leaves the bytes, as the row says.
fn leaves<D: Device>(alloc: Global, disk: &mut D, stop: Stop) -> Result<bool, Fail> {
    let (nth, keep, met, left) = stop;
    let (was, bytes) = stopped(alloc, disk, nth, keep)?;
    Ok(was == met && bytes.items() == left)
}

/// Whether the stop leaves that, and the disk is blank once it is erased.
fn stops_so<D: Device + Drop>(alloc: Global, mut disk: D, stop: Stop) -> Result<bool, Fail> {
    let stops = leaves(alloc, &mut disk, stop)?;
    disk.erase();
    Ok(stops && disk.len()? == 0)
}

#[test]
fn a_stop_keeps_all_or_drops_what_no_sync_kept(rt: HostRuntime) -> Result<(), Fail> {
    let alloc = rt.alloc();
    for stop in STOPS {
        let memory = stops_so(alloc, MemDisk::new(alloc, Vec::new(alloc)), stop)?;
        let sure = stops_so(alloc, SureDisk::new(alloc), stop)?;
        assert!(rt; memory && sure, "at {}", stop.0);
    }
    Ok(())
}
