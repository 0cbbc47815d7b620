//! Disks that fail and stop, and logs that are read by their bytes.
ghost use Rattle.std.specs.Prelude.{◌≡◌, false, IfOk};

use datanode_log::{Log, LogError};
use disk_model::{Disk, DiskFault, MemDisk};
use disk_witness::{Register, SilentDisk};
use std::alloc::Global;
use std::test::*;

fn load(alloc: Global, disk: MemDisk) -> Result<Log<MemDisk>, LogError>
    ensures { IfOk result (λ log. log.failed ≡ false) }
{
    match Log::load(alloc, disk) {
        Ok(log) => Ok(log),
        Err(refused) => Err(refused.error),
    }
}

fn load_bytes(alloc: Global, content: &[u8]) -> Result<Log<MemDisk>, LogError>
    ensures { IfOk result (λ log. log.failed ≡ false) }
{
    match content.to_vec(alloc) {
        Ok(bytes) => load(alloc, MemDisk::new(alloc, bytes)),
        Err(_) => Err(LogError::NoMemory),
    }
}

fn empty_log(alloc: Global) -> Result<Log<MemDisk>, LogError>
    ensures { IfOk result (λ log. log.failed ≡ false) }
{
    let mut disk = MemDisk::new(alloc, Vec::new(alloc));
    match Log::format(&mut disk) {
        Ok(()) => load(alloc, disk),
        Err(error) => Err(error),
    }
}

/// The entry 11, and an append of aabb that is stopped after so many calls: whether that was done.
fn append_stopped(log: &mut Log<MemDisk>, calls: u64) -> Result<bool, LogError>
    requires { log.old.failed ≡ false }
{
    match log.append(&[0x11]) {
        Ok(()) => {}
        Err(error) => return Err(error),
    }
    log.stop_after(calls);
    Ok(log.append(&[0xaa, 0xbb]).is_ok())
}

/// The disk after that, crashed; and whether the append was done.
fn crashed(
    alloc: Global,
    (calls, keep, fill): (u64, u64, u8),
) -> Result<(MemDisk, bool), LogError> {
    let mut log = empty_log(alloc)?;
    let added = append_stopped(&mut log, calls)?;
    let mut disk = log.into_disk();
    disk.crash(keep, fill);
    Ok((disk, added))
}

fn is_entry(log: &mut Log<MemDisk>, i: u64, bytes: &[u8]) -> bool {
    if i >= log.count() {
        return false;
    }
    match log.entry(i) {
        Ok(entry) => entry.as_slice() == bytes,
        Err(_) => false,
    }
}

/// Whether the log has the entry 11, and behind it aabb or nothing.
fn has_entries(log: &mut Log<MemDisk>, both: bool) -> bool {
    let count = log.count();
    is_entry(log, 0, &[0x11])
        && if both {
            count == 2 && is_entry(log, 1, &[0xaa, 0xbb])
        } else {
            count == 1
        }
}

/// Whether the log, stopped and crashed so, has what the letter says.
pub fn is_log(alloc: Global, stop: (u64, u64, u8), letter: u8) -> Result<bool, LogError> {
    let (disk, added) = crashed(alloc, stop)?;
    let mut log = load(alloc, disk)?;
    Ok(added == (stop.0 >= 4) && has_entries(&mut log, letter == b'n'))
}

/// A log of the entry 11, up to the gate behind it.
const FIRST_ENTRY: &[u8] = b"SALUSLG1\x01\x00\x00\x00\x01\x11";

/// In each row of 12 bytes a number of calls, a keep and a fill; how many bytes a crash leaves behind that entry; and these,
/// up to eight.
fn crashes() -> &'static [u8] {
    b"\x00\x40\xff\x01\x00.......\
    \x01\x00\xff\x01\x00.......\
    \x01\x01\x01\x08\x00\x00\x01\x01\x01\x01\x01\x01\
    \x01\x40\xff\x08\x00\x00\x00\x00\x02\xaa\xbb\x00\
    \x02\x00\xff\x08\x00\x00\x00\x00\x02\xaa\xbb\x00\
    \x03\x00\xff\x08\xff\x00\x00\x00\x02\xaa\xbb\x00\
    \x03\x00\x01\x08\x01\x00\x00\x00\x02\xaa\xbb\x00\
    \x03\x01\x00\x08\x01\x00\x00\x00\x02\xaa\xbb\x00\
    \x04\x00\x00\x08\x01\x00\x00\x00\x02\xaa\xbb\x00"
}

/// Whether the crash of a row leaves its bytes.
fn leaves(alloc: Global, row: &[u8]) -> bool {
    let [calls, keep, fill, count, bytes @ ..] = row else {
        return false;
    };
    match crashed(alloc, (u64::from(*calls), u64::from(*keep), *fill)) {
        Ok((disk, _)) => {
            disk.content().strip_prefix(FIRST_ENTRY) == bytes.get(..usize::from(*count))
        }
        Err(_) => false,
    }
}

/// How a file without the mark of a log is read.
const FOREIGN: u64 = 255;

/// How many entries the file has; where it is no log, `FOREIGN`, or the place where it is damaged.
fn read_as(alloc: Global, content: &[u8]) -> u64 {
    match load_bytes(alloc, content) {
        Ok(log) => log.count(),
        Err(LogError::Foreign) => FOREIGN,
        Err(LogError::Damaged { at }) => at,
        Err(_) => u64::MAX,
    }
}

/// In each row of 18 bytes how a file is read, how many bytes it has, and these, up to 16. The third last has no gate after its
/// entry.
fn files() -> &'static [u8] {
    b"\xff\x00................\
    \xff\x08SALUSLG1........\
    \xff\x09SALUSCK1\x00.......\
    \xff\x0asaluslg1\x00\x00......\
    \x00\x09SALUSLG1\x00.......\
    \x08\x09SALUSLG1\x01.......\
    \x08\x0eSALUSLG1\x01\x00\x00\x00\x01\xaa..\
    \x0e\x0fSALUSLG1\x01\x00\x00\x00\x01\xaa\x01.\
    \x01\x10SALUSLG1\x01\x00\x00\x00\x01\xaa\x37\x01"
}

/// Whether the file of a row is read so.
fn is_read(alloc: Global, row: &[u8]) -> bool {
    let [found, count, bytes @ ..] = row else {
        return false;
    };
    match bytes.get(..usize::from(*count)) {
        Some(content) => read_as(alloc, content) == u64::from(*found),
        None => false,
    }
}

/// Whether an append leaves the entry behind its open gate.
fn appends(alloc: Global) -> Result<bool, LogError> {
    let mut log = empty_log(alloc)?;
    let is_added = log.append(&[0xaa]).is_ok();
    let disk = log.into_disk();
    Ok(is_added && disk.content() == b"SALUSLG1\x01\x00\x00\x00\x01\xaa\x00".as_slice())
}

/// Whether an append whose second call fails is told so, and leaves no entry.
fn append_fails(alloc: Global) -> Result<bool, LogError> {
    let mut log = empty_log(alloc)?;
    let is_named = log.fail_at(2).is_ok();
    let is_told = log.append(&[0xaa]) == Err(LogError::Device) && log.failed();
    let again = load(alloc, log.into_disk())?;
    Ok(is_named && is_told && again.count() == 0)
}

fn fails_at_the_second(disk: &mut MemDisk) -> bool {
    disk.len() == Ok(0) && disk.len() == Err(DiskFault::Device) && disk.sync() == Ok(())
}

/// Whether each call fails after one more, until a crash.
fn stops_after_one(disk: &mut MemDisk) -> bool {
    disk.stop_after(1);
    let is_stopped = disk.len() == Ok(0)
        && disk.sync() == Err(DiskFault::Device)
        && disk.len() == Err(DiskFault::Device);
    disk.crash(0, 0);
    is_stopped && disk.len() == Ok(0)
}

fn is_disk(alloc: Global) -> bool {
    let mut disk = MemDisk::new(alloc, Vec::new(alloc));
    disk.fail_at(2).is_ok() && fails_at_the_second(&mut disk) && stops_after_one(&mut disk)
}

fn is_silent_disk(alloc: Global) -> bool {
    let mut disk = SilentDisk::new(Vec::new(alloc));
    let mut bytes = [0u8; 2];
    disk.write_at(0, b"abc") == Ok(())
        && disk.cut(2) == Ok(())
        && disk.sync() == Ok(())
        && disk.len() == Ok(2)
        && disk.read(0, &mut bytes) == Ok(())
        && bytes == *b"ab"
        && disk.read(1, &mut bytes) == Err(DiskFault::Device)
}

fn is_register(alloc: Global) -> bool {
    match Register::create(alloc, MemDisk::new(alloc, Vec::new(alloc))) {
        Ok(mut register) => register.set(7).is_ok() && register.number() == 7,
        Err(_) => false,
    }
}

/// The row of the first crash that leaves other bytes.
fn wrong_crash(alloc: Global) -> Option<&'static [u8]> {
    for row in crashes().chunks(12) {
        if !leaves(alloc, row) {
            return Some(row);
        }
    }
    None
}

/// The row of the first file that is read otherwise.
fn wrong_file(alloc: Global) -> Option<&'static [u8]> {
    for row in files().chunks(18) {
        if !is_read(alloc, row) {
            return Some(row);
        }
    }
    None
}

/// What doesn't do as it should.
fn wrong_part(alloc: Global) -> Option<&'static str> {
    if !matches!(appends(alloc), Ok(true)) {
        return Some("an append");
    }
    if !matches!(append_fails(alloc), Ok(true)) {
        return Some("an append that fails");
    }
    if !is_disk(alloc) {
        return Some("a disk in memory");
    }
    if !is_silent_disk(alloc) {
        return Some("a silent disk");
    }
    if !is_register(alloc) {
        return Some("a register");
    }
    None
}

#[test]
fn logs_and_disks(rt: HostRuntime) {
    assert_eq!(rt; wrong_crash(rt.alloc()), None);
    assert_eq!(rt; wrong_file(rt.alloc()), None);
    assert_eq!(rt; wrong_part(rt.alloc()), None);
}
