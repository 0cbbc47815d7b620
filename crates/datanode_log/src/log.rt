ghost use Rattle.std.specs.Prelude.{◌≡◌, ◌≤◌, ◌<◌, ◌+◌, ◌++◌, ◌∷◌, ◌||◌, ◌^◌, [], List, true, false, length, take, drop, Some, slice_get, vec_len, vec_capacity, IfOk, IfErr, OnOk, OnErr, IsTrue, MatchResult};
ghost use Rattle.std.proofs.Props.{props};
ghost use Rattle.disk_model.specs.Disk.{Moment, Now, EachImage, Goes, IsSynced, Through, clean};
ghost use Rattle.datanode_log.specs.Entries.{entries_of, log_of, framed};
ghost use Rattle.disk_lane.specs.Lanes.{lane_history};
ghost use Rattle.disk_lane.specs.Heads.{IsHead};
ghost use Rattle.datanode_log.specs.Logs.{IsLog, IsBeforeOrAfter, IsLiveLog, IsLiveEither, entries_now, Refuses};
ghost use Rattle.datanode_log.specs.Causes.{is_device, says_device, IsOutside, IsCaused, KeepsSure};
ghost use Rattle.datanode_log.specs.Known.{IsSound, IsLoaded};

use crate::access::{read_all, read_range, write_synced};
use crate::error::{LogError, Refused};
use crate::layout::{EMPTY, Found, frame, parse};
use crate::spelled::Spelled;
use disk_lane::Lane;
use disk_model::{Disk, DiskFault, MemDisk};
use salus_types::NoMemory;
use std::alloc::Global;

/// A log in use, on its disk.
#[derive(Drop)]
pub struct Log<D: Disk> {
    alloc: Global,
    disk: D,
    gate: u64,
    spans: Vec<(u64, u64)>,
    failed: bool,
    ghost sound: { (now : Moment) (past : List Moment) → D.history disk ≡ now ∷ past → IsSound now gate spans.items failed } by { Prim.hlevel props },
}

/// A log that was just loaded, with the bytes of its file, so that its entries are read with no further call.
#[derive(Drop)]
pub struct Loaded<D: Disk> {
    log: Log<D>,
    bytes: Vec<u8>,
    ghost whole: { IsLoaded bytes.items log.gate log.spans.items } by { Prim.hlevel props },
}

// Syncs a disk and reads its log, with the bytes of the file.
fn read_log<D: Disk>(alloc: Global, disk: &mut D) -> Result<(Found, Vec<u8>), LogError>
    ensures synced { OnOk result (Now (D.history disk.old) (λ old. Now (D.history disk.new) (λ now. now ≡ clean old.seen))) }
    ensures moments { Goes IsSynced (D.history disk.old) (D.history disk.new) }
    ensures bytes { IfOk result (λ read. Now (D.history disk.old) (λ old. read.1.items ≡ old.seen)) }
    ensures whole { IfOk result (λ read. IsLoaded read.1.items read.0.gate read.0.spans.items) }
    ensures refused { IfErr result (λ error. Now (D.history disk.old) (λ old. Refuses error old.seen)) }
    ensures stays { D.stays disk.old disk.new }
    ensures cause { IsCaused (D.faults disk.old) (D.faults disk.new) (says_device result) }
    ensures sure { KeepsSure (D.is_sure disk.old) (D.is_sure disk.new) (says_device result) }
{
    match disk.sync() {
        Ok(()) => {}
        Err(DiskFault::Device) => return Err(LogError::Device),
        Err(DiskFault::NoMemory) => return Err(LogError::NoMemory),
    }
    let bytes = match read_all(alloc, disk) {
        Ok(bytes) => bytes,
        Err(DiskFault::Device) => return Err(LogError::Device),
        Err(DiskFault::NoMemory) => return Err(LogError::NoMemory),
    };
    match parse(alloc, bytes.as_slice()) {
        Ok(found) => Ok((found, bytes)),
        Err(error) => Err(error),
    }
}

// The bytes to write behind a gate, and the room to know of one more entry.
fn prepare(
    alloc: Global,
    gate: u64,
    spans: &mut Vec<(u64, u64)>,
    entry: &[u8],
) -> Result<Vec<u8>, NoMemory>
    requires { length entry.now ≤ 2 ^ 31 }
    ensures bytes { IfOk result (λ bytes. bytes.items ≡ framed entry.now) }
    ensures room { OnOk result (vec_len spans.new < vec_capacity spans.new) }
    ensures place { OnOk result (gate < 2 ^ 63) }
    ensures known { spans.new.items ≡ spans.old.items }
{
    if gate >= 1 << 63 {
        return Err(NoMemory);
    }
    spans.reserve(1)?;
    let bytes = frame(alloc, entry)?;
    Ok(bytes)
}

// So many bytes from a place on.
fn piece(bytes: &[u8], at: usize, len: usize) -> &[u8]
    requires { at + len ≤ length bytes.now }
    ensures { result.now ≡ take len (drop at bytes.now) }
{
    &bytes[at..at + len]
}

impl<D: Disk> Log<D> {
    /// Writes a log of no entries to an empty disk. After an error the disk may hold a part of it.
    pub fn format(disk: &mut D) -> Result<(), LogError>
        requires { Now (D.history disk.old) (λ now. now.seen ≡ []) }
        ensures formatted { OnOk result (Now (D.history disk.new) (λ now. now ≡ clean (log_of [] ++ 0 ∷ []))) }
        ensures only { IfErr result IsOutside }
        ensures stays { D.stays disk.old disk.new }
        ensures cause { IsCaused (D.faults disk.old) (D.faults disk.new) (says_device result) }
        ensures sure { KeepsSure (D.is_sure disk.old) (D.is_sure disk.new) (says_device result) }
    {
        match write_synced(disk, 0, &EMPTY) {
            Ok(()) => Ok(()),
            Err(DiskFault::Device) => Err(LogError::Device),
            Err(DiskFault::NoMemory) => Err(LogError::NoMemory),
        }
    }

    /// Syncs a disk and reads its log. What isn't loaded is handed back.
    ///
    /// `Foreign` and `Damaged` yield to `Device`, and all of them to want of memory.
    pub fn load(alloc: Global, disk: D) -> Result<Log<D>, Refused<D, LogError>>
        ensures synced { IfOk result (λ log. Now (D.history disk) (λ old. Now (D.history log.disk) (λ now. now ≡ clean old.seen))) }
        ensures whole { IfOk result (λ log. Now (D.history disk) (λ old. IsLog old.seen (entries_of old.seen))) }
        ensures count { IfOk result (λ log. Now (D.history disk) (λ old. vec_len log.spans ≡ length (entries_of old.seen))) }
        ensures working { IfOk result (λ log. log.failed ≡ false) }
        ensures refused { IfErr result (λ refused. Now (D.history disk) (λ old. Refuses refused.error old.seen)) }
        ensures moments { MatchResult result (λ log. Goes IsSynced (D.history disk) (D.history log.disk)) (λ refused. Goes IsSynced (D.history disk) (D.history refused.disk)) }
        ensures stays { MatchResult result (λ log. D.stays disk log.disk) (λ refused. D.stays disk refused.disk) }
        ensures cause { MatchResult result (λ log. D.faults log.disk ≡ D.faults disk) (λ refused. IsCaused (D.faults disk) (D.faults refused.disk) (is_device refused.error)) }
        ensures sure { MatchResult result (λ log. KeepsSure (D.is_sure disk) (D.is_sure log.disk) false) (λ refused. KeepsSure (D.is_sure disk) (D.is_sure refused.disk) (is_device refused.error)) }
    {
        match Log::load_whole(alloc, disk) {
            Ok(loaded) => Ok(loaded.into_log()),
            Err(refused) => Err(refused),
        }
    }

    /// As `load`, with the bytes of the file, which were read once.
    pub fn load_whole(alloc: Global, mut disk: D) -> Result<Loaded<D>, Refused<D, LogError>>
        ensures synced { IfOk result (λ loaded. Now (D.history disk) (λ old. Now (D.history loaded.log.disk) (λ now. now ≡ clean old.seen))) }
        ensures bytes { IfOk result (λ loaded. Now (D.history disk) (λ old. loaded.bytes.items ≡ old.seen)) }
        ensures whole { IfOk result (λ loaded. IsLog loaded.bytes.items (entries_of loaded.bytes.items)) }
        ensures working { IfOk result (λ loaded. loaded.log.failed ≡ false) }
        ensures refused { IfErr result (λ refused. Now (D.history disk) (λ old. Refuses refused.error old.seen)) }
        ensures moments { MatchResult result (λ loaded. Goes IsSynced (D.history disk) (D.history loaded.log.disk)) (λ refused. Goes IsSynced (D.history disk) (D.history refused.disk)) }
        ensures stays { MatchResult result (λ loaded. D.stays disk loaded.log.disk) (λ refused. D.stays disk refused.disk) }
        ensures cause { MatchResult result (λ loaded. D.faults loaded.log.disk ≡ D.faults disk) (λ refused. IsCaused (D.faults disk) (D.faults refused.disk) (is_device refused.error)) }
        ensures sure { MatchResult result (λ loaded. KeepsSure (D.is_sure disk) (D.is_sure loaded.log.disk) false) (λ refused. KeepsSure (D.is_sure disk) (D.is_sure refused.disk) (is_device refused.error)) }
    {
        match read_log(alloc, &mut disk) {
            Ok((found, bytes)) => {
                let log = Log {
                    alloc,
                    disk,
                    gate: found.gate,
                    spans: found.spans,
                    failed: false,
                };
                Ok(Loaded { log, bytes })
            }
            Err(error) => Err(Refused { disk, error }),
        }
    }

    /// How many entries are known: all, until a call has failed.
    pub fn count(&self) -> u64
        ensures known { result ≡ vec_len self.now.spans }
        ensures all { self.now.failed ≡ false → Now (D.history self.now.disk) (λ now. result ≡ length (entries_of now.seen)) }
    {
        self.spans.len() as u64
    }

    /// The bytes of an entry.
    pub fn entry(&mut self, i: u64) -> Result<Vec<u8>, LogError>
        requires { i < vec_len self.old.spans }
        ensures found { IfOk result (λ entry. Now (D.history self.old.disk) (λ now. slice_get (entries_of now.seen) i ≡ Some entry.items)) }
        ensures same { D.history self.new.disk ≡ D.history self.old.disk }
        ensures known { self.new.spans.items ≡ self.old.spans.items }
        ensures failed { self.new.failed ≡ (self.old.failed || says_device result) }
        ensures only { IfErr result IsOutside }
        ensures stays { D.stays self.old.disk self.new.disk }
        ensures cause { IsCaused (D.faults self.old.disk) (D.faults self.new.disk) (says_device result) }
        ensures sure { KeepsSure (D.is_sure self.old.disk) (D.is_sure self.new.disk) (says_device result) }
    {
        let (at, len) = self.spans[i as usize];
        match read_range(self.alloc, &mut self.disk, at, len) {
            Ok(bytes) => Ok(bytes),
            Err(DiskFault::Device) => {
                self.failed = true;
                Err(LogError::Device)
            }
            Err(DiskFault::NoMemory) => Err(LogError::NoMemory),
        }
    }

    /// Adds an entry. At `Ok` each crash leaves a file that has it.
    ///
    /// It makes four calls: the entry behind the gate, with a closed gate after it; a sync; the gate's byte; a sync.
    /// After `Device` the log is to be loaded again. Want of memory leaves the same entries.
    pub fn append(&mut self, entry: &[u8]) -> Result<(), LogError>
        requires working { self.old.failed ≡ false }
        requires short { length entry.now ≤ 2 ^ 31 }
        ensures durable { OnOk result (Now (D.history self.new.disk) (λ now. EachImage now (λ image. IsLog image (entries_now (D.history self.old.disk) ++ entry.now ∷ [])))) }
        ensures entries { OnOk result (Now (D.history self.new.disk) (λ now. entries_of now.seen ≡ entries_now (D.history self.old.disk) ++ entry.now ∷ [])) }
        // At each moment of the call each image has the entries from before, or these with the new one.
        ensures any_moment { Through (D.history self.old.disk) (D.history self.new.disk) (IsBeforeOrAfter (entries_now (D.history self.old.disk)) entry.now) }
        // Without a failure the entries are as before.
        ensures unless_failed { OnErr result (self.new.failed ≡ false → entries_now (D.history self.new.disk) ≡ entries_now (D.history self.old.disk)) }
        ensures failed { self.new.failed ≡ says_device result }
        ensures count { OnOk result (vec_len self.new.spans ≡ vec_len self.old.spans + 1) }
        ensures known { OnErr result (self.new.spans.items ≡ self.old.spans.items) }
        ensures only { IfErr result IsOutside }
        ensures stays { D.stays self.old.disk self.new.disk }
        ensures cause { IsCaused (D.faults self.old.disk) (D.faults self.new.disk) (says_device result) }
        ensures sure { KeepsSure (D.is_sure self.old.disk) (D.is_sure self.new.disk) (says_device result) }
    {
        let bytes = match prepare(self.alloc, self.gate, &mut self.spans, entry) {
            Ok(bytes) => bytes,
            Err(_) => return Err(LogError::NoMemory),
        };
        match write_synced(&mut self.disk, self.gate + 1, bytes.as_slice()) {
            Ok(()) => {}
            Err(DiskFault::Device) => {
                self.failed = true;
                return Err(LogError::Device);
            }
            Err(DiskFault::NoMemory) => return Err(LogError::NoMemory),
        }
        match write_synced(&mut self.disk, self.gate, &[1]) {
            Ok(()) => {}
            Err(DiskFault::Device) => {
                self.failed = true;
                return Err(LogError::Device);
            }
            Err(DiskFault::NoMemory) => return Err(LogError::NoMemory),
        }
        let len = entry.len() as u64;
        self.spans.push_reserved((self.gate + 5, len));
        self.gate += 5 + len;
        Ok(())
    }

    /// Whether a call has answered `Device` since the load.
    pub fn failed(&self) -> bool
        ensures { result ≡ self.now.failed }
    {
        self.failed
    }

    /// The disk, as it is.
    pub fn into_disk(self) -> D
        ensures { result ≡ self.disk }
    {
        self.disk
    }
}

impl<D: Disk> Loaded<D> {
    /// How many entries the file has.
    pub fn count(&self) -> u64
        ensures { result ≡ length (entries_of self.now.bytes.items) }
    {
        self.log.spans.len() as u64
    }

    /// The bytes of an entry.
    pub fn entry(&self, i: u64) -> &[u8]
        requires { i < length (entries_of self.now.bytes.items) }
        ensures { slice_get (entries_of self.now.bytes.items) i ≡ Some result.now }
    {
        let (at, len) = self.log.spans[i as usize];
        piece(self.bytes.as_slice(), at as usize, len as usize)
    }

    /// The log.
    pub fn into_log(self) -> Log<D>
        ensures log { result ≡ self.log }
        ensures count { vec_len result.spans ≡ length (entries_of self.bytes.items) }
    {
        self.log
    }
}

impl<D: Disk> Log<Lane<D>> {
    /// Writes another log into the other lane of the file, and goes over to it.
    pub fn rewrite(&mut self, log: Spelled) -> Result<(), LogError>
        requires working { self.old.failed ≡ false }
        requires head { Now (D.history self.old.disk.disk) (λ now. EachImage now (IsHead self.old.disk.lane)) }
        ensures durable { OnOk result (Now (D.history self.new.disk.disk) (λ now. EachImage now (IsLiveLog (entries_of log.bytes.items)))) }
        // At each moment of the call each image has the old log or the new one.
        ensures any_moment { Through (D.history self.old.disk.disk) (D.history self.new.disk.disk) (IsLiveEither (entries_now (lane_history self.old.disk.lane (D.history self.old.disk.disk))) (entries_of log.bytes.items)) }
        ensures head { self.new.failed ≡ false → Now (D.history self.new.disk.disk) (λ now. EachImage now (IsHead self.new.disk.lane)) }
        ensures unless_failed { OnErr result (self.new.failed ≡ false → entries_now (lane_history self.new.disk.lane (D.history self.new.disk.disk)) ≡ entries_now (lane_history self.old.disk.lane (D.history self.old.disk.disk))) }
        ensures failed { self.new.failed ≡ says_device result }
        ensures only { IfErr result IsOutside }
        ensures cause { IsCaused (D.faults self.old.disk.disk) (D.faults self.new.disk.disk) (says_device result) }
        ensures sure { KeepsSure (D.is_sure self.old.disk.disk) (D.is_sure self.new.disk.disk) (says_device result) }
    {
        match self.disk.replace(log.bytes.as_slice()) {
            Ok(()) => {
                self.gate = log.bytes.len() as u64 - 1;
                self.spans = log.spans;
                Ok(())
            }
            Err(DiskFault::Device) => {
                self.failed = true;
                Err(LogError::Device)
            }
            Err(DiskFault::NoMemory) => Err(LogError::NoMemory),
        }
    }
}

impl Log<MemDisk> {
    ghost use Rattle.disk_model.specs.Told.{moments_of};

    /// The n-th call of the disk from now fails without effect.
    pub fn fail_at(&mut self, n: u64) -> Result<(), NoMemory>
        requires { 1 ≤ n }
        ensures named { OnOk result (self.new.disk.failures.failing.items ≡ self.old.disk.failures.failing.items ++ n ∷ []) }
        ensures err { OnErr result (self.new.disk.failures.failing.items ≡ self.old.disk.failures.failing.items) }
        ensures stop { self.new.disk.failures.stop ≡ self.old.disk.failures.stop }
        ensures faults { self.new.disk.failures.count ≡ self.old.disk.failures.count }
        ensures moments { moments_of self.new.disk ≡ moments_of self.old.disk }
        ensures known { self.new.spans.items ≡ self.old.spans.items }
        ensures failed { self.new.failed ≡ self.old.failed }
    {
        self.disk.fail_at(n)
    }

    /// After so many further calls of the disk each call fails without effect, until a crash.
    pub fn stop_after(&mut self, calls: u64)
        ensures failing { self.new.disk.failures.failing.items ≡ self.old.disk.failures.failing.items }
        ensures stop { self.new.disk.failures.stop ≡ Some calls }
        ensures faults { self.new.disk.failures.count ≡ self.old.disk.failures.count }
        ensures moments { moments_of self.new.disk ≡ moments_of self.old.disk }
        ensures known { self.new.spans.items ≡ self.old.spans.items }
        ensures failed { self.new.failed ≡ self.old.failed }
    {
        self.disk.stop_after(calls);
    }
}

impl Log<Lane<MemDisk>> {
    ghost use Rattle.disk_model.specs.Told.{moments_of};

    /// The n-th call of the file's disk from now fails without effect.
    pub fn fail_at(&mut self, n: u64) -> Result<(), NoMemory>
        requires { 1 ≤ n }
        ensures named { OnOk result (self.new.disk.disk.failures.failing.items ≡ self.old.disk.disk.failures.failing.items ++ n ∷ []) }
        ensures err { OnErr result (self.new.disk.disk.failures.failing.items ≡ self.old.disk.disk.failures.failing.items) }
        ensures stop { self.new.disk.disk.failures.stop ≡ self.old.disk.disk.failures.stop }
        ensures faults { self.new.disk.disk.failures.count ≡ self.old.disk.disk.failures.count }
        ensures moments { moments_of self.new.disk.disk ≡ moments_of self.old.disk.disk }
        ensures lane { self.new.disk.lane ≡ self.old.disk.lane }
        ensures known { self.new.spans.items ≡ self.old.spans.items }
        ensures failed { self.new.failed ≡ self.old.failed }
    {
        self.disk.fail_at(n)
    }

    /// After so many further calls of the file's disk each call fails without effect, until a crash.
    pub fn stop_after(&mut self, calls: u64)
        ensures failing { self.new.disk.disk.failures.failing.items ≡ self.old.disk.disk.failures.failing.items }
        ensures stop { self.new.disk.disk.failures.stop ≡ Some calls }
        ensures faults { self.new.disk.disk.failures.count ≡ self.old.disk.disk.failures.count }
        ensures moments { moments_of self.new.disk.disk ≡ moments_of self.old.disk.disk }
        ensures lane { self.new.disk.lane ≡ self.old.disk.lane }
        ensures known { self.new.spans.items ≡ self.old.spans.items }
        ensures failed { self.new.failed ≡ self.old.failed }
    {
        self.disk.stop_after(calls);
    }
}
