ghost use Rattle.std.specs.Prelude.{◌≡◌, ◌+◌, ◌-◌, ◌≤◌, ◌<◌, ◌^◌, ◌∷◌, ◌++◌, Some, List, true, false, length, take, drop, map, IfOk, OnOk, OnErr, IsErrOf, []};
ghost use Rattle.std.proofs.Props.{props};
ghost use Rattle.disk_model.specs.declared.disk.DiskFault.TheVariants.{NoMemory};
ghost use Rattle.disk_model.specs.Disk.{Moment, Now, EachImage, IsImage, written, IsWriting, IsCutting, IsSynced, Goes, clean};
ghost use Rattle.disk_model.specs.Faults.{HasCause, StaysSure};
ghost use Rattle.disk_lane.specs.Lanes.{lane_history};
ghost use Rattle.disk_lane.specs.Images.{reads_of_lane};
ghost use Rattle.disk_lane.specs.Wrote.{Wrote};
ghost use Rattle.disk_lane.specs.Heads.{IsHead, IsReplaced, IsHolding, IsReplacing};
ghost use Rattle.disk_lane.specs.Beside.{IsBeside, IsTurning, StaysBeside, stays_none, stays_trans};

use crate::layout::{SELECTOR, count_of};
use crate::pages::{read_pages, write_pages};
use disk_model::{Disk, DiskFault, MemDisk};
use salus_types::NoMemory;
use std::alloc::Global;

/// One of the two lanes of a file, as a disk of its own.
#[derive(Drop)]
pub struct Lane<D> {
    alloc: Global,
    disk: D,
    lane: u64,
    ghost is_lane: { lane < 2 },
}

impl<D: Disk> Lane<D> {
    /// A lane of the file.
    pub fn new(alloc: Global, disk: D, lane: u64) -> Lane<D>
        requires { lane < 2 }
        ensures disk { result.disk ≡ disk }
        ensures lane { result.lane ≡ lane }
    {
        Lane { alloc, disk, lane }
    }

    /// The file.
    pub fn into_disk(self) -> D
        ensures { result ≡ self.disk }
    {
        self.disk
    }

    // How long the file is.
    fn find_end(&mut self) -> Result<u64, DiskFault>
        ensures end { IfOk result (λ n. Now (D.history self.new.disk) (λ now. n ≡ length now.seen)) }
        ensures same { D.history self.new.disk ≡ D.history self.old.disk }
        ensures lane { self.new.lane ≡ self.old.lane }
        ensures cause { HasCause (D.faults self.old.disk) (D.faults self.new.disk) result }
        ensures sure { StaysSure (D.is_sure self.old.disk) (D.is_sure self.new.disk) result }
        ensures memory { IsErrOf result DiskFault.NoMemory → ⊥ }
    {
        match self.disk.known_len() {
            Some(end) => Ok(end),
            None => self.disk.len(),
        }
    }

    /// Writes bytes of the other lane. What isn't of that lane stays.
    pub fn write_other(&mut self, at: u64, bytes: &[u8]) -> Result<(), DiskFault>
        requires { Now (lane_history (1 - self.old.lane) (D.history self.old.disk)) (λ now. at ≤ length now.seen) }
        ensures wrote { OnOk result (Wrote at bytes.now (lane_history (1 - self.old.lane) (D.history self.old.disk)) (lane_history (1 - self.old.lane) (D.history self.new.disk))) }
        ensures beside { Goes (IsBeside (1 - self.old.lane)) (D.history self.old.disk) (D.history self.new.disk) }
        ensures lane { self.new.lane ≡ self.old.lane }
        ensures cause { HasCause (D.faults self.old.disk) (D.faults self.new.disk) result }
        ensures sure { StaysSure (D.is_sure self.old.disk) (D.is_sure self.new.disk) result }
    {
        if at >= 1 << 61 || bytes.len() >= 1 << 61 {
            return Err(DiskFault::NoMemory);
        }
        let end = match self.find_end() {
            Ok(end) => end,
            Err(fault) => return Err(fault),
        };
        let other = 1 - self.lane;
        match write_pages(self.alloc, &mut self.disk, other, end, at, bytes) {
            Ok(_) => Ok(()),
            Err(fault) => Err(fault),
        }
    }

    /// Names the other lane as the live one, durably, and goes over to it.
    pub fn turn(&mut self) -> Result<(), DiskFault>
        requires { Now (D.history self.old.disk) (λ now. 16 ≤ length now.seen) }
        ensures turned { OnOk result (Now (D.history self.old.disk) (λ was. Now (D.history self.new.disk) (λ now. now ≡ clean (written 8 ((1 - self.old.lane) ∷ []) was.seen)))) }
        ensures moments { IsTurning (D.history self.old.disk) (D.history self.new.disk) }
        ensures memory { IsErrOf result DiskFault.NoMemory → Goes (IsWriting 8 0) (D.history self.old.disk) (D.history self.new.disk) }
        ensures other { OnOk result (self.new.lane ≡ 1 - self.old.lane) }
        ensures lane { OnErr result (self.new.lane ≡ self.old.lane) }
        ensures cause { HasCause (D.faults self.old.disk) (D.faults self.new.disk) result }
        ensures sure { StaysSure (D.is_sure self.old.disk) (D.is_sure self.new.disk) result }
    {
        let other = 1 - self.lane;
        match self.disk.write_at(SELECTOR, &[other as u8]) {
            Ok(()) => {}
            Err(fault) => return Err(fault),
        }
        match self.disk.sync() {
            Ok(()) => {}
            Err(fault) => return Err(fault),
        }
        self.lane = other;
        Ok(())
    }

    /// After it a crash leaves of the whole file what a read gives.
    pub fn sync_file(&mut self) -> Result<(), DiskFault>
        ensures synced { OnOk result (Now (D.history self.old.disk) (λ was. Now (D.history self.new.disk) (λ now. now ≡ clean was.seen))) }
        ensures moments { Goes IsSynced (D.history self.old.disk) (D.history self.new.disk) }
        ensures lane { self.new.lane ≡ self.old.lane }
        ensures cause { HasCause (D.faults self.old.disk) (D.faults self.new.disk) result }
        ensures sure { StaysSure (D.is_sure self.old.disk) (D.is_sure self.new.disk) result }
        ensures memory { IsErrOf result DiskFault.NoMemory → ⊥ }
    {
        self.disk.sync()
    }

    /// Writes bytes into the other lane from its beginning, syncs, names that lane as the live one, and syncs.
    ///
    /// At `Ok` the other lane is the live one, and begins with the bytes. At each moment of the call each image has
    /// the lane as before, and that is the live one, or the other one is, with the bytes.
    pub fn replace(&mut self, bytes: &[u8]) -> Result<(), DiskFault>
        requires head { Now (D.history self.old.disk) (λ now. EachImage now (IsHead self.old.lane)) }
        ensures replaced { OnOk result (Now (D.history self.new.disk) (λ now. (now ≡ clean now.seen) × IsReplaced self.old.lane bytes.now now.seen)) }
        ensures moments { Goes (IsReplacing self.old.lane bytes.now) (D.history self.old.disk) (D.history self.new.disk) }
        // Without memory the lane is live as before, in each image.
        ensures memory { IsErrOf result DiskFault.NoMemory → Goes (IsHolding self.old.lane) (D.history self.old.disk) (D.history self.new.disk) }
        ensures other { OnOk result (self.new.lane ≡ 1 - self.old.lane) }
        ensures lane { OnErr result (self.new.lane ≡ self.old.lane) }
        ensures cause { HasCause (D.faults self.old.disk) (D.faults self.new.disk) result }
        ensures sure { StaysSure (D.is_sure self.old.disk) (D.is_sure self.new.disk) result }
    {
        match self.write_other(0, bytes) {
            Ok(()) => {}
            Err(fault) => return Err(fault),
        }
        match self.sync_file() {
            Ok(()) => {}
            Err(fault) => return Err(fault),
        }
        match self.turn() {
            Ok(()) => Ok(()),
            Err(fault) => Err(fault),
        }
    }
}

impl<D: Disk> Disk for Lane<D> {
    ghost history = { λ lane. lane_history lane.lane (D.history lane.disk) };

    ghost faults = { λ lane. D.faults lane.disk };

    ghost is_sure = { λ lane. D.is_sure lane.disk };

    ghost stays = { λ old new. StaysBeside old.lane new.lane (D.history old.disk) (D.history new.disk) };

    ghost reads_image = { λ lane. reads_of_lane lane.lane (D.history lane.disk) (D.reads_image lane.disk) };

    ghost stays_none = { λ lane. stays_none lane.lane (D.history lane.disk) };

    ghost stays_trans = { λ a b c first second. stays_trans a.lane b.lane c.lane (D.history a.disk) (D.history b.disk) (D.history c.disk) first second };

    fn known_len(&self) -> Option<u64> {
        match self.disk.known_len() {
            Some(end) => Some(count_of(self.lane, end)),
            None => None,
        }
    }

    fn len(&mut self) -> Result<u64, DiskFault> {
        match self.disk.len() {
            Ok(end) => Ok(count_of(self.lane, end)),
            Err(fault) => Err(fault),
        }
    }

    fn read(&mut self, at: u64, out: &mut [u8]) -> Result<(), DiskFault> {
        let end = match self.find_end() {
            Ok(end) => end,
            Err(fault) => return Err(fault),
        };
        let len = count_of(self.lane, end);
        if len < at || len - at < out.len() as u64 {
            // No such read is asked of a disk that tells what it holds.
            return self.disk.read(end, out);
        }
        read_pages(&mut self.disk, self.lane, at, out)
    }

    fn write_at(&mut self, at: u64, bytes: &[u8]) -> Result<(), DiskFault> {
        if at >= 1 << 61 || bytes.len() >= 1 << 61 {
            return Err(DiskFault::NoMemory);
        }
        let end = match self.find_end() {
            Ok(end) => end,
            Err(fault) => return Err(fault),
        };
        match write_pages(self.alloc, &mut self.disk, self.lane, end, at, bytes) {
            Ok(_) => Ok(()),
            Err(fault) => Err(fault),
        }
    }

    /// A lane can't be cut.
    fn cut(&mut self, _len: u64) -> Result<(), DiskFault> {
        Err(DiskFault::NoMemory)
    }

    fn sync(&mut self) -> Result<(), DiskFault> {
        self.disk.sync()
    }
}

impl Lane<MemDisk> {
    ghost use Rattle.disk_model.specs.Told.{moments_of};

    /// The n-th call of the file's disk from now fails without effect.
    pub fn fail_at(&mut self, n: u64) -> Result<(), NoMemory>
        requires { 1 ≤ n }
        ensures named { OnOk result (self.new.disk.failures.failing.items ≡ self.old.disk.failures.failing.items ++ n ∷ []) }
        ensures err { OnErr result (self.new.disk.failures.failing.items ≡ self.old.disk.failures.failing.items) }
        ensures stop { self.new.disk.failures.stop ≡ self.old.disk.failures.stop }
        ensures faults { self.new.disk.failures.count ≡ self.old.disk.failures.count }
        ensures moments { moments_of self.new.disk ≡ moments_of self.old.disk }
        ensures lane { self.new.lane ≡ self.old.lane }
    {
        self.disk.fail_at(n)
    }

    /// After so many further calls of the file's disk each call fails without effect, until a crash.
    pub fn stop_after(&mut self, calls: u64)
        ensures failing { self.new.disk.failures.failing.items ≡ self.old.disk.failures.failing.items }
        ensures stop { self.new.disk.failures.stop ≡ Some calls }
        ensures faults { self.new.disk.failures.count ≡ self.old.disk.failures.count }
        ensures moments { moments_of self.new.disk ≡ moments_of self.old.disk }
        ensures lane { self.new.lane ≡ self.old.lane }
    {
        self.disk.stop_after(calls);
    }
}
