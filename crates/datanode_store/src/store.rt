ghost use Rattle.std.specs.Prelude.{◌≡◌, ◌≤◌, ◌<◌, ◌^◌, ◌++◌, ◌∷◌, [], List, Some, true, false, length, IfOk, IfErr, OnOk, OnErr, MatchResult};
ghost use Rattle.std.proofs.Props.{props};
ghost use Rattle.disk_model.specs.Disk.{Moment, Now, EachImage, Goes, IsSynced, Through, clean};
ghost use Rattle.salus_types.specs.declared.records.Held.{Held as AnyHeld};
ghost use Rattle.client_tag.specs.Ranges.{IsRecord, IsBase};
ghost use Rattle.disk_lane.specs.Heads.{IsHead};
ghost use Rattle.datanode_log.specs.Causes.{IsCaused, KeepsSure};
ghost use Rattle.datanode_log.specs.Entries.{entries_of};
ghost use Rattle.holding_model.specs.Holding.{OfPart, OfBase, ToSession, entry_of, held_of, held_after};
ghost use Rattle.datanode_store.specs.Meaning.{Means, MeansEither, IsPart, IsBegun, CanBeKept};
ghost use Rattle.datanode_store.specs.Live.{MeansLive, MeansLiveEither};
ghost use Rattle.datanode_store.specs.Causes.{is_device, says_device, IsOutside, RefusesFile};

use crate::entry::{base_entry, part_entry, switch_entry};
use crate::error::{StoreError, of_log};
use crate::holding::{open_session, with_room};
use crate::reading::read_held;
use datanode_log::{Log, Refused, Spelled};
use disk_lane::Lane;
use disk_model::{Disk, MemDisk};
use salus_types::{Base, Held, Items, NoMemory, Record, TryClone};
use std::alloc::Global;

/// What a node holds, kept in a log on its disk.
#[derive(Drop)]
pub struct Store<D: Disk> {
    alloc: Global,
    log: Log<D>,
    held: Held,
    ghost means: { (now : Moment) (past : List Moment) → D.history log.disk ≡ now ∷ past → log.failed ≡ false → EachImage now (Means held) } by { Prim.hlevel props },
    ghost ranges: { CanBeKept held } by { Prim.hlevel props },
}

// The entry of a part, and a copy of the part.
fn prepare_part(alloc: Global, rec: &Record) -> Result<(Vec<u8>, Record), NoMemory>
    requires { IsRecord rec.now }
    ensures entry { IfOk result (λ made. entry_of made.0.items ≡ Some (OfPart rec.now)) }
    ensures short { IfOk result (λ made. length made.0.items ≤ 2 ^ 31) }
    ensures copy { IfOk result (λ made. made.1 ≡ rec.now) }
    ensures ranges { OnOk result (IsPart rec.now) }
{
    let entry = part_entry(alloc, rec)?;
    let copy = rec.try_clone(alloc)?;
    Ok((entry, copy))
}

// The entry of a base, and a copy of the base.
fn prepare_base(alloc: Global, base: &Base) -> Result<(Vec<u8>, Base), NoMemory>
    requires ranges { IsBase base.now }
    requires blocks { 0 < length base.now.blocks }
    ensures entry { IfOk result (λ made. entry_of made.0.items ≡ Some (OfBase base.now)) }
    ensures short { IfOk result (λ made. length made.0.items ≤ 2 ^ 31) }
    ensures copy { IfOk result (λ made. made.1 ≡ base.now) }
    ensures ranges { OnOk result (IsBegun base.now) }
{
    let entry = base_entry(alloc, base)?;
    let copy = base.try_clone(alloc)?;
    Ok((entry, copy))
}

impl<D: Disk> Store<D> {
    /// Syncs a disk and reads what its file holds. What isn't loaded is handed back.
    ///
    /// `Foreign` and `Damaged` come as for a log. `BadRecord` comes behind them, and all yield to `Device` and to want
    /// of memory. The file is read once.
    pub fn load(alloc: Global, disk: D) -> Result<Store<D>, Refused<D, StoreError>>
        ensures synced { IfOk result (λ store. Now (D.history disk) (λ old. Now (D.history store.log.disk) (λ now. now ≡ clean old.seen))) }
        ensures held { IfOk result (λ store. Now (D.history disk) (λ old. Means store.held old.seen)) }
        ensures working { IfOk result (λ store. store.log.failed ≡ false) }
        ensures refused { IfErr result (λ refused. Now (D.history disk) (λ old. RefusesFile refused.error old.seen)) }
        // A file that a store wrote is refused only by the device, or for want of memory.
        ensures written { IfErr result (λ refused. Now (D.history disk) (λ old. (held : AnyHeld) → Means held old.seen → IsOutside refused.error)) }
        ensures moments { MatchResult result (λ store. Goes IsSynced (D.history disk) (D.history store.log.disk)) (λ refused. Goes IsSynced (D.history disk) (D.history refused.disk)) }
        ensures stays { MatchResult result (λ store. D.stays disk store.log.disk) (λ refused. D.stays disk refused.disk) }
        ensures cause { MatchResult result (λ store. D.faults store.log.disk ≡ D.faults disk) (λ refused. IsCaused (D.faults disk) (D.faults refused.disk) (is_device refused.error)) }
        ensures sure { MatchResult result (λ store. KeepsSure (D.is_sure disk) (D.is_sure store.log.disk) false) (λ refused. KeepsSure (D.is_sure disk) (D.is_sure refused.disk) (is_device refused.error)) }
    {
        let loaded = match Log::load_whole(alloc, disk) {
            Ok(loaded) => loaded,
            Err(Refused { disk, error }) => {
                return Err(Refused {
                    disk,
                    error: of_log(error),
                });
            }
        };
        match read_held(alloc, &loaded) {
            Ok(held) => Ok(Store {
                alloc,
                log: loaded.into_log(),
                held,
            }),
            Err(error) => Err(Refused {
                disk: loaded.into_log().into_disk(),
                error,
            }),
        }
    }

    /// Adds a part. At `Ok` each crash leaves a file that holds it too.
    ///
    /// All memory is taken before the disk is written. After `Device` the store is to be loaded again.
    pub fn add_part(&mut self, rec: &Record) -> Result<(), StoreError>
        requires working { self.old.log.failed ≡ false }
        requires ranges { IsRecord rec.now }
        ensures added { OnOk result (self.new.held ≡ held_after self.old.held (OfPart rec.now)) }
        ensures kept { OnErr result (self.new.held ≡ self.old.held) }
        ensures durable { OnOk result (Now (D.history self.new.log.disk) (λ now. EachImage now (Means (held_after self.old.held (OfPart rec.now))))) }
        // At each moment of the call each image holds what was held, or what is.
        ensures any_moment { Through (D.history self.old.log.disk) (D.history self.new.log.disk) (MeansEither self.old.held (held_after self.old.held (OfPart rec.now))) }
        ensures failed { self.new.log.failed ≡ says_device result }
        ensures only { IfErr result IsOutside }
        ensures stays { D.stays self.old.log.disk self.new.log.disk }
        ensures cause { IsCaused (D.faults self.old.log.disk) (D.faults self.new.log.disk) (says_device result) }
        ensures sure { KeepsSure (D.is_sure self.old.log.disk) (D.is_sure self.new.log.disk) (says_device result) }
    {
        let made = match prepare_part(self.alloc, rec) {
            Ok(made) => made,
            Err(_) => return Err(StoreError::NoMemory),
        };
        let mut parts = match with_room(self.alloc, &mut self.held.parts) {
            Ok(parts) => parts,
            Err(_) => return Err(StoreError::NoMemory),
        };
        match self.log.append(made.0.as_slice()) {
            Ok(()) => {
                parts.push_reserved(made.1);
                self.held.parts = Items::from_vec(parts);
                Ok(())
            }
            Err(error) => {
                // The part isn't held.
                self.held.parts = Items::from_vec(parts);
                Err(of_log(error))
            }
        }
    }

    /// Adds a base, in the same way.
    pub fn add_base(&mut self, base: &Base) -> Result<(), StoreError>
        requires working { self.old.log.failed ≡ false }
        requires ranges { IsBase base.now }
        requires blocks { 0 < length base.now.blocks }
        ensures added { OnOk result (self.new.held ≡ held_after self.old.held (OfBase base.now)) }
        ensures kept { OnErr result (self.new.held ≡ self.old.held) }
        ensures durable { OnOk result (Now (D.history self.new.log.disk) (λ now. EachImage now (Means (held_after self.old.held (OfBase base.now))))) }
        ensures any_moment { Through (D.history self.old.log.disk) (D.history self.new.log.disk) (MeansEither self.old.held (held_after self.old.held (OfBase base.now))) }
        ensures failed { self.new.log.failed ≡ says_device result }
        ensures only { IfErr result IsOutside }
        ensures stays { D.stays self.old.log.disk self.new.log.disk }
        ensures cause { IsCaused (D.faults self.old.log.disk) (D.faults self.new.log.disk) (says_device result) }
        ensures sure { KeepsSure (D.is_sure self.old.log.disk) (D.is_sure self.new.log.disk) (says_device result) }
    {
        let made = match prepare_base(self.alloc, base) {
            Ok(made) => made,
            Err(_) => return Err(StoreError::NoMemory),
        };
        let mut bases = match with_room(self.alloc, &mut self.held.bases) {
            Ok(bases) => bases,
            Err(_) => return Err(StoreError::NoMemory),
        };
        match self.log.append(made.0.as_slice()) {
            Ok(()) => {
                bases.push_reserved(made.1);
                self.held.bases = Items::from_vec(bases);
                Ok(())
            }
            Err(error) => {
                self.held.bases = Items::from_vec(bases);
                Err(of_log(error))
            }
        }
    }

    /// Opens a session, in the same way: bases and parts of sessions below it are dropped.
    pub fn switch(&mut self, session: u64) -> Result<(), StoreError>
        requires { self.old.log.failed ≡ false }
        ensures switched { OnOk result (self.new.held ≡ held_after self.old.held (ToSession session)) }
        ensures kept { OnErr result (self.new.held ≡ self.old.held) }
        ensures durable { OnOk result (Now (D.history self.new.log.disk) (λ now. EachImage now (Means (held_after self.old.held (ToSession session))))) }
        ensures any_moment { Through (D.history self.old.log.disk) (D.history self.new.log.disk) (MeansEither self.old.held (held_after self.old.held (ToSession session))) }
        ensures failed { self.new.log.failed ≡ says_device result }
        ensures only { IfErr result IsOutside }
        ensures stays { D.stays self.old.log.disk self.new.log.disk }
        ensures cause { IsCaused (D.faults self.old.log.disk) (D.faults self.new.log.disk) (says_device result) }
        ensures sure { KeepsSure (D.is_sure self.old.log.disk) (D.is_sure self.new.log.disk) (says_device result) }
    {
        let entry = match switch_entry(self.alloc, session) {
            Ok(entry) => entry,
            Err(_) => return Err(StoreError::NoMemory),
        };
        match self.log.append(entry.as_slice()) {
            Ok(()) => {
                open_session(self.alloc, &mut self.held, session);
                Ok(())
            }
            Err(error) => Err(of_log(error)),
        }
    }

    /// What is held: what the file means, until a call has failed.
    pub fn held(&self) -> &Held
        ensures held { result.now ≡ self.now.held }
        ensures ranges { CanBeKept result.now }
        ensures means { self.now.log.failed ≡ false → Now (D.history self.now.log.disk) (λ now. EachImage now (Means self.now.held)) }
    {
        &self.held
    }

    /// Whether a call has answered `Device` since the load.
    pub fn failed(&self) -> bool
        ensures { result ≡ self.now.log.failed }
    {
        self.log.failed()
    }

    /// The disk, as it is.
    pub fn into_disk(self) -> D
        ensures { result ≡ self.log.disk }
    {
        self.log.into_disk()
    }
}

impl<D: Disk> Store<Lane<D>> {
    /// Holds something else, which this log spells. It is written into the other lane of the file, which is the live
    /// one then.
    pub fn refold(&mut self, held: Held, log: Spelled) -> Result<(), StoreError>
        requires working { self.old.log.failed ≡ false }
        requires head { Now (D.history self.old.log.disk.disk) (λ now. EachImage now (IsHead self.old.log.disk.lane)) }
        requires spelled { held_of (entries_of log.bytes.items) ≡ Some held }
        requires ranges { CanBeKept held }
        ensures folded { OnOk result (self.new.held ≡ held) }
        ensures kept { OnErr result (self.new.held ≡ self.old.held) }
        ensures durable { OnOk result (Now (D.history self.new.log.disk.disk) (λ now. EachImage now (MeansLive held))) }
        // At each moment of the call each image holds what was held, or what is.
        ensures any_moment { Through (D.history self.old.log.disk.disk) (D.history self.new.log.disk.disk) (MeansLiveEither self.old.held held) }
        ensures head { self.new.log.failed ≡ false → Now (D.history self.new.log.disk.disk) (λ now. EachImage now (IsHead self.new.log.disk.lane)) }
        ensures failed { self.new.log.failed ≡ says_device result }
        ensures only { IfErr result IsOutside }
        ensures cause { IsCaused (D.faults self.old.log.disk.disk) (D.faults self.new.log.disk.disk) (says_device result) }
        ensures sure { KeepsSure (D.is_sure self.old.log.disk.disk) (D.is_sure self.new.log.disk.disk) (says_device result) }
    {
        match self.log.rewrite(log) {
            Ok(()) => {
                self.held = held;
                Ok(())
            }
            Err(error) => Err(of_log(error)),
        }
    }
}

impl Store<MemDisk> {
    ghost use Rattle.disk_model.specs.Told.{moments_of};

    /// The n-th call of the disk from now fails without effect.
    pub fn fail_at(&mut self, n: u64) -> Result<(), NoMemory>
        requires { 1 ≤ n }
        ensures named { OnOk result (self.new.log.disk.failures.failing.items ≡ self.old.log.disk.failures.failing.items ++ n ∷ []) }
        ensures err { OnErr result (self.new.log.disk.failures.failing.items ≡ self.old.log.disk.failures.failing.items) }
        ensures stop { self.new.log.disk.failures.stop ≡ self.old.log.disk.failures.stop }
        ensures faults { self.new.log.disk.failures.count ≡ self.old.log.disk.failures.count }
        ensures moments { moments_of self.new.log.disk ≡ moments_of self.old.log.disk }
        ensures held { self.new.held ≡ self.old.held }
        ensures failed { self.new.log.failed ≡ self.old.log.failed }
    {
        self.log.fail_at(n)
    }

    /// After so many further calls of the disk each call fails without effect, until a crash.
    pub fn stop_after(&mut self, calls: u64)
        ensures failing { self.new.log.disk.failures.failing.items ≡ self.old.log.disk.failures.failing.items }
        ensures stop { self.new.log.disk.failures.stop ≡ Some calls }
        ensures faults { self.new.log.disk.failures.count ≡ self.old.log.disk.failures.count }
        ensures moments { moments_of self.new.log.disk ≡ moments_of self.old.log.disk }
        ensures held { self.new.held ≡ self.old.held }
        ensures failed { self.new.log.failed ≡ self.old.log.failed }
    {
        self.log.stop_after(calls);
    }
}

impl Store<Lane<MemDisk>> {
    ghost use Rattle.disk_model.specs.Told.{moments_of};

    /// The n-th call of the file's disk from now fails without effect.
    pub fn fail_at(&mut self, n: u64) -> Result<(), NoMemory>
        requires { 1 ≤ n }
        ensures named { OnOk result (self.new.log.disk.disk.failures.failing.items ≡ self.old.log.disk.disk.failures.failing.items ++ n ∷ []) }
        ensures err { OnErr result (self.new.log.disk.disk.failures.failing.items ≡ self.old.log.disk.disk.failures.failing.items) }
        ensures stop { self.new.log.disk.disk.failures.stop ≡ self.old.log.disk.disk.failures.stop }
        ensures faults { self.new.log.disk.disk.failures.count ≡ self.old.log.disk.disk.failures.count }
        ensures moments { moments_of self.new.log.disk.disk ≡ moments_of self.old.log.disk.disk }
        ensures lane { self.new.log.disk.lane ≡ self.old.log.disk.lane }
        ensures held { self.new.held ≡ self.old.held }
        ensures failed { self.new.log.failed ≡ self.old.log.failed }
    {
        self.log.fail_at(n)
    }

    /// After so many further calls of the file's disk each call fails without effect, until a crash.
    pub fn stop_after(&mut self, calls: u64)
        ensures failing { self.new.log.disk.disk.failures.failing.items ≡ self.old.log.disk.disk.failures.failing.items }
        ensures stop { self.new.log.disk.disk.failures.stop ≡ Some calls }
        ensures faults { self.new.log.disk.disk.failures.count ≡ self.old.log.disk.disk.failures.count }
        ensures moments { moments_of self.new.log.disk.disk ≡ moments_of self.old.log.disk.disk }
        ensures lane { self.new.log.disk.lane ≡ self.old.log.disk.lane }
        ensures held { self.new.held ≡ self.old.held }
        ensures failed { self.new.log.failed ≡ self.old.log.failed }
    {
        self.log.stop_after(calls);
    }
}
