ghost use Rattle.std.specs.Prelude.{◌≡◌, ◌↔◌, ◌≤◌, ◌<◌, ◌++◌, ◌∷◌, [], List, Some, None, true, false, length, filter, IfOk, IfErr, OnOk, OnErr, MatchResult, IsTrue};
ghost use Rattle.std.specs.List.{list_any};
ghost use Rattle.std.proofs.Props.{props};
ghost use Rattle.disk_model.specs.Disk.{Moment, Now, EachImage, Goes, IsSynced, Through, clean};
ghost use Rattle.client_tag.specs.Ranges.{IsRecord, IsBase};
ghost use Rattle.disk_lane.specs.Heads.{IsHead};
ghost use Rattle.datanode_log.specs.Causes.{IsCaused, KeepsSure};
ghost use Rattle.datanode_store.specs.Causes.{is_device, says_device, IsOutside};
ghost use Rattle.salus_types.specs.declared.records.Held.{Held as AnyHeld};
ghost use Rattle.salus_types.specs.Volume.{Shape};
ghost use Rattle.datanode_store.specs.Live.{MeansLive, MeansLiveEither, MeansOneLive};
ghost use Rattle.datanode_store.specs.Meaning.{CanBeKept};
ghost use Rattle.holding_model.specs.Holding.{OfPart, OfBase, ToSession, held_of, held_after};
ghost use Rattle.datanode_log.specs.Entries.{entries_of};
ghost use Rattle.holding_model.specs.Changing.{FoldsTo, changed, is_folded};
ghost use Rattle.datanode_checkpoint.specs.Files.{formatted, RefusesLive};
ghost use Rattle.datanode_checkpoint.specs.Folds.{CanBeFolded};

use crate::foldable::can_fold;
use crate::folding::{any_folded, fold};
use crate::formatting;
use crate::spelling::spell;
use datanode_log::{Refused, Spelled};
use datanode_store::{Store, StoreError};
use disk_lane::{Lane, read_live};
use disk_model::{Disk, DiskFault, MemDisk};
use salus_types::{Base, Held, NoMemory, Record};
use std::alloc::Global;

/// What a node holds, kept in the live lane of a file.
#[derive(Drop)]
pub struct Checkpoint<D: Disk>
where
    Lane<D>: Disk,
{
    alloc: Global,
    store: Store<Lane<D>>,
    ghost head: { (now : Moment) (past : List Moment) → D.history store.log.disk.disk ≡ now ∷ past → store.log.failed ≡ false → EachImage now (IsHead store.log.disk.lane) } by { Prim.hlevel props },
}

// Syncs a file and reads which lane is live.
fn find_live<D: Disk>(disk: &mut D) -> Result<u64, StoreError>
    ensures live { IfOk result (λ lane. Now (D.history disk.new) (λ now. EachImage now (IsHead lane))) }
    ensures lane { IfOk result (λ lane. lane < 2) }
    ensures refused { IfErr result (λ error. Now (D.history disk.old) (λ old. RefusesLive error old.seen)) }
    ensures synced { OnOk result (Now (D.history disk.old) (λ old. Now (D.history disk.new) (λ now. now ≡ clean old.seen))) }
    ensures moments { Goes IsSynced (D.history disk.old) (D.history disk.new) }
    ensures cause { IsCaused (D.faults disk.old) (D.faults disk.new) (says_device result) }
    ensures sure { KeepsSure (D.is_sure disk.old) (D.is_sure disk.new) (says_device result) }
{
    match read_live(disk) {
        Ok(Some(lane)) => Ok(lane),
        Ok(None) => Err(StoreError::Foreign),
        Err(DiskFault::Device) => Err(StoreError::Device),
        Err(DiskFault::NoMemory) => Err(StoreError::NoMemory),
    }
}

// What is held after a fold, and the log that says so.
fn prepare_fold(alloc: Global, held: &Held, seq: u64) -> Result<(Held, Spelled), NoMemory>
    requires ranges { CanBeKept held.now }
    requires foldable { CanBeFolded held.now }
    requires some { list_any (λ rec. is_folded held.now seq rec) held.now.parts ≡ true }
    ensures folded { IfOk result (λ made. (shape : Shape) → made.0 ≡ changed shape held.now (FoldsTo seq)) }
    ensures ranges { IfOk result (λ made. CanBeKept made.0) }
    ensures spelled { IfOk result (λ made. held_of (entries_of made.1.bytes.items) ≡ Some made.0) }
{
    let folded = match fold(alloc, held, seq) {
        Ok(folded) => folded,
        Err(error) => return Err(error),
    };
    match spell(alloc, &folded) {
        Ok(log) => Ok((folded, log)),
        Err(error) => Err(error),
    }
}

impl<D: Disk> Checkpoint<D> {
    /// Writes a checkpoint that holds nothing to an empty disk. After an error the disk may hold a part of it.
    pub fn format(disk: &mut D) -> Result<(), StoreError>
        requires { Now (D.history disk.old) (λ now. now.seen ≡ []) }
        ensures formatted { OnOk result (Now (D.history disk.new) (λ now. now ≡ clean formatted)) }
        ensures only { IfErr result IsOutside }
        ensures cause { IsCaused (D.faults disk.old) (D.faults disk.new) (says_device result) }
        ensures sure { KeepsSure (D.is_sure disk.old) (D.is_sure disk.new) (says_device result) }
    {
        formatting::format(disk)
    }

    /// Syncs a disk and reads what the live lane of its file holds. What isn't loaded is handed back.
    ///
    /// `Foreign` comes where the file has fewer than 16 bytes or another mark, or where its live lane has fewer than nine
    /// bytes or isn't a log; `Damaged` and `BadRecord` speak of the live lane. All yield to `Device` and to want of memory.
    pub fn load(alloc: Global, mut disk: D) -> Result<Checkpoint<D>, Refused<D, StoreError>>
        ensures held { IfOk result (λ checkpoint. Now (D.history disk) (λ old. MeansLive checkpoint.store.held old.seen)) }
        ensures durable { IfOk result (λ checkpoint. Now (D.history checkpoint.store.log.disk.disk) (λ now. EachImage now (MeansLive checkpoint.store.held))) }
        ensures working { IfOk result (λ checkpoint. checkpoint.store.log.failed ≡ false) }
        ensures refused { IfErr result (λ refused. Now (D.history disk) (λ old. RefusesLive refused.error old.seen)) }
        // A file that a checkpoint wrote is refused only by the device, or for want of memory.
        ensures written { IfErr result (λ refused. Now (D.history disk) (λ old. (held : AnyHeld) → MeansLive held old.seen → IsOutside refused.error)) }
        // What each image means before, it means at each moment of the load: of some contents, one of them.
        ensures any_moment { (contents : List AnyHeld) → Now (D.history disk) (λ old. EachImage old (MeansOneLive contents)) → MatchResult result (λ checkpoint. Through (D.history disk) (D.history checkpoint.store.log.disk.disk) (MeansOneLive contents)) (λ refused. Through (D.history disk) (D.history refused.disk) (MeansOneLive contents)) }
        ensures cause { MatchResult result (λ checkpoint. D.faults checkpoint.store.log.disk.disk ≡ D.faults disk) (λ refused. IsCaused (D.faults disk) (D.faults refused.disk) (is_device refused.error)) }
        ensures sure { MatchResult result (λ checkpoint. KeepsSure (D.is_sure disk) (D.is_sure checkpoint.store.log.disk.disk) false) (λ refused. KeepsSure (D.is_sure disk) (D.is_sure refused.disk) (is_device refused.error)) }
    {
        let lane = match find_live(&mut disk) {
            Ok(lane) => lane,
            Err(error) => return Err(Refused { disk, error }),
        };
        match Store::load(alloc, Lane::new(alloc, disk, lane)) {
            Ok(store) => Ok(Checkpoint { alloc, store }),
            Err(Refused { disk, error }) => Err(Refused {
                disk: disk.into_disk(),
                error,
            }),
        }
    }

    /// Adds a part. At `Ok` each crash leaves a file that holds it too.
    ///
    /// It makes one write for each page that its bytes touch, each behind one of zero bytes where the page begins past
    /// the end of the file; then a sync, the gate's write, and a sync. All memory but the disk's is taken before.
    pub fn add_part(&mut self, rec: &Record) -> Result<(), StoreError>
        requires working { self.old.store.log.failed ≡ false }
        requires ranges { IsRecord rec.now }
        ensures added { OnOk result (self.new.store.held ≡ held_after self.old.store.held (OfPart rec.now)) }
        ensures kept { OnErr result (self.new.store.held ≡ self.old.store.held) }
        ensures durable { OnOk result (Now (D.history self.new.store.log.disk.disk) (λ now. EachImage now (MeansLive (held_after self.old.store.held (OfPart rec.now))))) }
        // At each moment of the call each image holds what was held, or what is.
        ensures any_moment { Through (D.history self.old.store.log.disk.disk) (D.history self.new.store.log.disk.disk) (MeansLiveEither self.old.store.held (held_after self.old.store.held (OfPart rec.now))) }
        ensures failed { self.new.store.log.failed ≡ says_device result }
        ensures only { IfErr result IsOutside }
        ensures cause { IsCaused (D.faults self.old.store.log.disk.disk) (D.faults self.new.store.log.disk.disk) (says_device result) }
        ensures sure { KeepsSure (D.is_sure self.old.store.log.disk.disk) (D.is_sure self.new.store.log.disk.disk) (says_device result) }
    {
        self.store.add_part(rec)
    }

    /// Adds a base, in the same way.
    pub fn add_base(&mut self, base: &Base) -> Result<(), StoreError>
        requires working { self.old.store.log.failed ≡ false }
        requires ranges { IsBase base.now }
        requires blocks { 0 < length base.now.blocks }
        ensures added { OnOk result (self.new.store.held ≡ held_after self.old.store.held (OfBase base.now)) }
        ensures kept { OnErr result (self.new.store.held ≡ self.old.store.held) }
        ensures durable { OnOk result (Now (D.history self.new.store.log.disk.disk) (λ now. EachImage now (MeansLive (held_after self.old.store.held (OfBase base.now))))) }
        ensures any_moment { Through (D.history self.old.store.log.disk.disk) (D.history self.new.store.log.disk.disk) (MeansLiveEither self.old.store.held (held_after self.old.store.held (OfBase base.now))) }
        ensures failed { self.new.store.log.failed ≡ says_device result }
        ensures only { IfErr result IsOutside }
        ensures cause { IsCaused (D.faults self.old.store.log.disk.disk) (D.faults self.new.store.log.disk.disk) (says_device result) }
        ensures sure { KeepsSure (D.is_sure self.old.store.log.disk.disk) (D.is_sure self.new.store.log.disk.disk) (says_device result) }
    {
        self.store.add_base(base)
    }

    /// Opens a session, in the same way: bases and parts of sessions below it are dropped.
    pub fn switch(&mut self, session: u64) -> Result<(), StoreError>
        requires { self.old.store.log.failed ≡ false }
        ensures switched { OnOk result (self.new.store.held ≡ held_after self.old.store.held (ToSession session)) }
        ensures kept { OnErr result (self.new.store.held ≡ self.old.store.held) }
        ensures durable { OnOk result (Now (D.history self.new.store.log.disk.disk) (λ now. EachImage now (MeansLive (held_after self.old.store.held (ToSession session))))) }
        ensures any_moment { Through (D.history self.old.store.log.disk.disk) (D.history self.new.store.log.disk.disk) (MeansLiveEither self.old.store.held (held_after self.old.store.held (ToSession session))) }
        ensures failed { self.new.store.log.failed ≡ says_device result }
        ensures only { IfErr result IsOutside }
        ensures cause { IsCaused (D.faults self.old.store.log.disk.disk) (D.faults self.new.store.log.disk.disk) (says_device result) }
        ensures sure { KeepsSure (D.is_sure self.old.store.log.disk.disk) (D.is_sure self.new.store.log.disk.disk) (says_device result) }
    {
        self.store.switch(session)
    }

    /// Folds the parts of the open session numbered at most `seq` into its base, in the order held. The base takes the
    /// record of the last of them. Where there is none, nothing changes and the disk isn't called.
    ///
    /// The new log is written into the other lane, as an append is; then come a sync, the selector's write, and a sync.
    /// At `Ok` each crash leaves the folded file. No record that is held has a run, so it is the same for every shape.
    pub fn fold_to(&mut self, seq: u64) -> Result<(), StoreError>
        requires working { self.old.store.log.failed ≡ false }
        requires foldable { CanBeFolded self.old.store.held }
        ensures folded { OnOk result ((shape : Shape) → self.new.store.held ≡ changed shape self.old.store.held (FoldsTo seq)) }
        ensures kept { OnErr result (self.new.store.held ≡ self.old.store.held) }
        ensures durable { OnOk result ((shape : Shape) → Now (D.history self.new.store.log.disk.disk) (λ now. EachImage now (MeansLive (changed shape self.old.store.held (FoldsTo seq))))) }
        // At each moment of the call each image holds what was held, or what is.
        ensures any_moment { (shape : Shape) → Through (D.history self.old.store.log.disk.disk) (D.history self.new.store.log.disk.disk) (MeansLiveEither self.old.store.held (changed shape self.old.store.held (FoldsTo seq))) }
        ensures failed { self.new.store.log.failed ≡ says_device result }
        ensures only { IfErr result IsOutside }
        ensures cause { IsCaused (D.faults self.old.store.log.disk.disk) (D.faults self.new.store.log.disk.disk) (says_device result) }
        ensures sure { KeepsSure (D.is_sure self.old.store.log.disk.disk) (D.is_sure self.new.store.log.disk.disk) (says_device result) }
    {
        if any_folded(self.store.held(), seq) {
            self.fold_some(seq)
        } else {
            Ok(())
        }
    }

    // The same, where there is a part to fold.
    fn fold_some(&mut self, seq: u64) -> Result<(), StoreError>
        requires working { self.old.store.log.failed ≡ false }
        requires foldable { CanBeFolded self.old.store.held }
        requires some { list_any (λ rec. is_folded self.old.store.held seq rec) self.old.store.held.parts ≡ true }
        ensures folded { OnOk result ((shape : Shape) → self.new.store.held ≡ changed shape self.old.store.held (FoldsTo seq)) }
        ensures kept { OnErr result (self.new.store.held ≡ self.old.store.held) }
        ensures durable { OnOk result ((shape : Shape) → Now (D.history self.new.store.log.disk.disk) (λ now. EachImage now (MeansLive (changed shape self.old.store.held (FoldsTo seq))))) }
        ensures any_moment { (shape : Shape) → Through (D.history self.old.store.log.disk.disk) (D.history self.new.store.log.disk.disk) (MeansLiveEither self.old.store.held (changed shape self.old.store.held (FoldsTo seq))) }
        ensures failed { self.new.store.log.failed ≡ says_device result }
        ensures only { IfErr result IsOutside }
        ensures cause { IsCaused (D.faults self.old.store.log.disk.disk) (D.faults self.new.store.log.disk.disk) (says_device result) }
        ensures sure { KeepsSure (D.is_sure self.old.store.log.disk.disk) (D.is_sure self.new.store.log.disk.disk) (says_device result) }
    {
        let made = match prepare_fold(self.alloc, self.store.held(), seq) {
            Ok(made) => made,
            Err(_) => return Err(StoreError::NoMemory),
        };
        self.store.refold(made.0, made.1)
    }

    /// Whether the open session can be folded: exactly where it has one base, and parts with blocks of its blocks'
    /// length.
    pub fn can_fold(&self) -> bool
        ensures { IsTrue result ↔ CanBeFolded self.now.store.held }
    {
        can_fold(self.store.held())
    }

    /// What is held: what the live lane of the file means, until a call has failed.
    pub fn held(&self) -> &Held
        ensures held { result.now ≡ self.now.store.held }
        ensures ranges { CanBeKept result.now }
        ensures means { self.now.store.log.failed ≡ false → Now (D.history self.now.store.log.disk.disk) (λ now. EachImage now (MeansLive self.now.store.held)) }
    {
        self.store.held()
    }

    /// Whether a call has answered `Device` since the load.
    pub fn failed(&self) -> bool
        ensures { result ≡ self.now.store.log.failed }
    {
        self.store.failed()
    }

    /// The disk, as it is.
    pub fn into_disk(self) -> D
        ensures { result ≡ self.store.log.disk.disk }
    {
        self.store.into_disk().into_disk()
    }
}

impl Checkpoint<MemDisk> {
    ghost use Rattle.disk_model.specs.Told.{moments_of};

    /// The n-th call of the disk from now fails without effect.
    pub fn fail_at(&mut self, n: u64) -> Result<(), NoMemory>
        requires { 1 ≤ n }
        ensures named { OnOk result (self.new.store.log.disk.disk.failures.failing.items ≡ self.old.store.log.disk.disk.failures.failing.items ++ n ∷ []) }
        ensures err { OnErr result (self.new.store.log.disk.disk.failures.failing.items ≡ self.old.store.log.disk.disk.failures.failing.items) }
        ensures stop { self.new.store.log.disk.disk.failures.stop ≡ self.old.store.log.disk.disk.failures.stop }
        ensures faults { self.new.store.log.disk.disk.failures.count ≡ self.old.store.log.disk.disk.failures.count }
        ensures moments { moments_of self.new.store.log.disk.disk ≡ moments_of self.old.store.log.disk.disk }
        ensures lane { self.new.store.log.disk.lane ≡ self.old.store.log.disk.lane }
        ensures held { self.new.store.held ≡ self.old.store.held }
        ensures failed { self.new.store.log.failed ≡ self.old.store.log.failed }
    {
        self.store.fail_at(n)
    }

    /// After so many further calls of the disk each call fails without effect, until a crash.
    pub fn stop_after(&mut self, calls: u64)
        ensures failing { self.new.store.log.disk.disk.failures.failing.items ≡ self.old.store.log.disk.disk.failures.failing.items }
        ensures stop { self.new.store.log.disk.disk.failures.stop ≡ Some calls }
        ensures faults { self.new.store.log.disk.disk.failures.count ≡ self.old.store.log.disk.disk.failures.count }
        ensures moments { moments_of self.new.store.log.disk.disk ≡ moments_of self.old.store.log.disk.disk }
        ensures lane { self.new.store.log.disk.lane ≡ self.old.store.log.disk.lane }
        ensures held { self.new.store.held ≡ self.old.store.held }
        ensures failed { self.new.store.log.failed ≡ self.old.store.log.failed }
    {
        self.store.stop_after(calls);
    }
}
