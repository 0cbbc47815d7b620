ghost use Rattle.std.specs.Prelude.{◌≡◌, ◌≤◌, ◌<◌, ◌++◌, ◌∷◌, ◌||◌, [], List, Some, Ok, true, false, IfOk, IfErr, OnOk, OnErr, MatchResult};
ghost use Rattle.std.proofs.Props.{props};
ghost use Rattle.disk_model.specs.Disk.{Now, EachImage, Through};
ghost use Rattle.datanode_log.specs.Causes.{IsCaused, KeepsSure};
ghost use Rattle.datanode_store.specs.Causes.{is_device, IsOutside};
ghost use Rattle.datanode_store.specs.Live.{MeansLive, MeansOneLive};
ghost use Rattle.datanode_checkpoint.specs.Files.{RefusesLive};
ghost use Rattle.salus_types.specs.declared.records.Held.{Held as AnyHeld};
ghost use Rattle.holding_model.specs.Changing.{contents_through};
ghost use Rattle.replica_rules.specs.Nodes.{NodeState, loaded_as};
ghost use Rattle.replica_rules.specs.Rules.{Receives, Ticks, handled};
ghost use Rattle.replica_node.specs.Errors.{says_device, is_err};
ghost use Rattle.replica_node.specs.Serving.{Serves};

use crate::error::NodeError;
use crate::handling::{receive, tick};
use crate::opening::open_loaded;
use datanode_checkpoint::Checkpoint;
use datanode_log::Refused;
use datanode_store::StoreError;
use disk_lane::Lane;
use disk_model::{Disk, MemDisk};
use open_session::Session;
use salus_types::{Geometry, Held, Items, NoMemory, NodeName, Outs, Sender};
use std::alloc::Global;

/// A replica of a region over its disk. After the first error it is silent: it answers nothing and doesn't call its disk.
#[derive(Drop)]
pub struct ReplicaNode<D: Disk>
where
    Lane<D>: Disk,
{
    alloc: Global,
    geometry: Geometry,
    name: NodeName,
    checkpoint: Checkpoint<D>,
    session: Option<Session>,
    silent: bool,
    ghost works: { silent ≡ false → checkpoint.store.log.failed ≡ false },
    ghost serves: { silent ≡ false → Serves geometry name.region checkpoint.store.held session } by { Prim.hlevel props },
}

impl<D: Disk> ReplicaNode<D> {
    ghost use Rattle.replica_node.specs.Standing.{IsIn, IsHandled};

    // The node of what a checkpoint holds; without memory its disk is handed back.
    fn begin(
        alloc: Global,
        name: NodeName,
        geometry: Geometry,
        checkpoint: Checkpoint<D>,
    ) -> Result<ReplicaNode<D>, Refused<D, StoreError>>
        requires { checkpoint.store.log.failed ≡ false }
        ensures state { IfOk result (λ node. IsIn node (loaded_as geometry name.region node.checkpoint.store.held)) }
        ensures same { IfOk result (λ node. node.checkpoint ≡ checkpoint) }
        ensures speaks { IfOk result (λ node. node.silent ≡ false) }
        ensures place { IfOk result (λ node. (node.geometry ≡ geometry) × (node.name ≡ name)) }
        ensures back { IfErr result (λ refused. (refused.disk ≡ checkpoint.store.log.disk.disk) × (refused.error ≡ StoreError.NoMemory)) }
    {
        match open_loaded(alloc, &geometry, name, checkpoint.held()) {
            Ok(session) => Ok(ReplicaNode {
                alloc,
                geometry,
                name,
                checkpoint,
                session,
                silent: false,
            }),
            Err(NoMemory) => Err(Refused {
                disk: checkpoint.into_disk(),
                error: StoreError::NoMemory,
            }),
        }
    }

    /// Syncs a disk and reads what its file holds: what a node has held that was stopped at any moment, or what a file
    /// holds that no node wrote. What isn't loaded is handed back.
    pub fn load(
        alloc: Global,
        name: NodeName,
        geometry: Geometry,
        disk: D,
    ) -> Result<ReplicaNode<D>, Refused<D, StoreError>>
        ensures state { IfOk result (λ node. IsIn node (loaded_as geometry name.region node.checkpoint.store.held)) }
        ensures held { IfOk result (λ node. Now (D.history disk) (λ old. MeansLive node.checkpoint.store.held old.seen)) }
        ensures durable { IfOk result (λ node. Now (D.history node.checkpoint.store.log.disk.disk) (λ now. EachImage now (MeansLive node.checkpoint.store.held))) }
        ensures speaks { IfOk result (λ node. node.silent ≡ false) }
        ensures place { IfOk result (λ node. (node.geometry ≡ geometry) × (node.name ≡ name)) }
        ensures refused { IfErr result (λ refused. Now (D.history disk) (λ old. RefusesLive refused.error old.seen)) }
        // A file that a node wrote is refused only by the device, or for want of memory.
        ensures written { IfErr result (λ refused. Now (D.history disk) (λ old. (held : AnyHeld) → MeansLive held old.seen → IsOutside refused.error)) }
        // What each image means before, it means at each moment of the load: of some contents, one of them.
        ensures any_moment { (contents : List AnyHeld) → Now (D.history disk) (λ old. EachImage old (MeansOneLive contents)) → MatchResult result (λ node. Through (D.history disk) (D.history node.checkpoint.store.log.disk.disk) (MeansOneLive contents)) (λ refused. Through (D.history disk) (D.history refused.disk) (MeansOneLive contents)) }
        ensures cause { MatchResult result (λ node. D.faults node.checkpoint.store.log.disk.disk ≡ D.faults disk) (λ refused. IsCaused (D.faults disk) (D.faults refused.disk) (is_device refused.error)) }
        ensures sure { MatchResult result (λ node. KeepsSure (D.is_sure disk) (D.is_sure node.checkpoint.store.log.disk.disk) false) (λ refused. KeepsSure (D.is_sure disk) (D.is_sure refused.disk) (is_device refused.error)) }
    {
        match Checkpoint::load(alloc, disk) {
            Ok(checkpoint) => ReplicaNode::begin(alloc, name, geometry, checkpoint),
            Err(refused) => Err(refused),
        }
    }

    /// Handles a message. Bytes that don't decode, and messages that its sender has no right to, change nothing.
    ///
    /// After an error it is silent, and some front part of the changes may be held.
    pub fn handle(&mut self, from: Sender, bytes: &[u8]) -> Result<Outs, NodeError>
        ensures rules { IfOk result (λ outs. (state : NodeState) → IsIn self.old state → self.old.silent ≡ false → IsHandled self.new.checkpoint.store.held self.new.session outs (handled self.old.geometry self.old.name.region state (Receives from bytes.now))) }
        // At each moment each image means what was held after some front part of the changes.
        ensures any_moment { (state : NodeState) → IsIn self.old state → self.old.silent ≡ false → Through (D.history self.old.checkpoint.store.log.disk.disk) (D.history self.new.checkpoint.store.log.disk.disk) (MeansOneLive (contents_through self.old.geometry state.held (handled self.old.geometry self.old.name.region state (Receives from bytes.now)).changes)) }
        ensures durable { self.new.silent ≡ false → Now (D.history self.new.checkpoint.store.log.disk.disk) (λ now. EachImage now (MeansLive self.new.checkpoint.store.held)) }
        ensures silent { self.new.silent ≡ (self.old.silent || is_err result) }
        ensures quiet { self.old.silent ≡ true → (self.new ≡ self.old) × (result ≡ Ok []) }
        ensures place { (self.new.geometry ≡ self.old.geometry) × (self.new.name ≡ self.old.name) }
        ensures cause { IsCaused (D.faults self.old.checkpoint.store.log.disk.disk) (D.faults self.new.checkpoint.store.log.disk.disk) (says_device result) }
        ensures sure { KeepsSure (D.is_sure self.old.checkpoint.store.log.disk.disk) (D.is_sure self.new.checkpoint.store.log.disk.disk) (says_device result) }
    {
        if self.silent {
            return Ok(Items::new(self.alloc));
        }
        match receive(
            self.alloc,
            &self.geometry,
            self.name,
            &mut self.checkpoint,
            &mut self.session,
            from,
            bytes,
        ) {
            Ok(outs) => Ok(outs),
            Err(error) => {
                self.silent = true;
                Err(error)
            }
        }
    }

    /// Handles a tick, in the same way.
    pub fn tick(&mut self) -> Result<Outs, NodeError>
        ensures rules { IfOk result (λ outs. (state : NodeState) → IsIn self.old state → self.old.silent ≡ false → IsHandled self.new.checkpoint.store.held self.new.session outs (handled self.old.geometry self.old.name.region state Ticks)) }
        ensures any_moment { (state : NodeState) → IsIn self.old state → self.old.silent ≡ false → Through (D.history self.old.checkpoint.store.log.disk.disk) (D.history self.new.checkpoint.store.log.disk.disk) (MeansOneLive (contents_through self.old.geometry state.held (handled self.old.geometry self.old.name.region state Ticks).changes)) }
        ensures durable { self.new.silent ≡ false → Now (D.history self.new.checkpoint.store.log.disk.disk) (λ now. EachImage now (MeansLive self.new.checkpoint.store.held)) }
        ensures silent { self.new.silent ≡ (self.old.silent || is_err result) }
        ensures quiet { self.old.silent ≡ true → (self.new ≡ self.old) × (result ≡ Ok []) }
        ensures place { (self.new.geometry ≡ self.old.geometry) × (self.new.name ≡ self.old.name) }
        ensures cause { IsCaused (D.faults self.old.checkpoint.store.log.disk.disk) (D.faults self.new.checkpoint.store.log.disk.disk) (says_device result) }
        ensures sure { KeepsSure (D.is_sure self.old.checkpoint.store.log.disk.disk) (D.is_sure self.new.checkpoint.store.log.disk.disk) (says_device result) }
    {
        if self.silent {
            return Ok(Items::new(self.alloc));
        }
        match tick(
            self.alloc,
            &self.geometry,
            self.name,
            &mut self.checkpoint,
            &mut self.session,
        ) {
            Ok(outs) => Ok(outs),
            Err(fault) => {
                self.silent = true;
                Err(fault)
            }
        }
    }

    /// Whether a handling has answered an error since the load.
    pub fn is_silent(&self) -> bool
        ensures { result ≡ self.now.silent }
    {
        self.silent
    }

    /// What it holds: what each image of its disk means, unless it is silent.
    pub fn held(&self) -> &Held
        ensures held { result.now ≡ self.now.checkpoint.store.held }
        ensures means { self.now.silent ≡ false → Now (D.history self.now.checkpoint.store.log.disk.disk) (λ now. EachImage now (MeansLive self.now.checkpoint.store.held)) }
    {
        self.checkpoint.held()
    }

    pub fn name(&self) -> NodeName
        ensures { result ≡ self.now.name }
    {
        self.name
    }

    pub fn geometry(&self) -> Geometry
        ensures { result ≡ self.now.geometry }
    {
        self.geometry
    }

    /// The disk, as it is.
    pub fn into_disk(self) -> D
        ensures { result ≡ self.checkpoint.store.log.disk.disk }
    {
        self.checkpoint.into_disk()
    }
}

impl ReplicaNode<MemDisk> {
    ghost use Rattle.disk_model.specs.Told.{moments_of};

    /// The n-th call of the disk from now fails without effect.
    pub fn fail_at(&mut self, n: u64) -> Result<(), NoMemory>
        requires { 1 ≤ n }
        ensures named { OnOk result (self.new.checkpoint.store.log.disk.disk.failures.failing.items ≡ self.old.checkpoint.store.log.disk.disk.failures.failing.items ++ n ∷ []) }
        ensures err { OnErr result (self.new.checkpoint.store.log.disk.disk.failures.failing.items ≡ self.old.checkpoint.store.log.disk.disk.failures.failing.items) }
        ensures stop { self.new.checkpoint.store.log.disk.disk.failures.stop ≡ self.old.checkpoint.store.log.disk.disk.failures.stop }
        ensures faults { self.new.checkpoint.store.log.disk.disk.failures.count ≡ self.old.checkpoint.store.log.disk.disk.failures.count }
        ensures moments { moments_of self.new.checkpoint.store.log.disk.disk ≡ moments_of self.old.checkpoint.store.log.disk.disk }
        ensures held { self.new.checkpoint.store.held ≡ self.old.checkpoint.store.held }
        ensures session { self.new.session ≡ self.old.session }
        ensures silent { self.new.silent ≡ self.old.silent }
        ensures place { (self.new.geometry ≡ self.old.geometry) × (self.new.name ≡ self.old.name) }
    {
        self.checkpoint.fail_at(n)
    }

    /// After so many further calls of the disk each call fails without effect, until a crash.
    pub fn stop_after(&mut self, calls: u64)
        ensures failing { self.new.checkpoint.store.log.disk.disk.failures.failing.items ≡ self.old.checkpoint.store.log.disk.disk.failures.failing.items }
        ensures stop { self.new.checkpoint.store.log.disk.disk.failures.stop ≡ Some calls }
        ensures faults { self.new.checkpoint.store.log.disk.disk.failures.count ≡ self.old.checkpoint.store.log.disk.disk.failures.count }
        ensures moments { moments_of self.new.checkpoint.store.log.disk.disk ≡ moments_of self.old.checkpoint.store.log.disk.disk }
        ensures held { self.new.checkpoint.store.held ≡ self.old.checkpoint.store.held }
        ensures session { self.new.session ≡ self.old.session }
        ensures silent { self.new.silent ≡ self.old.silent }
        ensures place { (self.new.geometry ≡ self.old.geometry) × (self.new.name ≡ self.old.name) }
    {
        self.checkpoint.stop_after(calls);
    }
}
