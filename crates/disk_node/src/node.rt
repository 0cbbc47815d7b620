ghost use Rattle.std.specs.Prelude.{◌≡◌, ◌≤◌, ◌<◌, [], false, List, option_map, IfOk, IfErr, IsTrue, OnOk, MatchResult};
ghost use Rattle.std.specs.Option.{ForSome, option_copied};
ghost use Rattle.std.proofs.Props.{props};
ghost use Rattle.salus_types.specs.Volume.{Shape, regions};
ghost use Rattle.salus_types.specs.declared.names.NodeName.{NodeName as AnyName};
ghost use Rattle.salus_types.specs.declared.records.Held.{Held as AnyHeld};
ghost use Rattle.disk_model.specs.Disk.{Now, EachImage, Through};
ghost use Rattle.datanode_log.specs.Causes.{IsCaused, KeepsSure};
ghost use Rattle.datanode_store.specs.Causes.{is_device, IsOutside};
ghost use Rattle.datanode_store.specs.Live.{MeansLive, MeansOneLive};
ghost use Rattle.holding_model.specs.Holding.{nothing_held};
ghost use Rattle.replica_rules.specs.Rules.{Receives, Ticks};
ghost use Rattle.run_rules.specs.Knowing.{KnownNode, fresh};
ghost use Rattle.run_rules.specs.Running.{formatted};
ghost use Rattle.disk_node.specs.Loadable.{AllLoadable};

use crate::formatting::{empty_disk, first_base, prepare};
use crate::handling;
use crate::loading::{load, restart};
use crate::outcome::Outcome;
use datanode_log::Refused;
use datanode_store::StoreError;
use disk_lane::Lane;
use disk_model::{Disk, MemDisk};
use replica_node::ReplicaNode;
use salus_hash::HmacKey;
use salus_types::{Geometry, Held, NoMemory, NodeName, Sender};
use std::alloc::Global;

/// A node over its disk.
pub struct DiskNode<D: Disk>
where
    Lane<D>: Disk,
{
    alloc: Global,
    geometry: Geometry,
    name: NodeName,
    // None only after a call that found no memory.
    node: Option<ReplicaNode<D>>,
    ghost loadable: { ForSome node (λ n. AllLoadable (D.history n.checkpoint.store.log.disk.disk)) } by { Prim.hlevel props },
}

impl<D: Disk + Drop> Drop for DiskNode<D> {
    /// Takes the node apart, with its disk: a crate that has a list of nodes drops each by this call.
    fn drop(self) {
        let DiskNode {
            alloc: _,
            geometry: _,
            name: _,
            node: _node,
        } = self;
    }
}

impl<D: Disk> DiskNode<D> {
    ghost use Rattle.disk_node.specs.Fitting.{Fits, IsUnharmed, IsAnswered, PassesOn, moments_in, faults_in, held_in};

    /// A node of a volume with this geometry, of what its disk holds, which is synced and read. What isn't loaded is handed back.
    pub fn load(
        alloc: Global,
        geometry: Geometry,
        name: NodeName,
        disk: D,
    ) -> Result<DiskNode<D>, Refused<D, StoreError>>
        ensures fits { IfOk result (λ node. Fits geometry name (fresh geometry name.region (held_in node)) node) }
        ensures holds { IfOk result (λ node. Now (D.history disk) (λ old. MeansLive (held_in node) old.seen)) }
        // A file that a node wrote is refused only by the device, or for want of memory.
        ensures written { IfErr result (λ refused. Now (D.history disk) (λ old. (held : AnyHeld) → MeansLive held old.seen → IsOutside refused.error)) }
        // What each image means before, it means at each moment of the load: of some contents, one of them.
        ensures any_moment { (contents : List AnyHeld) → Now (D.history disk) (λ old. EachImage old (MeansOneLive contents)) → MatchResult result (λ node. Through (D.history disk) (moments_in node) (MeansOneLive contents)) (λ refused. Through (D.history disk) (D.history refused.disk) (MeansOneLive contents)) }
        ensures cause { MatchResult result (λ node. faults_in node ≡ D.faults disk) (λ refused. IsCaused (D.faults disk) (D.faults refused.disk) (is_device refused.error)) }
        ensures sure { IsTrue (D.is_sure disk) → MatchResult result (λ node. IsUnharmed node) (λ refused. is_device refused.error ≡ false) }
    {
        match ReplicaNode::load(alloc, name, geometry, disk) {
            Ok(node) => Ok(DiskNode {
                alloc,
                geometry,
                name,
                node: Some(node),
            }),
            Err(refused) => Err(refused),
        }
    }

    /// A new node of a volume with this geometry and key, over an empty disk, which is formatted: session 1 with the sealed
    /// base of the node's region, whose blocks are zero. Without a node the disk is handed back; it may hold a part of that.
    pub fn format(
        alloc: Global,
        geometry: Geometry,
        key: &HmacKey,
        name: NodeName,
        disk: D,
    ) -> Result<DiskNode<D>, Refused<D, StoreError>>
        requires region { name.region < regions geometry }
        requires empty { Now (D.history disk) (λ now. now.seen ≡ []) }
        ensures fits { IfOk result (λ node. Fits geometry name (fresh geometry name.region (held_in node)) node) }
        // Where its disk tells what it holds, that is what such a node is formatted with.
        ensures formatted { IfOk result (λ node. Now (moments_in node) (λ now. held_in node ≡ formatted (record { geometry = geometry; key = key.now }) name)) }
        ensures only { IfErr result (λ refused. Now (D.history refused.disk) (λ now. IsOutside refused.error)) }
        ensures cause { MatchResult result (λ node. faults_in node ≡ D.faults disk) (λ refused. IsCaused (D.faults disk) (D.faults refused.disk) (is_device refused.error)) }
        ensures sure { IsTrue (D.is_sure disk) → MatchResult result (λ node. IsUnharmed node) (λ refused. is_device refused.error ≡ false) }
    {
        let base = match first_base(alloc, &geometry, key, name.region) {
            Ok(base) => base,
            Err(NoMemory) => {
                return Err(Refused {
                    disk,
                    error: StoreError::NoMemory,
                });
            }
        };
        match prepare(alloc, disk, &base) {
            Ok(disk) => match DiskNode::load(alloc, geometry, name, disk) {
                Ok(node) => Ok(node),
                Err(refused) => Err(refused),
            },
            Err(refused) => Err(refused),
        }
    }

    /// Hands bytes over as a message of that sender.
    pub fn receive(&mut self, from: Sender, bytes: &[u8]) -> Result<Outcome, NoMemory>
        ensures answered { IfOk result (λ outcome. (shape : Shape) (name : AnyName) (known : KnownNode) → Fits shape name known self.old → IsAnswered shape name known (Receives from bytes.now) outcome self.new) }
        // At each moment each image of its disk means what the disk may mean then.
        ensures any_moment { PassesOn (Receives from bytes.now) self.old self.new }
        ensures cause { IfOk result (λ outcome. IsCaused (faults_in self.old) (faults_in self.new) outcome.failed) }
        ensures sure { IsUnharmed self.old → IsUnharmed self.new × IfOk result (λ outcome. outcome.failed ≡ false) }
    {
        match &mut self.node {
            None => Err(NoMemory),
            Some(node) => match handling::receive(self.alloc, node, from, bytes) {
                Ok(outcome) => Ok(outcome),
                Err(error) => Err(error),
            },
        }
    }

    /// Hands a tick over, in the same way.
    pub fn tick(&mut self) -> Result<Outcome, NoMemory>
        ensures answered { IfOk result (λ outcome. (shape : Shape) (name : AnyName) (known : KnownNode) → Fits shape name known self.old → IsAnswered shape name known Ticks outcome self.new) }
        ensures any_moment { PassesOn Ticks self.old self.new }
        ensures cause { IfOk result (λ outcome. IsCaused (faults_in self.old) (faults_in self.new) outcome.failed) }
        ensures sure { IsUnharmed self.old → IsUnharmed self.new × IfOk result (λ outcome. outcome.failed ≡ false) }
    {
        match &mut self.node {
            None => Err(NoMemory),
            Some(node) => match handling::tick(self.alloc, node) {
                Ok(outcome) => Ok(outcome),
                Err(error) => Err(error),
            },
        }
    }

    /// Whether a call of its disk has failed since its load. It answers nothing then.
    pub fn is_silent(&self) -> bool
        ensures { (shape : Shape) (name : AnyName) (known : KnownNode) → Fits shape name known self.now → result ≡ known.silent }
    {
        match &self.node {
            None => true,
            Some(node) => node.is_silent(),
        }
    }

    /// What it holds. Nothing is known of it after a call that found no memory.
    pub fn held(&self) -> Option<&Held>
        ensures { option_copied result ≡ option_map (λ n. n.checkpoint.store.held) self.now.node }
    {
        match &self.node {
            None => None,
            Some(node) => Some(node.held()),
        }
    }

    /// Its disk, as it is; none after a call that found no memory.
    pub fn into_disk(self) -> Option<D>
        ensures { result ≡ option_map (λ n. n.checkpoint.store.log.disk.disk) self.node }
    {
        let DiskNode {
            alloc: _,
            geometry: _,
            name: _,
            node,
        } = self;
        match node {
            None => None,
            Some(node) => Some(node.into_disk()),
        }
    }
}

impl DiskNode<MemDisk> {
    ghost use Rattle.disk_node.specs.Fitting.{Fits, IsUnharmed, IsReloaded, IsStopped, IsCrashed, IsStopping, FailsAt, StopsAt};

    /// Lets its disk crash: of the places that weren't synced the first `keep` stay, and the others hold `fill`. Then the node
    /// is loaded from what is left.
    pub fn crash(&mut self, keep: u64, fill: u8) -> Result<(), NoMemory>
        ensures reloaded { OnOk result ((shape : Shape) (name : AnyName) (known : KnownNode) → Fits shape name known self.old → IsReloaded shape name known self.new) }
        ensures exact { OnOk result (IsCrashed keep fill self.old self.new) }
        ensures unharmed { OnOk result (IsUnharmed self.new) }
    {
        match self.node.take() {
            None => Err(NoMemory),
            Some(node) => {
                let node = restart(self.alloc, node, keep, fill)?;
                self.node = Some(node);
                Ok(())
            }
        }
    }

    /// Hands bytes over as a message of that sender, while its disk stops after so many calls. Then the disk crashes, and the
    /// node is loaded. The messages count, if no call failed.
    pub fn stop(
        &mut self,
        from: Sender,
        bytes: &[u8],
        calls: u64,
        keep: u64,
        fill: u8,
    ) -> Result<Outcome, NoMemory>
        ensures stopped { IfOk result (λ outcome. (shape : Shape) (name : AnyName) (known : KnownNode) → Fits shape name known self.old → IsStopped shape name known (Receives from bytes.now) outcome self.new) }
        ensures exact { IfOk result (λ outcome. IsStopping calls keep fill (Receives from bytes.now) outcome self.old self.new) }
        ensures unharmed { OnOk result (IsUnharmed self.new) }
    {
        self.stop_after(calls);
        let outcome = self.receive(from, bytes)?;
        self.crash(keep, fill)?;
        Ok(outcome)
    }

    // After so many further calls each call of its disk fails, until a crash.
    fn stop_after(&mut self, calls: u64)
        ensures fits { (shape : Shape) (name : AnyName) (known : KnownNode) → Fits shape name known self.old → Fits shape name known self.new }
        ensures stops { StopsAt calls self.new }
    {
        match &mut self.node {
            None => {}
            Some(node) => node.stop_after(calls),
        }
    }

    /// The given call of its disk, counted from now and from 1, fails without effect.
    pub fn fail(&mut self, call: u64) -> Result<(), NoMemory>
        requires { 1 ≤ call }
        ensures fits { (shape : Shape) (name : AnyName) (known : KnownNode) → Fits shape name known self.old → Fits shape name known self.new }
        ensures named { OnOk result (FailsAt call self.old self.new) }
    {
        match &mut self.node {
            None => Err(NoMemory),
            Some(node) => match node.fail_at(call) {
                Ok(()) => Ok(()),
                Err(error) => Err(error),
            },
        }
    }

    /// Puts a new disk in place of the old one, and starts the node anew: it holds nothing.
    pub fn replace(&mut self) -> Result<(), NoMemory>
        ensures renewed { OnOk result ((shape : Shape) (name : AnyName) (known : KnownNode) → Fits shape name known self.old → Fits shape name (fresh shape name.region nothing_held) self.new) }
        ensures unharmed { OnOk result (IsUnharmed self.new) }
    {
        let disk = empty_disk(self.alloc)?;
        let node = load(self.alloc, self.name, self.geometry, disk)?;
        self.node = Some(node);
        Ok(())
    }
}
