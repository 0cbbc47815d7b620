ghost use Rattle.std.specs.Prelude.{◌≡◌, false, IfOk, OnOk};
ghost use Rattle.disk_model.specs.Disk.{Now, EachImage, Through};
ghost use Rattle.datanode_log.specs.Causes.{IsCaused, KeepsSure};
ghost use Rattle.datanode_store.specs.Live.{MeansLive, MeansOneLive};
ghost use Rattle.holding_model.specs.Changing.{contents_through};
ghost use Rattle.replica_rules.specs.Nodes.{NodeState};
ghost use Rattle.replica_rules.specs.Rules.{Receives, Ticks, handled};
ghost use Rattle.replica_node.specs.Errors.{says_device};
ghost use Rattle.replica_node.specs.Standing.{IsNode, IsHandled};
ghost use Rattle.replica_node.specs.Serving.{Serves};

use crate::dispatch::plan;
use crate::error::NodeError;
use crate::session_rules::plan_tick;
use crate::storing::store_planned;
use datanode_checkpoint::Checkpoint;
use disk_model::Disk;
use open_session::Session;
use salus_types::{Geometry, NoMemory, NodeName, Outs, Sender};
use std::alloc::Global;

/// A message, of a node that isn't silent: it is planned in memory, then stored, and then answered.
pub fn receive<D: Disk>(
    alloc: Global,
    geometry: &Geometry,
    name: NodeName,
    checkpoint: &mut Checkpoint<D>,
    session: &mut Option<Session>,
    from: Sender,
    bytes: &[u8],
) -> Result<Outs, NodeError>
    requires working { checkpoint.old.store.log.failed ≡ false }
    requires serves { Serves geometry.now name.region checkpoint.old.store.held session.old }
    ensures rules { IfOk result (λ outs. (state : NodeState) → IsNode checkpoint.old.store.held session.old state → IsHandled checkpoint.new.store.held session.new outs (handled geometry.now name.region state (Receives from bytes.now))) }
    ensures any_moment { (state : NodeState) → IsNode checkpoint.old.store.held session.old state → Through (D.history checkpoint.old.store.log.disk.disk) (D.history checkpoint.new.store.log.disk.disk) (MeansOneLive (contents_through geometry.now state.held (handled geometry.now name.region state (Receives from bytes.now)).changes)) }
    ensures serves { OnOk result (Serves geometry.now name.region checkpoint.new.store.held session.new) }
    ensures durable { OnOk result (Now (D.history checkpoint.new.store.log.disk.disk) (λ now. EachImage now (MeansLive checkpoint.new.store.held))) }
    ensures failed { checkpoint.new.store.log.failed ≡ says_device result }
    ensures cause { IsCaused (D.faults checkpoint.old.store.log.disk.disk) (D.faults checkpoint.new.store.log.disk.disk) (says_device result) }
    ensures sure { KeepsSure (D.is_sure checkpoint.old.store.log.disk.disk) (D.is_sure checkpoint.new.store.log.disk.disk) (says_device result) }
{
    let held = checkpoint.held();
    match plan(alloc, geometry, name, held, session, from, bytes) {
        Ok(planned) => store_planned(alloc, checkpoint, session, planned),
        Err(NoMemory) => Err(NodeError::NoMemory),
    }
}

/// A tick, in the same way.
pub fn tick<D: Disk>(
    alloc: Global,
    geometry: &Geometry,
    name: NodeName,
    checkpoint: &mut Checkpoint<D>,
    session: &mut Option<Session>,
) -> Result<Outs, NodeError>
    requires working { checkpoint.old.store.log.failed ≡ false }
    requires serves { Serves geometry.now name.region checkpoint.old.store.held session.old }
    ensures rules { IfOk result (λ outs. (state : NodeState) → IsNode checkpoint.old.store.held session.old state → IsHandled checkpoint.new.store.held session.new outs (handled geometry.now name.region state Ticks)) }
    ensures any_moment { (state : NodeState) → IsNode checkpoint.old.store.held session.old state → Through (D.history checkpoint.old.store.log.disk.disk) (D.history checkpoint.new.store.log.disk.disk) (MeansOneLive (contents_through geometry.now state.held (handled geometry.now name.region state Ticks).changes)) }
    ensures serves { OnOk result (Serves geometry.now name.region checkpoint.new.store.held session.new) }
    ensures durable { OnOk result (Now (D.history checkpoint.new.store.log.disk.disk) (λ now. EachImage now (MeansLive checkpoint.new.store.held))) }
    ensures failed { checkpoint.new.store.log.failed ≡ says_device result }
    ensures cause { IsCaused (D.faults checkpoint.old.store.log.disk.disk) (D.faults checkpoint.new.store.log.disk.disk) (says_device result) }
    ensures sure { KeepsSure (D.is_sure checkpoint.old.store.log.disk.disk) (D.is_sure checkpoint.new.store.log.disk.disk) (says_device result) }
{
    let held = checkpoint.held();
    match plan_tick(alloc, session) {
        Ok(planned) => store_planned(alloc, checkpoint, session, planned),
        Err(NoMemory) => Err(NodeError::NoMemory),
    }
}
