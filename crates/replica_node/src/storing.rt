ghost use Rattle.std.specs.Prelude.{◌≡◌, ◌-◌, ◌++◌, ◌∷◌, [], false, length, drop, map, IfOk, OnOk};
ghost use Rattle.disk_model.specs.Disk.{Now, EachImage, Through};
ghost use Rattle.datanode_log.specs.Causes.{IsCaused, KeepsSure};
ghost use Rattle.datanode_store.specs.Live.{MeansLive, MeansOneLive};
ghost use Rattle.salus_types.specs.Volume.{Shape};
ghost use Rattle.holding_model.specs.Changing.{AddsPart, after_changes, contents_through};
ghost use Rattle.node_storage.specs.Storing.{changes_of, CanBeStored};
ghost use Rattle.open_session.specs.Turning.{fold_of};
ghost use Rattle.replica_node.specs.Errors.{says_device};
ghost use Rattle.replica_node.specs.Planning.{outs_by, changes_by, turn_changes};

use crate::error::{NodeError, of_store};
use crate::planned::Planned;
use datanode_checkpoint::Checkpoint;
use disk_model::Disk;
use node_storage::{Change, store_all};
use open_session::{Session, Turn};
use salus_types::{NoMemory, Outs, Record};
use std::alloc::Global;

// Names each of these parts as one to be stored.
fn name_parts<'a>(changes: &mut Vec<Change<'a>>, parts: &'a [Record]) -> Result<(), NoMemory>
    ensures { OnOk result (changes_of changes.new.items ≡ changes_of changes.old.items ++ map (λ rec. AddsPart rec) parts.now) }
{
    'parts: for rec in parts {
        changes.push(Change::Part(rec))?;
    }
    Ok(())
}

// The changes that a turn asks for: the parts, and then the fold.
fn name_changes<'a>(
    alloc: Global,
    parts: &'a [Record],
    fold: Option<u64>,
) -> Result<Vec<Change<'a>>, NoMemory>
    ensures { IfOk result (λ changes. changes_of changes.items ≡ map (λ rec. AddsPart rec) parts.now ++ fold_of fold) }
{
    let mut changes = Vec::new(alloc);
    name_parts(&mut changes, parts)?;
    if let Some(seq) = fold {
        changes.push(Change::Fold(seq))?;
    }
    Ok(changes)
}

// Stores the changes, and then gives the messages.
fn store<D: Disk>(
    checkpoint: &mut Checkpoint<D>,
    changes: &[Change],
    outs: Outs,
) -> Result<Outs, NodeError>
    requires working { checkpoint.old.store.log.failed ≡ false }
    requires storable { CanBeStored checkpoint.old.store.held (changes_of changes.now) }
    ensures stored { OnOk result ((shape : Shape) → checkpoint.new.store.held ≡ after_changes shape checkpoint.old.store.held (changes_of changes.now)) }
    ensures outs { IfOk result (λ given. given ≡ outs) }
    ensures durable { OnOk result ((shape : Shape) → Now (D.history checkpoint.new.store.log.disk.disk) (λ now. EachImage now (MeansLive (after_changes shape checkpoint.old.store.held (changes_of changes.now))))) }
    ensures any_moment { (shape : Shape) → Through (D.history checkpoint.old.store.log.disk.disk) (D.history checkpoint.new.store.log.disk.disk) (MeansOneLive (contents_through shape checkpoint.old.store.held (changes_of changes.now))) }
    ensures failed { checkpoint.new.store.log.failed ≡ says_device result }
    ensures cause { IsCaused (D.faults checkpoint.old.store.log.disk.disk) (D.faults checkpoint.new.store.log.disk.disk) (says_device result) }
    ensures sure { KeepsSure (D.is_sure checkpoint.old.store.log.disk.disk) (D.is_sure checkpoint.new.store.log.disk.disk) (says_device result) }
{
    match store_all(checkpoint, changes) {
        Ok(()) => Ok(outs),
        Err(error) => Err(of_store(error)),
    }
}

// Stores the parts, and then folds.
fn store_parts<D: Disk>(
    alloc: Global,
    checkpoint: &mut Checkpoint<D>,
    parts: &[Record],
    turn: Turn,
) -> Result<Outs, NodeError>
    requires working { checkpoint.old.store.log.failed ≡ false }
    requires storable { CanBeStored checkpoint.old.store.held (map (λ rec. AddsPart rec) parts.now ++ fold_of turn.fold) }
    ensures stored { OnOk result ((shape : Shape) → checkpoint.new.store.held ≡ after_changes shape checkpoint.old.store.held (map (λ rec. AddsPart rec) parts.now ++ fold_of turn.fold)) }
    ensures outs { IfOk result (λ given. given ≡ turn.outs) }
    ensures durable { OnOk result ((shape : Shape) → Now (D.history checkpoint.new.store.log.disk.disk) (λ now. EachImage now (MeansLive (after_changes shape checkpoint.old.store.held (map (λ rec. AddsPart rec) parts.now ++ fold_of turn.fold))))) }
    ensures any_moment { (shape : Shape) → Through (D.history checkpoint.old.store.log.disk.disk) (D.history checkpoint.new.store.log.disk.disk) (MeansOneLive (contents_through shape checkpoint.old.store.held (map (λ rec. AddsPart rec) parts.now ++ fold_of turn.fold))) }
    ensures failed { checkpoint.new.store.log.failed ≡ says_device result }
    ensures cause { IsCaused (D.faults checkpoint.old.store.log.disk.disk) (D.faults checkpoint.new.store.log.disk.disk) (says_device result) }
    ensures sure { KeepsSure (D.is_sure checkpoint.old.store.log.disk.disk) (D.is_sure checkpoint.new.store.log.disk.disk) (says_device result) }
{
    let held = checkpoint.held();
    match name_changes(alloc, parts, turn.fold) {
        Ok(changes) => store(checkpoint, changes.as_slice(), turn.outs),
        Err(NoMemory) => Err(NodeError::NoMemory),
    }
}

// What a turn of the session has added to it.
fn added<'a>(session: &'a Session, turn: &Turn) -> &'a [Record]
    ensures { result.now ≡ drop (length session.now.parts - turn.now.added) session.now.parts }
{
    let parts = session.parts();
    let old = parts.len().saturating_sub(turn.added);
    &parts[old..]
}

/// Stores what a plan changes, and gives its messages. After an error none of them is given.
pub fn store_planned<D: Disk>(
    alloc: Global,
    checkpoint: &mut Checkpoint<D>,
    session: &Option<Session>,
    planned: Planned,
) -> Result<Outs, NodeError>
    requires working { checkpoint.old.store.log.failed ≡ false }
    requires storable { CanBeStored checkpoint.old.store.held (changes_by session.now planned) }
    ensures stored { OnOk result ((shape : Shape) → checkpoint.new.store.held ≡ after_changes shape checkpoint.old.store.held (changes_by session.now planned)) }
    ensures outs { IfOk result (λ given. given ≡ outs_by planned) }
    ensures durable { OnOk result ((shape : Shape) → Now (D.history checkpoint.new.store.log.disk.disk) (λ now. EachImage now (MeansLive (after_changes shape checkpoint.old.store.held (changes_by session.now planned))))) }
    // At each moment each image means what was held after some front part of the changes.
    ensures any_moment { (shape : Shape) → Through (D.history checkpoint.old.store.log.disk.disk) (D.history checkpoint.new.store.log.disk.disk) (MeansOneLive (contents_through shape checkpoint.old.store.held (changes_by session.now planned))) }
    ensures failed { checkpoint.new.store.log.failed ≡ says_device result }
    ensures cause { IsCaused (D.faults checkpoint.old.store.log.disk.disk) (D.faults checkpoint.new.store.log.disk.disk) (says_device result) }
    ensures sure { KeepsSure (D.is_sure checkpoint.old.store.log.disk.disk) (D.is_sure checkpoint.new.store.log.disk.disk) (says_device result) }
{
    match planned {
        Planned::Told(outs) => store(checkpoint, &[], outs),
        Planned::Staged { base, outs } => store(checkpoint, &[Change::Base(&base)], outs),
        Planned::Switched { session, outs } => store(checkpoint, &[Change::Switch(session)], outs),
        Planned::Turned(turn) => match session {
            None => store(checkpoint, &[], turn.outs),
            Some(open) => store_parts(alloc, checkpoint, added(open, &turn), turn),
        },
    }
}
