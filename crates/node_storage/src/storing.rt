ghost use Rattle.std.specs.Prelude.{◌≡◌, [], Ok, false, IfErr, OnOk, OnErr};
ghost use Rattle.disk_model.specs.Disk.{Now, EachImage, Through};
ghost use Rattle.datanode_log.specs.Causes.{IsCaused, KeepsSure};
ghost use Rattle.datanode_store.specs.Causes.{says_device, IsOutside};
ghost use Rattle.datanode_store.specs.Live.{MeansLive, MeansLiveEither, MeansOneLive};
ghost use Rattle.salus_types.specs.Volume.{Shape};
ghost use Rattle.holding_model.specs.Changing.{changed, after_changes, contents_through};
ghost use Rattle.node_storage.specs.Storing.{change_of, changes_of, IsStorable, CanBeStored, IsAfterSome};

use crate::change::Change;
use datanode_checkpoint::Checkpoint;
use datanode_store::StoreError;
use disk_model::Disk;

// Stores one change.
fn store_one<D: Disk>(checkpoint: &mut Checkpoint<D>, change: &Change) -> Result<(), StoreError>
    requires working { checkpoint.old.store.log.failed ≡ false }
    requires storable { IsStorable checkpoint.old.store.held (change_of change.now) }
    ensures stored { OnOk result ((shape : Shape) → checkpoint.new.store.held ≡ changed shape checkpoint.old.store.held (change_of change.now)) }
    ensures kept { OnErr result (checkpoint.new.store.held ≡ checkpoint.old.store.held) }
    ensures any_moment { (shape : Shape) → Through (D.history checkpoint.old.store.log.disk.disk) (D.history checkpoint.new.store.log.disk.disk) (MeansLiveEither checkpoint.old.store.held (changed shape checkpoint.old.store.held (change_of change.now))) }
    ensures failed { checkpoint.new.store.log.failed ≡ says_device result }
    ensures only { IfErr result IsOutside }
    ensures cause { IsCaused (D.faults checkpoint.old.store.log.disk.disk) (D.faults checkpoint.new.store.log.disk.disk) (says_device result) }
    ensures sure { KeepsSure (D.is_sure checkpoint.old.store.log.disk.disk) (D.is_sure checkpoint.new.store.log.disk.disk) (says_device result) }
{
    match *change {
        Change::Part(rec) => checkpoint.add_part(rec),
        Change::Base(base) => checkpoint.add_base(base),
        Change::Switch(session) => checkpoint.switch(session),
        Change::Fold(seq) => checkpoint.fold_to(seq),
    }
}

/// Stores the changes, in their order; where there is none, the disk isn't called.
///
/// At `Ok` each crash leaves what is held after all of them. The first error ends it: then some front part of them is
/// held, of which the change that failed is none. After `Device` the checkpoint has failed, and is to be loaded again.
pub fn store_all<D: Disk>(
    checkpoint: &mut Checkpoint<D>,
    changes: &[Change],
) -> Result<(), StoreError>
    requires working { checkpoint.old.store.log.failed ≡ false }
    requires storable { CanBeStored checkpoint.old.store.held (changes_of changes.now) }
    ensures stored { OnOk result ((shape : Shape) → checkpoint.new.store.held ≡ after_changes shape checkpoint.old.store.held (changes_of changes.now)) }
    ensures some { OnErr result ((shape : Shape) → IsAfterSome shape checkpoint.old.store.held (changes_of changes.now) checkpoint.new.store.held) }
    ensures durable { OnOk result ((shape : Shape) → Now (D.history checkpoint.new.store.log.disk.disk) (λ now. EachImage now (MeansLive (after_changes shape checkpoint.old.store.held (changes_of changes.now))))) }
    // At each moment of the call each image holds what is held after some front part of the changes.
    ensures any_moment { (shape : Shape) → Through (D.history checkpoint.old.store.log.disk.disk) (D.history checkpoint.new.store.log.disk.disk) (MeansOneLive (contents_through shape checkpoint.old.store.held (changes_of changes.now))) }
    ensures none { changes.now ≡ [] → (checkpoint.new ≡ checkpoint.old) × (result ≡ Ok tt) }
    ensures failed { checkpoint.new.store.log.failed ≡ says_device result }
    ensures only { IfErr result IsOutside }
    ensures cause { IsCaused (D.faults checkpoint.old.store.log.disk.disk) (D.faults checkpoint.new.store.log.disk.disk) (says_device result) }
    ensures sure { KeepsSure (D.is_sure checkpoint.old.store.log.disk.disk) (D.is_sure checkpoint.new.store.log.disk.disk) (says_device result) }
{
    'changes: for change in changes {
        match store_one(checkpoint, change) {
            Ok(()) => {}
            Err(error) => return Err(error),
        }
    }
    Ok(())
}
