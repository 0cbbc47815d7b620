ghost use Rattle.std.specs.Prelude.{◌≡◌, [], IfErr, OnOk};
ghost use Rattle.disk_model.specs.Disk.{Now, clean};
ghost use Rattle.datanode_log.specs.Causes.{IsCaused, KeepsSure};
ghost use Rattle.datanode_store.specs.Causes.{says_device, IsOutside};
ghost use Rattle.datanode_checkpoint.specs.Files.{formatted};

use datanode_store::StoreError;
use disk_model::{Disk, DiskFault};

/// The file of a checkpoint that holds nothing: mark, selector, seven zero bytes, and an empty log.
const FORMATTED: [u8; 25] = *b"SALUSCK1\0\0\0\0\0\0\0\0SALUSLG1\0";

/// Writes a checkpoint that holds nothing to an empty disk.
pub fn format<D: Disk>(disk: &mut D) -> Result<(), StoreError>
    requires { Now (D.history disk.old) (λ now. now.seen ≡ []) }
    ensures written { OnOk result (Now (D.history disk.new) (λ now. now ≡ clean formatted)) }
    ensures only { IfErr result IsOutside }
    ensures cause { IsCaused (D.faults disk.old) (D.faults disk.new) (says_device result) }
    ensures sure { KeepsSure (D.is_sure disk.old) (D.is_sure disk.new) (says_device result) }
{
    match disk.write_at(0, &FORMATTED) {
        Ok(()) => {}
        Err(DiskFault::Device) => return Err(StoreError::Device),
        Err(DiskFault::NoMemory) => return Err(StoreError::NoMemory),
    }
    match disk.sync() {
        Ok(()) => Ok(()),
        Err(DiskFault::Device) => Err(StoreError::Device),
        Err(DiskFault::NoMemory) => Err(StoreError::NoMemory),
    }
}
