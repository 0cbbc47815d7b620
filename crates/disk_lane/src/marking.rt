ghost use Rattle.std.specs.Prelude.{Some, None, ◌≡◌, ◌==◌, if◌then◌else◌, ◌≤◌, ◌<◌, length, IfOk, OnOk, IfSome, IsErrOf};
ghost use Rattle.disk_model.specs.Disk.{Now, EachImage, Goes, IsSynced, clean};
ghost use Rattle.disk_model.specs.Faults.{HasCause, StaysSure};
ghost use Rattle.disk_lane.specs.Heads.{IsHead, IsUnmarked};

use disk_model::{Disk, DiskFault};

/// The bytes that a file of two lanes begins with.
pub const FILE_MARK: [u8; 8] = *b"SALUSCK1";

// The lane that a selector names.
fn lane_named(selector: u8) -> u64
    ensures { result ≡ (if selector == 1 then 1 else 0) }
{
    if selector == 1 { 1 } else { 0 }
}

/// Syncs a file and reads which lane is live; none where it isn't a file of two lanes.
pub fn read_live<D: Disk>(disk: &mut D) -> Result<Option<u64>, DiskFault>
    ensures live { IfOk result (λ found. IfSome found (λ lane. Now (D.history disk.new) (λ now. EachImage now (IsHead lane)))) }
    ensures lane { IfOk result (λ found. IfSome found (λ lane. lane < 2)) }
    ensures unmarked { IfOk result (λ found. found ≡ None → Now (D.history disk.new) (λ now. IsUnmarked now.seen)) }
    ensures synced { OnOk result (Now (D.history disk.old) (λ was. Now (D.history disk.new) (λ now. now ≡ clean was.seen))) }
    ensures moments { Goes IsSynced (D.history disk.old) (D.history disk.new) }
    ensures cause { HasCause (D.faults disk.old) (D.faults disk.new) result }
    ensures sure { StaysSure (D.is_sure disk.old) (D.is_sure disk.new) result }
    ensures memory { IsErrOf result DiskFault.NoMemory → ⊥ }
{
    match disk.sync() {
        Ok(()) => {}
        Err(fault) => return Err(fault),
    }
    let len = match disk.len() {
        Ok(len) => len,
        Err(fault) => return Err(fault),
    };
    if len < 16 {
        return Ok(None);
    }
    let mut head = [0u8; 16];
    match disk.read(0, &mut head) {
        Ok(()) => {}
        Err(fault) => return Err(fault),
    }
    if head[..8] != FILE_MARK[..] {
        return Ok(None);
    }
    Ok(Some(lane_named(head[8])))
}
