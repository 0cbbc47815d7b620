ghost use Rattle.std.specs.Prelude.{◌≡◌, ◌≤◌, [], false, vec_len};
ghost use Rattle.salus_types.specs.Outcome.{Rose};

use disk_model::{Disk, DiskFault};
use std::alloc::AllocError;

/// A disk over bytes in memory that tells nothing of them.
#[derive(Drop)]
pub struct SilentDisk {
    content: Vec<u8>,
    faults: u64,
}

// Puts bytes over what stands at this place, and past the end.
fn put(content: &mut Vec<u8>, at: usize, bytes: &[u8]) -> Result<(), AllocError>
    requires { at ≤ vec_len content.old }
{
    let over = bytes.len().min(content.len() - at);
    content.extend_from_slice(&bytes[over..])?;
    content.as_mut_slice()[at..at + over].copy_from_slice(&bytes[..over]);
    Ok(())
}

impl SilentDisk {
    /// A disk that holds this content.
    pub fn new(content: Vec<u8>) -> SilentDisk {
        SilentDisk { content, faults: 0 }
    }

    // Counts a call that is outside of the file.
    fn fault(&mut self) -> DiskFault
        ensures fault { result ≡ DiskFault.Device }
        ensures later { self.old.faults ≤ self.new.faults }
        ensures rose { Rose self.old.faults self.new.faults }
    {
        self.faults = self.faults.saturating_add(1);
        DiskFault::Device
    }
}

impl Disk for SilentDisk {
    ghost history = { λ disk. [] };

    ghost faults = { λ disk. disk.faults };

    ghost is_sure = { λ disk. false };

    ghost stays = { λ old new. Unit {0} };

    ghost reads_image = { λ disk. tt };

    ghost stays_none = { λ disk. tt };

    ghost stays_trans = { λ a b c first second. tt };

    fn known_len(&self) -> Option<u64> {
        None
    }

    fn len(&mut self) -> Result<u64, DiskFault> {
        Ok(self.content.len() as u64)
    }

    fn read(&mut self, at: u64, out: &mut [u8]) -> Result<(), DiskFault> {
        let start = at as usize;
        let len = self.content.len();
        if start > len || out.len() > len - start {
            return Err(self.fault());
        }
        out.copy_from_slice(&self.content.as_slice()[start..start + out.len()]);
        Ok(())
    }

    fn write_at(&mut self, at: u64, bytes: &[u8]) -> Result<(), DiskFault> {
        let start = at as usize;
        if start > self.content.len() {
            return Err(self.fault());
        }
        match put(&mut self.content, start, bytes) {
            Ok(()) => Ok(()),
            Err(_) => Err(DiskFault::NoMemory),
        }
    }

    fn cut(&mut self, len: u64) -> Result<(), DiskFault> {
        if len as usize > self.content.len() {
            return Err(self.fault());
        }
        self.content.truncate(len as usize);
        Ok(())
    }

    fn sync(&mut self) -> Result<(), DiskFault> {
        Ok(())
    }
}
