ghost use Rattle.std.specs.Prelude.{◌≡◌, ◌+◌, ◌-◌, ◌≤◌, ◌<◌, ◌++◌, ◌∷◌, [], ℕ, length, take, drop, replicate, reverse, vec_len, vec_capacity, IfOk, OnOk, OnErr, IsTrue, IsErrOf, slice_index};
ghost use Rattle.disk_model.specs.declared.disk.DiskFault.TheVariants.{Device, NoMemory};
ghost use Rattle.disk_model.specs.Disk.{Now, IsImage, written, is_dirty, IsWriting, IsCutting, IsSynced, Goes, clean};
ghost use Rattle.disk_model.specs.Faults.{HasCause, StaysSure};
ghost use Rattle.disk_model.specs.Failures.{is_due, is_unharmed, is_disk_failure, IsCounted};
ghost use Rattle.disk_model.specs.Memory.{Covers, dirty_from, synced_from, now_from, history_from, after_write, after_cut, crash_image, image_byte, image_length};

use crate::disk::{Disk, DiskFault};
use crate::failures::Failures;
use crate::undo::Step;
use salus_types::{Bytes, Items, NoMemory};
use std::alloc::{AllocError, Global};

/// A disk in memory, which tells what it holds. It fails and crashes where it is asked to.
///
/// It keeps a record of the calls that changed something, each with the bytes that it took away, until a crash.
#[derive(Drop)]
pub struct MemDisk {
    alloc: Global,
    content: Vec<u8>,
    synced_len: u64,
    dirty: Vec<(u64, u64)>,
    steps: Vec<Step>,
    failures: Failures,
    ghost dirty_is: { dirty.items ≡ dirty_from (reverse steps.items) },
    ghost synced_is: { synced_len ≡ length (synced_from (reverse steps.items) content.items) },
    ghost reads: { IsImage (now_from (reverse steps.items) content.items) content.items },
    ghost covers: { Covers (now_from (reverse steps.items) content.items) },
    ghost sync_room: { 0 < vec_len dirty → vec_len steps < vec_capacity steps },
    ghost image_room: { synced_len ≤ vec_capacity content },
}

// Puts bytes over what stands at this place, and past the end.
fn put(content: &mut Vec<u8>, at: usize, bytes: &[u8])
    requires at_most { at ≤ vec_len content.old }
    requires room { vec_len content.old + length bytes.now ≤ vec_capacity content.old }
    ensures written { content.new.items ≡ written at bytes.now content.old.items }
    ensures capacity { vec_capacity content.old ≤ vec_capacity content.new }
{
    let over = bytes.len().min(content.len() - at);
    let _room = content.extend_from_slice(&bytes[over..]);
    content.as_mut_slice()[at..at + over].copy_from_slice(&bytes[..over]);
}

// The bytes from this place on, at most so many.
fn taken(alloc: Global, content: &[u8], at: usize, size: usize) -> Result<Bytes, NoMemory>
    requires { at ≤ length content.now }
    ensures { IfOk result (λ bytes. bytes ≡ take size (drop at content.now)) }
{
    let end = at + size.min(content.len() - at);
    Items::from_slice(alloc, &content[at..end])
}

// Whether a place is in one of the ranges.
fn is_in(ranges: &[(u64, u64)], place: u64) -> bool
    ensures { result ≡ is_dirty ranges.now place }
{
    for range in ranges {
        if range.0 <= place && place < range.1 {
            return true;
        }
    }
    false
}

// Cuts the content to a length, or fills it up.
fn fit(content: &mut Vec<u8>, len: usize, fill: u8)
    requires { len ≤ vec_capacity content.old }
    ensures { content.new.items ≡ take len content.old.items ++ replicate (len - length content.old.items) fill }
{
    let _room = content.resize(len, fill);
}

// Fills the dirty places but for the first of them, of which so many are kept.
fn tear(content: &mut Vec<u8>, ranges: &[(u64, u64)], keep: u64, fill: u8)
    ensures len { length content.new.items ≡ length content.old.items }
    ensures bytes { (i : ℕ) → i < length content.old.items → slice_index content.new.items i ≡ image_byte keep fill ranges.now content.old.items i }
{
    let mut left = keep;
    'places: for i in 0..content.len() {
        if is_in(ranges, i as u64) {
            if left == 0 {
                content[i] = fill;
            } else {
                left -= 1;
            }
        }
    }
}

impl MemDisk {
    ghost use Rattle.disk_model.specs.Told.{content_of, now_of, moments_of};

    /// A disk that holds this content, all of it synced.
    pub fn new(alloc: Global, content: Vec<u8>) -> MemDisk
        ensures moments { moments_of result ≡ clean content.items ∷ [] }
        ensures unharmed { IsTrue (is_unharmed result.failures) }
        ensures faults { result.failures.count ≡ 0 }
    {
        MemDisk {
            alloc,
            synced_len: content.len() as u64,
            content,
            dirty: Vec::new(alloc),
            steps: Vec::new(alloc),
            failures: Failures::new(alloc),
        }
    }

    /// The n-th call from now fails without effect.
    pub fn fail_at(&mut self, n: u64) -> Result<(), NoMemory>
        requires { 1 ≤ n }
        ensures named { OnOk result (self.new.failures.failing.items ≡ self.old.failures.failing.items ++ n ∷ []) }
        ensures err { OnErr result (self.new.failures.failing.items ≡ self.old.failures.failing.items) }
        ensures stop { self.new.failures.stop ≡ self.old.failures.stop }
        ensures faults { self.new.failures.count ≡ self.old.failures.count }
        ensures moments { moments_of self.new ≡ moments_of self.old }
    {
        self.failures.fail_at(n)
    }

    /// After so many further calls each call fails without effect, until a crash.
    pub fn stop_after(&mut self, calls: u64)
        ensures failing { self.new.failures.failing.items ≡ self.old.failures.failing.items }
        ensures stop { self.new.failures.stop ≡ Some calls }
        ensures faults { self.new.failures.count ≡ self.old.failures.count }
        ensures moments { moments_of self.new ≡ moments_of self.old }
    {
        self.failures.stop_after(calls);
    }

    /// What was not synced is lost or torn, the record ends, and the disk goes on.
    ///
    /// With `keep` 0 the file has the synced length, else the present one. Of the places written or cut away since
    /// the last sync the first `keep` stay as a read gives them, and the others hold `fill`.
    pub fn crash(&mut self, keep: u64, fill: u8)
        ensures content { content_of self.new ≡ crash_image keep fill (now_of self.old) }
        ensures image { IsImage (now_of self.old) (content_of self.new) }
        ensures moments { moments_of self.new ≡ clean (content_of self.new) ∷ [] }
        ensures unharmed { IsTrue (is_unharmed self.new.failures) }
        ensures faults { self.new.failures.count ≡ self.old.failures.count }
    {
        let len = self.image_len(keep);
        fit(&mut self.content, len, fill);
        tear(&mut self.content, self.dirty.as_slice(), keep, fill);
        self.synced_len = self.content.len() as u64;
        self.dirty.clear();
        self.steps.clear();
        self.failures.clear();
    }

    /// What a read of the whole file gives.
    pub fn content(&self) -> &[u8]
        ensures { result.now ≡ content_of self.now }
    {
        self.content.as_slice()
    }

    // How long the file is after a crash.
    fn image_len(&self, keep: u64) -> usize
        ensures { result ≡ image_length keep (now_of self.now) }
    {
        if keep == 0 {
            self.synced_len as usize
        } else {
            self.content.len()
        }
    }

    // Takes the bytes that a change takes away, and the memory for so many more, for one more range, and for two
    // more entries of the record, of which one is that of the next sync.
    fn prepare(&mut self, at: usize, size: usize, more: usize) -> Result<Bytes, DiskFault>
        requires { at ≤ vec_len self.old.content }
        ensures old { IfOk result (λ bytes. bytes ≡ take size (drop at (content_of self.old))) }
        ensures error { OnErr result (result ≡ Err DiskFault.NoMemory) }
        ensures dirty { self.new.dirty.items ≡ self.old.dirty.items }
        ensures steps { self.new.steps.items ≡ self.old.steps.items }
        ensures content { self.new.content.items ≡ self.old.content.items }
        ensures synced { self.new.synced_len ≡ self.old.synced_len }
        ensures failures { self.new.failures ≡ self.old.failures }
        ensures content_room { OnOk result (vec_len self.new.content + more ≤ vec_capacity self.new.content) }
        ensures dirty_room { OnOk result (vec_len self.new.dirty < vec_capacity self.new.dirty) }
        ensures steps_room { OnOk result (vec_len self.new.steps + 2 ≤ vec_capacity self.new.steps) }
    {
        let old = taken(self.alloc, self.content.as_slice(), at, size)?;
        self.content.reserve(more)?;
        self.dirty.reserve(1)?;
        self.steps.reserve(2)?;
        Ok(old)
    }
}

impl Disk for MemDisk {
    ghost use Rattle.disk_model.specs.Told.{now_of, moments_of};

    ghost history = { moments_of };

    ghost faults = { λ disk. disk.failures.count };

    ghost is_sure = { λ disk. is_unharmed disk.failures };

    ghost stays = { λ _ _. Unit {0} };

    ghost reads_image = { λ disk. disk.reads };

    ghost stays_none = { λ _. tt };

    ghost stays_trans = { λ _ _ _ _ _. tt };

    fn known_len(&self) -> Option<u64> {
        Some(self.content.len() as u64)
    }

    fn len(&mut self) -> Result<u64, DiskFault>
        ensures len { IfOk result (λ n. n ≡ length (now_of self.old).seen) }
        ensures same { moments_of self.new ≡ moments_of self.old }
        ensures due { is_disk_failure result ≡ is_due self.old.failures }
        ensures counted { IsCounted self.old.failures self.new.failures }
        ensures cause { HasCause self.old.failures.count self.new.failures.count result }
        ensures sure { StaysSure (is_unharmed self.old.failures) (is_unharmed self.new.failures) result }
        ensures memory { IsErrOf result DiskFault.NoMemory → ⊥ }
    {
        if self.failures.falls_due() {
            return Err(DiskFault::Device);
        }
        Ok(self.content.len() as u64)
    }

    fn read(&mut self, at: u64, out: &mut [u8]) -> Result<(), DiskFault>
        requires { at + length out.old ≤ length (now_of self.old).seen }
        ensures bytes { OnOk result (out.new ≡ take (length out.old) (drop at (now_of self.old).seen)) }
        ensures same { moments_of self.new ≡ moments_of self.old }
        ensures due { is_disk_failure result ≡ is_due self.old.failures }
        ensures counted { IsCounted self.old.failures self.new.failures }
        ensures cause { HasCause self.old.failures.count self.new.failures.count result }
        ensures sure { StaysSure (is_unharmed self.old.failures) (is_unharmed self.new.failures) result }
        ensures memory { IsErrOf result DiskFault.NoMemory → ⊥ }
    {
        if self.failures.falls_due() {
            return Err(DiskFault::Device);
        }
        let start = at as usize;
        out.copy_from_slice(&self.content.as_slice()[start..start + out.len()]);
        Ok(())
    }

    fn write_at(&mut self, at: u64, bytes: &[u8]) -> Result<(), DiskFault>
        requires { at ≤ length (now_of self.old).seen }
        ensures written { OnOk result ((now_of self.new).seen ≡ written at bytes.now (now_of self.old).seen) }
        ensures moments { Goes (IsWriting at (length bytes.now)) (moments_of self.old) (moments_of self.new) }
        ensures exactly { OnOk result (moments_of self.new ≡ after_write at bytes.now (now_of self.old) ∷ moments_of self.old) }
        ensures error { OnErr result (moments_of self.new ≡ moments_of self.old) }
        ensures due { is_disk_failure result ≡ is_due self.old.failures }
        ensures counted { IsCounted self.old.failures self.new.failures }
        ensures cause { HasCause self.old.failures.count self.new.failures.count result }
        ensures sure { StaysSure (is_unharmed self.old.failures) (is_unharmed self.new.failures) result }
        ensures memory { IsErrOf result DiskFault.NoMemory → Goes (IsWriting at (length bytes.now - 1)) (moments_of self.old) (moments_of self.new) }
    {
        if self.failures.falls_due() {
            return Err(DiskFault::Device);
        }
        let size = bytes.len();
        let old = match self.prepare(at as usize, size, size) {
            Ok(old) => old,
            Err(error) => return Err(error),
        };
        put(&mut self.content, at as usize, bytes);
        self.dirty.push_reserved((at, at + size as u64));
        self.steps.push_reserved(Step::Write {
            at,
            size: size as u64,
            old,
        });
        Ok(())
    }

    fn cut(&mut self, len: u64) -> Result<(), DiskFault>
        requires { len ≤ length (now_of self.old).seen }
        ensures cut { OnOk result ((now_of self.new).seen ≡ take len (now_of self.old).seen) }
        ensures moments { Goes (IsCutting len) (moments_of self.old) (moments_of self.new) }
        ensures exactly { OnOk result (moments_of self.new ≡ after_cut len (now_of self.old) ∷ moments_of self.old) }
        ensures error { OnErr result (moments_of self.new ≡ moments_of self.old) }
        ensures due { is_disk_failure result ≡ is_due self.old.failures }
        ensures counted { IsCounted self.old.failures self.new.failures }
        ensures cause { HasCause self.old.failures.count self.new.failures.count result }
        ensures sure { StaysSure (is_unharmed self.old.failures) (is_unharmed self.new.failures) result }
        ensures memory { IsErrOf result DiskFault.NoMemory → moments_of self.new ≡ moments_of self.old }
    {
        if self.failures.falls_due() {
            return Err(DiskFault::Device);
        }
        let end = self.content.len();
        let gone = match self.prepare(len as usize, end, 0) {
            Ok(gone) => gone,
            Err(error) => return Err(error),
        };
        self.content.truncate(len as usize);
        self.dirty.push_reserved((len, end as u64));
        self.steps.push_reserved(Step::Cut { at: len, gone });
        Ok(())
    }

    fn sync(&mut self) -> Result<(), DiskFault>
        ensures synced { OnOk result (now_of self.new ≡ clean (now_of self.old).seen) }
        ensures moments { Goes IsSynced (moments_of self.old) (moments_of self.new) }
        ensures error { OnErr result (moments_of self.new ≡ moments_of self.old) }
        ensures due { is_disk_failure result ≡ is_due self.old.failures }
        ensures counted { IsCounted self.old.failures self.new.failures }
        ensures cause { HasCause self.old.failures.count self.new.failures.count result }
        ensures sure { StaysSure (is_unharmed self.old.failures) (is_unharmed self.new.failures) result }
        ensures memory { IsErrOf result DiskFault.NoMemory → ⊥ }
    {
        if self.failures.falls_due() {
            return Err(DiskFault::Device);
        }
        if !self.dirty.is_empty() {
            self.steps.push_reserved(Step::Sync);
            self.dirty.clear();
            self.synced_len = self.content.len() as u64;
        }
        Ok(())
    }
}
