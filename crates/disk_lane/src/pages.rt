ghost use Rattle.std.specs.Prelude.{◌≡◌, ◌+◌, ◌-◌, ◌≤◌, ◌<◌, ◌^◌, [], length, take, drop, IfOk, OnOk, IsErrOf};
ghost use Rattle.disk_model.specs.declared.disk.DiskFault.TheVariants.{NoMemory};
ghost use Rattle.disk_model.specs.Disk.{Now, Goes, IsWriting};
ghost use Rattle.disk_model.specs.Faults.{HasCause, StaysSure};
ghost use Rattle.disk_lane.specs.Lanes.{place, count, page_rest, lane_history};
ghost use Rattle.disk_lane.specs.Wrote.{Wrote};
ghost use Rattle.disk_lane.specs.Beside.{IsBeside};

use crate::layout::{page_rest_of, place_of};
use disk_model::{Disk, DiskFault};
use std::alloc::Global;

// Fills the file up to where the next byte of a lane stands, and says how long it is then.
fn reach<D: Disk>(
    alloc: Global,
    disk: &mut D,
    lane: u64,
    end: u64,
    at: u64,
) -> Result<u64, DiskFault>
    requires lane { lane < 2 }
    requires low { at < 2 ^ 62 }
    requires end { Now (D.history disk.old) (λ now. end ≡ length now.seen) }
    requires there { Now (D.history disk.old) (λ now. at ≤ count lane (length now.seen)) }
    ensures end { IfOk result (λ n. Now (D.history disk.new) (λ now. n ≡ length now.seen)) }
    ensures reached { OnOk result (Now (D.history disk.new) (λ now. place lane at ≤ length now.seen)) }
    ensures wrote { OnOk result (Wrote at [] (lane_history lane (D.history disk.old)) (lane_history lane (D.history disk.new))) }
    ensures moments { Goes (IsWriting at 0) (lane_history lane (D.history disk.old)) (lane_history lane (D.history disk.new)) }
    ensures beside { Goes (IsBeside lane) (D.history disk.old) (D.history disk.new) }
    ensures cause { HasCause (D.faults disk.old) (D.faults disk.new) result }
    ensures sure { StaysSure (D.is_sure disk.old) (D.is_sure disk.new) result }
{
    let begin = place_of(lane, at);
    if begin <= end {
        return Ok(end);
    }
    let mut zeros = Vec::new(alloc);
    match zeros.resize((begin - end) as usize, 0) {
        Ok(()) => {}
        Err(_) => return Err(DiskFault::NoMemory),
    }
    match disk.write_at(end, zeros.as_slice()) {
        Ok(()) => Ok(begin),
        Err(fault) => Err(fault),
    }
}

// Writes bytes of one page of a lane, and says how long the file is then.
fn write_page<D: Disk>(
    alloc: Global,
    disk: &mut D,
    lane: u64,
    end: u64,
    at: u64,
    bytes: &[u8],
) -> Result<u64, DiskFault>
    requires lane { lane < 2 }
    requires low { at < 2 ^ 62 }
    requires end { Now (D.history disk.old) (λ now. end ≡ length now.seen) }
    requires there { Now (D.history disk.old) (λ now. at ≤ count lane (length now.seen)) }
    requires some { 0 < length bytes.now }
    requires page { length bytes.now ≤ page_rest at }
    ensures end { IfOk result (λ n. Now (D.history disk.new) (λ now. n ≡ length now.seen)) }
    ensures wrote { OnOk result (Wrote at bytes.now (lane_history lane (D.history disk.old)) (lane_history lane (D.history disk.new))) }
    ensures moments { Goes (IsWriting at (length bytes.now)) (lane_history lane (D.history disk.old)) (lane_history lane (D.history disk.new)) }
    ensures memory { IsErrOf result NoMemory → Goes (IsWriting at (length bytes.now - 1)) (lane_history lane (D.history disk.old)) (lane_history lane (D.history disk.new)) }
    ensures beside { Goes (IsBeside lane) (D.history disk.old) (D.history disk.new) }
    ensures cause { HasCause (D.faults disk.old) (D.faults disk.new) result }
    ensures sure { StaysSure (D.is_sure disk.old) (D.is_sure disk.new) result }
{
    let reached = match reach(alloc, disk, lane, end, at) {
        Ok(reached) => reached,
        Err(fault) => return Err(fault),
    };
    let begin = place_of(lane, at);
    match disk.write_at(begin, bytes) {
        Ok(()) => Ok(reached.max(begin + bytes.len() as u64)),
        Err(fault) => Err(fault),
    }
}

/// Writes bytes of a lane, a page at a time, and says how long the file is then.
pub fn write_pages<D: Disk>(
    alloc: Global,
    disk: &mut D,
    lane: u64,
    end: u64,
    at: u64,
    bytes: &[u8],
) -> Result<u64, DiskFault>
    requires lane { lane < 2 }
    requires low { at < 2 ^ 61 }
    requires short { length bytes.now < 2 ^ 61 }
    requires end { Now (D.history disk.old) (λ now. end ≡ length now.seen) }
    requires there { Now (D.history disk.old) (λ now. at ≤ count lane (length now.seen)) }
    ensures end { IfOk result (λ n. Now (D.history disk.new) (λ now. n ≡ length now.seen)) }
    ensures wrote { OnOk result (Wrote at bytes.now (lane_history lane (D.history disk.old)) (lane_history lane (D.history disk.new))) }
    ensures moments { Goes (IsWriting at (length bytes.now)) (lane_history lane (D.history disk.old)) (lane_history lane (D.history disk.new)) }
    ensures memory { IsErrOf result NoMemory → Goes (IsWriting at (length bytes.now - 1)) (lane_history lane (D.history disk.old)) (lane_history lane (D.history disk.new)) }
    ensures beside { Goes (IsBeside lane) (D.history disk.old) (D.history disk.new) }
    ensures cause { HasCause (D.faults disk.old) (D.faults disk.new) result }
    ensures sure { StaysSure (D.is_sure disk.old) (D.is_sure disk.new) result }
{
    let mut reached = end;
    let mut done = 0;
    'pages: while done < bytes.len() {
        let here = at + done as u64;
        let size = page_rest_of(here).min((bytes.len() - done) as u64) as usize;
        match write_page(alloc, disk, lane, reached, here, &bytes[done..done + size]) {
            Ok(end) => reached = end,
            Err(fault) => return Err(fault),
        }
        done += size;
    }
    Ok(reached)
}

/// Reads bytes of a lane, a page at a time.
pub fn read_pages<D: Disk>(
    disk: &mut D,
    lane: u64,
    at: u64,
    out: &mut [u8],
) -> Result<(), DiskFault>
    requires lane { lane < 2 }
    requires fits { at + length out.old ≤ count lane (2 ^ 64 - 1) }
    requires there { Now (D.history disk.old) (λ now. at + length out.old ≤ count lane (length now.seen)) }
    ensures bytes { OnOk result (Now (lane_history lane (D.history disk.old)) (λ now. out.new ≡ take (length out.old) (drop at now.seen))) }
    ensures same { D.history disk.new ≡ D.history disk.old }
    ensures cause { HasCause (D.faults disk.old) (D.faults disk.new) result }
    ensures sure { StaysSure (D.is_sure disk.old) (D.is_sure disk.new) result }
    ensures memory { IsErrOf result NoMemory → ⊥ }
{
    let mut done = 0;
    'pages: while done < out.len() {
        let here = at + done as u64;
        let size = page_rest_of(here).min((out.len() - done) as u64) as usize;
        match disk.read(place_of(lane, here), &mut out[done..done + size]) {
            Ok(()) => {}
            Err(fault) => return Err(fault),
        }
        done += size;
    }
    Ok(())
}
