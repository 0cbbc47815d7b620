use salus_types::NoMemory;
use std::alloc::Global;

/// How long an answer is whose block has 4,096 bytes and which has no path.
pub const ANSWER_BYTES: usize = 4128;

/// How long a vote is.
pub const VOTE_BYTES: usize = 51;

/// So many answers one after another in one allocation, each to another read and with another number throughout its
/// block.
pub fn answers(alloc: Global, count: u32) -> Result<Vec<u8>, NoMemory> {
    let mut bytes = Vec::with_capacity(alloc, count as usize * ANSWER_BYTES)?;
    for number in 0..count {
        bytes.extend_from_slice(&[5, 0, 0, 0, 0, 0, 0, 0, 1])?;
        bytes.extend_from_slice(&u64::from(number).to_be_bytes())?;
        bytes.extend_from_slice(&[0; 12])?;
        bytes.extend_from_slice(&[16, 0])?;
        bytes.extend_from_slice(&[(number % 251) as u8; 4096])?;
        bytes.push(0)?;
    }
    Ok(bytes)
}

/// So many votes one after another in one allocation, each for another batch.
pub fn votes(alloc: Global, count: u32) -> Result<Vec<u8>, NoMemory> {
    let mut bytes = Vec::with_capacity(alloc, count as usize * VOTE_BYTES)?;
    for number in 0..count {
        bytes.extend_from_slice(&[2, 0, 0, 0, 0, 0, 0, 0, 1])?;
        bytes.extend_from_slice(&u64::from(number).to_be_bytes())?;
        bytes.extend_from_slice(&[0; 2])?;
        bytes.extend_from_slice(&[(number % 251) as u8; 32])?;
    }
    Ok(bytes)
}
