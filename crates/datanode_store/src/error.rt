ghost use Rattle.std.specs.Prelude.{◌≡◌, Some};
ghost use Rattle.datanode_store.specs.Causes.{of_log};
ghost use Rattle.datanode_store.specs.Words.{store_words};

use datanode_log::LogError;
use std::error::Error;
use std::fmt;

/// Why a store isn't loaded, or a call on it isn't done.
#[derive(Clone, Copy, PartialEq, Eq, Debug, Drop)]
pub enum StoreError {
    /// The file isn't a log.
    Foreign,
    /// The gate at this place is open, and there is no whole entry with a gate after it.
    Damaged { at: u64 },
    /// The entry of this number, from 0 on, is the first that is no part, no base with blocks and no switch.
    BadRecord { at: u64 },
    /// The device failed.
    Device,
    /// There was no memory.
    NoMemory,
}

impl fmt::Display for StoreError {
    ghost output = { λ error. Some (store_words error) };

    fn fmt<W: fmt::Write>(&self, f: &mut fmt::Formatter<W>) -> fmt::Result {
        match self {
            StoreError::Foreign => write!(f, "not a store"),
            StoreError::Damaged { at } => write!(f, "damaged at byte {at}"),
            StoreError::BadRecord { at } => write!(f, "bad record in entry {at}"),
            StoreError::Device => write!(f, "the device failed"),
            StoreError::NoMemory => write!(f, "out of memory"),
        }
    }
}

impl Error for StoreError {}

/// The same error of the store.
pub fn of_log(error: LogError) -> StoreError
    ensures { result ≡ of_log error }
{
    match error {
        LogError::Foreign => StoreError::Foreign,
        LogError::Damaged { at } => StoreError::Damaged { at },
        LogError::Device => StoreError::Device,
        LogError::NoMemory => StoreError::NoMemory,
    }
}
