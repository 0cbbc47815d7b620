ghost use Rattle.std.specs.Prelude.{◌≡◌};
ghost use Rattle.datanode_store.specs.Causes.{is_device};
ghost use Rattle.replica_node.specs.Errors.{is_device_of_node};

use datanode_store::StoreError;

/// Why a handling wasn't done.
#[derive(Clone, Copy, PartialEq, Eq, Debug, Drop)]
pub enum NodeError {
    /// The device failed.
    Device,
    /// There was no memory.
    NoMemory,
}

/// The same error of the node. After the load a store answers these two alone.
pub fn of_store(error: StoreError) -> NodeError
    ensures { is_device_of_node result ≡ is_device error }
{
    match error {
        StoreError::Device => NodeError::Device,
        StoreError::Foreign
        | StoreError::Damaged { .. }
        | StoreError::BadRecord { .. }
        | StoreError::NoMemory => NodeError::NoMemory,
    }
}
