use crate::items::Items;
use salus_hash::Digest;

/// What a replica did wrong in an answer to an open read.
#[derive(Clone, Copy, PartialEq, Eq, Debug, Drop)]
pub enum Strike {
    /// Its path folds to `got`, where the client holds the root `held`.
    Bad { held: Digest, got: Digest },
    /// It answers as of batch `at`, where the region's last batch is `number`.
    Past { at: u64, number: u64 },
}

/// The first strike of each replica of a group, in order.
pub type Strikes = Items<Option<Strike>>;
