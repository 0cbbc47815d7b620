ghost use Rattle.std.specs.Prelude.{◌≡◌, ℕ, IfOk, IfSome, None, length, replicate};
ghost use Rattle.std.specs.Option.{option_copied};
ghost use Rattle.salus_model.specs.Answering.{all_struck};
ghost use Rattle.client_rules.specs.Tables.{struck_from};
ghost use Rattle.verified_read.specs.Entries.{struck_entry};
ghost use Rattle.verified_read.specs.Table.{fault_of};

use salus_types::{Items, NoMemory, Strike, Strikes};
use std::alloc::Global;

/// What stands under the number of an open question.
#[derive(Debug, Drop)]
pub struct Asked {
    /// The event of the request that waits for the block.
    pub event: u64,
    /// The block.
    pub block: u32,
    /// The first strike of each replica of the block's group.
    pub strikes: Strikes,
}

/// A place for the first strike of each replica.
pub fn no_strikes(alloc: Global, replicas: u32) -> Result<Strikes, NoMemory>
    ensures { IfOk result (λ strikes. strikes ≡ replicate replicas None) }
{
    Ok(Items::from_vec(vec![in alloc; None; replicas as usize]?))
}

/// Strikes a replica; its first strike stays.
fn strike_replica(strikes: &mut Strikes, replica: u8, strike: Strike)
    ensures { strikes.new ≡ struck_from 0 replica strike strikes.old }
{
    let place = replica as usize;
    match strikes.get(place) {
        Some(None) => strikes.set(place, Some(strike)),
        Some(Some(_)) => {}
        None => {}
    }
}

impl Asked {
    /// Strikes a replica, if the answer is for the block.
    pub fn strike(&mut self, block: u32, replica: u8, strike: Strike)
        ensures { self.new ≡ struck_entry block replica strike self.old }
    {
        if block == self.block {
            strike_replica(&mut self.strikes, replica, strike);
        }
    }

    fn all_struck(&self) -> bool
        ensures { result ≡ all_struck self.now.strikes }
    {
        self.strikes
            .as_slice()
            .iter()
            .all(|strike| strike.is_some())
    }

    /// The strikes, where each replica is struck.
    pub fn fault(&self) -> Option<&Strikes>
        ensures strikes { option_copied result ≡ fault_of self.now.strikes }
        ensures each { (replicas : ℕ) → length self.now.strikes ≡ replicas → IfSome result (λ strikes. length strikes.now ≡ replicas) }
    {
        if self.all_struck() {
            Some(&self.strikes)
        } else {
            None
        }
    }
}
