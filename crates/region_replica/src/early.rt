ghost use Rattle.std.specs.Prelude.{◌≡◌, ◌==◌, ◌<◌, ◌≤◌, ◌∷◌, ◌++◌, ◌↔◌, [], false, filter, find, length, not, position, IsTrue, OnErr, OnOk};
ghost use Rattle.std.specs.Option.{option_copied};
ghost use Rattle.replica_rules.specs.Replicas.{has_early};
ghost use Rattle.region_replica.specs.Keeping.{IsKept};

use salus_types::{NoMemory, Record};
use std::alloc::Global;
use std::marker::Model;

/// How many early parts are kept.
const MOST: usize = 16;

/// The parts that came before their turn, in the order of arrival: at most 16, and of one previous number at most one.
#[derive(Drop)]
pub struct EarlyParts {
    parts: Vec<Record>,
}

impl Model for EarlyParts {
    ghost use Rattle.std.specs.Prelude.{List};
    ghost use Rattle.salus_types.specs.declared.records.Record.{Record};
    ghost use Rattle.region_replica.specs.Keeping.{IsKept};

    ghost Value = { List Record };

    ghost view = { λ e. e.parts.items };

    ghost invariant = { λ e. IsKept e.parts.items };
}

impl EarlyParts {
    /// No part.
    pub fn new(alloc: Global) -> EarlyParts
        ensures { result ≡ [] }
    {
        EarlyParts {
            parts: Vec::new(alloc),
        }
    }

    /// Where the part stands that goes on from that number.
    fn place_of(&self, number: u64) -> Option<usize>
        ensures { result ≡ position (λ rec. rec.header.previous == number) self.now }
    {
        self.parts
            .iter()
            .position(|rec| rec.header.previous == number)
    }

    /// Whether a part is kept that goes on from that number.
    pub fn has(&self, number: u64) -> bool
        ensures { result ≡ has_early self.now number }
    {
        self.parts.iter().any(|rec| rec.header.previous == number)
    }

    /// Whether 16 parts are kept.
    pub fn is_full(&self) -> bool
        ensures { IsTrue result ↔ (16 ≤ length self.now) }
    {
        self.parts.len() >= MOST
    }

    /// The part that goes on from that number.
    pub fn get(&self, number: u64) -> Option<&Record>
        ensures part { option_copied result ≡ find (λ rec. rec.header.previous == number) self.now }
        ensures kept { IsKept self.now }
    {
        self.parts.iter().find(|rec| rec.header.previous == number)
    }

    /// Keeps a part behind the others. After an error nothing is changed.
    pub fn keep(&mut self, rec: Record) -> Result<(), NoMemory>
        requires alone { has_early self.old rec.header.previous ≡ false }
        requires room { length self.old < 16 }
        ensures ok { OnOk result (self.new ≡ self.old ++ rec ∷ []) }
        ensures err { OnErr result (self.new ≡ self.old) }
    {
        self.parts.push(rec)?;
        Ok(())
    }

    /// Takes out the part that goes on from that number.
    pub fn take(&mut self, number: u64) -> Option<Record>
        ensures taken { result ≡ find (λ rec. rec.header.previous == number) self.old }
        ensures others { self.new ≡ filter (λ rec. not (rec.header.previous == number)) self.old }
    {
        let place = self.place_of(number)?;
        Some(self.parts.remove(place))
    }
}
