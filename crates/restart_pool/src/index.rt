//! Where in a list of numbers each number stands: found from its last place to its first, without a search.
ghost use Rattle.std.specs.Prelude.{◌≡◌, ◌<◌, ◌∷◌, ◌++◌, [], length, slice_index, OnOk, OnErr};
ghost use Rattle.restart_pool.specs.Latest.{IsLatest};

use crate::grow::put;
use salus_types::NoMemory;
use std::alloc::Global;
use std::collections::HashMap;
use std::marker::Model;

/// A list of numbers in which the places of each number are linked, the last one first.
#[derive(Drop)]
pub struct NumberIndex {
    numbers: Vec<u64>,
    /// For each place the last one before it with the same number.
    before: Vec<Option<usize>>,
    /// For each number its last place.
    last: HashMap<u64, usize>,
}

impl Model for NumberIndex {
    ghost use Rattle.std.specs.Prelude.{List, ℕ, nat_eq};
    ghost use Rattle.std.specs.HashMap.{get};
    ghost use Rattle.restart_pool.specs.Latest.{IsIndexed};

    ghost Value = { List ℕ };

    ghost view = { λ x. x.numbers.items };

    ghost invariant = { λ x. IsIndexed x.numbers.items x.before.items (get nat_eq x.last) };
}

impl NumberIndex {
    pub fn new(alloc: Global) -> NumberIndex
        ensures { result ≡ [] }
    {
        NumberIndex {
            numbers: Vec::new(alloc),
            before: Vec::new(alloc),
            last: HashMap::new(alloc),
        }
    }

    /// Adds a number at the end. After an error the list is as it was.
    pub fn push(&mut self, number: u64) -> Result<(), NoMemory>
        ensures ok { OnOk result (self.new ≡ self.old ++ number ∷ []) }
        ensures err { OnErr result (self.new ≡ self.old) }
    {
        self.numbers.reserve(1)?;
        self.before.reserve(1)?;
        let before = self.last.insert(number, self.numbers.len())?;
        put(&mut self.before, before);
        put(&mut self.numbers, number);
        Ok(())
    }

    /// The last place of a number.
    pub fn last(&self, number: u64) -> Option<usize>
        ensures { IsLatest self.now (length self.now) number result }
    {
        self.last.get(&number).copied()
    }

    /// The last place before this one with the same number.
    pub fn before(&self, place: usize) -> Option<usize>
        requires { place < length self.now }
        ensures { IsLatest self.now place (slice_index self.now place) result }
    {
        self.before[place]
    }
}
