ghost use Rattle.std.specs.Prelude.{◌≡◌, ◌==◌, ◌<◌, ◌≤◌, ◌∷◌, ◌++◌, ◌↔◌, [], false, filter, find, length, nat_le, not, slice_get, OnErr, OnOk};
ghost use Rattle.std.specs.Option.{option_map_or};
ghost use Rattle.std.specs.List.{position_or_len};
ghost use Rattle.replica_rules.specs.Replicas.{with_ask};
ghost use Rattle.region_replica.specs.Keeping.{IsRising};

use salus_message::Ask;
use salus_types::NoMemory;
use std::alloc::Global;
use std::marker::Model;

/// The asks that wait, by rising read numbers: of one read number the newest.
#[derive(Drop)]
pub struct Asks {
    asks: Vec<Ask>,
}

impl Model for Asks {
    ghost use Rattle.std.specs.Prelude.{List};
    ghost use Rattle.salus_message.specs.declared.small.Ask.{Ask};
    ghost use Rattle.region_replica.specs.Keeping.{IsRising};

    ghost Value = { List Ask };

    ghost view = { λ a. a.asks.items };

    ghost invariant = { λ a. IsRising a.asks.items };
}

/// Whether the ask at that place has that read number.
fn is_read_at(asks: &[Ask], place: usize, read: u64) -> bool
    ensures { result ≡ option_map_or (λ a. a.read == read) (slice_get asks.now place) false }
{
    match asks.get(place) {
        Some(ask) => ask.read == read,
        None => false,
    }
}

impl Asks {
    /// No ask.
    pub fn new(alloc: Global) -> Asks
        ensures { result ≡ [] }
    {
        Asks {
            asks: Vec::new(alloc),
        }
    }

    /// The place of the first ask of at least that read number.
    fn place_of(&self, read: u64) -> usize
        ensures place { result ≡ position_or_len (λ a. nat_le read a.read) self.now }
        ensures within { result ≤ length self.now }
    {
        self.asks.partition_point(|ask| ask.read < read)
    }

    /// Keeps an ask, in place of an older one of the same read number. After an error nothing is changed.
    pub fn keep(&mut self, ask: Ask) -> Result<(), NoMemory>
        ensures ok { OnOk result (self.new ≡ with_ask self.old ask) }
        ensures err { OnErr result (self.new ≡ self.old) }
    {
        let place = self.place_of(ask.read);
        if is_read_at(self.asks.as_slice(), place, ask.read) {
            self.asks[place] = ask;
            return Ok(());
        }
        self.asks.insert(place, ask)?;
        Ok(())
    }

    /// The ask of the least read number that can be answered as of that number.
    pub fn first_due(&self, number: u64) -> Option<Ask>
        ensures ask { result ≡ find (λ ask. nat_le ask.at number) self.now }
        ensures rising { IsRising self.now }
    {
        self.asks.iter().copied().find(|ask| ask.at <= number)
    }

    /// Takes out the ask of that read number.
    pub fn remove(&mut self, read: u64)
        ensures { self.new ≡ filter (λ ask. not (ask.read == read)) self.old }
    {
        self.asks.retain(|ask| ask.read != read);
    }
}
