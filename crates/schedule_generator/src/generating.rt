ghost use Rattle.std.specs.Prelude.{◌≡◌, ◌≤◌, ◌++◌, ℕ, [], IfOk, OnOk, Ok};
ghost use Rattle.schedule_text.specs.declared.schedule.Schedule.{Schedule};
ghost use Rattle.schedule_text.specs.Grammar.{IsSchedule, sessions_of};
ghost use Rattle.schedule_text.specs.Limits.{IsWithinLimits};
ghost use Rattle.schedule_text.specs.Printing.{printed, HasBytes};
ghost use Rattle.schedule_generator.specs.Generator.{drawn_bytes, drawn_write, round_events, generated_volume, generated_events, generated};

use crate::drawing::{drawn_block, drawn_byte, next_state};
use salus_types::{Batch, Bytes, Geometry, NoMemory, Write};
use schedule_text::{Event, Events, Schedule, Volume, print};
use std::alloc::Global;

// The volume: 2^4 regions of 2^8 blocks of 256 bytes, three replicas for each, and a key of one byte.
const REGIONS_LOG: u64 = 4;

const HEIGHT: u64 = 8;

const BLOCK: u64 = 256;

const REPLICAS: u64 = 3;

const KEY: u8 = 0x6b;

// How many messages are delivered at most after a request.
const SETTLED: u64 = 1000;

fn geometry() -> Geometry
    ensures { result ≡ record { regions_log = 4; height = 8; block = 256; replicas = 3 } }
{
    match Geometry::new(REGIONS_LOG, HEIGHT, BLOCK, REPLICAS) {
        Ok(geometry) => geometry,
        Err(_) => unreachable!(),
    }
}

fn volume(alloc: Global) -> Result<Volume, NoMemory>
    ensures { IfOk result (λ volume. volume ≡ generated_volume) }
{
    Ok(Volume {
        geometry: geometry(),
        key: Bytes::from_vec(vec![in alloc; KEY]?),
    })
}

// A block of the drawn byte throughout.
#[tactic(auto, unfolding(crate::specs::Generator::drawn_bytes))]
fn drawn_bytes(alloc: Global, state: u64) -> Result<Bytes, NoMemory>
    ensures { IfOk result (λ bytes. bytes ≡ drawn_bytes state) }
{
    let byte = drawn_byte(state);
    Ok(Bytes::from_vec(vec![in alloc; byte; BLOCK as usize]?))
}

// The write of a round.
fn drawn_write(alloc: Global, state: u64) -> Result<Batch, NoMemory>
    ensures { IfOk result (λ batch. batch ≡ drawn_write state) }
{
    let mut batch = Batch::new(alloc);
    batch.push(Write {
        block: drawn_block(state),
        bytes: drawn_bytes(alloc, state)?,
    })?;
    Ok(batch)
}

// Adds the events of the round in that state.
#[tactic(auto, unfolding(crate::specs::Generator::round_events))]
fn add_round(alloc: Global, events: &mut Events, state: u64) -> Result<(), NoMemory>
    ensures { OnOk result (events.new ≡ events.old ++ round_events state) }
{
    let batch = drawn_write(alloc, state)?;
    events.push(Event::Write { batch })?;
    events.push(Event::Settle { count: SETTLED })?;
    events.push(Event::Read {
        block: drawn_block(state),
    })?;
    events.push(Event::Settle { count: SETTLED })
}

fn events(alloc: Global, seed: u64, rounds: u64) -> Result<Events, NoMemory>
    ensures { IfOk result (λ events. events ≡ generated_events seed rounds) }
{
    let mut events = Events::new(alloc);
    let mut state = seed;
    'rounds: for _ in 0..rounds {
        state = next_state(state);
        add_round(alloc, &mut events, state)?;
    }
    events.push(Event::Barrier)?;
    Ok(events)
}

/// The schedule of that seed: so many rounds of a write and a read of one block, and a barrier. It has 4 * `rounds` + 1 events,
/// and opens no session.
pub fn generate(alloc: Global, seed: u64, rounds: u64) -> Result<Schedule, NoMemory>
    requires { rounds ≤ 10000 }
    ensures value { IfOk result (λ schedule. schedule ≡ generated seed rounds) }
    ensures limits { IfOk result IsWithinLimits }
    ensures bytes { IfOk result HasBytes }
    ensures closed { IfOk result (λ schedule. sessions_of schedule.events ≡ []) }
{
    Ok(Schedule {
        volume: volume(alloc)?,
        events: events(alloc, seed, rounds)?,
    })
}

/// The text of the schedule of that seed, as `schedule_text::print` writes it. It means this schedule and no other: `parse`
/// gives it back, unless memory runs out.
pub fn generated_text(alloc: Global, seed: u64, rounds: u64) -> Result<Vec<u8>, NoMemory>
    requires { rounds ≤ 10000 }
    ensures text { IfOk result (λ text. text.items ≡ printed (generated seed rounds)) }
    ensures means { IfOk result (λ text. IsSchedule text.items (generated seed rounds)) }
    ensures one { IfOk result (λ text. (other : Schedule) → IsSchedule text.items other → other ≡ generated seed rounds) }
{
    let schedule = generate(alloc, seed, rounds)?;
    print(alloc, &schedule)
}
