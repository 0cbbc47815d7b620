ghost use Rattle.std.specs.Prelude.{◌≡◌, ◌≤◌, ◌<◌, ◌++◌, ◌∷◌, All, Some, length, IfOk, OnOk};
ghost use Rattle.salus_types.specs.declared.records.Held.{Held as AnyHeld};
ghost use Rattle.datanode_log.specs.Entries.{entries_of};
ghost use Rattle.holding_model.specs.Holding.{OfPart, OfBase, ToSession, held_of, held_after};
ghost use Rattle.datanode_store.specs.Meaning.{IsPart, IsBegun, CanBeKept};
ghost use Rattle.datanode_checkpoint.specs.Folds.{IsLed};

use datanode_log::Spelled;
use datanode_store::{base_entry, part_entry, switch_entry};
use salus_types::{Base, Held, NoMemory, Record};
use std::alloc::Global;

// Adds the entry of a base.
fn push_base(alloc: Global, log: &mut Spelled, base: &Base) -> Result<(), NoMemory>
    requires { IsBegun base.now }
    ensures { OnOk result ((held : AnyHeld) → held_of (entries_of log.old.bytes.items) ≡ Some held → held_of (entries_of log.new.bytes.items) ≡ Some (held_after held (OfBase base.now))) }
{
    let entry = base_entry(alloc, base)?;
    log.push(entry.as_slice())
}

// Adds the entry of a part.
fn push_part(alloc: Global, log: &mut Spelled, rec: &Record) -> Result<(), NoMemory>
    requires { IsPart rec.now }
    ensures { OnOk result ((held : AnyHeld) → held_of (entries_of log.old.bytes.items) ≡ Some held → held_of (entries_of log.new.bytes.items) ≡ Some (held_after held (OfPart rec.now))) }
{
    let entry = part_entry(alloc, rec)?;
    log.push(entry.as_slice())
}

// Adds the entry of a switch.
fn push_switch(alloc: Global, log: &mut Spelled, session: u64) -> Result<(), NoMemory>
    ensures { OnOk result ((held : AnyHeld) → held_of (entries_of log.old.bytes.items) ≡ Some held → held_of (entries_of log.new.bytes.items) ≡ Some (held_after held (ToSession session))) }
{
    let entry = switch_entry(alloc, session)?;
    log.push(entry.as_slice())
}

// Adds the entries of these bases.
fn push_bases(alloc: Global, log: &mut Spelled, bases: &[Base]) -> Result<(), NoMemory>
    requires { All IsBegun bases.now }
    ensures { OnOk result ((held : AnyHeld) → held_of (entries_of log.old.bytes.items) ≡ Some held → held_of (entries_of log.new.bytes.items) ≡ Some (record held { bases = held.bases ++ bases.now })) }
{
    'bases: for base in bases {
        match push_base(alloc, log, base) {
            Ok(()) => {}
            Err(error) => return Err(error),
        }
    }
    Ok(())
}

// Adds the entries of these parts.
fn push_parts(alloc: Global, log: &mut Spelled, parts: &[Record]) -> Result<(), NoMemory>
    requires { All IsPart parts.now }
    ensures { OnOk result ((held : AnyHeld) → held_of (entries_of log.old.bytes.items) ≡ Some held → held_of (entries_of log.new.bytes.items) ≡ Some (record held { parts = held.parts ++ parts.now })) }
{
    'parts: for rec in parts {
        match push_part(alloc, log, rec) {
            Ok(()) => {}
            Err(error) => return Err(error),
        }
    }
    Ok(())
}

/// The log that holds this: the first base, the switch to the open session, the other bases, and the parts.
pub fn spell(alloc: Global, held: &Held) -> Result<Spelled, NoMemory>
    requires ranges { CanBeKept held.now }
    requires led { IsLed held.now }
    ensures { IfOk result (λ log. held_of (entries_of log.bytes.items) ≡ Some held.now) }
{
    let bases = held.bases.as_slice();
    let mut log = Spelled::new(alloc)?;
    push_base(alloc, &mut log, &bases[0])?;
    push_switch(alloc, &mut log, held.session)?;
    push_bases(alloc, &mut log, &bases[1..])?;
    push_parts(alloc, &mut log, held.parts.as_slice())?;
    Ok(log)
}
