ghost use Rattle.std.specs.Prelude.{◌≡◌, ◌∷◌, None, Some, IfOk, IfErr, OnOk, OnErr, IsErrOf, IsSomeAnd};
ghost use Rattle.datanode_log.specs.Entries.{entries_of};
ghost use Rattle.holding_model.specs.Holding.{OfPart, OfBase, ToSession, entry_of, held_of, held_after};
ghost use Rattle.datanode_store.specs.Meaning.{IsPart, IsBegun, CanBeKept};
ghost use Rattle.datanode_store.specs.Causes.{RefusesEntries};

use crate::error::StoreError;
use crate::holding::open_session;
use client_tag::{read_base, read_record};
use datanode_log::Loaded;
use disk_model::Disk;
use salus_codec::{FieldError, Fields};
use salus_types::{Base, Held, Items, NoMemory, Record};
use std::alloc::Global;

/// Why an entry isn't taken.
#[derive(Clone, Copy, PartialEq, Eq, Debug, Drop)]
pub enum EntryFault {
    /// It is no part, no base with blocks and no switch.
    Bad,
    /// There was no memory.
    NoMemory,
}

// The record that an entry of kind 1 carries.
#[tactic(auto, unfolding(holding_model::specs::Holding::entry_of))]
fn read_part(alloc: Global, bytes: &[u8]) -> Result<Record, EntryFault>
    ensures found { IfOk result (λ rec. entry_of (1 ∷ bytes.now) ≡ Some (OfPart rec)) }
    ensures ranges { IfOk result IsPart }
    ensures bad { IsErrOf result EntryFault.Bad → entry_of (1 ∷ bytes.now) ≡ None }
{
    let mut fields = Fields::new(bytes);
    let rec = match read_record(alloc, &mut fields) {
        Ok(rec) => rec,
        Err(FieldError::NoMemory) => return Err(EntryFault::NoMemory),
        Err(_) => return Err(EntryFault::Bad),
    };
    if fields.rest() != 0 {
        return Err(EntryFault::Bad);
    }
    Ok(rec)
}

// The base that an entry of kind 2 carries. One without blocks is none.
#[tactic(auto, unfolding(holding_model::specs::Holding::entry_of))]
fn read_begun(alloc: Global, bytes: &[u8]) -> Result<Base, EntryFault>
    ensures found { IfOk result (λ base. entry_of (2 ∷ bytes.now) ≡ Some (OfBase base)) }
    ensures ranges { IfOk result IsBegun }
    ensures bad { IsErrOf result EntryFault.Bad → entry_of (2 ∷ bytes.now) ≡ None }
{
    let mut fields = Fields::new(bytes);
    let base = match read_base(alloc, &mut fields) {
        Ok(base) => base,
        Err(FieldError::NoMemory) => return Err(EntryFault::NoMemory),
        Err(_) => return Err(EntryFault::Bad),
    };
    if fields.rest() != 0 || base.blocks.len() == 0 {
        return Err(EntryFault::Bad);
    }
    Ok(base)
}

// The session that an entry of kind 3 carries.
#[tactic(auto, unfolding(holding_model::specs::Holding::entry_of))]
fn read_session(bytes: &[u8]) -> Result<u64, EntryFault>
    ensures found { IfOk result (λ session. entry_of (3 ∷ bytes.now) ≡ Some (ToSession session)) }
    ensures bad { OnErr result (entry_of (3 ∷ bytes.now) ≡ None) }
{
    let mut fields = Fields::new(bytes);
    let session = match fields.u64() {
        Ok(session) => session,
        Err(_) => return Err(EntryFault::Bad),
    };
    if fields.rest() != 0 {
        return Err(EntryFault::Bad);
    }
    Ok(session)
}

// Takes a part: what is held after it. After an error it is as it was.
fn take_part(alloc: Global, held: &mut Held, bytes: &[u8]) -> Result<(), EntryFault>
    ensures taken { OnOk result (IsSomeAnd (entry_of (1 ∷ bytes.now)) (λ entry. held.new ≡ held_after held.old entry)) }
    ensures ranges { CanBeKept held.old → OnOk result (CanBeKept held.new) }
    ensures bad { IsErrOf result EntryFault.Bad → entry_of (1 ∷ bytes.now) ≡ None }
{
    let rec = match read_part(alloc, bytes) {
        Ok(rec) => rec,
        Err(fault) => return Err(fault),
    };
    match held.parts.push(rec) {
        Ok(()) => Ok(()),
        Err(_) => Err(EntryFault::NoMemory),
    }
}

// Takes a base, in the same way.
fn take_base(alloc: Global, held: &mut Held, bytes: &[u8]) -> Result<(), EntryFault>
    ensures taken { OnOk result (IsSomeAnd (entry_of (2 ∷ bytes.now)) (λ entry. held.new ≡ held_after held.old entry)) }
    ensures ranges { CanBeKept held.old → OnOk result (CanBeKept held.new) }
    ensures bad { IsErrOf result EntryFault.Bad → entry_of (2 ∷ bytes.now) ≡ None }
{
    let base = match read_begun(alloc, bytes) {
        Ok(base) => base,
        Err(fault) => return Err(fault),
    };
    match held.bases.push(base) {
        Ok(()) => Ok(()),
        Err(_) => Err(EntryFault::NoMemory),
    }
}

// Takes a switch, in the same way.
fn take_switch(alloc: Global, held: &mut Held, bytes: &[u8]) -> Result<(), EntryFault>
    ensures taken { OnOk result (IsSomeAnd (entry_of (3 ∷ bytes.now)) (λ entry. held.new ≡ held_after held.old entry)) }
    ensures ranges { CanBeKept held.old → OnOk result (CanBeKept held.new) }
    ensures bad { IsErrOf result EntryFault.Bad → entry_of (3 ∷ bytes.now) ≡ None }
{
    match read_session(bytes) {
        Ok(session) => {
            open_session(alloc, held, session);
            Ok(())
        }
        Err(fault) => Err(fault),
    }
}

// Takes an entry of this kind.
#[tactic(auto, unfolding(holding_model::specs::Holding::entry_of))]
fn take_kind(alloc: Global, held: &mut Held, kind: u8, bytes: &[u8]) -> Result<(), EntryFault>
    ensures taken { OnOk result (IsSomeAnd (entry_of (kind ∷ bytes.now)) (λ entry. held.new ≡ held_after held.old entry)) }
    ensures ranges { CanBeKept held.old → OnOk result (CanBeKept held.new) }
    ensures bad { IsErrOf result EntryFault.Bad → entry_of (kind ∷ bytes.now) ≡ None }
{
    match kind {
        1 => take_part(alloc, held, bytes),
        2 => take_base(alloc, held, bytes),
        3 => take_switch(alloc, held, bytes),
        _ => Err(EntryFault::Bad),
    }
}

// Takes an entry: what is held after it.
#[tactic(auto, unfolding(holding_model::specs::Holding::entry_of))]
fn take_entry(alloc: Global, held: &mut Held, bytes: &[u8]) -> Result<(), EntryFault>
    ensures taken { OnOk result (IsSomeAnd (entry_of bytes.now) (λ entry. held.new ≡ held_after held.old entry)) }
    ensures ranges { CanBeKept held.old → OnOk result (CanBeKept held.new) }
    ensures bad { IsErrOf result EntryFault.Bad → entry_of bytes.now ≡ None }
{
    match bytes {
        [] => Err(EntryFault::Bad),
        [kind, rest @ ..] => take_kind(alloc, held, *kind, rest),
    }
}

/// What the entries of a log mean.
pub fn read_held<D: Disk>(alloc: Global, loaded: &Loaded<D>) -> Result<Held, StoreError>
    ensures held { IfOk result (λ held. held_of (entries_of loaded.now.bytes.items) ≡ Some held) }
    ensures ranges { IfOk result CanBeKept }
    ensures refused { IfErr result (λ error. RefusesEntries error (entries_of loaded.now.bytes.items)) }
{
    let mut held = Held {
        session: 0,
        bases: Items::new(alloc),
        parts: Items::new(alloc),
    };
    let count = loaded.count();
    'entries: for i in 0..count {
        match take_entry(alloc, &mut held, loaded.entry(i)) {
            Ok(()) => {}
            Err(EntryFault::Bad) => return Err(StoreError::BadRecord { at: i }),
            Err(EntryFault::NoMemory) => return Err(StoreError::NoMemory),
        }
    }
    Ok(held)
}
