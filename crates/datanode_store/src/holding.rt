ghost use Rattle.std.specs.Prelude.{◌≡◌, ◌<◌, nat_le, filter, vec_len, vec_capacity, IfOk, OnErr};
ghost use Rattle.holding_model.specs.Holding.{ToSession, held_after};
ghost use Rattle.datanode_store.specs.Meaning.{CanBeKept};

use salus_types::{Bases, Held, Items, NoMemory, Records};
use std::alloc::Global;
use std::mem;

/// Takes the elements out, with room for one more. After an error they stay.
pub fn with_room<T: Drop>(alloc: Global, items: &mut Items<T>) -> Result<Vec<T>, NoMemory>
    ensures taken { IfOk result (λ vec. vec.items ≡ items.old) }
    ensures room { IfOk result (λ vec. vec_len vec < vec_capacity vec) }
    ensures kept { OnErr result (items.new ≡ items.old) }
{
    let mut vec = mem::replace(items, Items::new(alloc)).into_vec();
    match vec.reserve(1) {
        Ok(()) => Ok(vec),
        Err(_) => {
            *items = Items::from_vec(vec);
            Err(NoMemory)
        }
    }
}

// Keeps the bases of this session and of later ones.
fn keep_bases(alloc: Global, bases: &mut Bases, session: u64)
    ensures { bases.new ≡ filter (λ base. nat_le session base.rec.header.session) bases.old }
{
    let mut kept = mem::replace(bases, Items::new(alloc)).into_vec();
    kept.retain(|base| session <= base.rec.header.session);
    *bases = Items::from_vec(kept);
}

// Keeps the parts of this session and of later ones.
fn keep_parts(alloc: Global, parts: &mut Records, session: u64)
    ensures { parts.new ≡ filter (λ rec. nat_le session rec.header.session) parts.old }
{
    let mut kept = mem::replace(parts, Items::new(alloc)).into_vec();
    kept.retain(|rec| session <= rec.header.session);
    *parts = Items::from_vec(kept);
}

/// Opens a session, and drops the bases and parts of sessions below it.
pub fn open_session(alloc: Global, held: &mut Held, session: u64)
    ensures opened { held.new ≡ held_after held.old (ToSession session) }
    ensures ranges { CanBeKept held.old → CanBeKept held.new }
{
    held.session = session;
    keep_bases(alloc, &mut held.bases, session);
    keep_parts(alloc, &mut held.parts, session);
}
