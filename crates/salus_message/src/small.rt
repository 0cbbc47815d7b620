ghost use Rattle.std.specs.Prelude.{◌≡◌, ◌++◌, Ok, OnOk};
ghost use Rattle.salus_types.specs.Outcome.{Gives};
ghost use Rattle.salus_codec.specs.Reading.{field_fault};
ghost use Rattle.salus_message.specs.Spelling.{prepared_bytes, committed_bytes, asked_bytes, ask_bytes, dump_bytes};
ghost use Rattle.salus_message.specs.Reading.{prepared_at, committed_at, asked_at, ask_at, dump_at};

use salus_codec::{FieldError, Fields, put_bytes, put_u16, put_u32, put_u64};
use salus_hash::Digest;
use salus_types::NoMemory;

/// A vote: the sender holds the part of batch `seq` in `region`, with that root.
#[derive(Clone, Copy, PartialEq, Eq, Debug, Drop)]
pub struct Prepared {
    pub session: u64,
    pub seq: u64,
    pub region: u16,
    pub root: Digest,
}

/// A claim: every server holds all batches up to `front`.
#[derive(Clone, Copy, PartialEq, Eq, Debug, Drop)]
pub struct Committed {
    pub session: u64,
    pub front: u64,
}

/// A question for a block, as of the region's number `at`.
#[derive(Clone, Copy, PartialEq, Eq, Debug, Drop)]
pub struct Ask {
    pub session: u64,
    pub read: u64,
    pub block: u32,
    pub at: u64,
}

/// Asks for all that a server holds, to open the session.
#[derive(Clone, Copy, PartialEq, Eq, Debug, Drop)]
pub struct Gather {
    pub session: u64,
}

/// The base of the session is held.
#[derive(Clone, Copy, PartialEq, Eq, Debug, Drop)]
pub struct Staged {
    pub session: u64,
}

/// Asks to serve the session.
#[derive(Clone, Copy, PartialEq, Eq, Debug, Drop)]
pub struct Switch {
    pub session: u64,
}

/// The session is served.
#[derive(Clone, Copy, PartialEq, Eq, Debug, Drop)]
pub struct Switched {
    pub session: u64,
}

/// Asks for a region's blocks.
#[derive(Clone, Copy, PartialEq, Eq, Debug, Drop)]
pub struct Dump {
    pub session: u64,
    pub region: u16,
}

#[tactic(auto, unfolding(crate::specs::Reading::prepared_at))]
pub fn read_prepared(fields: &mut Fields) -> Result<Prepared, FieldError>
    ensures { Gives (λ x. Ok (x, fields.new)) field_fault result (prepared_at fields.old) }
{
    let session = fields.u64()?;
    let seq = fields.u64()?;
    let region = fields.u16()?;
    let root = fields.array32()?;
    Ok(Prepared {
        session,
        seq,
        region,
        root: Digest::from_bytes(root),
    })
}

#[tactic(auto, unfolding(crate::specs::Reading::committed_at))]
pub fn read_committed(fields: &mut Fields) -> Result<Committed, FieldError>
    ensures { Gives (λ x. Ok (x, fields.new)) field_fault result (committed_at fields.old) }
{
    let session = fields.u64()?;
    let front = fields.u64()?;
    Ok(Committed { session, front })
}

/// What a question and its answer begin with.
#[tactic(auto, unfolding(crate::specs::Reading::asked_at))]
pub fn read_asked(fields: &mut Fields) -> Result<(u64, u64, u32, u64), FieldError>
    ensures { Gives (λ x. Ok ((x.0, (x.1, (x.2, x.3))), fields.new)) field_fault result (asked_at fields.old) }
{
    let session = fields.u64()?;
    let read = fields.u64()?;
    let block = fields.u32()?;
    let at = fields.u64()?;
    Ok((session, read, block, at))
}

#[tactic(auto, unfolding(crate::specs::Reading::ask_at))]
pub fn read_ask(fields: &mut Fields) -> Result<Ask, FieldError>
    ensures { Gives (λ x. Ok (x, fields.new)) field_fault result (ask_at fields.old) }
{
    let (session, read, block, at) = read_asked(fields)?;
    Ok(Ask {
        session,
        read,
        block,
        at,
    })
}

#[tactic(auto, unfolding(crate::specs::Reading::dump_at))]
pub fn read_dump(fields: &mut Fields) -> Result<Dump, FieldError>
    ensures { Gives (λ x. Ok (x, fields.new)) field_fault result (dump_at fields.old) }
{
    let session = fields.u64()?;
    let region = fields.u16()?;
    Ok(Dump { session, region })
}

#[tactic(auto, unfolding(crate::specs::Spelling::prepared_bytes))]
pub fn put_prepared(out: &mut Vec<u8>, message: &Prepared) -> Result<(), NoMemory>
    ensures { OnOk result (out.new.items ≡ out.old.items ++ prepared_bytes message.now) }
{
    put_u64(out, message.session)?;
    put_u64(out, message.seq)?;
    put_u16(out, message.region)?;
    put_bytes(out, message.root.as_bytes().as_slice())
}

#[tactic(auto, unfolding(crate::specs::Spelling::committed_bytes))]
pub fn put_committed(out: &mut Vec<u8>, message: &Committed) -> Result<(), NoMemory>
    ensures { OnOk result (out.new.items ≡ out.old.items ++ committed_bytes message.now) }
{
    put_u64(out, message.session)?;
    put_u64(out, message.front)
}

#[tactic(auto, unfolding(crate::specs::Spelling::asked_bytes))]
pub fn put_asked(
    out: &mut Vec<u8>,
    session: u64,
    read: u64,
    block: u32,
    at: u64,
) -> Result<(), NoMemory>
    ensures { OnOk result (out.new.items ≡ out.old.items ++ asked_bytes session read block at) }
{
    put_u64(out, session)?;
    put_u64(out, read)?;
    put_u32(out, block)?;
    put_u64(out, at)
}

#[tactic(auto, unfolding(crate::specs::Spelling::ask_bytes))]
pub fn put_ask(out: &mut Vec<u8>, message: &Ask) -> Result<(), NoMemory>
    ensures { OnOk result (out.new.items ≡ out.old.items ++ ask_bytes message.now) }
{
    put_asked(
        out,
        message.session,
        message.read,
        message.block,
        message.at,
    )
}

#[tactic(auto, unfolding(crate::specs::Spelling::dump_bytes))]
pub fn put_dump(out: &mut Vec<u8>, message: &Dump) -> Result<(), NoMemory>
    ensures { OnOk result (out.new.items ≡ out.old.items ++ dump_bytes message.now) }
{
    put_u64(out, message.session)?;
    put_u16(out, message.region)
}
