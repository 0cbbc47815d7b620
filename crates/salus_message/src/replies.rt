ghost use Rattle.std.specs.Prelude.{◌≡◌, ◌++◌, ◌<◌, ◌^◌, length, Ok, OnOk};
ghost use Rattle.salus_types.specs.Outcome.{Gives};
ghost use Rattle.salus_codec.specs.Reading.{field_fault, bytes_at, u16_at};
ghost use Rattle.salus_codec.specs.Formats.{times, within, sized};
ghost use Rattle.salus_codec.specs.Spelling.{be2};
ghost use Rattle.client_tag.specs.Spelling.{joined};
ghost use Rattle.salus_message.specs.Spelling.{path_bytes, answer_bytes};
ghost use Rattle.salus_message.specs.Ranges.{IsAnswer};
ghost use Rattle.salus_message.specs.Reading.{path_at, answer_at};

use crate::small::{put_asked, read_asked};
use salus_codec::{FieldError, Fields, put_bytes, put_u8, put_u16};
use salus_hash::Digest;
use salus_types::{Bytes, Items, NoMemory, Path};
use std::alloc::Global;

/// A block as of the region's number `at`, and its path in the region's tree.
#[derive(PartialEq, Eq, Debug, Drop)]
pub struct Answer {
    pub session: u64,
    pub read: u64,
    pub block: u32,
    pub at: u64,
    pub bytes: Bytes,
    pub path: Path,
}

fn read_block(alloc: Global, fields: &mut Fields) -> Result<Bytes, FieldError>
    ensures { Gives (λ x. Ok (x, fields.new)) field_fault result (sized (within 1 4096 u16_at) fields.old) }
{
    let count = fields.u16_within(1, 4096)?;
    let bytes = fields.bytes(count as usize)?;
    let block = Items::from_slice(alloc, bytes)?;
    Ok(block)
}

fn read_each_digest(alloc: Global, count: u8, fields: &mut Fields) -> Result<Path, FieldError>
    ensures { Gives (λ x. Ok (x, fields.new)) field_fault result (times (bytes_at 32) count fields.old) }
{
    let mut path = Items::new(alloc);
    'each: for _ in 0..count {
        let digest = fields.array32()?;
        path.push(Digest::from_bytes(digest))?;
    }
    Ok(path)
}

#[tactic(auto, unfolding(crate::specs::Reading::path_at))]
fn read_path(alloc: Global, fields: &mut Fields) -> Result<Path, FieldError>
    ensures { Gives (λ x. Ok (x, fields.new)) field_fault result (path_at fields.old) }
{
    let count = fields.u8_within(0, 12)?;
    read_each_digest(alloc, count, fields)
}

#[tactic(auto, unfolding(crate::specs::Reading::answer_at))]
pub fn read_answer(alloc: Global, fields: &mut Fields) -> Result<Answer, FieldError>
    ensures { Gives (λ x. Ok (x, fields.new)) field_fault result (answer_at fields.old) }
{
    let (session, read, block, at) = read_asked(fields)?;
    let bytes = read_block(alloc, fields)?;
    let path = read_path(alloc, fields)?;
    Ok(Answer {
        session,
        read,
        block,
        at,
        bytes,
        path,
    })
}

fn put_block(out: &mut Vec<u8>, bytes: &Bytes) -> Result<(), NoMemory>
    requires { length bytes.now < 2 ^ 16 }
    ensures { OnOk result (out.new.items ≡ out.old.items ++ (be2 (length bytes.now) ++ bytes.now)) }
{
    put_u16(out, bytes.len() as u16)?;
    put_bytes(out, bytes.as_slice())
}

fn put_each_digest(out: &mut Vec<u8>, path: &[Digest]) -> Result<(), NoMemory>
    ensures { OnOk result (out.new.items ≡ out.old.items ++ joined path.now) }
{
    for digest in path {
        put_bytes(out, digest.as_bytes().as_slice())?;
    }
    Ok(())
}

#[tactic(auto, unfolding(crate::specs::Spelling::path_bytes))]
fn put_path(out: &mut Vec<u8>, path: &Path) -> Result<(), NoMemory>
    requires { length path.now < 2 ^ 8 }
    ensures { OnOk result (out.new.items ≡ out.old.items ++ path_bytes path.now) }
{
    put_u8(out, path.len() as u8)?;
    put_each_digest(out, path.as_slice())
}

#[tactic(auto, unfolding(crate::specs::Spelling::answer_bytes))]
pub fn put_answer(out: &mut Vec<u8>, message: &Answer) -> Result<(), NoMemory>
    requires { IsAnswer message.now }
    ensures { OnOk result (out.new.items ≡ out.old.items ++ answer_bytes message.now) }
{
    put_asked(
        out,
        message.session,
        message.read,
        message.block,
        message.at,
    )?;
    put_block(out, &message.bytes)?;
    put_path(out, &message.path)
}
