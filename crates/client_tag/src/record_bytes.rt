ghost use Rattle.std.specs.Prelude.{◌≡◌, ◌++◌, List, ℕ, ◌<◌, ◌^◌, [], Ok, IfOk, OnOk};
ghost use Rattle.salus_types.specs.declared.records.Record.{Record as AnyRecord};
ghost use Rattle.std.specs.List.{AllByRecursion};
ghost use Rattle.salus_codec.specs.Spelling.{IsBytes};
ghost use Rattle.salus_types.specs.Outcome.{Gives};
ghost use Rattle.salus_codec.specs.Reading.{Field, field_fault};
ghost use Rattle.client_tag.specs.Spelling.{payload_bytes, record_bytes};
ghost use Rattle.client_tag.specs.Ranges.{IsRecord, IsTyped, HasWidths};
ghost use Rattle.client_tag.specs.Reading.{record_at};

use crate::header::{put_header, read_digest, read_header};
use crate::part::{put_writes, read_writes};
use salus_codec::{FieldError, Fields, put_bytes};
use salus_types::{NoMemory, Record};
use std::alloc::Global;

/// Why bytes are no record: the first field that fails has too few bytes, or lies outside its range.
pub type RecordError = FieldError;

#[tactic(auto, unfolding(crate::specs::Reading::record_at))]
fn read_parts(alloc: Global, fields: &mut Fields) -> Result<Record, RecordError>
    ensures exact { Gives (λ x. Ok (x, fields.new)) field_fault result (record_at fields.old) }
    ensures fits { IsBytes fields.old }
{
    let header = read_header(alloc, fields)?;
    let writes = read_writes(alloc, fields)?;
    let tag = read_digest(fields)?;
    Ok(Record {
        header,
        writes,
        run: None,
        tag,
    })
}

/// The record at the front of the fields. After an error the fields may stand anywhere.
pub fn read_record(alloc: Global, fields: &mut Fields) -> Result<Record, RecordError>
    // What is read is spelled so.
    ensures found { IfOk result (λ r. (fields.old ≡ record_bytes r ++ fields.new) × IsRecord r × IsTyped r) }
    // What is spelled so is read, unless memory runs out.
    ensures only { (r : AnyRecord) (after : List ℕ) → IsRecord r → IsTyped r → fields.old ≡ record_bytes r ++ after → Gives {M = Field AnyRecord} (λ x. Ok (x, fields.new)) field_fault result (Ok (r, after)) }
    // Which refusal it is.
    ensures exact { Gives (λ x. Ok (x, fields.new)) field_fault result (record_at fields.old) }
    // No other record's spelling is a front of this one's, or goes on after it.
    ensures alone { IfOk result (λ x. (r : AnyRecord) (after : List ℕ) → IsRecord r → IsTyped r → record_bytes r ++ after ≡ record_bytes x → (r ≡ x) × (after ≡ [])) }
{
    read_parts(alloc, fields)
}

#[tactic(auto, unfolding(crate::specs::Spelling::payload_bytes))]
fn put_payload(out: &mut Vec<u8>, rec: &Record) -> Result<(), NoMemory>
    requires { IsRecord rec.now }
    ensures bytes { OnOk result (out.new.items ≡ out.old.items ++ payload_bytes rec.now) }
    ensures widths { OnOk result (HasWidths rec.now.header × AllByRecursion (λ w. w.place < 2 ^ 16) rec.now.writes) }
{
    put_header(out, &rec.header)?;
    put_writes(out, &rec.writes)
}

/// The record's bytes without its tag.
pub fn payload(alloc: Global, rec: &Record) -> Result<Vec<u8>, NoMemory>
    requires { IsRecord rec.now }
    ensures { IfOk result (λ out. out.items ≡ payload_bytes rec.now) }
{
    let mut out = Vec::new(alloc);
    put_payload(&mut out, rec)?;
    Ok(out)
}

/// Adds the record's bytes at the end. After an error some of them may be there.
#[tactic(auto, unfolding(crate::specs::Spelling::record_bytes))]
pub fn write_record(rec: &Record, out: &mut Vec<u8>) -> Result<(), NoMemory>
    requires { IsRecord rec.now }
    ensures bytes { OnOk result (out.new.items ≡ out.old.items ++ record_bytes rec.now) }
    // Its numbers are in the widths of their types: what the laws on spellings ask of a record.
    ensures typed { OnOk result (IsTyped rec.now) }
{
    put_payload(out, rec)?;
    put_bytes(out, rec.tag.as_bytes().as_slice())
}
