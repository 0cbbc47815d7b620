ghost use Rattle.std.specs.Prelude.{◌≡◌, ◌↔◌, IsTrue, IfOk, OnErr, OnOk};
ghost use Rattle.client_tag.specs.Ranges.{IsRecord};
ghost use Rattle.client_tag.specs.Tags.{Genuine, is_genuine, sealed, tag_of};

use crate::record_bytes::payload;
use salus_hash::{Digest, HmacKey};
use salus_types::{NoMemory, Record};
use std::alloc::Global;

/// The tag that the key gives the record.
fn tag(alloc: Global, key: &HmacKey, rec: &Record) -> Result<Digest, NoMemory>
    requires { IsRecord rec.now }
    ensures { IfOk result (λ tag. tag ≡ tag_of key.now rec.now) }
{
    let bytes = payload(alloc, rec)?;
    Ok(key.hmac(bytes.as_slice()))
}

/// Sets the record's tag to that of the key, which makes it genuine, and changes nothing else. After an error the
/// record is as it was.
#[tactic(auto, using(crate::proofs::Sealing::genuine_sealed))]
pub fn seal(alloc: Global, key: &HmacKey, rec: &mut Record) -> Result<(), NoMemory>
    requires { IsRecord rec.old }
    ensures sealed { OnOk result (rec.new ≡ sealed key.now rec.old) }
    ensures genuine { OnOk result (Genuine key.now rec.new) }
    ensures unchanged { OnErr result (rec.new ≡ rec.old) }
{
    rec.tag = tag(alloc, key, rec)?;
    Ok(())
}

/// Whether the record's tag is that of the key. A record without a spelling isn't genuine, and isn't asked for.
#[tactic(auto, unfolding(crate::specs::Tags::is_genuine))]
pub fn is_genuine(alloc: Global, key: &HmacKey, rec: &Record) -> Result<bool, NoMemory>
    requires { IsRecord rec.now }
    ensures value { IfOk result (λ yes. yes ≡ is_genuine key.now rec.now) }
    ensures exact { IfOk result (λ yes. IsTrue yes ↔ Genuine key.now rec.now) }
{
    let genuine = tag(alloc, key, rec)?;
    Ok(rec.tag == genuine)
}
