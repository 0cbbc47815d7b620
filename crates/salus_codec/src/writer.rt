ghost use Rattle.std.specs.Prelude.{◌≡◌, ◌++◌, OnOk, OnErr};
ghost use Rattle.salus_codec.specs.Spelling.{be1, be2, be4, be8};

use salus_types::NoMemory;

/// Adds the byte at the end.
#[tactic(auto, unfolding(crate::specs::Spelling::be1))]
pub fn put_u8(out: &mut Vec<u8>, value: u8) -> Result<(), NoMemory>
    ensures ok { OnOk result (out.new.items ≡ out.old.items ++ be1 value) }
    ensures err { OnErr result (out.new.items ≡ out.old.items) }
{
    out.push(value)?;
    Ok(())
}

/// Adds the number at the end, in two bytes.
#[tactic(auto, unfolding(crate::specs::Spelling::be2))]
pub fn put_u16(out: &mut Vec<u8>, value: u16) -> Result<(), NoMemory>
    ensures ok { OnOk result (out.new.items ≡ out.old.items ++ be2 value) }
    ensures err { OnErr result (out.new.items ≡ out.old.items) }
{
    out.extend_from_slice(&value.to_be_bytes())?;
    Ok(())
}

/// Adds the number at the end, in four bytes.
#[tactic(auto, unfolding(crate::specs::Spelling::be4))]
pub fn put_u32(out: &mut Vec<u8>, value: u32) -> Result<(), NoMemory>
    ensures ok { OnOk result (out.new.items ≡ out.old.items ++ be4 value) }
    ensures err { OnErr result (out.new.items ≡ out.old.items) }
{
    out.extend_from_slice(&value.to_be_bytes())?;
    Ok(())
}

/// Adds the number at the end, in eight bytes.
#[tactic(auto, unfolding(crate::specs::Spelling::be8))]
pub fn put_u64(out: &mut Vec<u8>, value: u64) -> Result<(), NoMemory>
    ensures ok { OnOk result (out.new.items ≡ out.old.items ++ be8 value) }
    ensures err { OnErr result (out.new.items ≡ out.old.items) }
{
    out.extend_from_slice(&value.to_be_bytes())?;
    Ok(())
}

/// Adds the bytes at the end.
pub fn put_bytes(out: &mut Vec<u8>, value: &[u8]) -> Result<(), NoMemory>
    ensures ok { OnOk result (out.new.items ≡ out.old.items ++ value.now) }
    ensures err { OnErr result (out.new.items ≡ out.old.items) }
{
    out.extend_from_slice(value)?;
    Ok(())
}
