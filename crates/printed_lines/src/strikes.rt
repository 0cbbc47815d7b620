ghost use Rattle.std.specs.Prelude.{◌≡◌, ◌++◌, OnOk};
ghost use Rattle.std.specs.List.{flat_map};
ghost use Rattle.printed_lines.specs.LineText.{strike_text, replica_text};

use salus_types::{NoMemory, Strike};
use text_words::{put, put_hex, put_number};

#[tactic(auto, unfolding(crate::specs::LineText::strike_text))]
fn put_strike(out: &mut Vec<u8>, strike: &Strike) -> Result<(), NoMemory>
    ensures { OnOk result (out.new.items ≡ out.old.items ++ strike_text strike.now) }
{
    match strike {
        Strike::Bad { held, got } => {
            put_hex(out, held.as_bytes().as_slice())?;
            put(out, b":")?;
            put_hex(out, got.as_bytes().as_slice())
        }
        Strike::Past { at, number } => {
            put_number(out, b"past:", *at)?;
            put_number(out, b":", *number)
        }
    }
}

#[tactic(auto, unfolding(crate::specs::LineText::replica_text))]
fn put_replica(out: &mut Vec<u8>, strike: &Option<Strike>) -> Result<(), NoMemory>
    ensures { OnOk result (out.new.items ≡ out.old.items ++ replica_text strike.now) }
{
    match strike {
        None => put(out, b" -"),
        Some(strike) => {
            put(out, b" ")?;
            put_strike(out, strike)
        }
    }
}

/// Writes the strike of each replica, a space before each.
pub fn put_strikes(out: &mut Vec<u8>, strikes: &[Option<Strike>]) -> Result<(), NoMemory>
    ensures { OnOk result (out.new.items ≡ out.old.items ++ flat_map replica_text strikes.now) }
{
    'strikes: for strike in strikes {
        put_replica(out, strike)?;
    }
    Ok(())
}
