ghost use Rattle.std.specs.Prelude.{◌≡◌, ◌∷◌, [], IfOk};
ghost use Rattle.salus_types.specs.declared.names.Sender.TheVariants.{Client as IsClient};
ghost use Rattle.salus_message.specs.Ranges.{IsMessage};
ghost use Rattle.posting.specs.Posting.{bytes_to, out_to};

use crate::planned::Planned;
use salus_message::{Message, encode};
use salus_types::{Items, NoMemory, Out, Outs, Sender};
use std::alloc::Global;

/// Nothing is told, and nothing is stored.
pub fn ignored(alloc: Global) -> Result<Planned, NoMemory>
    ensures { IfOk result (λ made. made ≡ Planned.Told []) }
{
    Ok(Planned::Told(Items::new(alloc)))
}

/// The bytes of a message, to the client.
pub fn tell_bytes(alloc: Global, bytes: Vec<u8>) -> Result<Outs, NoMemory>
    ensures { IfOk result (λ outs. outs ≡ bytes_to bytes.items IsClient ∷ []) }
{
    let mut outs = Items::new(alloc);
    outs.push(Out {
        to: Sender::Client,
        bytes: Items::from_vec(bytes),
    })?;
    Ok(outs)
}

/// A message to the client.
pub fn tell(alloc: Global, message: &Message) -> Result<Outs, NoMemory>
    requires { IsMessage message.now }
    ensures { IfOk result (λ outs. outs ≡ out_to IsClient message.now ∷ []) }
{
    let bytes = encode(alloc, message)?;
    let outs = tell_bytes(alloc, bytes)?;
    Ok(outs)
}
