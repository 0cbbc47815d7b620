//! What a client sends again.
ghost use Rattle.std.specs.Prelude.{◌≡◌, ◌++◌, map, OnOk};
ghost use Rattle.schedule_text.specs.declared.schedule.Volume.{Volume};
ghost use Rattle.client_rules.specs.State.{Client};
ghost use Rattle.client_rules.specs.Rules.{ticked};
ghost use Rattle.posting.specs.Letters.{out_of_letter};
ghost use Rattle.client_node.specs.Phases.{Plays};

use crate::phase::Phase;
use salus_types::{NoMemory, Out};
use std::alloc::Global;

/// What a client waits for is sent again; a closed one waits for nothing.
pub fn send_again(alloc: Global, phase: &Phase, outs: &mut Vec<Out>) -> Result<(), NoMemory>
    ensures { OnOk result ((volume : Volume) (c : Client) → Plays volume phase.now c → outs.new.items ≡ outs.old.items ++ map out_of_letter (ticked volume.geometry c)) }
{
    match phase {
        Phase::Serving(client) => {
            client.tick(alloc, outs)?;
            Ok(())
        }
        Phase::Opening(client) => {
            client.tick(alloc, outs)?;
            Ok(())
        }
        Phase::Closed(_) => Ok(()),
    }
}
