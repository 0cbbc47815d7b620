ghost use Rattle.std.specs.Prelude.{◌≡◌, ◌<◌, ◌≤◌, ◌^◌, ℕ, [], map, IfOk};
ghost use Rattle.schedule_text.specs.declared.schedule.Volume.{Volume};
ghost use Rattle.schedule_text.specs.Limits.{IsPartyOfVolume};
ghost use Rattle.salus_model.specs.Hearing.{Asks, news_from};
ghost use Rattle.client_rules.specs.State.{Client};
ghost use Rattle.client_rules.specs.Rules.{crashed, new_client, ticked, told};
ghost use Rattle.client_premises.specs.Premises.{IsApart};
ghost use Rattle.posting.specs.Letters.{out_of_letter};

use crate::asking::ask;
use crate::hearing::hear_bytes;
use crate::phase::Phase;
use crate::ticking::send_again;
use crate::zeros::zero_roots;
use client_asking::Step;
use salus_hash::HmacKey;
use salus_model::Request;
use salus_types::{Geometry, Items, NoMemory, Outs, Sender};
use serving_client::ServingClient;
use std::alloc::Global;

/// The client of a volume. After an error it is used no more.
#[derive(Drop)]
pub struct ClientNode {
    alloc: Global,
    phase: Phase,
}

/// Nothing is sent, and no line is printed.
fn empty_step(alloc: Global) -> Step
    ensures outs { result.outs.items ≡ [] }
    ensures lines { result.lines.items ≡ [] }
{
    Step {
        outs: Vec::new(alloc),
        lines: Vec::new(alloc),
    }
}

impl ClientNode {
    ghost use Rattle.client_node.specs.Standing.{IsAsked, IsClient, IsTold, newest_of, shape_of};

    /// The client of a formatted volume: it serves session 1, and all blocks are zero.
    pub fn format(alloc: Global, geometry: Geometry, key: HmacKey) -> Result<ClientNode, NoMemory>
        ensures client { IfOk result (λ node. (volume : Volume) → volume.geometry ≡ geometry → volume.key ≡ key → IsClient node volume (new_client volume.geometry)) }
        ensures shape { IfOk result (λ node. shape_of node ≡ geometry) }
        ensures newest { IfOk result (λ node. newest_of node ≡ 0) }
    {
        let roots = zero_roots(alloc, &geometry)?;
        let client = ServingClient::new(alloc, geometry, key, 1, 0, &roots, 0)?;
        Ok(ClientNode {
            alloc,
            phase: Phase::Serving(client),
        })
    }

    /// The volume's shape.
    pub fn geometry(&self) -> Geometry
        ensures { result ≡ shape_of self.now }
    {
        self.phase.geometry()
    }

    /// A request of an event later than those of all requests before. It is moved into the waiting line where it is taken. A
    /// restart drops all that was held; a client that serves refuses it.
    pub fn request(&mut self, event: u64, request: Request) -> Result<Step, NoMemory>
        requires asked { IsAsked (shape_of self.old) request }
        requires later { newest_of self.old < event }
        requires event { event < 2 ^ 32 }
        ensures rules { IfOk result (λ step. (volume : Volume) (c : Client) → IsClient self.old volume c → IsTold volume (told volume c event (Asks request)) self.new step) }
        ensures shape { shape_of self.new ≡ shape_of self.old }
        ensures newest { newest_of self.new ≤ event }
    {
        let mut step = empty_step(self.alloc);
        ask(self.alloc, &mut self.phase, event, request, &mut step)?;
        Ok(step)
    }

    /// Bytes, as a message of that sender. They are decoded once; those that don't decode are ignored, and so is what comes
    /// under the client's own name.
    pub fn receive(&mut self, from: Sender, bytes: &[u8]) -> Result<Step, NoMemory>
        requires { IsPartyOfVolume (shape_of self.old) from }
        ensures rules { IfOk result (λ step. (volume : Volume) (c : Client) (event : ℕ) → IsClient self.old volume c → IsApart volume c (news_from from bytes.now) → IsTold volume (told volume c event (news_from from bytes.now)) self.new step) }
        ensures shape { shape_of self.new ≡ shape_of self.old }
        ensures newest { newest_of self.new ≡ newest_of self.old }
    {
        let mut step = empty_step(self.alloc);
        match from {
            Sender::Client => Ok(step),
            Sender::Node(name) => {
                hear_bytes(self.alloc, &mut self.phase, name, bytes, &mut step)?;
                Ok(step)
            }
        }
    }

    /// What it waits for is sent again.
    pub fn tick(&self) -> Result<Outs, NoMemory>
        ensures { IfOk result (λ outs. (volume : Volume) (c : Client) → IsClient self.now volume c → outs ≡ map out_of_letter (ticked volume.geometry c)) }
    {
        let mut outs = Vec::new(self.alloc);
        send_again(self.alloc, &self.phase, &mut outs)?;
        Ok(Items::from_vec(outs))
    }

    /// It loses all but the volume's geometry and key.
    pub fn crash(&mut self)
        ensures rules { (volume : Volume) (c : Client) → IsClient self.old volume c → IsClient self.new volume crashed.client }
        ensures shape { shape_of self.new ≡ shape_of self.old }
        ensures newest { newest_of self.new ≡ newest_of self.old }
    {
        self.phase = self.phase.take().closed();
    }
}
