ghost use Rattle.std.specs.Prelude.{◌≡◌, ◌++◌, ◌+◌, ◌<◌, ◌≤◌, ◌^◌, ℕ, List, None, map, length, IfNone, IfOk, OnOk};
ghost use Rattle.salus_types.specs.Volume.{blocks, regions};
ghost use Rattle.schedule_text.specs.declared.schedule.Volume.{Volume};
ghost use Rattle.posting.specs.Letters.{out_of_letter};
ghost use Rattle.volume_model.specs.Contents.{roots_of};
ghost use Rattle.client_rules.specs.State.{Serving};
ghost use Rattle.client_rules.specs.Opening.{new_serving};
ghost use Rattle.client_rules.specs.Serving.{answered_here, committed_here, refusal_here, requested_here, ticked_here};
ghost use Rattle.client_premises.specs.Premises.{AnswerIsApart};
ghost use Rattle.serving_client.specs.Kept.{shape_of, GoesOn, IsNodeOf, IsSized, IsWithin};
ghost use Rattle.serving_client.specs.Standing.{IsTold, StandsFor};

use crate::answers::{take_answer, take_claim};
use crate::inside::{Core, give_up};
use crate::requests::{refusal_of, take_request};
use crate::ticking::send_again;
use client_asking::Step;
use client_pipeline::Pipeline;
use printed_lines::RequestRefusal;
use pruned_volume::PrunedVolume;
use salus_hash::HmacKey;
use salus_message::Answer;
use salus_model::Request;
use salus_types::{Digests, Geometry, NoMemory, NodeName, Out};
use std::alloc::Global;
use std::marker::Model;
use verified_read::Reads;
use waiting_line::WaitingLine;

/// A client that serves a session. After an error it is used no more.
#[derive(Drop)]
pub struct ServingClient {
    core: Core,
}

impl Model for ServingClient {
    ghost use Rattle.serving_client.specs.Kept.{KeptServing};

    ghost Value = { KeptServing };

    ghost use Rattle.std.specs.Coded.{codes};
    ghost use Rattle.pruned_volume.specs.Trees.{trees_code};

    ghost coded = { Prim.hlevel (codes, trees_code) };

    ghost use Rattle.serving_client.specs.Keeping.{kept_of, IsKept};

    ghost view = { λ s. kept_of s.core };

    ghost invariant = { λ s. IsKept s.core };
}

impl ServingClient {
    /// The client that serves a session from its first moment: `roots` has the root of each region, and `newest` is the event
    /// of the newest request so far.
    pub fn new(
        alloc: Global,
        geometry: Geometry,
        key: HmacKey,
        session: u64,
        base: u64,
        roots: &Digests,
        newest: u64,
    ) -> Result<ServingClient, NoMemory>
        requires roots { length roots.now ≡ regions geometry }
        requires base { base ≤ 2 ^ 63 + newest }
        requires newest { newest < 2 ^ 32 }
        ensures shape { IfOk result (λ s. shape_of s ≡ geometry) }
        ensures key { IfOk result (λ s. s.pipeline.key ≡ key) }
        ensures session { IfOk result (λ s. s.pipeline.window.session ≡ session) }
        ensures newest { IfOk result (λ s. s.newest ≡ newest) }
        ensures stands { IfOk result (λ s. (volume : Volume) (contents : List (List ℕ)) → volume.geometry ≡ geometry → volume.key ≡ key → length contents ≡ blocks geometry → roots_of geometry contents ≡ roots.now → StandsFor volume s (new_serving geometry session base contents)) }
    {
        Ok(ServingClient {
            core: Core {
                pipeline: Pipeline::new(alloc, geometry, key, session, base, roots)?,
                trees: PrunedVolume::new(alloc, geometry, roots)?,
                line: WaitingLine::new(alloc),
                reads: Reads::new(alloc, &geometry),
                asked: Reads::new(alloc, &geometry),
                newest,
            },
        })
    }

    /// The volume's shape.
    pub fn geometry(&self) -> Geometry
        ensures { result ≡ shape_of self.now }
    {
        self.core.pipeline.geometry()
    }

    /// The session that is served.
    pub fn session(&self) -> u64
        ensures session { result ≡ self.now.pipeline.window.session }
        ensures stands { (volume : Volume) (c : Serving) → StandsFor volume self.now c → result ≡ c.session }
    {
        self.core.pipeline.session()
    }

    /// The number of the last batch, or the base where the session has none yet.
    pub fn submitted(&self) -> u64
        ensures number { result ≡ self.now.pipeline.window.last }
        ensures stands { (volume : Volume) (c : Serving) → StandsFor volume self.now c → result ≡ c.last }
        ensures low { result ≤ 2 ^ 63 + self.now.newest }
    {
        self.core.pipeline.submitted()
    }

    /// The event of the newest request.
    pub fn newest(&self) -> u64
        ensures { result ≡ self.now.newest }
    {
        self.core.newest
    }

    /// The roots of all regions after all batches.
    pub fn roots(&self, alloc: Global) -> Result<Digests, NoMemory>
        ensures length { IfOk result (λ roots. length roots ≡ regions (shape_of self.now)) }
        ensures stands { IfOk result (λ roots. (volume : Volume) (c : Serving) → StandsFor volume self.now c → roots ≡ roots_of (shape_of self.now) c.contents) }
        ensures full { (volume : Volume) (c : Serving) → StandsFor volume self.now c → length c.contents ≡ blocks (shape_of self.now) }
    {
        self.core.pipeline.roots(alloc)
    }

    /// The volume's key, where the client serves no more.
    pub fn into_key(self) -> HmacKey
        ensures { result ≡ self.pipeline.key }
    {
        self.core.into_pipeline().into_key()
    }

    /// Why the request is refused, by the first cause that applies. A reassignment that isn't refused is of a region of the
    /// volume.
    pub fn refusal(&self, request: &Request) -> Option<RequestRefusal>
        ensures told { (volume : Volume) (c : Serving) → StandsFor volume self.now c → result ≡ refusal_here volume.geometry c request.now }
        ensures region { IfNone result (IsWithin (shape_of self.now) request.now) }
    {
        refusal_of(&self.core, request)
    }

    /// Takes a request, or refuses it; a reassignment is another call's. It is moved into the waiting line, and leaves it at
    /// once where no write stands before it.
    pub fn request(
        &mut self,
        alloc: Global,
        event: u64,
        request: Request,
        step: &mut Step,
    ) -> Result<(), NoMemory>
        requires sized { IsSized (shape_of self.old) request }
        requires later { self.old.newest < event }
        requires event { event < 2 ^ 32 }
        ensures told { OnOk result ((volume : Volume) (c : Serving) → StandsFor volume self.old c → IsTold volume step.old step.new self.new (requested_here volume.geometry c event request)) }
        ensures newest { self.new.newest ≡ event }
        ensures goes_on { GoesOn self.old self.new }
    {
        match take_request(alloc, &mut self.core, event, request, step) {
            Ok(()) => Ok(()),
            Err(error) => {
                give_up(alloc, &mut self.core);
                Err(error)
            }
        }
    }

    /// Takes an answer of a node: to an open read, or to a question of the write at the head of the waiting line, which is
    /// submitted once all its blocks are known.
    pub fn answer(
        &mut self,
        alloc: Global,
        from: NodeName,
        answer: Answer,
        step: &mut Step,
    ) -> Result<(), NoMemory>
        requires { IsNodeOf (shape_of self.old) from }
        ensures told { OnOk result ((volume : Volume) (c : Serving) → StandsFor volume self.old c → AnswerIsApart volume.geometry c answer → IsTold volume step.old step.new self.new (answered_here volume c from answer)) }
        ensures newest { self.new.newest ≡ self.old.newest }
        ensures goes_on { GoesOn self.old self.new }
    {
        match take_answer(alloc, &mut self.core, from, answer, step) {
            Ok(()) => Ok(()),
            Err(error) => {
                give_up(alloc, &mut self.core);
                Err(error)
            }
        }
    }

    /// Takes a node's claim: every batch of the session up to `front` is committed there.
    pub fn committed(
        &mut self,
        from: NodeName,
        session: u64,
        front: u64,
        step: &mut Step,
    ) -> Result<(), NoMemory>
        requires { IsNodeOf (shape_of self.old) from }
        ensures told { OnOk result ((volume : Volume) (c : Serving) → StandsFor volume self.old c → IsTold volume step.old step.new self.new (committed_here volume.geometry c from session front)) }
        ensures newest { self.new.newest ≡ self.old.newest }
        ensures goes_on { GoesOn self.old self.new }
    {
        take_claim(&mut self.core, from, session, front, step)?;
        Ok(())
    }

    /// Sends again the parts of every batch that isn't acknowledged, then the head's questions, and then the open reads'.
    pub fn tick(&self, alloc: Global, outs: &mut Vec<Out>) -> Result<(), NoMemory>
        ensures { OnOk result ((volume : Volume) (c : Serving) → StandsFor volume self.now c → outs.new.items ≡ outs.old.items ++ map out_of_letter (ticked_here volume.geometry c)) }
    {
        send_again(alloc, &self.core, outs)?;
        Ok(())
    }
}
