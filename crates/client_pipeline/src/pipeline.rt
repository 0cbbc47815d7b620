ghost use Rattle.std.specs.Prelude.{◌≡◌, ◌↔◌, ◌+◌, ◌-◌, ◌≤◌, ◌<◌, ◌^◌, ◌++◌, ◌∷◌, [], All, List, flat_map, length, map, nat_le, slice_get, slice_index, true, ℕ, IfOk, IsTrue, OnErr, OnOk};
ghost use Rattle.salus_types.specs.Volume.{regions};
ghost use Rattle.schedule_text.specs.declared.schedule.Volume.{Volume};
ghost use Rattle.volume_model.specs.Contents.{region_root, roots_of, volume_top};
ghost use Rattle.volume_model.specs.Parts.{touched_by};
ghost use Rattle.salus_model.specs.Waiting.{Taken, is_barrier};
ghost use Rattle.client_rules.specs.State.{Serving};
ghost use Rattle.client_rules.specs.Tables.{answered_of, number_at, waiter_of};
ghost use Rattle.client_rules.specs.Submitting.{next_parts, part_letters, with_batch};
ghost use Rattle.client_rules.specs.Serving.{acks, claimed};
ghost use Rattle.client_rules.specs.Opening.{new_serving};
ghost use Rattle.client_window.specs.Window.{in_flight, Begins, IsWriteOf};
ghost use Rattle.client_window.specs.Standing.{HasRoots};
ghost use Rattle.posting.specs.Letters.{out_of_letter};
ghost use Rattle.client_pipeline.specs.Pipeline.{all_parts, Stays, StaysOrSubmits};
ghost use Rattle.client_pipeline.specs.Standing.{IsVolumeOf, StandsFor};

use crate::acking::{acknowledge, answer_barriers};
use crate::sending::{post_batches, post_parts, seal_each};
use client_window::Window;
use printed_lines::Line;
use salus_hash::{Digest, HmacKey};
use salus_types::{Batch, Digests, Geometry, Items, NoMemory, NodeName, Out, Records};
use std::alloc::Global;
use std::collections::VecDeque;
use std::marker::Model;

/// A client's window, with the sealed parts of the batches that aren't acknowledged.
#[derive(Drop)]
pub struct Pipeline {
    window: Window,
    /// Of each batch that isn't acknowledged, the oldest first.
    parts: VecDeque<Records>,
    key: HmacKey,
}

impl Model for Pipeline {
    ghost use Rattle.client_pipeline.specs.Pipeline.{IsPipeline, KeptPipeline};

    ghost Value = { KeptPipeline };

    ghost view = { λ p. record { window = p.window; parts = p.parts.items; key = p.key } };

    ghost invariant = { λ p. IsPipeline (record { window = p.window; parts = p.parts.items; key = p.key }) };
}

impl Pipeline {
    /// The pipeline of a session that begins: every region's number is the base, and nothing is in flight. `roots` has the root
    /// of each region.
    pub fn new(
        alloc: Global,
        geometry: Geometry,
        key: HmacKey,
        session: u64,
        base: u64,
        roots: &Digests,
    ) -> Result<Pipeline, NoMemory>
        requires { length roots.now ≡ regions geometry }
        ensures begins { IfOk result (λ p. Begins geometry session base roots.now p.window) }
        ensures key { IfOk result (λ p. p.key ≡ key) }
        ensures no_parts { IfOk result (λ p. p.parts ≡ []) }
        ensures stands { IfOk result (λ p. (contents : List (List ℕ)) → roots_of geometry contents ≡ roots.now → StandsFor p (new_serving geometry session base contents)) }
    {
        Ok(Pipeline {
            window: Window::new(alloc, geometry, session, base, roots)?,
            parts: VecDeque::new(alloc),
            key,
        })
    }

    /// The volume's shape.
    pub fn geometry(&self) -> Geometry
        ensures { result ≡ self.now.window.shape }
    {
        self.window.geometry()
    }

    /// The key of the volume.
    pub fn key(&self) -> &HmacKey
        ensures { result.now ≡ self.now.key }
    {
        &self.key
    }

    /// The key, where the pipeline is used no more.
    pub fn into_key(self) -> HmacKey
        ensures { result ≡ self.key }
    {
        self.key
    }

    /// The session that is served.
    pub fn session(&self) -> u64
        ensures session { result ≡ self.now.window.session }
        ensures stands { (c : Serving) → StandsFor self.now c → result ≡ c.session }
    {
        self.window.session()
    }

    /// The number of the last batch, or the base where the session has none yet.
    pub fn submitted(&self) -> u64
        ensures number { result ≡ self.now.window.last }
        ensures stands { (c : Serving) → StandsFor self.now c → result ≡ c.last }
    {
        self.window.submitted()
    }

    /// The number up to which all batches are acknowledged.
    pub fn acked(&self) -> u64
        ensures number { result ≡ self.now.window.acked }
        ensures stands { (c : Serving) → StandsFor self.now c → result ≡ c.acked }
    {
        self.window.acked()
    }

    /// How many barriers wait.
    pub fn waiting(&self) -> u64
        ensures count { result ≡ length self.now.window.barriers }
        ensures stands { (c : Serving) → StandsFor self.now c → result ≡ length c.barriers }
    {
        self.window.waiting()
    }

    /// The number of the last batch that touched the region, or the base.
    pub fn number_of(&self, region: u16) -> u64
        requires { region < regions self.now.window.shape }
        ensures number { result ≡ slice_index self.now.window.numbers region }
        ensures stands { (c : Serving) → StandsFor self.now c → result ≡ number_at c region }
    {
        self.window.number_of(region)
    }

    /// The region's root after all batches.
    pub fn root_of(&self, region: u16) -> Digest
        requires { region < regions self.now.window.shape }
        ensures root { slice_get self.now.window.roots region ≡ Some result }
        ensures stands { (c : Serving) → StandsFor self.now c → result ≡ region_root self.now.window.shape c.contents region }
    {
        self.window.root_of(region)
    }

    /// The roots of all regions after all batches.
    pub fn roots(&self, alloc: Global) -> Result<Digests, NoMemory>
        ensures length { IfOk result (λ roots. length roots ≡ regions self.now.window.shape) }
        ensures stands { IfOk result (λ roots. (c : Serving) → StandsFor self.now c → roots ≡ roots_of self.now.window.shape c.contents) }
    {
        let count = self.window.geometry().regions() as u16;
        let mut roots = Items::new(alloc);
        'regions: for region in 0..count {
            roots.push(self.window.root_of(region))?;
        }
        Ok(roots)
    }

    /// Whether 16 batches are unacknowledged.
    pub fn is_full(&self) -> bool
        ensures { IsTrue result ↔ (16 ≤ in_flight self.now.window) }
    {
        self.window.is_full()
    }

    /// Submits the next batch: its parts are sealed, and go to every replica of the regions that it touches. `roots` are those
    /// of the touched regions after the batch, ascending by region. It gives the batch's number. After an error the pipeline is
    /// used no more.
    pub fn submit(
        &mut self,
        alloc: Global,
        batch: &Batch,
        roots: &Digests,
        outs: &mut Vec<Out>,
    ) -> Result<u64, NoMemory>
        requires room { in_flight self.old.window < 16 }
        requires number { self.old.window.last < 2 ^ 64 - 1 }
        requires few { length batch.now ≤ 64 }
        requires writes { All (IsWriteOf self.old.window.shape) batch.now }
        requires roots { length roots.now ≡ length (touched_by self.old.window.shape batch.now) }
        ensures number { IfOk result (λ number. number ≡ self.old.window.last + 1) }
        // For each client of the rules whose contents after the batch have these roots: the letters are those of its parts, and
        // the pipeline stands for what it has become.
        ensures sent { OnOk result ((volume : Volume) (c : Serving) → IsVolumeOf self.old volume → StandsFor self.old c → HasRoots self.old.window.shape c.contents batch.now roots.now → outs.new.items ≡ outs.old.items ++ map out_of_letter (part_letters self.old.window.shape (next_parts volume c batch.now))) }
        ensures stands { OnOk result ((volume : Volume) (c : Serving) → IsVolumeOf self.old volume → StandsFor self.old c → HasRoots self.old.window.shape c.contents batch.now roots.now → StandsFor self.new (with_batch volume c batch.now)) }
        ensures stays { StaysOrSubmits self.old self.new }
        ensures waiting { length self.new.window.barriers ≤ length self.old.window.barriers }
    {
        let mut parts = self.window.submit(alloc, batch, roots)?.into_vec();
        seal_each(alloc, &self.key, parts.as_mut_slice())?;
        post_parts(alloc, outs, &self.window.geometry(), parts.as_slice())?;
        self.parts.push_back(Items::from_vec(parts))?;
        Ok(self.window.submitted())
    }

    /// Takes the claim of a node; one below its greatest is ignored. Each batch that is claimed by every replica of its leader,
    /// with all before it, is acknowledged, and the barriers that wait for it are answered: their lines, in order. The parts of
    /// an acknowledged batch are sent no more. After an error the pipeline is used no more.
    pub fn claim(
        &mut self,
        node: NodeName,
        front: u64,
        lines: &mut Vec<Line>,
    ) -> Result<(), NoMemory>
        requires region { node.region < regions self.old.window.shape }
        requires replica { node.replica < self.old.window.shape.replicas }
        ensures stands { OnOk result ((c : Serving) → StandsFor self.old c → StandsFor self.new (acks self.old.window.shape (claimed c node front) c.unacked).client) }
        ensures lines { OnOk result ((c : Serving) → StandsFor self.old c → lines.new.items ≡ lines.old.items ++ (acks self.old.window.shape (claimed c node front) c.unacked).lines) }
        ensures stays { Stays self.old self.new }
        ensures waiting { length self.new.window.barriers ≤ length self.old.window.barriers }
    {
        self.window.claim(node, front);
        'acks: while let Some(number) = acknowledge(&mut self.window, &mut self.parts) {
            lines.push(Line::Ack { seq: number })?;
            answer_barriers(&mut self.window, lines)?;
        }
        Ok(())
    }

    /// A barrier leaves the waiting line: it is answered where every batch is acknowledged, and else waits for the last one.
    /// After an error the pipeline and the lines are as they were.
    pub fn barrier(
        &mut self,
        alloc: Global,
        event: u64,
        lines: &mut Vec<Line>,
    ) -> Result<(), NoMemory>
        requires { length self.old.window.barriers < 64 }
        ensures stands { OnOk result ((c : Serving) (r : Taken) → StandsFor self.old c → is_barrier r.request ≡ true → r.event ≡ event → StandsFor self.new (record c { barriers = c.barriers ++ waiter_of c r })) }
        ensures lines { OnOk result ((c : Serving) (r : Taken) → StandsFor self.old c → is_barrier r.request ≡ true → r.event ≡ event → lines.new.items ≡ lines.old.items ++ answered_of c r) }
        ensures stays { Stays self.old self.new }
        ensures few { OnOk result (length self.new.window.barriers ≤ length self.old.window.barriers + 1) }
        ensures err { OnErr result ((self.new ≡ self.old) × (lines.new.items ≡ lines.old.items)) }
    {
        let last = self.window.submitted();
        if last <= self.window.acked() {
            lines.push(Line::Barrier { event, seq: last })?;
            return Ok(());
        }
        self.window.barrier(alloc, event)
    }

    /// Sends the parts of every batch that isn't acknowledged again, the oldest first. After an error some of them may have been
    /// posted.
    pub fn tick(&self, alloc: Global, outs: &mut Vec<Out>) -> Result<(), NoMemory>
        ensures sent { OnOk result (outs.new.items ≡ outs.old.items ++ map out_of_letter (part_letters self.now.window.shape (all_parts self.now.parts))) }
        ensures stands { OnOk result ((c : Serving) → StandsFor self.now c → outs.new.items ≡ outs.old.items ++ map out_of_letter (part_letters self.now.window.shape (flat_map (λ u. u.parts) c.unacked))) }
    {
        let (older, newer) = self.parts.as_slices();
        let geometry = self.window.geometry();
        post_batches(alloc, outs, &geometry, older)?;
        post_batches(alloc, outs, &geometry, newer)
    }
}
