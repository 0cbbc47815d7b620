ghost use Rattle.std.specs.Prelude.{◌≡◌, ◌↔◌, ◌+◌, ◌-◌, ◌≤◌, ◌<◌, ◌^◌, ◌++◌, ◌∷◌, [], All, List, drop, length, map, slice_get, true, ℕ, slice_index, IfNone, IfOk, IfSome, IsTrue, MatchOption, OnErr, OnOk};
ghost use Rattle.salus_types.specs.Volume.{regions};
ghost use Rattle.client_tag.specs.Ranges.{IsRecord};
ghost use Rattle.client_tag.specs.Tags.{sealed};
ghost use Rattle.merkle_volume.specs.Top.{top_of};
ghost use Rattle.schedule_text.specs.declared.schedule.Volume.{Volume};
ghost use Rattle.volume_model.specs.Contents.{region_root, roots_of, volume_top};
ghost use Rattle.volume_model.specs.Parts.{touched_by};
ghost use Rattle.salus_model.specs.Waiting.{Taken, is_barrier};
ghost use Rattle.replica_rules.specs.Voting.{with_claim};
ghost use Rattle.unanimous_certificate.specs.Kept.{claims_in};
ghost use Rattle.client_rules.specs.State.{Serving};
ghost use Rattle.client_rules.specs.Tables.{number_at};
ghost use Rattle.client_rules.specs.Submitting.{next_parts, with_batch};
ghost use Rattle.client_rules.specs.Serving.{claimed};
ghost use Rattle.client_rules.specs.Opening.{new_serving};
ghost use Rattle.client_window.specs.Window.{in_flight, Begins, IsWriteOf};
ghost use Rattle.client_window.specs.Untagged.{untagged_parts, window_with};
ghost use Rattle.client_window.specs.Standing.{Follows, HasRoots, StandsFor};
ghost use Rattle.client_window.specs.Answering.{due_ack, front_raised, oldest_due, IsFirstAck, IsFirstDue, IsLeft, NoAck, NoneDue};
ghost use Rattle.client_window.specs.Parting.{parts_for, shared_header};

use crate::barrier::Barrier;
use crate::batch::{leader_of, numbers_after, touched_regions};
use crate::parts::{parts_for, put_roots, put_top};
use crate::queue::oldest;
use crate::written::last_writes;
use merkle_volume::Tops;
use salus_hash::Digest;
use salus_types::{
    Batch, Digests, Geometry, Header, Items, NoMemory, NodeName, Numbers, Record, Records,
};
use std::alloc::Global;
use std::collections::VecDeque;
use std::marker::Model;
use unanimous_certificate::Claims;

/// The most batches that may be unacknowledged at once.
const MOST_BATCHES: u64 = 16;

/// What a serving client knows of its session: its numbers, each region's root, the leaders of the batches that aren't
/// acknowledged, every node's claim, and the barriers that wait. It holds no block.
pub struct Window {
    geometry: Geometry,
    session: u64,
    base: u64,
    submitted: u64,
    acked: u64,
    numbers: Numbers,
    tops: Tops,
    leader: u16,
    /// The leaders of the batches after the acknowledged front.
    leaders: VecDeque<u16>,
    claims: Claims,
    /// The oldest first.
    barriers: VecDeque<Barrier>,
}

impl Model for Window {
    ghost use Rattle.client_window.specs.Window.{IsWindow, KeptWindow};
    ghost use Rattle.client_window.specs.Viewing.{waiters};

    ghost Value = { KeptWindow };

    ghost view = { λ w. record { shape = w.geometry; session = w.session; base = w.base; last = w.submitted; acked = w.acked; numbers = w.numbers; roots = w.tops; leader = w.leader; leaders = w.leaders.items; claims = w.claims; barriers = waiters w.barriers.items } };

    ghost invariant = { λ w. IsWindow (record { shape = w.geometry; session = w.session; base = w.base; last = w.submitted; acked = w.acked; numbers = w.numbers; roots = w.tops; leader = w.leader; leaders = w.leaders.items; claims = w.claims; barriers = waiters w.barriers.items }) };
}

impl Drop for Window {
    /// Takes the window apart, naming every field: none can join them unseen that holds a block.
    fn drop(self) {
        let Window {
            geometry: _,
            session: _,
            base: _,
            submitted: _,
            acked: _,
            numbers: _numbers,
            tops: _tops,
            leader: _,
            leaders: _leaders,
            claims: _claims,
            barriers: _barriers,
        } = self;
    }
}

impl Window {
    /// The window of a session that begins: every region's number is the base, nothing is in flight, and no node has
    /// claimed more than the base. `roots` has the root of each region.
    pub fn new(
        alloc: Global,
        geometry: Geometry,
        session: u64,
        base: u64,
        roots: &Digests,
    ) -> Result<Window, NoMemory>
        requires { length roots.now ≡ regions geometry }
        ensures begins { IfOk result (Begins geometry session base roots.now) }
        ensures stands { IfOk result (λ w. (contents : List (List ℕ)) → roots_of geometry contents ≡ roots.now → StandsFor w (new_serving geometry session base contents)) }
    {
        Ok(Window {
            geometry,
            session,
            base,
            submitted: base,
            acked: base,
            numbers: Items::from_vec(vec![in alloc; base; geometry.regions() as usize]?),
            tops: Tops::new(roots.as_slice()),
            leader: 0,
            leaders: VecDeque::new(alloc),
            claims: Claims::new(alloc, &geometry, base)?,
            barriers: VecDeque::new(alloc),
        })
    }

    /// The volume's shape.
    pub fn geometry(&self) -> Geometry
        ensures { result ≡ self.now.shape }
    {
        self.geometry
    }

    /// The session that is served.
    pub fn session(&self) -> u64
        ensures { result ≡ self.now.session }
    {
        self.session
    }

    /// The number of the last batch, or the base where the session has none yet.
    pub fn submitted(&self) -> u64
        ensures { result ≡ self.now.last }
    {
        self.submitted
    }

    /// The number up to which all batches are acknowledged.
    pub fn acked(&self) -> u64
        ensures { result ≡ self.now.acked }
    {
        self.acked
    }

    /// How many barriers wait.
    pub fn waiting(&self) -> u64
        ensures { result ≡ length self.now.barriers }
    {
        self.barriers.len() as u64
    }

    /// The number of the last batch that touched the region, or the base.
    pub fn number_of(&self, region: u16) -> u64
        requires { region < regions self.now.shape }
        ensures number { result ≡ slice_index self.now.numbers region }
        ensures stands { (c : Serving) → StandsFor self.now c → result ≡ number_at c region }
    {
        self.numbers.as_slice()[region as usize]
    }

    /// The region's root after all batches.
    pub fn root_of(&self, region: u16) -> Digest
        requires { region < regions self.now.shape }
        ensures root { slice_get self.now.roots region ≡ Some result }
        ensures stands { (c : Serving) → StandsFor self.now c → result ≡ region_root self.now.shape c.contents region }
    {
        self.tops.root_of(region)
    }

    /// The volume's top after all batches.
    pub fn top(&self) -> Digest
        ensures top { result ≡ top_of self.now.shape.regions_log self.now.roots }
        ensures stands { (c : Serving) → StandsFor self.now c → result ≡ volume_top self.now.shape c.contents }
    {
        self.tops.top()
    }

    /// Whether 16 batches are unacknowledged.
    pub fn is_full(&self) -> bool
        ensures { IsTrue result ↔ (16 ≤ in_flight self.now) }
    {
        self.submitted - self.acked >= MOST_BATCHES
    }

    /// What the headers of the next batch's parts share.
    fn shared_header(&self, alloc: Global, batch: &Batch) -> Result<Header, NoMemory>
        requires { self.now.last < 2 ^ 64 - 1 }
        ensures { IfOk result (λ header. header ≡ shared_header self.now batch.now) }
    {
        let next = self.submitted + 1;
        let root = self.tops.top();
        Ok(Header {
            version: 1,
            session: self.session,
            seq: next,
            region: 0,
            previous: 0,
            leader_before: self.leader,
            fronts: numbers_after(alloc, &self.geometry, batch, next, &self.numbers)?,
            touched: touched_regions(alloc, &self.geometry, batch)?,
            root,
            top: root,
        })
    }

    /// The next batch's parts with their regions' new roots; the top isn't known yet.
    fn parts(
        &self,
        alloc: Global,
        batch: &Batch,
        shared: &Header,
        roots: &Digests,
    ) -> Result<Vec<Record>, NoMemory>
        requires touched { shared.now.touched ≡ touched_by self.now.shape batch.now }
        requires roots { length roots.now ≡ length (touched_by self.now.shape batch.now) }
        ensures { IfOk result (λ parts. parts.items ≡ parts_for self.now.shape batch.now shared.now self.now.numbers (touched_by self.now.shape batch.now) roots.now) }
    {
        let last = last_writes(alloc, batch.as_slice())?;
        parts_for(alloc, &self.geometry, &last, shared, &self.numbers, roots)
    }

    /// Submits the next batch: its untagged parts, by region. `roots` are those of the touched regions after the batch,
    /// ascending by region. After an error the window is as it was.
    pub fn submit(
        &mut self,
        alloc: Global,
        batch: &Batch,
        roots: &Digests,
    ) -> Result<Records, NoMemory>
        requires room { in_flight self.old < 16 }
        requires number { self.old.last < 2 ^ 64 - 1 }
        requires few { length batch.now ≤ 64 }
        requires writes { All (IsWriteOf self.old.shape) batch.now }
        requires roots { length roots.now ≡ length (touched_by self.old.shape batch.now) }
        ensures parts { IfOk result (λ parts. parts ≡ untagged_parts self.old batch.now roots.now) }
        ensures records { IfOk result (All IsRecord) }
        ensures window { OnOk result (self.new ≡ window_with self.old batch.now roots.now) }
        // So for each client of the rules whose contents after the batch have these roots: its parts are these, sealed, and
        // the window stands for what it has become.
        ensures sealed { IfOk result (λ parts. (volume : Volume) (c : Serving) → volume.geometry ≡ self.old.shape → StandsFor self.old c → HasRoots self.old.shape c.contents batch.now roots.now → map (sealed volume.key) parts ≡ next_parts volume c batch.now) }
        ensures stands { OnOk result ((volume : Volume) (c : Serving) → volume.geometry ≡ self.old.shape → StandsFor self.old c → HasRoots self.old.shape c.contents batch.now roots.now → StandsFor self.new (with_batch volume c batch.now)) }
        ensures err { OnErr result (self.new ≡ self.old) }
    {
        prove!(self.geometry.regions() <= 16);
        prove!(self.geometry.block_size() <= 4096);
        let shared = self.shared_header(alloc, batch)?;
        let mut parts = self.parts(alloc, batch, &shared, roots)?;
        let leader = leader_of(&shared.touched);
        self.leaders.push_back(leader)?;
        put_roots(&mut self.tops, shared.touched.as_slice(), roots.as_slice());
        put_top(parts.as_mut_slice(), self.tops.top());
        self.submitted = shared.seq;
        self.leader = leader;
        self.numbers = shared.fronts;
        Ok(Items::from_vec(parts))
    }

    /// Takes the claim of a node; one below its greatest is ignored.
    pub fn claim(&mut self, node: NodeName, front: u64)
        requires region { node.region < regions self.old.shape }
        requires replica { node.replica < self.old.shape.replicas }
        ensures claims { claims_in self.new.claims ≡ with_claim (claims_in self.old.claims) node front }
        ensures others { self.new ≡ record self.old { claims = self.new.claims } }
        ensures stands { Follows (λ c. claimed c node front) self.old self.new }
    {
        self.claims.take(node, front);
    }

    /// Acknowledges the next batch: the number of the lowest one that isn't acknowledged, exactly where every replica of
    /// its leader claims at least that number.
    pub fn next_ack(&mut self) -> Option<u64>
        ensures given { result ≡ due_ack self.old }
        ensures raised { IfSome result (λ s. self.new ≡ record self.old { acked = s; leaders = drop 1 self.old.leaders }) }
        ensures none { IfNone result (self.new ≡ self.old) }
        ensures stands { (c : Serving) → StandsFor self.old c → IfSome result (λ s. StandsFor self.new (front_raised c)) }

        // So a loop that calls it until it gives none, and takes out the barriers that are due in between, gives all lines.
        ensures first { (c : Serving) → StandsFor self.old c → MatchOption result (NoAck self.old.shape c) (IsFirstAck self.old.shape c) }
    {
        let leader = match oldest(&self.leaders) {
            Some(leader) => leader,
            None => return None,
        };
        let next = self.acked + 1;
        if !self.claims.all_claim(leader, next) {
            return None;
        }
        let _ = self.leaders.pop_front();
        self.acked = next;
        Some(next)
    }

    /// A barrier waits for the last batch. After an error the window is as it was.
    pub fn barrier(&mut self, alloc: Global, event: u64) -> Result<(), NoMemory>
        requires { length self.old.barriers < 64 }
        ensures ok { OnOk result (self.new ≡ record self.old { barriers = self.old.barriers ++ record { event = event; front = self.old.last } ∷ [] }) }
        ensures stands { OnOk result ((c : Serving) → StandsFor self.old c → StandsFor self.new (record c { barriers = c.barriers ++ record { event = event; front = c.last } ∷ [] })) }
        // So where no barrier was due, a barrier that leaves the waiting line is taken out next or waits as the rules say.
        ensures rules { OnOk result ((c : Serving) (r : Taken) → StandsFor self.old c → NoneDue c.acked c.barriers → is_barrier r.request ≡ true → r.event ≡ event → IsLeft c r self.new.barriers) }
        ensures err { OnErr result (self.new ≡ self.old) }
    {
        self.barriers.push_back(Barrier {
            event,
            front: self.submitted,
        })?;
        Ok(())
    }

    /// Takes out the oldest waiting barrier, exactly where all batches up to its front are acknowledged: its event and its
    /// front.
    pub fn next_barrier(&mut self) -> Option<(u64, u64)>
        ensures given { result ≡ oldest_due self.old.acked self.old.barriers }
        ensures left { IfSome result (λ b. self.new ≡ record self.old { barriers = drop 1 self.old.barriers }) }
        ensures none { IfNone result (self.new ≡ self.old) }
        ensures stands { (c : Serving) → StandsFor self.old c → StandsFor self.new (record c { barriers = self.new.barriers }) }
        ensures first { MatchOption result (NoneDue self.old.acked self.old.barriers) (IsFirstDue self.old.acked self.old.barriers self.new.barriers) }
    {
        let barrier = match oldest(&self.barriers) {
            Some(barrier) => barrier,
            None => return None,
        };
        if barrier.front > self.acked {
            return None;
        }
        let _ = self.barriers.pop_front();
        Some((barrier.event, barrier.front))
    }
}
