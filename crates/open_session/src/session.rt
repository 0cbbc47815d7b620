ghost use Rattle.std.specs.Prelude.{◌≡◌, ◌<◌, ◌≤◌, length, IfOk, IsTrue, Some};
ghost use Rattle.salus_types.specs.Volume.{regions};
ghost use Rattle.client_tag.specs.Ranges.{IsRecord};
ghost use Rattle.holding_model.specs.Changing.{SwitchesTo, changed};
ghost use Rattle.holding_model.specs.Fitting.{has_shape};
ghost use Rattle.replica_rules.specs.Nodes.{loaded_as, memory_of};
ghost use Rattle.replica_rules.specs.Rules.{by_ask, by_claim, by_dump, by_part, by_tick, by_vote};
ghost use Rattle.open_session.specs.Kept.{SameSession};
ghost use Rattle.open_session.specs.Opening.{opened_at};
ghost use Rattle.open_session.specs.Standing.{IsOpened};
ghost use Rattle.open_session.specs.Turning.{AddsItsOwn, IsTurn, added_in};

use crate::handed::{hand_part, take_claim, take_vote};
use crate::opening::{begun_with, is_whole, open_base, try_all};
use crate::told::{ask_outs, dump_outs, tick_outs};
use crate::turn::Turn;
use crate::turns::hold_all;
use pipelined_commit::Leader;
use region_replica::RegionReplica;
use region_view::RegionView;
use salus_message::{Ask, Committed, Dump, Prepared};
use salus_types::{Base, Geometry, Held, Items, NoMemory, NodeName, Record};
use std::alloc::Global;
use std::marker::Model;

/// A node's memory of its open session. A contract sees it as a `KeptSession`, and says which memory of the rules it stands
/// for (`StandsFor`).
#[derive(Drop)]
pub struct Session {
    geometry: Geometry,
    region: u16,
    session: u64,
    replica: RegionReplica,
    leader: Leader,
    parts: Vec<Record>,
    begun: Option<u64>,
    whole: bool,
}

impl Model for Session {
    ghost use Rattle.open_session.specs.Kept.{IsSession, KeptSession, kept_of};

    ghost Value = { KeptSession };

    ghost view = { λ s. kept_of s.replica s.leader s.parts.items s.begun s.whole };

    ghost invariant = { λ s. IsSession s.geometry s.region s.session (kept_of s.replica s.leader s.parts.items s.begun s.whole) };
}

impl Session {
    /// The memory of a session that begins with a base: the parts that count are applied in the order held.
    fn begin(
        alloc: Global,
        geometry: &Geometry,
        name: NodeName,
        held: &Held,
        session: u64,
        base: &Base,
    ) -> Result<Session, NoMemory>
        requires { IsTrue (has_shape geometry.now base.now.blocks) }
        ensures { IfOk result (λ begun. IsOpened geometry.now name.region (Some begun) (Some (memory_of geometry.now name.region (opened_at held.now session) base.now))) }
    {
        let region = name.region;
        let _regions = geometry.regions(); // at most 16
        let mut view = RegionView::new(alloc, geometry, base)?;
        let parts = try_all(alloc, &mut view, region, session, held.parts.as_slice())?;
        let mut leader = Leader::new(alloc, geometry, region, base.rec.header.seq)?;
        hold_all(&mut leader, parts.as_slice());
        let whole = is_whole(
            session,
            parts.as_slice(),
            held.bases.as_slice(),
            held.parts.as_slice(),
        );
        Ok(Session {
            geometry: *geometry,
            region,
            session,
            replica: RegionReplica::new(alloc, geometry, name, session, view),
            leader,
            parts,
            begun: begun_with(base),
            whole,
        })
    }

    /// The memory of a session, from what is held, as if that session were open.
    fn opened(
        alloc: Global,
        geometry: &Geometry,
        name: NodeName,
        held: &Held,
        session: u64,
    ) -> Result<Option<Session>, NoMemory>
        ensures { IfOk result (λ opened. IsOpened geometry.now name.region opened (loaded_as geometry.now name.region (opened_at held.now session)).memory) }
    {
        match open_base(geometry, name.region, session, held.bases.as_slice()) {
            None => Ok(None),
            Some(base) => {
                let begun = Session::begin(alloc, geometry, name, held, session, base)?;
                Ok(Some(begun))
            }
        }
    }

    /// The memory of a session, from what is held: of the session that is open there, or of one above it, as if what is held
    /// had been switched to it. None where the session has no base that counts, as session 0 has none.
    pub fn open(
        alloc: Global,
        geometry: &Geometry,
        name: NodeName,
        held: &Held,
        session: u64,
    ) -> Result<Option<Session>, NoMemory>
        ensures loads { session ≡ held.now.session → IfOk result (λ opened. IsOpened geometry.now name.region opened (loaded_as geometry.now name.region held.now).memory) }
        ensures switches { held.now.session < session → IfOk result (λ opened. IsOpened geometry.now name.region opened (loaded_as geometry.now name.region (changed geometry.now held.now (SwitchesTo session))).memory) }
    {
        Session::opened(alloc, geometry, name, held, session)
    }

    /// The session's number.
    pub fn number(&self) -> u64
        ensures { result ≡ self.now.replica.session }
    {
        self.session
    }

    /// The region's blocks as of the session's parts, for a base that is made of them.
    pub fn view(&self) -> &RegionView
        ensures { result.now ≡ record { shape = self.now.shape; view = self.now.replica.view } }
    {
        self.replica.view()
    }

    /// The held parts of the session that count, in the order held.
    pub fn parts(&self) -> &[Record]
        ensures { result.now ≡ self.now.parts }
    {
        self.parts.as_slice()
    }

    /// The parts that this turn of the session has added, in the order in which they are to be stored.
    pub fn added(&self, turn: &Turn) -> &[Record]
        requires { turn.now.added ≤ length self.now.parts }
        ensures { result.now ≡ added_in self.now turn.now }
    {
        let old = self.parts.len() - turn.added;
        &self.parts[old..]
    }

    /// Takes a part from the client: it is applied in its turn, and so are the kept parts that follow; each is added and
    /// voted for. One that is held already is voted for again. Then the asks that are due are answered, and what can be
    /// claimed is claimed.
    pub fn take_part(&mut self, alloc: Global, rec: Record) -> Result<Turn, NoMemory>
        requires { IsRecord rec }
        ensures same { SameSession self.old self.new }
        ensures turn { IfOk result (IsTurn (by_part self.old.shape self.old.region rec) self.old self.new) }
        ensures own { IfOk result (AddsItsOwn self.new) }
    {
        let geometry = self.geometry;
        hand_part(
            alloc,
            &geometry,
            self.session,
            &mut self.replica,
            &mut self.leader,
            &mut self.parts,
            rec,
        )
    }

    /// Takes a client's ask: it is answered at once where it can be, and else waits.
    pub fn take_ask(&mut self, alloc: Global, ask: Ask) -> Result<Turn, NoMemory>
        ensures same { SameSession self.old self.new }
        ensures turn { IfOk result (IsTurn (by_ask self.old.shape self.old.region ask) self.old self.new) }
        ensures own { IfOk result (AddsItsOwn self.new) }
    {
        let outs = ask_outs(alloc, &mut self.replica, ask)?;
        Ok(Turn {
            outs: Items::from_vec(outs),
            added: 0,
            fold: None,
        })
    }

    /// The region's blocks for the client, where it asks for this session's and this region's.
    pub fn dump(&self, alloc: Global, dump: &Dump) -> Result<Turn, NoMemory>
        ensures turn { IfOk result (IsTurn (by_dump self.now.region dump.now) self.now self.now) }
        ensures own { IfOk result (AddsItsOwn self.now) }
    {
        let outs = dump_outs(alloc, self.region, self.session, self.replica.view(), dump)?;
        Ok(Turn {
            outs: Items::from_vec(outs),
            added: 0,
            fold: None,
        })
    }

    /// Takes the vote of a node, and claims what can be claimed then.
    pub fn vote(&mut self, alloc: Global, from: NodeName, vote: &Prepared) -> Result<Turn, NoMemory>
        requires region { from.region < regions self.old.shape }
        requires replica { from.replica < self.old.shape.replicas }
        ensures same { SameSession self.old self.new }
        ensures turn { IfOk result (IsTurn (by_vote self.old.shape from vote.now) self.old self.new) }
        ensures own { IfOk result (AddsItsOwn self.new) }
    {
        let geometry = self.geometry;
        let outs = take_vote(alloc, &geometry, self.session, &mut self.leader, from, vote)?;
        Ok(Turn {
            outs: Items::from_vec(outs),
            added: 0,
            fold: None,
        })
    }

    /// Takes the claim of a node, claims what can be claimed then, and asks for a fold where eight parts would go.
    pub fn claim(
        &mut self,
        alloc: Global,
        from: NodeName,
        claim: &Committed,
    ) -> Result<Turn, NoMemory>
        requires region { from.region < regions self.old.shape }
        requires replica { from.replica < self.old.shape.replicas }
        ensures same { SameSession self.old self.new }
        ensures turn { IfOk result (IsTurn (by_claim self.old.shape from claim.now) self.old self.new) }
        ensures own { IfOk result (AddsItsOwn self.new) }
    {
        let geometry = self.geometry;
        let (outs, fold) = take_claim(
            alloc,
            &geometry,
            self.session,
            self.whole,
            &mut self.leader,
            &mut self.parts,
            from,
            claim,
        )?;
        Ok(Turn {
            outs: Items::from_vec(outs),
            added: 0,
            fold,
        })
    }

    /// The votes for what isn't committed yet, and the claim of the front, again.
    pub fn tick(&self, alloc: Global) -> Result<Turn, NoMemory>
        ensures turn { IfOk result (IsTurn (by_tick self.now.shape) self.now self.now) }
        ensures own { IfOk result (AddsItsOwn self.now) }
    {
        let outs = tick_outs(
            alloc,
            &self.geometry,
            self.session,
            &self.leader,
            self.parts.as_slice(),
            self.begun,
        )?;
        Ok(Turn {
            outs: Items::from_vec(outs),
            added: 0,
            fold: None,
        })
    }
}
