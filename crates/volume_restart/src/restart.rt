ghost use Rattle.std.specs.Prelude.{◌≡◌, ◌<◌, IfOk, OnOk, IfSome, true};
ghost use Rattle.salus_types.specs.Volume.{regions};
ghost use Rattle.salus_message.specs.Ranges.{IsHeld};
ghost use Rattle.client_rules.specs.Opening.{with_held};
ghost use Rattle.volume_restart.specs.Answers.{all_said};
ghost use Rattle.volume_restart.specs.Choosing.{chosen, ChoosesRight, IsChoice};
ghost use Rattle.volume_restart.specs.Restarting.{answered, in_phase, kept_by, nothing_gathered, reply_taken, shape_of, staged_in, switched_in, waits_in, with_reply_in};

use crate::answers::Answers;
use crate::choice::{Choice, choose};
use restart_pool::Pool;
use salus_hash::HmacKey;
use salus_message::Gathered;
use salus_types::{Geometry, Held, NoMemory, NodeName};
use std::alloc::Global;
use std::marker::Model;

/// How far a restart is.
#[derive(Clone, Copy, PartialEq, Eq, Debug, Drop)]
pub enum Phase {
    /// Every node is asked for what it holds.
    Gathering,
    /// Every node is to stage the new session.
    Staging,
    /// Every node is to switch to it.
    Switching,
    /// Every node has switched.
    Done,
}

/// A restart of a volume that opens a session.
#[derive(Drop)]
pub struct Restart {
    session: u64,
    phase: Phase,
    answers: Answers,
    pool: Pool,
}

impl Model for Restart {
    ghost use Rattle.std.specs.Prelude.{◌≡◌};
    ghost use Rattle.volume_restart.specs.Restarting.{Restarting};

    ghost Value = { Restarting };

    ghost view = { λ r. record { session = r.session; phase = r.phase; answers = r.answers; pool = r.pool.held } };

    ghost invariant = { λ r. r.pool.shape ≡ r.answers.shape };
}

/// Adds what counts of what a node holds. After an error the pool is used no more.
fn add_held(alloc: Global, pool: &mut Pool, key: &HmacKey, held: &Held) -> Result<(), NoMemory>
    requires { IsHeld held.now }
    ensures shape { pool.new.shape ≡ pool.old.shape }
    ensures held { OnOk result (pool.new.held ≡ with_held pool.old.shape key.now held.now pool.old.held) }
{
    'bases: for base in held.bases.as_slice() {
        pool.add_base(alloc, key, base)?;
    }
    'parts: for rec in held.parts.as_slice() {
        pool.add_record(alloc, key, rec)?;
    }
    Ok(())
}

impl Restart {
    /// A restart that gathers what the nodes hold, to open this session.
    pub fn new(alloc: Global, geometry: Geometry, session: u64) -> Result<Restart, NoMemory>
        ensures { IfOk result (λ r. r ≡ nothing_gathered geometry session) }
    {
        Ok(Restart {
            session,
            phase: Phase::Gathering,
            answers: Answers::new(alloc, geometry)?,
            pool: Pool::new(alloc, geometry),
        })
    }

    /// The volume's shape.
    pub fn geometry(&self) -> Geometry
        ensures { result ≡ shape_of self.now }
    {
        self.pool.geometry()
    }

    /// How far it is.
    pub fn phase(&self) -> Phase
        ensures { result ≡ self.now.phase }
    {
        self.phase
    }

    /// Takes a node's reply: while replies are gathered, each node's first one of this session counts. After an error the
    /// restart is used no more.
    pub fn gathered(
        &mut self,
        alloc: Global,
        from: NodeName,
        key: &HmacKey,
        reply: &Gathered,
    ) -> Result<(), NoMemory>
        requires region { from.region < regions (shape_of self.old) }
        requires replica { from.replica < (shape_of self.old).replicas }
        requires in_format { IsHeld reply.now.held }
        ensures { OnOk result (self.new ≡ with_reply_in self.old.phase key.now self.old from reply.now) }
    {
        match self.phase {
            Phase::Gathering => self.take_reply(alloc, from, key, reply),
            Phase::Staging => Ok(()),
            Phase::Switching => Ok(()),
            Phase::Done => Ok(()),
        }
    }

    /// Takes a node's first reply of this session.
    fn take_reply(
        &mut self,
        alloc: Global,
        from: NodeName,
        key: &HmacKey,
        reply: &Gathered,
    ) -> Result<(), NoMemory>
        requires region { from.region < regions (shape_of self.old) }
        requires replica { from.replica < (shape_of self.old).replicas }
        requires in_format { IsHeld reply.now.held }
        ensures { OnOk result (self.new ≡ reply_taken key.now self.old from reply.now) }
    {
        if reply.session != self.session || self.answers.has_said(from) {
            return Ok(());
        }
        self.answers.say(from);
        add_held(alloc, &mut self.pool, key, &reply.held)
    }

    /// Whether every node's reply is there.
    pub fn all_in(&self) -> bool
        ensures { result ≡ all_said self.now.answers }
    {
        self.answers.all_said()
    }

    /// The greatest record, by session and then by number, whose whole volume the replies give, with its contents. Where
    /// no two different kept records share session, number and region, and no two strings of the kept chains collide, it
    /// is None exactly where there is none.
    pub fn choose(&self, alloc: Global) -> Result<Option<Choice>, NoMemory>
        requires { all_said self.now.answers ≡ true }
        ensures sound { IfOk result (λ found. IfSome found (IsChoice (kept_by self.now))) }
        ensures exact { IfOk result (λ found. ChoosesRight (kept_by self.now) (found ≡ chosen (kept_by self.now))) }
    {
        choose(alloc, &self.pool)
    }

    /// Begins to stage what was chosen: no node has answered yet.
    pub fn begin_staging(&mut self)
        ensures { self.new ≡ in_phase Phase.Staging self.old }
    {
        self.phase = Phase::Staging;
        self.answers.clear();
    }

    /// A node has staged the session. After the last one the nodes are to switch.
    pub fn staged(&mut self, from: NodeName)
        requires region { from.region < regions (shape_of self.old) }
        requires replica { from.replica < (shape_of self.old).replicas }
        ensures { self.new ≡ staged_in self.old.phase self.old from }
    {
        match self.phase {
            Phase::Staging => self.answered(from, Phase::Switching),
            Phase::Gathering => {}
            Phase::Switching => {}
            Phase::Done => {}
        }
    }

    /// A node has switched. After the last one the restart is done.
    pub fn switched(&mut self, from: NodeName)
        requires region { from.region < regions (shape_of self.old) }
        requires replica { from.replica < (shape_of self.old).replicas }
        ensures { self.new ≡ switched_in self.old.phase self.old from }
    {
        match self.phase {
            Phase::Switching => self.answered(from, Phase::Done),
            Phase::Gathering => {}
            Phase::Staging => {}
            Phase::Done => {}
        }
    }

    fn answered(&mut self, from: NodeName, next: Phase)
        requires region { from.region < regions (shape_of self.old) }
        requires replica { from.replica < (shape_of self.old).replicas }
        ensures { self.new ≡ answered next self.old from }
    {
        self.answers.say(from);
        if self.answers.all_said() {
            self.phase = next;
            self.answers.clear();
        }
    }

    /// Whether the node hasn't answered in the phase; nobody is waited for when the restart is done.
    pub fn waits_for(&self, node: NodeName) -> bool
        requires region { node.region < regions (shape_of self.now) }
        requires replica { node.replica < (shape_of self.now).replicas }
        ensures { result ≡ waits_in self.now.phase self.now node }
    {
        match self.phase {
            Phase::Done => false,
            Phase::Gathering => !self.answers.has_said(node),
            Phase::Staging => !self.answers.has_said(node),
            Phase::Switching => !self.answers.has_said(node),
        }
    }
}
