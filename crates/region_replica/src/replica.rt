ghost use Rattle.std.specs.Prelude.{◌≡◌, ◌⊎◌, ◌==◌, ◌&&◌, ◌∷◌, ◌++◌, [], if◌then◌else◌, IfOk, IsTrue, MatchOption, OnErr};
ghost use Rattle.holding_model.specs.Fitting.{record_fits};
ghost use Rattle.volume_model.specs.Contents.{region_of};
ghost use Rattle.replica_rules.specs.Views.{has_right_shape, is_accepted, view_after};
ghost use Rattle.replica_rules.specs.Replicas.{Replica as Rules, answer_to, kept_early, tried, with_view};
ghost use Rattle.region_replica.specs.Answering.{told_as, IsTaken};
ghost use Rattle.region_replica.specs.Turning.{IsKeptTaken};
ghost use Rattle.region_replica.specs.Asking.{IsAskTaken, IsFirstDue, IsNoneDue};

use crate::answer::PartAnswer;
use crate::asks::Asks;
use crate::early::EarlyParts;
use crate::right_shape::has_right_shape;
use region_view::{ApplyError, RegionView};
use salus_message::{Answer, Ask};
use salus_types::{Geometry, NoMemory, NodeName, Record};
use std::alloc::Global;
use std::marker::Model;

/// A replica of a region in a session: the region's view, the parts that came early, and the asks that wait. A contract sees
/// the volume's shape, the region, and the replica of the rules.
#[derive(Drop)]
pub struct RegionReplica {
    geometry: Geometry,
    region: u16,
    session: u64,
    view: RegionView,
    early: EarlyParts,
    asks: Asks,
}

impl Model for RegionReplica {
    ghost use Rattle.region_replica.specs.Serving.{Serving, IsServing};

    ghost Value = { Serving };

    ghost view = { λ r. record { shape = r.geometry; region = r.region; replica = record { session = r.session; view = r.view.view; early = r.early; asks = r.asks } } };

    ghost invariant = { λ r. IsServing r.view.shape (record { shape = r.geometry; region = r.region; replica = record { session = r.session; view = r.view.view; early = r.early; asks = r.asks } }) };
}

/// Whether the part is of the session and the region, and of the right shape.
fn is_for(geometry: &Geometry, region: u16, session: u64, rec: &Record) -> bool
    ensures { result ≡ (rec.now.header.session == session) && (rec.now.header.region == region) && has_right_shape geometry.now region rec.now }
{
    rec.header.session == session
        && rec.header.region == region
        && has_right_shape(geometry, region, rec)
}

/// Applies a part whose turn it is.
fn apply_next(alloc: Global, view: &mut RegionView, rec: Record) -> Result<PartAnswer, NoMemory>
    requires { IsTrue (record_fits view.old.shape rec) }
    ensures shape { view.new.shape ≡ view.old.shape }
    ensures answer { (r : Rules) → r.view ≡ view.old.view → IfOk result (λ answer. answer ≡ told_as (tried view.old.shape r rec).answer rec) }
    ensures state { (r : Rules) → r.view ≡ view.old.view → IfOk result (λ _. (tried view.old.shape r rec).replica ≡ with_view r view.new.view) }
    ensures err { OnErr result (view.new ≡ view.old) }
{
    match &view.apply(alloc, &rec) {
        Ok(()) => Ok(PartAnswer::Next(rec)),
        Err(ApplyError::RootDiffers { held, got }) => Ok(PartAnswer::Differs {
            held: *held,
            got: *got,
        }),
        Err(ApplyError::NoMemory) => Err(NoMemory),
    }
}

/// Keeps a part that came before its turn, unless one that goes on from the same number is kept, or 16 are.
fn keep_early(early: &mut EarlyParts, rec: Record) -> Result<PartAnswer, NoMemory>
    ensures answer { (r : Rules) → r.early ≡ early.old → IfOk result (λ answer. answer ≡ told_as (kept_early r rec).answer rec) }
    ensures state { (r : Rules) → r.early ≡ early.old → IfOk result (λ _. (kept_early r rec).replica ≡ record r { early = early.new }) }
    ensures either { (early.new ≡ early.old) ⊎ (early.new ≡ early.old ++ rec ∷ []) }
    ensures err { OnErr result (early.new ≡ early.old) }
{
    if early.has(rec.header.previous) {
        return Ok(PartAnswer::Early);
    }
    if early.is_full() {
        return Ok(PartAnswer::Full);
    }
    early.keep(rec)?;
    Ok(PartAnswer::Early)
}

/// Applies a kept part whose turn has come: whether its root is right. Where it isn't, the view is as it was.
fn apply_kept(alloc: Global, view: &mut RegionView, rec: &Record) -> Result<bool, NoMemory>
    requires { IsTrue (record_fits view.old.shape rec.now) }
    ensures shape { view.new.shape ≡ view.old.shape }
    ensures accepted { IfOk result (λ accepted. accepted ≡ is_accepted view.old.shape view.old.view rec.now) }
    ensures after { IfOk result (λ accepted. view.new.view ≡ (if accepted then view_after view.old.shape view.old.view rec.now else view.old.view)) }
    ensures err { OnErr result (view.new ≡ view.old) }
{
    match view.apply(alloc, rec) {
        Ok(()) => Ok(true),
        Err(ApplyError::RootDiffers { .. }) => Ok(false),
        Err(ApplyError::NoMemory) => Err(NoMemory),
    }
}

/// Whether the ask is of the session, and of a block of the region.
fn is_asked_here(geometry: &Geometry, region: u16, session: u64, ask: &Ask) -> bool
    ensures { result ≡ (ask.now.session == session) && (region_of geometry.now ask.now.block == region) }
{
    ask.session == session && ask.block / geometry.region_blocks() == u32::from(region)
}

/// The block that is asked for, as of the view, with its path.
fn answer_to(alloc: Global, view: &RegionView, ask: &Ask) -> Result<Answer, NoMemory>
    ensures { IfOk result (λ answer. answer ≡ answer_to view.now.shape view.now.view ask.now) }
{
    let place = (ask.block % view.geometry().region_blocks()) as u16;
    let found = view.answer(alloc, place)?;
    Ok(Answer {
        session: ask.session,
        read: ask.read,
        block: ask.block,
        at: found.at,
        bytes: found.bytes,
        path: found.path,
    })
}

impl RegionReplica {
    /// The replica of a node in a session, with the view with which the session begins there. It keeps nothing yet.
    pub fn new(
        alloc: Global,
        geometry: &Geometry,
        name: NodeName,
        session: u64,
        view: RegionView,
    ) -> RegionReplica
        requires { view.shape ≡ geometry.now }
        ensures { result ≡ record { shape = geometry.now; region = name.region; replica = record { session = session; view = view.view; early = []; asks = [] } } }
    {
        RegionReplica {
            geometry: *geometry,
            region: name.region,
            session,
            view,
            early: EarlyParts::new(alloc),
            asks: Asks::new(alloc),
        }
    }

    /// The region's view.
    pub fn view(&self) -> &RegionView
        ensures { result.now ≡ record { shape = self.now.shape; view = self.now.replica.view } }
    {
        &self.view
    }

    /// Takes a part: it is applied where it is its turn, and kept where it is early. After an error the replica is as it was.
    pub fn take_part(&mut self, alloc: Global, rec: Record) -> Result<PartAnswer, NoMemory>
        ensures taken { IfOk result (IsTaken self.old rec self.new) }
        ensures err { OnErr result (self.new ≡ self.old) }
    {
        if !is_for(&self.geometry, self.region, self.session, &rec) {
            return Ok(PartAnswer::Foreign);
        }
        let number = self.view.number();
        if rec.header.seq <= number {
            return Ok(PartAnswer::Known);
        }
        if rec.header.previous == number {
            return apply_next(alloc, &mut self.view, rec);
        }
        keep_early(&mut self.early, rec)
    }

    /// Takes out the kept part that goes on from the view's number. It is given where it is applied; one whose root isn't right
    /// is lost. After an error the replica is as it was.
    pub fn take_kept(&mut self, alloc: Global) -> Result<Option<Record>, NoMemory>
        ensures taken { IfOk result (IsKeptTaken self.old self.new) }
        ensures err { OnErr result (self.new ≡ self.old) }
    {
        let number = self.view.number();
        match self.early.get(number) {
            None => Ok(None),
            Some(rec) => {
                if apply_kept(alloc, &mut self.view, rec)? {
                    return Ok(self.early.take(number));
                }
                self.early.take(number);
                Ok(None)
            }
        }
    }

    /// Answers an ask at once, where the view has reached the number as of which it asks; else it waits. After an error the
    /// replica is as it was.
    pub fn take_ask(&mut self, alloc: Global, ask: Ask) -> Result<Option<Answer>, NoMemory>
        ensures taken { IfOk result (IsAskTaken self.old ask self.new) }
        ensures err { OnErr result (self.new ≡ self.old) }
    {
        if !is_asked_here(&self.geometry, self.region, self.session, &ask) {
            return Ok(None);
        }
        if ask.at <= self.view.number() {
            let answer = answer_to(alloc, &self.view, &ask)?;
            return Ok(Some(answer));
        }
        self.asks.keep(ask)?;
        Ok(None)
    }

    /// The answer to the waiting ask of the least read number that can be answered now, which is taken out. After an error the
    /// replica is as it was.
    pub fn due(&mut self, alloc: Global) -> Result<Option<Answer>, NoMemory>
        ensures due { IfOk result (λ answer. MatchOption answer (IsNoneDue self.old self.new) (IsFirstDue self.old self.new)) }
        ensures err { OnErr result (self.new ≡ self.old) }
    {
        match self.asks.first_due(self.view.number()) {
            None => Ok(None),
            Some(ask) => {
                let answer = answer_to(alloc, &self.view, &ask)?;
                self.asks.remove(ask.read);
                Ok(Some(answer))
            }
        }
    }
}
