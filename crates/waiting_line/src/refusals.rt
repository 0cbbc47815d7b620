ghost use Rattle.std.specs.Prelude.{◌≡◌, ◌+◌, ◌-◌, ◌^◌, ◌<◌, [], ◌∷◌, find, map, nat_le};
ghost use Rattle.std.specs.Option.{option_or};
ghost use Rattle.salus_types.specs.Volume.{blocks, regions};
ghost use Rattle.salus_model.specs.Waiting.{barriers_among, full_refusal, range_refusal, reads_among, writes_among};
ghost use Rattle.client_rules.specs.State.{Serving};
ghost use Rattle.client_rules.specs.Serving.{busy_refusal, is_idle, refusal_here};
ghost use Rattle.waiting_line.specs.Meant.{StandsFor};

use crate::line::WaitingLine;
use printed_lines::RequestRefusal;
use salus_model::Request;
use salus_types::{Geometry, Write};

/// What the refusals of a serving client look at besides its waiting line.
#[derive(Clone, Copy, Debug, Drop)]
pub struct Standing {
    /// The number of the last batch submitted.
    pub last: u64,
    /// The acknowledged front.
    pub acked: u64,
    /// How many reads are open.
    pub reads: u64,
    /// How many barriers have left the waiting line and wait.
    pub barriers: u64,
}

/// The first block number among the writes that the volume doesn't have.
fn first_outside(bound: u64, writes: &[Write]) -> Option<u64>
    ensures { result ≡ find (λ n. nat_le bound n) (map (λ (w : Write). w.block) writes.now) }
{
    'writes: for write in writes {
        if bound <= write.block {
            return Some(write.block);
        }
    }
    None
}

/// That number is refused if it isn't below the bound.
fn outside(bound: u64, number: u64) -> Option<RequestRefusal>
    ensures { result ≡ range_refusal bound (number ∷ []) }
{
    if bound <= number {
        Some(RequestRefusal::Range { number })
    } else {
        None
    }
}

/// As many as may be are waiting already.
fn full(limit: u64, count: u64) -> Option<RequestRefusal>
    ensures { result ≡ full_refusal limit count }
{
    if limit <= count {
        Some(RequestRefusal::Full { limit })
    } else {
        None
    }
}

impl Standing {
    /// How many batches aren't acknowledged.
    fn in_flight(&self) -> u64
        ensures { result ≡ self.now.last - self.now.acked }
    {
        self.last.saturating_sub(self.acked)
    }

    fn refuses_write(
        &self,
        geometry: &Geometry,
        line: &WaitingLine,
        writes: &[Write],
    ) -> Option<RequestRefusal>
        requires { self.now.last + writes_among line.now < 2 ^ 64 }
        ensures { result ≡ option_or (range_refusal (blocks geometry.now) (map (λ (w : Write). w.block) writes.now)) (full_refusal 16 (self.now.last - self.now.acked + writes_among line.now)) }
    {
        match first_outside(geometry.blocks() as u64, writes) {
            Some(number) => Some(RequestRefusal::Range { number }),
            None => full(16, self.in_flight() + line.writes()),
        }
    }

    fn refuses_read(
        &self,
        geometry: &Geometry,
        line: &WaitingLine,
        block: u64,
    ) -> Option<RequestRefusal>
        requires { self.now.reads + reads_among line.now < 2 ^ 64 }
        ensures { result ≡ option_or (range_refusal (blocks geometry.now) (block ∷ [])) (full_refusal 64 (self.now.reads + reads_among line.now)) }
    {
        match outside(geometry.blocks() as u64, block) {
            Some(cause) => Some(cause),
            None => full(64, self.reads + line.reads()),
        }
    }

    /// Every batch is acknowledged, and no request is open or waits.
    fn is_idle(&self, line: &WaitingLine) -> bool
        ensures { (c : Serving) → StandsFor self.now line.now c → result ≡ is_idle c }
    {
        self.in_flight() == 0 && self.reads == 0 && self.barriers == 0 && line.is_empty()
    }

    fn refuses_busy(&self, line: &WaitingLine) -> Option<RequestRefusal>
        requires writes { self.now.last + writes_among line.now < 2 ^ 64 }
        requires reads { self.now.reads + reads_among line.now < 2 ^ 64 }
        ensures { (c : Serving) → StandsFor self.now line.now c → result ≡ busy_refusal c }
    {
        if self.is_idle(line) {
            return None;
        }
        Some(RequestRefusal::Inflight {
            submitted: self.last + line.writes(),
            acked: self.acked,
            reads: self.reads + line.reads(),
        })
    }
}

/// Why a serving client refuses the request, by the first cause that applies: a number outside the volume, no room (16
/// batches that aren't acknowledged or wait, 64 open or waiting reads, 64 waiting barriers), a restart while it serves, a
/// reassignment while a batch isn't acknowledged or a request is open. None exactly where it takes the request.
pub fn refusal(
    geometry: &Geometry,
    standing: &Standing,
    line: &WaitingLine,
    request: &Request,
) -> Option<RequestRefusal>
    requires writes { standing.now.last + writes_among line.now < 2 ^ 64 }
    requires reads { standing.now.reads + reads_among line.now < 2 ^ 64 }
    requires barriers { standing.now.barriers + barriers_among line.now < 2 ^ 64 }
    ensures { (c : Serving) → StandsFor standing.now line.now c → result ≡ refusal_here geometry.now c request.now }
{
    match request {
        Request::Write { batch } => standing.refuses_write(geometry, line, batch.as_slice()),
        Request::Read { block } => standing.refuses_read(geometry, line, *block),
        Request::Barrier => full(64, standing.barriers + line.barriers()),
        Request::Restart { .. } => Some(RequestRefusal::Open),
        Request::Reassign { region, .. } => {
            match outside(geometry.regions() as u64, *region) {
                Some(cause) => Some(cause),
                None => standing.refuses_busy(line),
            }
        }
    }
}
