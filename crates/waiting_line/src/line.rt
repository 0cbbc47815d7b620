ghost use Rattle.std.specs.Prelude.{◌≡◌, ◌==◌, ◌++◌, [], ◌∷◌, drop, length, IfErr, IfNone, IfOk, MatchOption};
ghost use Rattle.salus_model.specs.Waiting.{is_write, is_read, is_barrier, left_of, reads_among, writes_among, barriers_among};
ghost use Rattle.client_rules.specs.Tables.{line_of};
ghost use Rattle.waiting_line.specs.Heading.{is_held_up};

use salus_model::Request;
use salus_types::NoMemory;
use std::alloc::Global;
use std::collections::VecDeque;
use std::marker::Model;

/// A request that was taken, with its event.
#[derive(Debug, Drop)]
pub struct Taken {
    event: u64,
    request: Request,
}

impl Model for Taken {
    ghost use Rattle.salus_model.specs.Waiting.{Taken as AnyTaken};

    ghost Value = { AnyTaken };

    ghost view = { λ t. record { event = t.event; request = t.request } };
}

impl Taken {
    pub fn new(event: u64, request: Request) -> Taken
        ensures event { result.event ≡ event }
        ensures request { result.request ≡ request }
    {
        Taken { event, request }
    }

    pub fn event(&self) -> u64
        ensures { result ≡ self.now.event }
    {
        self.event
    }

    pub fn request(&self) -> &Request
        ensures { result.now ≡ self.now.request }
    {
        &self.request
    }

    pub fn into_request(self) -> Request
        ensures { result ≡ self.request }
    {
        self.request
    }

    fn is_write(&self) -> bool
        ensures { result ≡ is_write self.now.request }
    {
        matches!(self.request, Request::Write { .. })
    }

    fn is_read(&self) -> bool
        ensures { result ≡ is_read self.now.request }
    {
        matches!(self.request, Request::Read { .. })
    }

    fn is_barrier(&self) -> bool
        ensures { result ≡ is_barrier self.now.request }
    {
        matches!(self.request, Request::Barrier)
    }
}

/// The requests that wait, the oldest first.
#[derive(Debug, Drop)]
pub struct WaitingLine {
    requests: VecDeque<Taken>,
}

impl Model for WaitingLine {
    ghost use Rattle.std.specs.Prelude.{List};
    ghost use Rattle.salus_model.specs.Waiting.{Taken as AnyTaken};

    ghost Value = { List AnyTaken };

    ghost view = { λ line. line.requests.items };
}

impl WaitingLine {
    /// Nothing waits.
    pub fn new(alloc: Global) -> WaitingLine
        ensures { result ≡ [] }
    {
        WaitingLine {
            requests: VecDeque::new(alloc),
        }
    }

    /// Joins the line at its end. Without memory it is as it was.
    pub fn join(&mut self, taken: Taken) -> Result<(), NoMemory>
        ensures joined { IfOk result (λ _. self.new ≡ self.old ++ taken ∷ []) }
        ensures kept { IfErr result (λ _. self.new ≡ self.old) }
    {
        self.requests.push_back(taken)?;
        Ok(())
    }

    pub fn is_empty(&self) -> bool
        ensures { result ≡ (length self.now == 0) }
    {
        self.requests.is_empty()
    }

    /// Whether a write stands at the head, behind which all others wait.
    pub fn is_held_up(&self) -> bool
        ensures { result ≡ is_held_up self.now }
    {
        match self.requests.front() {
            Some(taken) => taken.is_write(),
            None => false,
        }
    }

    /// The oldest request leaves the line, unless it is a write: None exactly where the line is empty or a write stands
    /// at its head. A loop that calls it until it gives none is given those before the first write, in their order.
    pub fn leave(&mut self) -> Option<Taken>
        ensures left { MatchOption result ((left_of self.old ≡ []) × (self.new ≡ self.old)) (λ t. left_of self.old ≡ t ∷ left_of self.new) }
        ensures line { line_of self.new ≡ line_of self.old }
        ensures head { IfNone result (line_of self.new ≡ self.new) }
    {
        if self.is_held_up() {
            return None;
        }
        self.requests.pop_front()
    }

    /// The oldest request.
    pub fn head(&self) -> Option<&Taken>
        ensures { MatchOption result (self.now ≡ []) (λ t. self.now ≡ t.now ∷ drop 1 self.now) }
    {
        self.requests.front()
    }

    /// Takes the oldest request out.
    pub fn take_head(&mut self) -> Option<Taken>
        ensures { MatchOption result ((self.old ≡ []) × (self.new ≡ [])) (λ t. self.old ≡ t ∷ self.new) }
    {
        self.requests.pop_front()
    }

    /// How many writes wait.
    pub fn writes(&self) -> u64
        ensures { result ≡ writes_among self.now }
    {
        self.requests.iter().filter(|t| t.is_write()).count() as u64
    }

    /// How many reads wait.
    pub fn reads(&self) -> u64
        ensures { result ≡ reads_among self.now }
    {
        self.requests.iter().filter(|t| t.is_read()).count() as u64
    }

    /// How many barriers wait.
    pub fn barriers(&self) -> u64
        ensures { result ≡ barriers_among self.now }
    {
        self.requests.iter().filter(|t| t.is_barrier()).count() as u64
    }
}
