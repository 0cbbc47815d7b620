//! Laws of what a client was asked: requests that were accepted are done where no question is left and every batch is
//! acknowledged; and batches are acknowledged where nodes go by their rules and all messages were handed over. Its calls do
//! nothing; their clauses are the laws.
#![tactic(auto)]

ghost use Rattle.std.specs.Prelude.{◌≡◌, ◌<◌, ◌≤◌, ℕ, true, List, length, Some, Ok};
ghost use Rattle.salus_types.specs.Volume.{Shape, regions, blocks};
ghost use Rattle.salus_types.specs.declared.names.NodeName.{NodeName};
ghost use Rattle.salus_types.specs.declared.names.Sender.TheVariants as sender;
ghost use Rattle.salus_types.specs.declared.records.Record.{Record};
ghost use Rattle.salus_message.specs.declared.small.Committed.{Committed};
ghost use Rattle.salus_message.specs.declared.small.Prepared.{Prepared};
ghost use Rattle.salus_message.specs.declared.wire.Message.TheVariants as message;
ghost use Rattle.salus_message.specs.Reading.{message_at};
ghost use Rattle.schedule_text.specs.Limits.{IsWithinLimits};
ghost use Rattle.schedule_text.specs.declared.schedule.Event.{Event};
ghost use Rattle.schedule_text.specs.declared.schedule.Volume.{Volume};
ghost use Rattle.volume_model.specs.Parts.{Session};
ghost use Rattle.salus_model.specs.declared.trace.TraceStep.{TraceStep};
ghost use Rattle.salus_model.specs.Following.{Follows, Posted};
ghost use Rattle.salus_model.specs.Forgery.{NoForgery, IsPartOf};
ghost use Rattle.salus_model.specs.Seen.{NoCollision};
ghost use Rattle.replica_rules.specs.Nodes.{Memory, NodeState};
ghost use Rattle.replica_rules.specs.Rules.{Input, Receives, is_node, handled};
ghost use Rattle.run_rules.specs.Run.{IsByRules, formatted_first};
ghost use Rattle.law_answers.specs.Turning.{IsInTurn};
ghost use Rattle.law_reads.specs.Chained.{IsViewOf};
ghost use Rattle.law_claimed.specs.Accounting.{BlocksCome, AllAcknowledged, AllDone, history_of};
ghost use Rattle.law_claimed.specs.Acknowledging.{ClaimsWithin, EachClaimed};
ghost use Rattle.law_claimed.specs.Handling.{after_all, outs_of_all, StaysAlong, BringOnly, GoesThrough};
ghost use Rattle.law_claimed.specs.Knowing.{IsOwnBatch, IsClaimedBy};
ghost use Rattle.law_claimed.specs.Leading.{MemoryLeadsOn, HearsVote, HearsClaim};
ghost use Rattle.law_claimed.specs.Session.{IsServed};

/// Does nothing: its clause is the law. In a run that follows a schedule in its limits, by the rules of nodes and client from a
/// formatted volume on, in which no two different strings seen share a digest and no tag is forged: where no line is a fault,
/// no question waits for its block at the end, and every batch of a client that serves then is acknowledged, every request
/// accepted since the client's last crash is done. A write is acknowledged, a read has its block, a barrier is answered.
pub fn requests_are_done()
    ensures { (volume : Volume) (events : List Event) (posts : List Posted) (trace : List TraceStep)
        → IsWithinLimits (record { volume = volume; events = events })
        → Follows events posts trace
        → NoCollision volume events posts trace
        → NoForgery volume events posts trace
        → IsByRules volume (formatted_first volume) posts trace
        → BlocksCome volume.geometry events (history_of volume events posts trace)
        → AllAcknowledged volume.geometry events (history_of volume events posts trace)
        → AllDone volume.geometry events (history_of volume events posts trace) }
{}

/// Does nothing: its clause is the law. In such a run: where each claim that the client heard of a session was of a batch that
/// was submitted before, and at the end a client that serves has heard of each batch that isn't acknowledged that every
/// replica of its leader claims it, there is none: every batch is acknowledged.
pub fn claimed_batches_are_acknowledged()
    ensures { (volume : Volume) (events : List Event) (posts : List Posted) (trace : List TraceStep)
        → IsWithinLimits (record { volume = volume; events = events })
        → Follows events posts trace
        → NoCollision volume events posts trace
        → NoForgery volume events posts trace
        → IsByRules volume (formatted_first volume) posts trace
        → ClaimsWithin (history_of volume events posts trace)
        → EachClaimed volume.geometry events (history_of volume events posts trace)
        → AllAcknowledged volume.geometry events (history_of volume events posts trace) }
{}

/// Does nothing. Along each handling in a session the leader of a node goes on: its front doesn't fall, and is claimed
/// to the client and to every node where it rises; noted headers, votes and claims stay, or give their places to later ones;
/// and if nothing was left that it may claim, nothing is (`leads`). A vote of a node of the volume for the session is
/// heard (`votes`), and so is a claim (`claims`).
pub fn leaders_go_on()
    ensures leads { (shape : Shape) (g : ℕ) (node : NodeState) (input : Input) (m : Memory)
        → node.memory ≡ Some m → (handled shape g node input).node.held.session ≡ node.held.session
        → MemoryLeadsOn shape m (handled shape g node input).node.memory (handled shape g node input).outs }
    ensures votes { (shape : Shape) (g : ℕ) (node : NodeState) (m : Memory) (name : NodeName) (bytes : List ℕ) (v : Prepared)
        → node.memory ≡ Some m → is_node shape name ≡ true → message_at bytes ≡ Ok (message.Prepared v) → v.session ≡ m.replica.session → v.region ≡ name.region
        → HearsVote name v.seq (handled shape g node (Receives (sender.Node name) bytes)).node.memory }
    ensures claims { (shape : Shape) (g : ℕ) (node : NodeState) (m : Memory) (name : NodeName) (bytes : List ℕ) (c : Committed)
        → node.memory ≡ Some m → is_node shape name ≡ true → message_at bytes ≡ Ok (message.Committed c) → c.session ≡ m.replica.session
        → HearsClaim name c.front (handled shape g node (Receives (sender.Node name) bytes)).node.memory }
{}

/// Does nothing: its clause is the law. A node through many inputs in a known session, whose replica is in its turn, and to
/// which no part of the session and its region but the client's is brought: its replica is in its turn then, and its leader
/// has gone on; it has voted for each part that its view has reached since, to every replica of the region that leads it,
/// and noted those that its own region leads, and no others; and each vote and claim that was brought is heard.
pub fn nodes_go_through_a_session()
    ensures { (shape : Shape) (key : List ℕ) (known : Session) (g : ℕ) (inputs : List Input) (node : NodeState) (m : Memory)
        → length known.origin ≡ blocks shape → known.base ≤ length known.list → g < regions shape
        → node.memory ≡ Some m → IsInTurn (IsPartOf shape key known g) (IsViewOf shape known g) m.replica
        → BringOnly shape g (IsPartOf shape key known g) m inputs → StaysAlong shape g node inputs
        → GoesThrough shape g (IsPartOf shape key known g) (IsViewOf shape known g) m inputs (outs_of_all shape g node inputs) (after_all shape g node inputs).memory }
{}

/// Does nothing: its clause is the law. Where every node of a volume serves a session from its base on, each message of one
/// to another was brought to it, and all views have reached all parts, every batch of the session is claimed by each replica
/// of its leader.
pub fn served_sessions_are_claimed()
    ensures { (shape : Shape) (key : List ℕ) (known : Session) (front : NodeName → ℕ) (s : ℕ)
        → IsServed shape key known front → IsOwnBatch known s → IsClaimedBy shape known front s }
{}
