//! Laws of a node that goes by its rules, while it stays in a session: each ask is answered, or kept until it is due, and each
//! part is applied, or kept until its turn. Its calls do nothing; their clauses are the laws.
#![tactic(auto)]

ghost use Rattle.std.specs.Prelude.{◌≡◌, ◌≤◌, ℕ, true, false, List, Some, Ok};
ghost use Rattle.salus_types.specs.Volume.{Shape};
ghost use Rattle.salus_types.specs.declared.names.Sender.TheVariants as sender;
ghost use Rattle.salus_types.specs.declared.records.Record.{Record};
ghost use Rattle.salus_message.specs.declared.small.Ask.{Ask};
ghost use Rattle.salus_message.specs.declared.wire.Message.TheVariants as message;
ghost use Rattle.salus_message.specs.Reading.{message_at};
ghost use Rattle.merkle_region.specs.Tree.{IsAmong};
ghost use Rattle.volume_model.specs.Contents.{region_of};
ghost use Rattle.replica_rules.specs.Views.{View};
ghost use Rattle.replica_rules.specs.Replicas.{Replica, is_for};
ghost use Rattle.replica_rules.specs.Nodes.{Memory, NodeState};
ghost use Rattle.replica_rules.specs.Rules.{Input, Receives, handled};
ghost use Rattle.run_rules.specs.Rooms.{has_no_room};
ghost use Rattle.law_answers.specs.Owing.{KeepsIn, IsSeenTo};
ghost use Rattle.law_answers.specs.Turning.{IsChain, IsInTurn, HasCome, ComesIn, TurnsTo, BringsPart, IsLinked};

/// Does nothing. An ask of the client for a block of the node's region, in the session whose memory it has, is answered in
/// the handling, as of the view after it, or kept (`taken`). And an ask that is kept is answered in the next handling, or stays kept, or a newer ask of
/// the same read number takes its place, unless the node switches to another session then (`kept`).
pub fn nodes_answer_asks()
    ensures taken { (shape : Shape) (g : ℕ) (node : NodeState) (m : Memory) (bytes : List ℕ) (ask : Ask)
        → node.memory ≡ Some m → message_at bytes ≡ Ok (message.Ask ask) → ask.session ≡ m.replica.session → region_of shape ask.block ≡ g
        → IsSeenTo shape (Receives sender.Client bytes) ask (handled shape g node (Receives sender.Client bytes)).outs (handled shape g node (Receives sender.Client bytes)).node.memory }
    ensures kept { (shape : Shape) (g : ℕ) (node : NodeState) (input : Input) (ask : Ask)
        → KeepsIn ask node.memory → (handled shape g node input).node.held.session ≡ node.held.session
        → IsSeenTo shape input ask (handled shape g node input).outs (handled shape g node input).node.memory }
{}

/// Does nothing. Where the parts of a session and region are a chain, and a node's replica is in its turn in it: so it is after
/// the next handling, its number hasn't fallen, and what had come is still there (`turns`); a part that is handed over with
/// room has come then (`comes`); and once all have come, the view has reached them all (`reached`).
pub fn nodes_take_parts_in_turn()
    ensures turns { (shape : Shape) (g : ℕ) (parts : List Record) (views : List View) (node : NodeState) (input : Input) (m : Memory)
        → IsChain shape (λ rec. IsAmong rec parts) (λ view. IsAmong view views)
        → node.memory ≡ Some m → IsInTurn (λ rec. IsAmong rec parts) (λ view. IsAmong view views) m.replica
        → ((rec : Record) → BringsPart input rec → is_for shape g m.replica rec ≡ true → IsAmong rec parts)
        → (handled shape g node input).node.held.session ≡ node.held.session
        → TurnsTo (λ rec. IsAmong rec parts) (λ view. IsAmong view views) m.replica (handled shape g node input).node.memory }
    ensures comes { (shape : Shape) (g : ℕ) (parts : List Record) (views : List View) (node : NodeState) (bytes : List ℕ) (m : Memory) (rec : Record)
        → IsChain shape (λ r. IsAmong r parts) (λ view. IsAmong view views)
        → node.memory ≡ Some m → IsInTurn (λ r. IsAmong r parts) (λ view. IsAmong view views) m.replica
        → message_at bytes ≡ Ok (message.Part (record { rec = rec })) → is_for shape g m.replica rec ≡ true → IsAmong rec parts
        → has_no_room shape g rec m ≡ false
        → ComesIn rec (handled shape g node (Receives sender.Client bytes)).node.memory }
    ensures reached { (shape : Shape) (parts : List Record) (views : List View) (r : Replica)
        → IsChain shape (λ rec. IsAmong rec parts) (λ view. IsAmong view views)
        → IsInTurn (λ rec. IsAmong rec parts) (λ view. IsAmong view views) r
        → IsLinked (λ rec. IsAmong rec parts) r.view.number
        → ((rec : Record) → IsAmong rec parts → HasCome rec r)
        → (rec : Record) → IsAmong rec parts → rec.header.seq ≤ r.view.number }
{}
