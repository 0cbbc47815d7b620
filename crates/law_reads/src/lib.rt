//! Laws of reads: a client's open reads stay open until their lines; and in runs by the rules in which the sound servers serve,
//! reads end beside lies. Its calls do nothing; their clauses are the laws.
#![tactic(auto)]

ghost use Rattle.std.specs.Prelude.{◌≡◌, ◌⊎◌, ◌<◌, ◌≤◌, ◌^◌, ℕ, true, false, List, length};
ghost use Rattle.salus_types.specs.Volume.{Shape, regions, blocks};
ghost use Rattle.salus_types.specs.declared.names.NodeName.{NodeName};
ghost use Rattle.salus_types.specs.declared.records.Record.{Record};
ghost use Rattle.salus_types.specs.declared.names.Sender.TheVariants as sender;
ghost use Rattle.salus_message.specs.declared.replies.Answer.{Answer};
ghost use Rattle.salus_message.specs.declared.wire.Message.TheVariants as message;
ghost use Rattle.schedule_text.specs.Limits.{IsWithinLimits};
ghost use Rattle.schedule_text.specs.declared.schedule.Event.{Event};
ghost use Rattle.schedule_text.specs.declared.schedule.Volume.{Volume};
ghost use Rattle.merkle_region.specs.Tree.{IsAmong};
ghost use Rattle.volume_model.specs.Parts.{Session};
ghost use Rattle.salus_model.specs.declared.trace.TraceStep.{TraceStep};
ghost use Rattle.salus_model.specs.Following.{Follows, Posted};
ghost use Rattle.salus_model.specs.Forgery.{NoForgery, IsPartOf};
ghost use Rattle.salus_model.specs.Guarding.{is_lied_for};
ghost use Rattle.salus_model.specs.Hearing.{News, Says};
ghost use Rattle.salus_model.specs.Seen.{NoCollision};
ghost use Rattle.salus_model.specs.Complete.{is_crash, ReadsBesideLies};
ghost use Rattle.client_rules.specs.State.{Open, Serving, Serves};
ghost use Rattle.client_rules.specs.Rules.{told};
ghost use Rattle.replica_rules.specs.Replicas.{Replica};
ghost use Rattle.run_rules.specs.Calm.{Calm};
ghost use Rattle.run_rules.specs.Rooms.{rooms_of};
ghost use Rattle.run_rules.specs.Run.{IsByRules, formatted_first};
ghost use Rattle.run_rules.specs.Running.{formatted};
ghost use Rattle.law_reads.specs.Reading.{UnstruckAt, HaveOwnNumbers, StaysOpen, GivesBlock, counts, IsFair, IsAskedOf, OpensAsked};
ghost use Rattle.law_answers.specs.Turning.{IsChain, IsInTurn, HasCome};
ghost use Rattle.law_reads.specs.Chained.{IsViewOf, IsLastView};
ghost use Rattle.law_reads.specs.Serving.{SoundServe};

/// Does nothing. An open read at which replica i has no strike stays open in the session served, or a line gives its block,
/// whatever the news but a crash of the client, and an answer of replica i that is struck (`stays`). An answer to it that counts
/// and isn't struck has a line give its block, or its question goes to the node again (`answered`). Each
/// question that a step opens goes to every replica of its block's group in that step (`opened`).
pub fn open_reads_end()
    ensures stays { (volume : Volume) (c : Serving) (i : ℕ) (o : Open) (v : ℕ) (x : News)
        → HaveOwnNumbers c.reads → IsAmong o c.reads → UnstruckAt i o.strikes → is_crash x ≡ false → IsFair volume.geometry c i o x
        → StaysOpen i o c.session (told volume (Serves c) v x).client ⊎ GivesBlock o (told volume (Serves c) v x).lines }
    ensures answered { (volume : Volume) (c : Serving) (o : Open) (v : ℕ) (name : NodeName) (a : Answer)
        → HaveOwnNumbers c.reads → IsAmong o c.reads → o.question.number < 2 ^ 32
        → counts volume.geometry c name a ≡ true → a.read ≡ o.question.number → a.block ≡ o.question.block
        → IsFair volume.geometry c name.replica o (Says name (message.Answer a))
        → IsAskedOf volume.geometry c o name (told volume (Serves c) v (Says name (message.Answer a))).outs
        ⊎ GivesBlock o (told volume (Serves c) v (Says name (message.Answer a))).lines }
    ensures opened { (volume : Volume) (c : Serving) (v : ℕ) (x : News)
        → OpensAsked volume.geometry c (told volume (Serves c) v x).outs (told volume (Serves c) v x).client }
{}

/// Does nothing: its clause is the law. In a run that follows a schedule in its limits, by the rules of nodes and client from a
/// formatted volume on, in which calls fail only where they may, where no two different strings seen share a digest and no tag
/// is forged, reads end beside lies: if each sound server serves. That is: while a read of its region is open, it has the
/// session served in memory and stays in it, its answers aren't struck, and the read's own asks alone have its number; and once
/// all messages between it and the client were taken, it keeps no ask of an open read.
pub fn reads_end_beside_lies()
    ensures { (volume : Volume) (events : List Event) (posts : List Posted) (trace : List TraceStep)
        → IsWithinLimits (record { volume = volume; events = events })
        → Follows events posts trace
        → NoCollision volume events posts trace
        → NoForgery volume events posts trace
        → Calm events trace
        → IsByRules volume (formatted_first volume) posts trace
        → (is_lied_for events sender.Client ≡ false → SoundServe volume events posts (rooms_of volume.geometry posts (formatted volume)) trace (formatted volume))
        → ReadsBesideLies volume events posts (rooms_of volume.geometry posts (formatted volume)) trace }
{}

/// Does nothing. The parts of a known session's batches for a region are a chain, and the views are those after its batches
/// (`chain`). So a replica that is in its turn in it, and to which every part has come, has the view after the last batch
/// (`reached`).
pub fn session_parts_are_a_chain()
    ensures chain { (shape : Shape) (key : List ℕ) (known : Session) (g : ℕ)
        → length known.origin ≡ blocks shape → known.base ≤ length known.list → g < regions shape
        → IsChain shape (IsPartOf shape key known g) (IsViewOf shape known g) }
    ensures reached { (shape : Shape) (key : List ℕ) (known : Session) (g : ℕ) (r : Replica)
        → length known.origin ≡ blocks shape → known.base ≤ length known.list → g < regions shape
        → IsInTurn (IsPartOf shape key known g) (IsViewOf shape known g) r
        → ((rec : Record) → IsPartOf shape key known g rec → HasCome rec r)
        → IsLastView shape known g r.view }
{}
