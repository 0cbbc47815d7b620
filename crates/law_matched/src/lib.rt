//! The law of matching steps: a step of a node that goes by its rules keeps the match between a run and the abstract world of
//! the prefix theorem. Its one call does nothing; its clauses are the law.
#![tactic(auto)]

ghost use Rattle.std.specs.Prelude.{◌≡◌, ℕ, zero, Bool, true, false, List, [], ◌∷◌};
ghost use Rattle.salus_types.specs.Volume.{Shape, IsVolume};
ghost use Rattle.salus_types.specs.declared.names.NodeName.{NodeName};
ghost use Rattle.salus_types.specs.declared.names.Sender.TheVariants as sender;
ghost use Rattle.schedule_text.specs.Limits.{IsOfVolume};
ghost use Rattle.schedule_text.specs.declared.schedule.Event.{Event};
ghost use Rattle.schedule_text.specs.declared.schedule.Volume.{Volume};
ghost use Rattle.salus_model.specs.declared.trace.TraceStep.{TraceStep};
ghost use Rattle.salus_model.specs.Following.{Follows, Posted};
ghost use Rattle.salus_model.specs.Guarding.{is_lied_for, all_guarded};
ghost use Rattle.salus_model.specs.Due.{past_of};
ghost use Rattle.salus_model.specs.Hearing.{Past};
ghost use Rattle.run_rules.specs.Knowing.{KnownNode};
ghost use Rattle.run_rules.specs.Running.{IsNodeStep};
ghost use Rattle.law_prefix.specs.Numbers.{Mem};
ghost use Rattle.law_prefix.specs.World as abstract;
ghost use Rattle.kept_model.specs.Nodes.{volume_as};
ghost use Rattle.kept_model.specs.Matching.{Matches};
ghost use Rattle.law_refined.specs.Stepping.{StaysIn};
ghost use Rattle.law_matched.specs.Silent.{silent_past, known_after, AllStandTo, ClientPostsFit, IsHandedRight, AreHandedRight, StepMatches, IsReached};

/// Does nothing: its clauses are the law. What is reached after some steps is reached after one step more of a node by its
/// rules, whatever the node is handed, if each group has a node that counts then (`reached`): the step is a run of the
/// abstract world. No lie carries the client's name. Where a world matches a run, there is a run to one that matches after
/// the step (`steps`). In a trace that follows its schedule, what is handed over was sent before, or is a lie of the schedule
/// (`right`).
pub fn node_steps_match()
    ensures right { (events : List Event) (posts : List Posted) (trace : List TraceStep) → Follows events posts trace → AreHandedRight events [] trace }
    ensures reached { (volume : Volume) (events : List Event) (posts : List Posted) (history : List Past) (known : NodeName → KnownNode) (sent : ℕ) (name : NodeName) (step : TraceStep)
        → IsVolume volume.geometry
        → is_lied_for events sender.Client ≡ false
        → IsReached volume.geometry events posts history known sent
        → IsOfVolume volume.geometry name
        → step.party ≡ sender.Node name
        → IsNodeStep volume.geometry posts name (known name) sent step
        → IsHandedRight events sent step.handed
        → all_guarded volume.geometry events (past_of volume events posts history step ∷ history) ≡ true
        → IsReached volume.geometry events posts (past_of volume events posts history step ∷ history) (known_after volume.geometry posts known step) step.sent }
    ensures steps { (shape : Shape) (events : List Event) (posts : List Posted) (history : List Past) (known : NodeName → KnownNode) (sent : ℕ) (w : abstract.World) (name : NodeName) (step : TraceStep)
        → IsVolume shape
        → is_lied_for events sender.Client ≡ false
        → Matches shape events posts history known sent w
        → AllStandTo shape (volume_as shape events) w known
        → abstract.Guarded (volume_as shape events) w.counts
        → ClientPostsFit w.client posts sent
        → Mem zero w.client.known
        → IsOfVolume shape name
        → step.party ≡ sender.Node name
        → IsNodeStep shape posts name (known name) sent step
        → StaysIn step.handed
        → IsHandedRight events sent step.handed
        → StepMatches shape events posts (silent_past shape events history step ∷ history) (known_after shape posts known step) step.sent w }
{}
