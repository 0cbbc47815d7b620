//! The law of faults: no read and no write ends as a fault beside a sound server, and none does in a quiet run. Its calls do
//! nothing; their clauses are the law.
ghost use Rattle.std.specs.Prelude.{◌≡◌, ◌<◌, false, List, []};
ghost use Rattle.std.specs.List.{list_any};
ghost use Rattle.salus_types.specs.declared.names.NodeName.{NodeName};
ghost use Rattle.salus_types.specs.declared.names.Sender.TheVariants as sender;
ghost use Rattle.schedule_text.specs.Limits.{IsWithinLimits};
ghost use Rattle.schedule_text.specs.declared.schedule.Event.{Event};
ghost use Rattle.schedule_text.specs.declared.schedule.Volume.{Volume};
ghost use Rattle.salus_model.specs.declared.trace.TraceStep.{TraceStep};
ghost use Rattle.salus_model.specs.Following.{Follows, Posted};
ghost use Rattle.salus_model.specs.Forgery.{NoForgery};
ghost use Rattle.salus_model.specs.Guarding.{is_lied_for};
ghost use Rattle.salus_model.specs.Seen.{NoCollision};
ghost use Rattle.salus_model.specs.Due.{history_from};
ghost use Rattle.salus_model.specs.Complete.{IsSound};
ghost use Rattle.salus_model.specs.Quiet.{Quiet};
ghost use Rattle.run_rules.specs.Run.{IsByRules, formatted_first};
ghost use Rattle.law_claimed.specs.Accounting.{has_fault, history_of};
ghost use Rattle.law_complete.specs.Faulting.{HasNoFaultAt};

/// Does nothing. In a run that follows a schedule in its limits, by the rules of nodes and client from a formatted volume on, in
/// which no two different strings seen share a digest and no tag is forged: where no lie carries the client's name, no line is a
/// fault of a block whose group has a sound server (`beside`); and where there is no fault at all, no line is one (`quiet`).
pub fn faults_have_no_sound_server()
    ensures beside { (volume : Volume) (events : List Event) (posts : List Posted) (trace : List TraceStep)
        → IsWithinLimits (record { volume = volume; events = events })
        → Follows events posts trace
        → NoCollision volume events posts trace
        → NoForgery volume events posts trace
        → IsByRules volume (formatted_first volume) posts trace
        → is_lied_for events sender.Client ≡ false
        → (name : NodeName) → name.replica < volume.geometry.replicas → IsSound events trace name
        → HasNoFaultAt volume.geometry name (history_from volume events posts [] trace) }
    ensures quiet { (volume : Volume) (events : List Event) (posts : List Posted) (trace : List TraceStep)
        → IsWithinLimits (record { volume = volume; events = events })
        → Follows events posts trace
        → NoCollision volume events posts trace
        → NoForgery volume events posts trace
        → IsByRules volume (formatted_first volume) posts trace
        → Quiet events posts trace
        → list_any (λ p. has_fault p.lines) (history_of volume events posts trace) ≡ false }
{}
