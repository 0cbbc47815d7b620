//! The law of claims that are heard: where every server is sound, each claim that the client hears of the session opened last is
//! of a batch that was submitted before.
ghost use Rattle.std.specs.Prelude.{◌≡◌, false, List};
ghost use Rattle.salus_types.specs.declared.names.NodeName.{NodeName};
ghost use Rattle.salus_types.specs.declared.names.Sender.TheVariants as sender;
ghost use Rattle.schedule_text.specs.Limits.{IsWithinLimits};
ghost use Rattle.schedule_text.specs.declared.schedule.Event.{Event};
ghost use Rattle.schedule_text.specs.declared.schedule.Volume.{Volume};
ghost use Rattle.salus_model.specs.declared.trace.TraceStep.{TraceStep};
ghost use Rattle.salus_model.specs.Complete.{IsSound};
ghost use Rattle.salus_model.specs.Following.{Follows, Posted};
ghost use Rattle.salus_model.specs.Forgery.{NoForgery};
ghost use Rattle.salus_model.specs.Guarding.{is_lied_for};
ghost use Rattle.salus_model.specs.Seen.{NoCollision};
ghost use Rattle.run_rules.specs.Run.{IsByRules, formatted_first};
ghost use Rattle.law_claimed.specs.Accounting.{history_of};
ghost use Rattle.law_claimed.specs.Acknowledging.{ClaimsWithin};

/// Does nothing: its clause is the law. In a run that follows a schedule in its limits, by the rules of nodes and client from a
/// formatted volume on, in which no two different strings seen share a digest, no tag is forged and no lie carries the client's
/// name: where every server is sound, each claim that the client hears of the session opened last is of no batch above the last
/// one submitted before.
pub fn claims_heard_are_submitted()
    ensures { (volume : Volume) (events : List Event) (posts : List Posted) (trace : List TraceStep)
        → IsWithinLimits (record { volume = volume; events = events })
        → Follows events posts trace
        → NoCollision volume events posts trace
        → NoForgery volume events posts trace
        → IsByRules volume (formatted_first volume) posts trace
        → is_lied_for events sender.Client ≡ false
        → ((name : NodeName) → IsSound events trace name)
        → ClaimsWithin (history_of volume events posts trace) }
{}
