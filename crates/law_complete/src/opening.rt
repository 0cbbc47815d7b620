//! The law that the last session asked for opens: in every quiet run by the rules it is open at the end, or was. Its one call
//! does nothing; its clause is the law.
ghost use Rattle.std.specs.Prelude.{List, []};
ghost use Rattle.schedule_text.specs.Limits.{IsWithinLimits};
ghost use Rattle.schedule_text.specs.declared.schedule.Event.{Event};
ghost use Rattle.schedule_text.specs.declared.schedule.Volume.{Volume};
ghost use Rattle.salus_model.specs.declared.trace.TraceStep.{TraceStep};
ghost use Rattle.salus_model.specs.Due.{history_from};
ghost use Rattle.salus_model.specs.Following.{Follows, Posted};
ghost use Rattle.salus_model.specs.Forgery.{NoForgery};
ghost use Rattle.salus_model.specs.Quiet.{Quiet};
ghost use Rattle.salus_model.specs.Seen.{NoCollision};
ghost use Rattle.run_rules.specs.Calm.{Calm};
ghost use Rattle.run_rules.specs.Run.{IsByRules, formatted_first};
ghost use Rattle.law_complete.specs.Opening.{LastOpens};

/// Does nothing: its clause is the law. In a quiet run that follows a schedule in its limits, by the rules of nodes and client
/// from a formatted volume on, in which calls fail only where they may, no two different strings seen share a digest and no tag
/// is forged: the last session that the client took a request to open since its last crash was opened by the end.
pub fn last_session_opens()
    ensures { (volume : Volume) (events : List Event) (posts : List Posted) (trace : List TraceStep)
        → IsWithinLimits (record { volume = volume; events = events })
        → Follows events posts trace
        → NoCollision volume events posts trace
        → NoForgery volume events posts trace
        → Calm events trace
        → IsByRules volume (formatted_first volume) posts trace
        → Quiet events posts trace
        → LastOpens volume.geometry events (history_from volume events posts [] trace) }
{}
