//! The law of limits: a run by the rules that follows a schedule in its limits keeps to the volume and to the message format
//! throughout.
#![tactic(auto)]

ghost use Rattle.std.specs.Prelude.{List, []};
ghost use Rattle.schedule_text.specs.Limits.{IsWithinLimits};
ghost use Rattle.schedule_text.specs.declared.schedule.Event.{Event};
ghost use Rattle.schedule_text.specs.declared.schedule.Volume.{Volume};
ghost use Rattle.salus_model.specs.declared.trace.TraceStep.{TraceStep};
ghost use Rattle.salus_model.specs.Following.{Follows, Posted};
ghost use Rattle.run_rules.specs.Run.{IsByRules, formatted_first};
ghost use Rattle.law_shown.specs.Reading.{AllAddressed, AllHandSpelled};
ghost use Rattle.law_ranged.specs.Ranging.{AllSentWithin};

/// Does nothing: its clause is the law. Each step addresses a party of the volume; what is handed over in the client's name
/// brings only records that have a spelling; and each message of the client goes to a node of the volume and has a spelling.
pub fn runs_keep_to_limits()
    ensures { (volume : Volume) (events : List Event) (posts : List Posted) (trace : List TraceStep)
        → IsWithinLimits (record { volume = volume; events = events })
        → Follows events posts trace
        → IsByRules volume (formatted_first volume) posts trace
        → AllAddressed volume.geometry trace × AllHandSpelled posts trace × AllSentWithin volume posts trace }
{}
