//! The law of what nodes show: in every run in which the nodes go by their rules, each record that a node shows the client
//! as held was handed to that node before, or is the record of a formatted region.
#![tactic(auto)]

ghost use Rattle.std.specs.Prelude.{List, []};
ghost use Rattle.salus_types.specs.Volume.{IsVolume};
ghost use Rattle.schedule_text.specs.declared.schedule.Event.{Event};
ghost use Rattle.schedule_text.specs.declared.schedule.Volume.{Volume};
ghost use Rattle.salus_model.specs.declared.trace.TraceStep.{TraceStep};
ghost use Rattle.salus_model.specs.Following.{Follows, Posted};
ghost use Rattle.run_rules.specs.Running.{NodesByRules, formatted};
ghost use Rattle.law_history.specs.Handing.{NodesShowHanded};
ghost use Rattle.law_shown.specs.Reading.{AllAddressed, AllHandSpelled};

/// Does nothing: its clause is the law.
pub fn nodes_show_what_was_handed()
    ensures shows { (volume : Volume) (events : List Event) (posts : List Posted) (trace : List TraceStep)
        → IsVolume volume.geometry
        → Follows events posts trace
        → AllHandSpelled posts trace
        → AllAddressed volume.geometry trace
        → NodesByRules volume.geometry (formatted volume) posts trace
        → NodesShowHanded volume posts [] trace }
{}
