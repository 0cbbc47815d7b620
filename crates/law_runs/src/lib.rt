//! The seams between the laws: of every run that follows its schedule the client's lines are those due, and they are a
//! legal history of one array.
#![tactic(auto)]

ghost use Rattle.std.specs.Prelude.{◌≡◌, List, []};
ghost use Rattle.schedule_text.specs.Limits.{IsWithinLimits};
ghost use Rattle.schedule_text.specs.declared.schedule.Event.{Event};
ghost use Rattle.schedule_text.specs.declared.schedule.Volume.{Volume};
ghost use Rattle.salus_model.specs.declared.trace.TraceStep.{TraceStep};
ghost use Rattle.salus_model.specs.Due.{lines_due};
ghost use Rattle.salus_model.specs.Following.{Follows, Posted};
ghost use Rattle.salus_model.specs.Forgery.{NoForgery};
ghost use Rattle.salus_model.specs.Judge.{LegalHistory};
ghost use Rattle.salus_model.specs.Seen.{NoCollision};
ghost use Rattle.run_rules.specs.Running.{NodesByRules, formatted};
ghost use Rattle.law_history.specs.Handing.{ClientPostsTagged, NodesShowHanded};
ghost use Rattle.law_lines.specs.Running.{run_lines};
ghost use Rattle.law_shown.specs.Reading.{AllAddressed, AllHandSpelled};

/// Does nothing: its clauses are the law. Where no two different strings seen share a digest and no tag is forged, the lines
/// of the client's rules are those that are due, and they are a legal history: if what nodes show was handed to them and
/// what the client posts is tagged (`seams`), and so of every run in which the nodes go by their rules from a formatted
/// volume on and what the client posts is tagged (`nodes`).
pub fn runs_are_legal()
    ensures seams { (volume : Volume) (events : List Event) (posts : List Posted) (trace : List TraceStep)
        → IsWithinLimits (record { volume = volume; events = events })
        → Follows events posts trace
        → NoCollision volume events posts trace
        → NoForgery volume events posts trace
        → NodesShowHanded volume posts [] trace
        → ClientPostsTagged volume events posts [] trace
        → (run_lines volume events posts trace ≡ lines_due volume events posts trace)
        × LegalHistory volume.geometry events (run_lines volume events posts trace) }
    ensures nodes { (volume : Volume) (events : List Event) (posts : List Posted) (trace : List TraceStep)
        → IsWithinLimits (record { volume = volume; events = events })
        → Follows events posts trace
        → NoCollision volume events posts trace
        → NoForgery volume events posts trace
        → AllHandSpelled posts trace
        → AllAddressed volume.geometry trace
        → NodesByRules volume.geometry (formatted volume) posts trace
        → ClientPostsTagged volume events posts [] trace
        → (run_lines volume events posts trace ≡ lines_due volume events posts trace)
        × LegalHistory volume.geometry events (run_lines volume events posts trace) }
{}
