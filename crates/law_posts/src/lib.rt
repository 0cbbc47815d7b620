//! The law of what the client posts: in every run in which the client goes by its rules, each record that it posts is
//! the part of a batch, or the base record, of a session that its lines have made known.
#![tactic(auto)]

ghost use Rattle.std.specs.Prelude.{List, []};
ghost use Rattle.schedule_text.specs.Limits.{IsWithinLimits};
ghost use Rattle.schedule_text.specs.declared.schedule.Event.{Event};
ghost use Rattle.schedule_text.specs.declared.schedule.Volume.{Volume};
ghost use Rattle.salus_model.specs.declared.trace.TraceStep.{TraceStep};
ghost use Rattle.salus_model.specs.Following.{Follows, Posted};
ghost use Rattle.client_rules.specs.Rules.{new_client};
ghost use Rattle.run_rules.specs.Serving.{ClientByRules};
ghost use Rattle.law_history.specs.Handing.{ClientPostsTagged};
ghost use Rattle.law_posts.specs.Spelling.{AllSpellable};

/// Does nothing: its clause is the law.
pub fn client_posts_are_tagged()
    ensures { (volume : Volume) (events : List Event) (posts : List Posted) (trace : List TraceStep)
        → IsWithinLimits (record { volume = volume; events = events })
        → Follows events posts trace
        → AllSpellable volume posts trace
        → ClientByRules volume (new_client volume.geometry) posts trace
        → ClientPostsTagged volume events posts [] trace }
{}
