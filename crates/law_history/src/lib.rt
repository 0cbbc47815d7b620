//! The law of the legal history: in every run that follows its schedule the lines that are due are a legal history of
//! one array.
//!
//! Its premises are that no two different strings seen in the run share a SHA-256 digest, and that every genuine record
//! that a node tells the client of was tagged by the client before.
#![tactic(auto)]

ghost use Rattle.std.specs.Prelude.{List, []};
ghost use Rattle.schedule_text.specs.declared.schedule.Event.{Event};
ghost use Rattle.schedule_text.specs.declared.schedule.Volume.{Volume};
ghost use Rattle.schedule_text.specs.Limits.{IsWithinLimits};
ghost use Rattle.salus_model.specs.declared.trace.TraceStep.{TraceStep};
ghost use Rattle.salus_model.specs.Due.{lines_due};
ghost use Rattle.salus_model.specs.Following.{Follows, Posted};
ghost use Rattle.salus_model.specs.Forgery.{NoForgery};
ghost use Rattle.salus_model.specs.Judge.{KeepsAcknowledged, LegalHistory};
ghost use Rattle.salus_model.specs.Seen.{NoCollision};
ghost use Rattle.law_history.specs.Choosing.{ChoosesRightFrom};
ghost use Rattle.law_history.specs.Keeping.{KeepsChoiceFrom};
ghost use Rattle.law_history.specs.Handing.{ClientPostsTagged, NodesShowHanded};
ghost use Rattle.law_history.specs.Showing.{HeldWasTagged};

/// Does nothing: its clauses are the law, from what nodes show and with that premise derived; that what a restart chooses
/// is recovered; and what is left of the promise that nothing acknowledged is lost.
pub fn lines_are_legal()
    ensures law { (volume : Volume) (events : List Event) (posts : List Posted) (trace : List TraceStep)
        → IsWithinLimits (record { volume = volume; events = events })
        → Follows events posts trace
        → NoCollision volume events posts trace
        → HeldWasTagged volume events posts trace
        → LegalHistory volume.geometry events (lines_due volume events posts trace) }
    ensures whole { (volume : Volume) (events : List Event) (posts : List Posted) (trace : List TraceStep)
        → IsWithinLimits (record { volume = volume; events = events })
        → Follows events posts trace
        → NoCollision volume events posts trace
        → NoForgery volume events posts trace
        → NodesShowHanded volume posts [] trace
        → ClientPostsTagged volume events posts [] trace
        → LegalHistory volume.geometry events (lines_due volume events posts trace)
        × ChoosesRightFrom volume events posts [] trace
        × (KeepsChoiceFrom volume events posts [] trace → KeepsAcknowledged volume.geometry events (lines_due volume events posts trace)) }
    ensures recovers { (volume : Volume) (events : List Event) (posts : List Posted) (trace : List TraceStep)
        → IsWithinLimits (record { volume = volume; events = events })
        → Follows events posts trace
        → NoCollision volume events posts trace
        → HeldWasTagged volume events posts trace
        → ChoosesRightFrom volume events posts [] trace }
    ensures keeps { (volume : Volume) (events : List Event) (posts : List Posted) (trace : List TraceStep)
        → IsWithinLimits (record { volume = volume; events = events })
        → Follows events posts trace
        → NoCollision volume events posts trace
        → HeldWasTagged volume events posts trace
        → KeepsChoiceFrom volume events posts [] trace
        → KeepsAcknowledged volume.geometry events (lines_due volume events posts trace) }
{}
