//! The law of phases: each step of the client by the lines that are due is steps of the abstract client, and a batch is
//! submitted only where there is room for it.
#![tactic(auto)]

ghost use Rattle.std.specs.Prelude.{◌≡◌, ℕ, false, if◌then◌else◌, is_some, List, ◌∷◌, true};
ghost use Rattle.std.specs.List.{AllByRecursion};
ghost use Rattle.salus_types.specs.Volume.{Shape};
ghost use Rattle.printed_lines.specs.declared.line.Line.{Line};
ghost use Rattle.schedule_text.specs.Limits.{IsWithinLimits};
ghost use Rattle.schedule_text.specs.declared.schedule.Event.{Event};
ghost use Rattle.schedule_text.specs.declared.schedule.Volume.{Volume};
ghost use Rattle.salus_model.specs.declared.trace.TraceStep.{TraceStep};
ghost use Rattle.salus_model.specs.Due.{due_news};
ghost use Rattle.salus_model.specs.Hearing.{Gathering, News, Past, begins, judge_of, news_since, opens, phase_of};
ghost use Rattle.salus_model.specs.Guarding.{replaces};
ghost use Rattle.salus_model.specs.Judge.{AlongLines, IsLegalLine, Judge, judged_all, start_judge};
ghost use Rattle.salus_model.specs.Opening.{all_replied, pool_of, replies_to};
ghost use Rattle.volume_model.specs.Recovering.{choice_of};
ghost use Rattle.law_history.specs.Keeping.{IsChoiceKept};
ghost use Rattle.client_rules.specs.Rules.{new_client, ticked, told};
ghost use Rattle.client_rules.specs.State as state;
ghost use Rattle.law_prefix.specs.World.{Client, World};
ghost use Rattle.kept_model.specs.Counting.{counts_as, fresh_as};
ghost use Rattle.kept_model.specs.Nodes.{is_honest, node_of};
ghost use Rattle.kept_model.specs.Phases.{IsClientOf};
ghost use Rattle.law_phases.specs.Fronts.{AreFronts};
ghost use Rattle.law_phases.specs.Going.{GoesOn};
ghost use Rattle.law_phases.specs.Letters.{IsOfClient, KeepsLetters, TellsLetters};
ghost use Rattle.law_phases.specs.Moving.{IsMoved};
ghost use Rattle.law_phases.specs.Opening.{AreCountable, IsBefore};
ghost use Rattle.law_phases.specs.Ordered.{IsOrdered};
ghost use Rattle.law_phases.specs.Room.{Roomy, TellsRoomy};

/// Does nothing: its clauses are the laws. A step is steps of the abstract client, where the abstract world matched before it
/// (`moves`). Then a restart's choice keeps every acknowledged batch (`keeps`), and there is one (`never_lost`). Every session that legal lines make known has records that count (`begins`, `goes_on`); and the client's rules
/// submit a batch only where fewer than 16 wait (`first`, `room`). The abstract client's lists only grow (`onward`). Of the
/// client's letters parts have writes and bases have none, and it gathers and switches only in its own phase (`letters`). A node that isn't replaced in a step counts after it as
/// before, but where the step opens a session: then the nodes count that are fresh; and where it begins to open one, every node
/// is fresh in whose name no lie is told (`counting`).
pub fn client_steps_are_abstract()
    ensures moves { (volume : Volume) (events : List Event) (history : List Past) (step : TraceStep) (news : News) (w : World)
        → IsWithinLimits (record { volume = volume; events = events })
        → IsBefore volume events history step.event news w
        → IsMoved volume.geometry events history (record {
          step = step;
          news = news;
          before = judge_of volume.geometry events history;
          lines = due_news volume events history (judge_of volume.geometry events history) step.event news;
        }) w }
    ensures keeps { (volume : Volume) (events : List Event) (history : List Past) (v : ℕ) (news : News) (w : World)
        → IsWithinLimits (record { volume = volume; events = events })
        → IsBefore volume events history v news w → AreFronts (judge_of volume.geometry events history)
        → IsChoiceKept volume history (judge_of volume.geometry events history) news (phase_of history) }
    ensures never_lost { (volume : Volume) (events : List Event) (history : List Past) (v : ℕ) (news : News) (w : World) (e : ℕ)
        → IsWithinLimits (record { volume = volume; events = events })
        → IsBefore volume events history v news w → phase_of history ≡ Gathering e
        → all_replied volume.geometry (replies_to e (news ∷ news_since begins history)) ≡ true
        → is_some (choice_of volume.geometry (pool_of volume.geometry volume.key (replies_to e (news ∷ news_since begins history)))) ≡ true }
    ensures begins { (volume : Volume) (events : List Event) → IsWithinLimits (record { volume = volume; events = events })
        → AreCountable volume.geometry events (start_judge volume.geometry) }
    ensures goes_on { (volume : Volume) (events : List Event) (lines : List Line) (judge : Judge)
        → IsWithinLimits (record { volume = volume; events = events })
        → AlongLines (IsLegalLine volume.geometry events) events judge lines → AreCountable volume.geometry events judge
        → AreCountable volume.geometry events (judged_all events judge lines) }
    ensures onward { (volume : Volume) (events : List Event) (history : List Past) (p : Past) (c d : Client)
        → IsClientOf volume.geometry events history c → IsClientOf volume.geometry events (p ∷ history) d
        → p.before ≡ judge_of volume.geometry events history → AlongLines (IsLegalLine volume.geometry events) events p.before p.lines
        → AreCountable volume.geometry events p.before → AreCountable volume.geometry events (judge_of volume.geometry events (p ∷ history))
        → GoesOn c d }
    ensures first { (shape : Shape) → Roomy (new_client shape) }
    ensures counting { (shape : Shape) (events : List Event) (history : List Past) (p : Past) (r : ℕ) → IsOrdered history p → replaces (node_of shape r) p ≡ false
        → (counts_as shape events (p ∷ history) r ≡ (if opens p then fresh_as shape events history r else counts_as shape events history r))
        × (fresh_as shape events (p ∷ history) r ≡ (if begins p then is_honest shape events r else fresh_as shape events history r)) }
    ensures letters { (volume : Volume) (c : state.Client) (v : ℕ) (news : News) → KeepsLetters c
        → TellsLetters (told volume c v news) × AllByRecursion (λ l. IsOfClient c l.message) (ticked volume.geometry c) }
    ensures room { (volume : Volume) (c : state.Client) (v : ℕ) (news : News) → Roomy c → TellsRoomy c (told volume c v news) }
{}
