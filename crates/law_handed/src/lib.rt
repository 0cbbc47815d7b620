//! Laws of nodes that go by their rules: what a node holds and shows was handed to it, and what stands behind its messages
//! stays. Its calls do nothing; their clauses are the laws.
#![tactic(auto)]

ghost use Rattle.std.specs.Prelude.{◌≡◌, ◌<◌, Bool, List, [], ◌++◌};
ghost use Rattle.std.specs.List.{AllByRecursion};
ghost use Rattle.salus_types.specs.Volume.{Shape, regions};
ghost use Rattle.salus_types.specs.declared.names.NodeName.{NodeName};
ghost use Rattle.salus_types.specs.declared.records.Held.{Held};
ghost use Rattle.salus_types.specs.declared.records.Record.{Record};
ghost use Rattle.schedule_text.specs.declared.schedule.Volume.{Volume};
ghost use Rattle.volume_model.specs.Parts.{base_of};
ghost use Rattle.salus_model.specs.declared.trace.Handed.{Handed};
ghost use Rattle.salus_model.specs.declared.trace.TraceStep.{TraceStep};
ghost use Rattle.salus_model.specs.Following.{Posted};
ghost use Rattle.salus_model.specs.Licences.{letters_in, letters_to, IsLicensed};
ghost use Rattle.run_rules.specs.Knowing.{after_handed, fresh, outs_to};
ghost use Rattle.run_rules.specs.Running.{known_of, AllSteps, new_session, formatted};
ghost use Rattle.law_handed.specs.Bringing.{HeldWasHanded, TellsWhatWasHanded};
ghost use Rattle.law_handed.specs.Licensing.{BeginsFormatted, IsBacked, moments_of};
ghost use Rattle.law_handed.specs.Lasting.{AllStand, told_of};

/// Does nothing. After any steps of a node by its rules, from whatever it held at first: each record in each of the
/// contents that its disk may mean was handed to it in the client's name, or was held at first; and so was each record in
/// what it shows as held, whatever it is handed next.
pub fn nodes_hold_what_was_handed()
    ensures held { (first : Held) (shape : Shape) (posts : List Posted) (name : NodeName) (steps : List TraceStep)
        → AllSteps shape posts name (fresh shape name.region first) 0 steps
        → AllByRecursion (HeldWasHanded first (letters_to posts name steps)) (known_of shape posts name (fresh shape name.region first) steps).contents }
    ensures shown { (first : Held) (shape : Shape) (posts : List Posted) (name : NodeName) (steps : List TraceStep)
        → AllSteps shape posts name (fresh shape name.region first) 0 steps
        → (what : Handed) (failed : Bool)
        → AllByRecursion (λ out. TellsWhatWasHanded first (letters_to posts name steps) out.message)
        (outs_to shape name.region posts (known_of shape posts name (fresh shape name.region first) steps) what failed) }
{}

/// Does nothing. After any steps of a node by its rules, from whatever it held at first: what stands behind the votes that
/// it sent since it was last replaced, and behind what it said of staging and switching, is in each of the contents that its
/// disk may mean. And what it sends in the next step, whatever it is handed, has its licence then, where it held at first
/// the formatted base or nothing: each vote is for a part that the client handed over and that is held, each claim is of a
/// batch that is certified by what was handed over, or of a folded base, each answer's path leads to the root of a record
/// of its session, region and number that the client handed over or that is the formatted base's, and so do dumped blocks,
/// and what it says when it gathers, stages and switches is so. It sends nothing else. All but answers and dumped blocks
/// have it from whatever bases the node held at first. A formatted node of a volume holds the formatted base.
pub fn nodes_keep_what_they_told()
    ensures stands { (shape : Shape) (posts : List Posted) (name : NodeName) (first : Held) (steps : List TraceStep)
        → AllSteps shape posts name (fresh shape name.region first) 0 steps
        → AllByRecursion (AllStand (told_of shape posts name (fresh shape name.region first) [] steps)) (known_of shape posts name (fresh shape name.region first) steps).contents }
    ensures licensed { (shape : Shape) (posts : List Posted) (name : NodeName) (first : Held) (steps : List TraceStep)
        → AllSteps shape posts name (fresh shape name.region first) 0 steps
        → (formatted : Record) → BeginsFormatted shape formatted first
        → (what : Handed) (failed : Bool)
        → AllByRecursion (λ out. IsLicensed shape (letters_to posts name steps ++ letters_in posts what) formatted
        (moments_of shape posts name (fresh shape name.region first) steps)
        (λ P. AllByRecursion P (after_handed shape name.region posts (known_of shape posts name (fresh shape name.region first) steps) what failed).contents) name.region out.message)
        (outs_to shape name.region posts (known_of shape posts name (fresh shape name.region first) steps) what failed) }
    ensures formatted { (volume : Volume) (name : NodeName) → name.region < regions volume.geometry
        → BeginsFormatted volume.geometry (base_of volume.geometry volume.key (new_session volume.geometry) name.region) (formatted volume name) }
    ensures backed { (shape : Shape) (posts : List Posted) (name : NodeName) (first : Held) (steps : List TraceStep)
        → AllSteps shape posts name (fresh shape name.region first) 0 steps
        → first.parts ≡ []
        → (formatted : Record) (what : Handed) (failed : Bool)
        → AllByRecursion (λ out. IsBacked shape (letters_to posts name steps ++ letters_in posts what) formatted
        (moments_of shape posts name (fresh shape name.region first) steps)
        (λ P. AllByRecursion P (after_handed shape name.region posts (known_of shape posts name (fresh shape name.region first) steps) what failed).contents) name.region out.message)
        (outs_to shape name.region posts (known_of shape posts name (fresh shape name.region first) steps) what failed) }
{}
