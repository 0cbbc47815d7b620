ghost use Rattle.std.specs.Prelude.{◌≡◌, ◌==◌, ◌↔◌, ◌⊎◌, ◌∷◌, [], map, string_bytes};
ghost use Rattle.salus_io.specs.Faults.{StaysSure};
ghost use Rattle.salus_types.specs.Outcome.{Rose};
ghost use Rattle.merkle_region.specs.Tree.{IsAmong};
ghost use Rattle.salus_commands.specs.Words.{IsCommand, AreWords};
ghost use Rattle.salus_commands.specs.Replaying.{empty_report};
ghost use Rattle.salus_commands.specs.Statuses.{HasRefused, WroteRefusal};
ghost use Rattle.salus_commands.specs.Doing.{HasDone, HasFewRounds, HasInput, HasWrittenPart, IsReplay, ReadsNothing};

use crate::printing::print_generated;
use crate::report::Report;
use crate::running::{replay_source, try_generated};
use crate::status::USAGE;
use crate::words::{Command, command_of};
use salus_io::{Sink, Source};
use std::alloc::Global;

/// Does a command. What each status says is said at `salus`.
fn do_command<S: Source, K: Sink>(
    alloc: Global,
    command: Command,
    source: &mut S,
    sink: &mut K,
    report: &mut Report,
) -> u8
    requires nothing { report.old ≡ empty_report }
    requires few { HasFewRounds command }
    ensures done { result ≡ 0 → HasDone command (S.left source.old) (S.left source.new) report.new (K.held sink.old) (K.held sink.new) }
    ensures unread { ReadsNothing command → source.new ≡ source.old }
    ensures replay { result ≡ 3 → IsReplay command }
    ensures refused { result ≡ 3 → WroteRefusal (S.left source.old) (S.left source.new) (K.held sink.old) (K.held sink.new) }
    ensures refused_report { result ≡ 3 → report.new ≡ report.old }
    ensures read_fault { result ≡ 4 → Rose (S.faults source.old) (S.faults source.new) × (sink.new ≡ sink.old) × (report.new ≡ report.old) }
    ensures read_count { (result ≡ 4 → ⊥) → S.faults source.new ≡ S.faults source.old }
    ensures write_fault { result ≡ 5 → Rose (K.faults sink.old) (K.faults sink.new) }
    ensures write_count { (result ≡ 5 → ⊥) → K.faults sink.new ≡ K.faults sink.old }
    ensures part { result ≡ 5 → HasWrittenPart command (S.left source.old) (S.left source.new) report.new (K.held sink.old) (K.held sink.new) }
    ensures memory { result ≡ 6 → (sink.new ≡ sink.old) × (report.new ≡ report.old)
        ⊎ HasWrittenPart command (S.left source.old) (S.left source.new) report.new (K.held sink.old) (K.held sink.new) }
    ensures sure_source { StaysSure (S.failing source.old) (S.failing source.new) (result == 4) }
    ensures sure_sink { StaysSure (K.failing sink.old) (K.failing sink.new) (result == 5) }
    ensures others { IsAmong result (0 ∷ 3 ∷ 4 ∷ 5 ∷ 6 ∷ []) }
{
    match command {
        Command::Replay => replay_source(alloc, source, sink, report),
        Command::Generate { seed, rounds } => print_generated(alloc, seed, rounds, sink),
        Command::Trial { seed, rounds } => try_generated(alloc, seed, rounds, sink, report),
    }
}

/// Does what the words say, and gives the status that the program ends with. The report is empty before.
///
/// 0: the command is done: the lines of the run, the text of the schedule, or the summary of the run are written. 2: the words
/// are no command. 3: the text is no schedule, and the line `error L C` is written, with the number of its first wrong line and
/// the cause. 4: the source failed. 5: the sink failed, and holds a front part of the text. 6: there was no
/// memory; the sink holds nothing more than before, or a front part of the text.
///
/// What holds of a run, be it a replay's or a trial's, is said once (`Replays`, with `IsRun`). It follows the schedule, nodes and
/// client go by their rules, and, where no two different strings seen share a digest and no lie brings a forged tag: its lines are
/// those due, and a legal history of one array; where each group keeps a server that counts, nothing acknowledged is lost, and the
/// disks that the run leaves have all of it; a read that has a sound server ends beside lies; and a quiet run is complete.
pub fn salus<S: Source, K: Sink>(
    alloc: Global,
    words: &Vec<String>,
    source: &mut S,
    sink: &mut K,
    report: &mut Report,
) -> u8
    requires { report.old ≡ empty_report }

    // 2 exactly where the words are those of no command, and nothing is touched then.
    ensures words { (result ≡ 2) ↔ (AreWords (map (λ w. string_bytes w) words.now.items) → ⊥) }
    ensures untouched { result ≡ 2 → (source.new ≡ source.old) × (sink.new ≡ sink.old) × (report.new ≡ report.old) }

    // 0: the command is done, and the sink got its text. Of a replay the source was read to its end and had a schedule,
    // and the report is of a run of it. Of a trial the report is of a run of the schedule of its seed.
    ensures done { (c : Command) → IsCommand (map (λ w. string_bytes w) words.now.items) c → result ≡ 0
        → HasDone c (S.left source.old) (S.left source.new) report.new (K.held sink.old) (K.held sink.new) }

    // Only a replay reads.
    ensures unread { (c : Command) → IsCommand (map (λ w. string_bytes w) words.now.items) c → ReadsNothing c → source.new ≡ source.old }

    // 3 comes of a replay: the text is no schedule's, and its first wrong line with the cause was written.
    ensures replay { (c : Command) → IsCommand (map (λ w. string_bytes w) words.now.items) c → result ≡ 3 → IsReplay c }
    ensures refused { result ≡ 3 → WroteRefusal (S.left source.old) (S.left source.new) (K.held sink.old) (K.held sink.new) }
    ensures refused_report { result ≡ 3 → report.new ≡ report.old }

    // 4 and 5 only where a count rose, and no other status where one did; at 5 the sink holds a front part of the text.
    ensures read_fault { result ≡ 4 → Rose (S.faults source.old) (S.faults source.new) × (sink.new ≡ sink.old) × (report.new ≡ report.old) }
    ensures read_count { (result ≡ 4 → ⊥) → S.faults source.new ≡ S.faults source.old }
    ensures write_fault { result ≡ 5 → Rose (K.faults sink.old) (K.faults sink.new) }
    ensures write_count { (result ≡ 5 → ⊥) → K.faults sink.new ≡ K.faults sink.old }
    ensures part { (c : Command) → IsCommand (map (λ w. string_bytes w) words.now.items) c → result ≡ 5
        → HasWrittenPart c (S.left source.old) (S.left source.new) report.new (K.held sink.old) (K.held sink.new) }

    // 6: sink and report are as they were, or the sink holds a front part of the text.
    ensures memory { (c : Command) → IsCommand (map (λ w. string_bytes w) words.now.items) c → result ≡ 6 → (sink.new ≡ sink.old) × (report.new ≡ report.old)
        ⊎ HasWrittenPart c (S.left source.old) (S.left source.new) report.new (K.held sink.old) (K.held sink.new) }

    // A source that is known to fail at no call gives no 4, and such a sink no 5.
    ensures sure_source { StaysSure (S.failing source.old) (S.failing source.new) (result == 4) }
    ensures sure_sink { StaysSure (K.failing sink.old) (K.failing sink.new) (result == 5) }

    // With no fault counted a command is done, a replay where the source has a schedule, unless there was no memory; and a
    // replay of a text that is refused is refused.
    ensures complete { (c : Command) → IsCommand (map (λ w. string_bytes w) words.now.items) c → HasInput c (S.left source.old)
        → (Rose (S.faults source.old) (S.faults source.new) → ⊥) → (Rose (K.faults sink.old) (K.faults sink.new) → ⊥) → (result ≡ 0) ⊎ (result ≡ 6) }
    ensures refuses { (c : Command) → IsCommand (map (λ w. string_bytes w) words.now.items) c → IsReplay c → HasRefused (S.left source.old)
        → (Rose (S.faults source.old) (S.faults source.new) → ⊥) → (Rose (K.faults sink.old) (K.faults sink.new) → ⊥) → (result ≡ 3) ⊎ (result ≡ 6) }
    ensures others { IsAmong result (0 ∷ 2 ∷ 3 ∷ 4 ∷ 5 ∷ 6 ∷ []) }
{
    match command_of(words) {
        Some(command) => do_command(alloc, command, source, sink, report),
        None => USAGE,
    }
}
