ghost use Rattle.std.specs.Prelude.{◌≡◌, ◌==◌, ◌⊎◌, ◌≤◌, ◌∷◌, [], length};
ghost use Rattle.salus_io.specs.Told.{Appends, AppendsPrefix, IsAtEnd};
ghost use Rattle.salus_io.specs.Faults.{StaysSure};
ghost use Rattle.salus_types.specs.Outcome.{Rose};
ghost use Rattle.printed_lines.specs.LineText.{text_of};
ghost use Rattle.merkle_region.specs.Tree.{IsAmong};
ghost use Rattle.schedule_text.specs.Limits.{IsWithinLimits};
ghost use Rattle.schedule_generator.specs.Generator.{generated};
ghost use Rattle.run_summary.specs.Counting.{summary_text};
ghost use Rattle.salus_commands.specs.Replaying.{empty_report, Replays, RanText, RanSchedule};
ghost use Rattle.salus_commands.specs.Statuses.{RefusedText, PartOfText, WroteRefusal, WrotePart};
ghost use Rattle.salus_commands.specs.Doing.{trial_text};

use crate::printing::{print_lines, print_summary, refuse};
use crate::replay::replay;
use crate::report::Report;
use crate::status::{NO_MEMORY, SOURCE_FAILED};
use salus_io::{ReadError, Sink, Source, read_whole};
use schedule_generator::generate;
use schedule_text::{Cause, ParseError, Schedule, ScheduleError, parse};
use std::alloc::Global;

// How many bytes the text of a schedule may have, and what one of more is refused for.
const MOST_BYTES: usize = 67_108_864;

const TOO_LONG: ScheduleError = ScheduleError {
    line: 0,
    cause: Cause::Long,
};

/// Runs a schedule, and writes the text of its lines.
fn run<K: Sink>(alloc: Global, schedule: Schedule, sink: &mut K, report: &mut Report) -> u8
    requires { IsWithinLimits schedule }
    ensures replays { (result ≡ 0) ⊎ (result ≡ 5) → Replays schedule report.new }
    ensures written { result ≡ 0 → Appends (K.held sink.old) (K.held sink.new) (text_of report.new.lines) }
    ensures failed { result ≡ 5 → Rose (K.faults sink.old) (K.faults sink.new) }
    ensures counted { (result ≡ 5 → ⊥) → K.faults sink.new ≡ K.faults sink.old }
    ensures part { result ≡ 5 → AppendsPrefix (K.held sink.old) (K.held sink.new) (text_of report.new.lines) }
    ensures memory { result ≡ 6 → (sink.new ≡ sink.old) × (report.new ≡ report.old)
        ⊎ Replays schedule report.new × AppendsPrefix (K.held sink.old) (K.held sink.new) (text_of report.new.lines) }
    ensures sure { StaysSure (K.failing sink.old) (K.failing sink.new) (result == 5) }
    ensures others { IsAmong result (0 ∷ 5 ∷ 6 ∷ []) }
{
    match replay(alloc, schedule) {
        Ok(ran) => {
            *report = ran;
            print_lines(alloc, report, sink)
        }
        Err(_) => NO_MEMORY,
    }
}

/// Answers the bytes of a source: runs the schedule, or refuses the text.
fn answer<K: Sink>(alloc: Global, text: &[u8], sink: &mut K, report: &mut Report) -> u8
    requires { report.old ≡ empty_report }
    ensures ran { result ≡ 0 → RanText text.now report.new }
    ensures written { result ≡ 0 → Appends (K.held sink.old) (K.held sink.new) (text_of report.new.lines) }
    ensures refused { result ≡ 3 → RefusedText text.now (K.held sink.old) (K.held sink.new) }
    ensures failed { result ≡ 5 → Rose (K.faults sink.old) (K.faults sink.new) }
    ensures counted { (result ≡ 5 → ⊥) → K.faults sink.new ≡ K.faults sink.old }
    ensures part { result ≡ 5 → PartOfText text.now report.new (K.held sink.old) (K.held sink.new) }
    ensures memory { result ≡ 6 → (sink.new ≡ sink.old) × (report.new ≡ report.old)
        ⊎ PartOfText text.now report.new (K.held sink.old) (K.held sink.new) }
    ensures kept { result ≡ 3 → report.new ≡ report.old }
    ensures sure { StaysSure (K.failing sink.old) (K.failing sink.new) (result == 5) }
    ensures others { IsAmong result (0 ∷ 3 ∷ 5 ∷ 6 ∷ []) }
{
    match parse(alloc, text) {
        Ok(schedule) => run(alloc, schedule, sink, report),
        Err(ParseError::Refused(refusal)) => refuse(alloc, refusal, sink),
        Err(ParseError::NoMemory) => NO_MEMORY,
    }
}

/// Replays the schedule that the source has.
pub(crate) fn replay_source<S: Source, K: Sink>(
    alloc: Global,
    source: &mut S,
    sink: &mut K,
    report: &mut Report,
) -> u8
    requires { report.old ≡ empty_report }
    ensures ran { result ≡ 0 → RanSchedule (S.left source.old) report.new }
    ensures whole { result ≡ 0 → IsAtEnd (S.left source.new) }
    ensures written { result ≡ 0 → Appends (K.held sink.old) (K.held sink.new) (text_of report.new.lines) }
    ensures refused { result ≡ 3 → WroteRefusal (S.left source.old) (S.left source.new) (K.held sink.old) (K.held sink.new) }
    ensures refused_report { result ≡ 3 → report.new ≡ report.old }
    ensures read_fault { result ≡ 4 → Rose (S.faults source.old) (S.faults source.new) × (sink.new ≡ sink.old) × (report.new ≡ report.old) }
    ensures read_count { (result ≡ 4 → ⊥) → S.faults source.new ≡ S.faults source.old }
    ensures write_fault { result ≡ 5 → Rose (K.faults sink.old) (K.faults sink.new) }
    ensures write_count { (result ≡ 5 → ⊥) → K.faults sink.new ≡ K.faults sink.old }
    ensures part { result ≡ 5 → WrotePart (S.left source.old) (S.left source.new) report.new (K.held sink.old) (K.held sink.new) }
    ensures memory { result ≡ 6 → (sink.new ≡ sink.old) × (report.new ≡ report.old)
        ⊎ WrotePart (S.left source.old) (S.left source.new) report.new (K.held sink.old) (K.held sink.new) }
    ensures sure_source { StaysSure (S.failing source.old) (S.failing source.new) (result == 4) }
    ensures sure_sink { StaysSure (K.failing sink.old) (K.failing sink.new) (result == 5) }
    ensures others { IsAmong result (0 ∷ 3 ∷ 4 ∷ 5 ∷ 6 ∷ []) }
{
    match read_whole(alloc, source, MOST_BYTES) {
        Ok(text) => answer(alloc, text.as_slice(), sink, report),
        Err(ReadError::TooLong) => refuse(alloc, TOO_LONG, sink),
        Err(ReadError::Failed) => SOURCE_FAILED,
        Err(ReadError::NoMemory) => NO_MEMORY,
    }
}

/// Runs a schedule, and writes the summary of its lines.
fn summarize<K: Sink>(alloc: Global, schedule: Schedule, sink: &mut K, report: &mut Report) -> u8
    requires { IsWithinLimits schedule }
    ensures replays { (result ≡ 0) ⊎ (result ≡ 5) → Replays schedule report.new }
    ensures written { result ≡ 0 → Appends (K.held sink.old) (K.held sink.new) (summary_text (length schedule.events) report.new.lines) }
    ensures failed { result ≡ 5 → Rose (K.faults sink.old) (K.faults sink.new) }
    ensures counted { (result ≡ 5 → ⊥) → K.faults sink.new ≡ K.faults sink.old }
    ensures part { result ≡ 5 → AppendsPrefix (K.held sink.old) (K.held sink.new) (summary_text (length schedule.events) report.new.lines) }
    ensures memory { result ≡ 6 → (sink.new ≡ sink.old) × (report.new ≡ report.old)
        ⊎ Replays schedule report.new × AppendsPrefix (K.held sink.old) (K.held sink.new) (summary_text (length schedule.events) report.new.lines) }
    ensures sure { StaysSure (K.failing sink.old) (K.failing sink.new) (result == 5) }
    ensures others { IsAmong result (0 ∷ 5 ∷ 6 ∷ []) }
{
    let events = schedule.events.len();
    match replay(alloc, schedule) {
        Ok(ran) => {
            *report = ran;
            print_summary(alloc, events, report, sink)
        }
        Err(_) => NO_MEMORY,
    }
}

/// Runs the schedule of that seed, and writes the summary of its lines.
pub(crate) fn try_generated<K: Sink>(
    alloc: Global,
    seed: u64,
    rounds: u64,
    sink: &mut K,
    report: &mut Report,
) -> u8
    requires { rounds ≤ 10000 }
    ensures replays { (result ≡ 0) ⊎ (result ≡ 5) → Replays (generated seed rounds) report.new }
    ensures written { result ≡ 0 → Appends (K.held sink.old) (K.held sink.new) (trial_text seed rounds report.new) }
    ensures failed { result ≡ 5 → Rose (K.faults sink.old) (K.faults sink.new) }
    ensures counted { (result ≡ 5 → ⊥) → K.faults sink.new ≡ K.faults sink.old }
    ensures part { result ≡ 5 → AppendsPrefix (K.held sink.old) (K.held sink.new) (trial_text seed rounds report.new) }
    ensures memory { result ≡ 6 → (sink.new ≡ sink.old) × (report.new ≡ report.old)
        ⊎ Replays (generated seed rounds) report.new × AppendsPrefix (K.held sink.old) (K.held sink.new) (trial_text seed rounds report.new) }
    ensures sure { StaysSure (K.failing sink.old) (K.failing sink.new) (result == 5) }
    ensures others { IsAmong result (0 ∷ 5 ∷ 6 ∷ []) }
{
    match generate(alloc, seed, rounds) {
        Ok(schedule) => summarize(alloc, schedule, sink, report),
        Err(_) => NO_MEMORY,
    }
}
