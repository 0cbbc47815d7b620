ghost use Rattle.std.specs.Prelude.{◌≡◌, ◌==◌, ◌≤◌, ◌<◌, ◌∷◌, [], length};
ghost use Rattle.salus_io.specs.Told.{Appends, AppendsPrefix};
ghost use Rattle.salus_io.specs.Faults.{StaysSure};
ghost use Rattle.salus_types.specs.Outcome.{Rose};
ghost use Rattle.printed_lines.specs.LineText.{text_of};
ghost use Rattle.merkle_region.specs.Tree.{IsAmong};
ghost use Rattle.schedule_text.specs.Printing.{printed};
ghost use Rattle.schedule_generator.specs.Generator.{generated};
ghost use Rattle.run_summary.specs.Counting.{summary_text};
ghost use Rattle.salus_commands.specs.Refusing.{refusal_text};

use crate::refusal::text_of_refusal;
use crate::report::Report;
use crate::status::{DONE, NO_MEMORY, REFUSED, SINK_FAILED};
use printed_lines::text_of_lines;
use run_summary::summary_of;
use salus_io::{Sink, SinkFault, write_all};
use schedule_generator::generated_text;
use schedule_text::ScheduleError;
use std::alloc::Global;

/// Writes a text, and gives the status `done` where all of it was taken.
pub(crate) fn print<K: Sink>(sink: &mut K, text: &[u8], done: u8) -> u8
    requires { done < 5 }
    ensures done { result ≡ done → Appends (K.held sink.old) (K.held sink.new) text.now }
    ensures failed { result ≡ 5 → Rose (K.faults sink.old) (K.faults sink.new) }
    ensures counted { (result ≡ 5 → ⊥) → K.faults sink.new ≡ K.faults sink.old }
    ensures part { AppendsPrefix (K.held sink.old) (K.held sink.new) text.now }
    ensures sure { StaysSure (K.failing sink.old) (K.failing sink.new) (result == 5) }
    ensures others { IsAmong result (done ∷ 5 ∷ 6 ∷ []) }
{
    match write_all(sink, text) {
        Ok(()) => done,
        Err(SinkFault::Failed) => SINK_FAILED,
        Err(SinkFault::NoMemory) => NO_MEMORY,
    }
}

/// Answers a text that isn't run.
pub(crate) fn refuse<K: Sink>(alloc: Global, refusal: ScheduleError, sink: &mut K) -> u8
    ensures written { result ≡ 3 → Appends (K.held sink.old) (K.held sink.new) (refusal_text refusal) }
    ensures failed { result ≡ 5 → Rose (K.faults sink.old) (K.faults sink.new) }
    ensures counted { (result ≡ 5 → ⊥) → K.faults sink.new ≡ K.faults sink.old }
    ensures part { AppendsPrefix (K.held sink.old) (K.held sink.new) (refusal_text refusal) }
    ensures sure { StaysSure (K.failing sink.old) (K.failing sink.new) (result == 5) }
    ensures others { IsAmong result (3 ∷ 5 ∷ 6 ∷ []) }
{
    match text_of_refusal(alloc, &refusal) {
        Ok(text) => print(sink, text.as_bytes(), REFUSED),
        Err(_) => NO_MEMORY,
    }
}

/// Writes the text of a run's lines.
pub(crate) fn print_lines<K: Sink>(alloc: Global, report: &Report, sink: &mut K) -> u8
    ensures written { result ≡ 0 → Appends (K.held sink.old) (K.held sink.new) (text_of report.now.lines) }
    ensures failed { result ≡ 5 → Rose (K.faults sink.old) (K.faults sink.new) }
    ensures counted { (result ≡ 5 → ⊥) → K.faults sink.new ≡ K.faults sink.old }
    ensures part { AppendsPrefix (K.held sink.old) (K.held sink.new) (text_of report.now.lines) }
    ensures sure { StaysSure (K.failing sink.old) (K.failing sink.new) (result == 5) }
    ensures others { IsAmong result (0 ∷ 5 ∷ 6 ∷ []) }
{
    match text_of_lines(alloc, &report.lines) {
        Ok(lines) => print(sink, lines.as_slice(), DONE),
        Err(_) => NO_MEMORY,
    }
}

/// Writes the summary of a run of so many events.
pub(crate) fn print_summary<K: Sink>(
    alloc: Global,
    events: usize,
    report: &Report,
    sink: &mut K,
) -> u8
    ensures written { result ≡ 0 → Appends (K.held sink.old) (K.held sink.new) (summary_text events report.now.lines) }
    ensures failed { result ≡ 5 → Rose (K.faults sink.old) (K.faults sink.new) }
    ensures counted { (result ≡ 5 → ⊥) → K.faults sink.new ≡ K.faults sink.old }
    ensures part { AppendsPrefix (K.held sink.old) (K.held sink.new) (summary_text events report.now.lines) }
    ensures sure { StaysSure (K.failing sink.old) (K.failing sink.new) (result == 5) }
    ensures others { IsAmong result (0 ∷ 5 ∷ 6 ∷ []) }
{
    match summary_of(alloc, events, &report.lines) {
        Ok(summary) => print(sink, summary.as_slice(), DONE),
        Err(_) => NO_MEMORY,
    }
}

/// Writes the text of the schedule of that seed.
pub(crate) fn print_generated<K: Sink>(alloc: Global, seed: u64, rounds: u64, sink: &mut K) -> u8
    requires { rounds ≤ 10000 }
    ensures written { result ≡ 0 → Appends (K.held sink.old) (K.held sink.new) (printed (generated seed rounds)) }
    ensures failed { result ≡ 5 → Rose (K.faults sink.old) (K.faults sink.new) }
    ensures counted { (result ≡ 5 → ⊥) → K.faults sink.new ≡ K.faults sink.old }
    ensures part { AppendsPrefix (K.held sink.old) (K.held sink.new) (printed (generated seed rounds)) }
    ensures sure { StaysSure (K.failing sink.old) (K.failing sink.new) (result == 5) }
    ensures others { IsAmong result (0 ∷ 5 ∷ 6 ∷ []) }
{
    match generated_text(alloc, seed, rounds) {
        Ok(schedule) => print(sink, schedule.as_slice(), DONE),
        Err(_) => NO_MEMORY,
    }
}
