ghost use Rattle.std.specs.Prelude.{◌≡◌, IfOk, string_bytes};
ghost use Rattle.salus_commands.specs.Refusing.{refusal_text};

use salus_types::NoMemory;
use schedule_text::ScheduleError;
use std::alloc::Global;

/// The one line that answers a text which is no schedule, with its end: the number of the first wrong line and the cause.
pub(crate) fn text_of_refusal(alloc: Global, refusal: &ScheduleError) -> Result<String, NoMemory>
    ensures { IfOk result (λ text. string_bytes text ≡ refusal_text refusal.now) }
{
    Ok(format!(in alloc; "error {} {}\n", refusal.line, refusal.cause)?)
}
