//! Batches that are acknowledged, and barriers that are answered.
ghost use Rattle.std.specs.Prelude.{◌≡◌, ◌++◌, ◌∷◌, ◌≤◌, [], drop, length, IfNone, IfSome, MatchOption, OnOk, ℕ};
ghost use Rattle.client_rules.specs.State.{Serving};
ghost use Rattle.client_window.specs.Answering.{due_ack, due_lines, still_waiting, IsFirstAck, NoAck};
ghost use Rattle.client_window.specs.Standing.{StandsFor as WindowStandsFor};

use client_window::Window;
use printed_lines::Line;
use salus_types::{NoMemory, Records};
use std::collections::VecDeque;

/// Takes out every barrier that is due, the oldest first, and adds its line.
pub fn answer_barriers(window: &mut Window, lines: &mut Vec<Line>) -> Result<(), NoMemory>
    ensures lines { OnOk result (lines.new.items ≡ lines.old.items ++ due_lines window.old.acked window.old.barriers) }
    ensures waiting { OnOk result (window.new.barriers ≡ still_waiting window.old.acked window.old.barriers) }
    ensures others { window.new ≡ record window.old { barriers = window.new.barriers } }
    ensures fewer { length window.new.barriers ≤ length window.old.barriers }
{
    'due: while let Some((event, front)) = window.next_barrier() {
        lines.push(Line::Barrier { event, seq: front })?;
    }
    Ok(())
}

/// Acknowledges the next batch where every replica of its leader claims it, and drops its parts.
pub fn acknowledge(window: &mut Window, parts: &mut VecDeque<Records>) -> Option<u64>
    ensures given { result ≡ due_ack window.old }
    ensures raised { IfSome result (λ s. window.new ≡ record window.old { acked = s; leaders = drop 1 window.old.leaders }) }
    ensures dropped { IfSome result (λ s. parts.new.items ≡ drop 1 parts.old.items) }
    ensures none { IfNone result (window.new ≡ window.old) }
    ensures kept { IfNone result (parts.new.items ≡ parts.old.items) }
    ensures first { (c : Serving) → WindowStandsFor window.old c → MatchOption result (NoAck window.old.shape c) (IsFirstAck window.old.shape c) }
{
    let number = window.next_ack()?;
    let _ = parts.pop_front();
    Some(number)
}
