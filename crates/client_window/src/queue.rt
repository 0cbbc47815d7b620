ghost use Rattle.std.specs.Prelude.{◌≡◌, slice_get};

use std::collections::VecDeque;

/// The oldest value of a queue.
pub fn oldest<T: Copy>(queue: &VecDeque<T>) -> Option<T>
    ensures { result ≡ slice_get queue.now.items 0 }
{
    queue.front().copied()
}
