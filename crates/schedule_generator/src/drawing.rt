ghost use Rattle.std.specs.Prelude.{◌≡◌, ◌<◌};
ghost use Rattle.schedule_generator.specs.Generator.{next_state, drawn_block, drawn_byte};

// The linear congruential generator modulo 2^64 that Knuth gives for MMIX.
const MULTIPLIER: u64 = 6_364_136_223_846_793_005;

const INCREMENT: u64 = 1_442_695_040_888_963_407;

/// The state after this one.
#[tactic(auto, unfolding(crate::specs::Generator::next_state))]
pub fn next_state(state: u64) -> u64
    ensures { result ≡ next_state state }
{
    state.wrapping_mul(MULTIPLIER).wrapping_add(INCREMENT)
}

/// The number of the block that is drawn in a state.
pub fn drawn_block(state: u64) -> u64
    ensures value { result ≡ drawn_block state }
    ensures bound { result < 4096 }
{
    (state >> 33) % 4096
}

/// The byte that is drawn in a state.
pub fn drawn_byte(state: u64) -> u8
    ensures { result ≡ drawn_byte state }
{
    ((state >> 50) % 256) as u8
}
