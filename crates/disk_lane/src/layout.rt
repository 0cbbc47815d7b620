ghost use Rattle.std.specs.Prelude.{◌≡◌, ◌<◌, ◌≤◌, ◌+◌, ◌^◌};
ghost use Rattle.disk_lane.specs.Lanes.{place, count, page_rest};

/// How many bytes stand before the pages.
pub const HEAD: u64 = 16;

/// Where the byte stands that names the live lane.
pub const SELECTOR: u64 = 8;

/// How many bytes a page has.
pub const PAGE: u64 = 4096;

/// Where a byte of a lane stands in the file.
#[tactic(auto, unfolding(crate::specs::Lanes::place))]
pub fn place_of(lane: u64, i: u64) -> u64
    requires lane { lane < 2 }
    requires fits { place lane i < 2 ^ 64 }
    ensures { result ≡ place lane i }
{
    HEAD + lane * PAGE + i / PAGE * (2 * PAGE) + i % PAGE
}

/// How many bytes of a lane stand before this place of the file.
#[tactic(auto, unfolding(crate::specs::Lanes::count))]
pub fn count_of(lane: u64, n: u64) -> u64
    requires lane { lane < 2 }
    ensures { result ≡ count lane n }
{
    let rest = n.saturating_sub(HEAD + lane * PAGE);
    rest / (2 * PAGE) * PAGE + (rest % (2 * PAGE)).min(PAGE)
}

/// How many bytes there are from this one of a lane to the end of its page.
#[tactic(auto, unfolding(crate::specs::Lanes::page_rest))]
pub fn page_rest_of(i: u64) -> u64
    ensures { result ≡ page_rest i }
{
    PAGE - i % PAGE
}
