//! The choice among what a pool keeps: its headers are tried from the greatest downwards.
ghost use Rattle.std.specs.Prelude.{◌≡◌, true, Some, IfOk, IfSome, MatchOption, option_copied};
ghost use Rattle.merkle_region.specs.Tree.{IsAmong};
ghost use Rattle.volume_model.specs.Recovering.{is_above};
ghost use Rattle.volume_restart.specs.Choosing.{better, choice_by, chosen, is_below, is_like, ChoosesRight, IsChoice, IsFirstLike, IsNext, NotLike, NoneLike};

use restart_pool::Pool;
use salus_types::{Blocks, Digests, Header, NoMemory};
use std::alloc::Global;

/// What a restart chooses: the first so many batches of a session, and the contents after them with the root of each
/// region.
#[derive(Drop)]
pub struct Choice {
    pub session: u64,
    pub number: u64,
    pub roots: Digests,
    pub contents: Blocks,
}

/// Whether the header is of a later session, or of the same and of a greater number.
fn is_above(header: &Header, other: &Header) -> bool
    ensures { result ≡ is_above header.now (Some other.now) }
{
    other.session < header.session || other.session == header.session && other.seq < header.seq
}

/// Whether the header is below the one that was tried last.
fn is_below(header: &Header, tried: Option<&Header>) -> bool
    ensures { result ≡ is_below header.now (option_copied tried.entry) }
{
    match tried {
        Some(other) => is_above(other, header),
        None => true,
    }
}

/// Whether the header is above the best so far.
fn is_best(header: &Header, best: Option<&Header>) -> bool
    ensures { result ≡ is_above header.now (option_copied best.entry) }
{
    match best {
        Some(other) => is_above(header, other),
        None => true,
    }
}

/// The header, if it is below the one that was tried last and above the best so far, or else that one.
fn better<'a>(
    header: &'a Header,
    tried: Option<&'a Header>,
    best: Option<&'a Header>,
) -> Option<&'a Header>
    ensures { option_copied result ≡ better (option_copied tried.entry) (option_copied best.entry) header.now }
{
    if is_below(header, tried) && is_best(header, best) {
        Some(header)
    } else {
        best
    }
}

/// A greatest one of the headers that are below the one that was tried last.
fn next_below<'a>(headers: &'a [Header], tried: Option<&'a Header>) -> Option<&'a Header>
    ensures { IsNext headers.now (option_copied tried.entry) (option_copied result) }
{
    let mut best: Option<&'a Header> = None;
    'headers: for header in headers {
        best = better(header, tried, best);
    }
    best
}

/// Whether the two headers are of one session and number.
fn is_like(header: &Header, other: &Header) -> bool
    ensures { result ≡ is_like header.now other.now }
{
    header.session == other.session && header.seq == other.seq
}

/// The header with its contents, if it is recoverable.
fn choice_by(alloc: Global, pool: &Pool, header: &Header) -> Result<Option<Choice>, NoMemory>
    requires { IsAmong header.now pool.now.held.headers }
    ensures sound { IfOk result (λ found. IfSome found (IsChoice pool.now)) }
    ensures exact { IfOk result (λ found. ChoosesRight pool.now (found ≡ choice_by pool.now header.now)) }
{
    match pool.recovered(alloc, header)? {
        Some(contents) => Ok(Some(Choice {
            session: header.session,
            number: header.seq,
            roots: contents.roots,
            contents: contents.blocks,
        })),
        None => Ok(None),
    }
}

/// The header with its contents, if it is of this session and number and recoverable.
fn choice_like(
    alloc: Global,
    pool: &Pool,
    header: &Header,
    like: &Header,
) -> Result<Option<Choice>, NoMemory>
    requires { IsAmong header.now pool.now.held.headers }
    ensures sound { IfOk result (λ found. IfSome found (IsChoice pool.now)) }
    ensures exact { IfOk result (λ found. ChoosesRight pool.now (MatchOption found (NotLike pool.now like.now header.now) (λ choice. (is_like header.now like.now ≡ true) × (Some choice ≡ choice_by pool.now header.now)))) }
{
    if !is_like(header, like) {
        return Ok(None);
    }
    choice_by(alloc, pool, header)
}

/// The first of the headers of this session and number that is recoverable.
fn first_like(alloc: Global, pool: &Pool, like: &Header) -> Result<Option<Choice>, NoMemory>
    ensures sound { IfOk result (λ found. IfSome found (IsChoice pool.now)) }
    ensures exact { IfOk result (λ found. ChoosesRight pool.now (MatchOption found (NoneLike pool.now like.now) (IsFirstLike pool.now like.now))) }
{
    let headers = pool.headers();
    'headers: for header in headers {
        if let Some(choice) = choice_like(alloc, pool, header, like)? {
            return Ok(Some(choice));
        }
    }
    Ok(None)
}

/// The greatest header that is recoverable, with its contents: of equal ones the first to come.
pub fn choose(alloc: Global, pool: &Pool) -> Result<Option<Choice>, NoMemory>
    ensures sound { IfOk result (λ found. IfSome found (IsChoice pool.now)) }
    ensures exact { IfOk result (λ found. ChoosesRight pool.now (found ≡ chosen pool.now)) }
{
    let headers = pool.headers();
    let mut tried: Option<&Header> = None;
    'greatest: while let Some(header) = next_below(headers, tried) {
        if let Some(choice) = first_like(alloc, pool, header)? {
            return Ok(Some(choice));
        }
        tried = Some(header);
    }
    Ok(None)
}
