//! The client's window of batches. What its parts must say, byte by byte, was written by a program in Python from lists
//! of numbers and made-up roots; batches, claims and barriers follow lists made by hand.

ghost use Rattle.std.specs.Prelude.{◌≡◌, ◌<◌, All, IfSome, IsTrue, length};
ghost use Rattle.salus_types.specs.Volume.{blocks};
ghost use Rattle.client_tag.specs.Ranges.{IsRecord};
ghost use Rattle.client_window.specs.Window.{IsWriteOf};
ghost use Rattle.volume_model.specs.Parts.{touched_by};

use client_tag::payload;
use client_window::{Window, touched_regions};
use salus_hash::Digest;
use salus_types::{Batch, Digests, Geometry, Items, NoMemory, NodeName, Record, Regions, Write};
use std::alloc::Global;
use std::str::SplitWhitespace;
use std::test::*;

fn number(words: &mut SplitWhitespace) -> u64 {
    match words.next() {
        Some(word) => word.parse::<u64>().unwrap_or(u64::MAX),
        None => u64::MAX,
    }
}

fn bytes(alloc: Global, word: &str) -> Vec<u8> {
    hex::decode(alloc, word).unwrap_or(Vec::new(alloc))
}

/// A digest of one byte throughout.
fn plain(byte: u64) -> Digest {
    Digest::from_bytes([(byte % 256) as u8; 32])
}

/// The made-up root of a region after a batch.
fn root_after(seq: u64, region: u16) -> Digest {
    plain(seq % 16 * 16 + u64::from(region))
}

fn first_roots(alloc: Global, geometry: &Geometry) -> Result<Digests, NoMemory> {
    let mut roots = Items::new(alloc);
    'regions: for region in 0..geometry.regions() as u16 {
        roots.push(root_after(0, region))?;
    }
    Ok(roots)
}

fn window_with(alloc: Global, geometry: Geometry, roots: &Digests) -> Option<Window> {
    if roots.len() == geometry.regions() as usize {
        Window::new(alloc, geometry, 3, 4, roots).ok()
    } else {
        None
    }
}

/// Four regions of two blocks of two bytes, two replicas each; session 3 begins at number 4.
fn window(alloc: Global) -> Option<Window> {
    let geometry = Geometry::new(2, 1, 2, 2).ok()?;
    match first_roots(alloc, &geometry) {
        Ok(roots) => window_with(alloc, geometry, &roots),
        Err(NoMemory) => None,
    }
}

// ---- batches

/// The writes that the words spell, up to the word `=`.
fn batch(alloc: Global, words: &mut SplitWhitespace) -> Result<Batch, NoMemory> {
    let mut writes = Items::new(alloc);
    'writes: for _ in 0..64 {
        let Some(word) = words.next() else {
            return Ok(writes);
        };
        if word == "=" {
            return Ok(writes);
        }
        let block = word.parse::<u64>().unwrap_or(u64::MAX);
        let content = match words.next() {
            Some(content) => bytes(alloc, content),
            None => Vec::new(alloc),
        };
        writes.push(Write {
            block,
            bytes: Items::from_vec(content),
        })?;
    }
    Ok(writes)
}

/// Whether the write is of a block of the volume, and has its length.
fn is_in(geometry: &Geometry, write: &Write) -> bool
    ensures within { IsTrue result → write.now.block < blocks geometry.now }
    ensures long { IsTrue result → length write.now.bytes ≡ geometry.now.block }
{
    write.block < u64::from(geometry.blocks())
        && write.bytes.len() == geometry.block_size() as usize
}

/// Whether each write is.
fn are_in(geometry: &Geometry, writes: &[Write]) -> bool
    ensures { IsTrue result → All (IsWriteOf geometry.now) writes.now }
{
    'writes: for write in writes {
        if !is_in(geometry, write) {
            return false;
        }
    }
    true
}

/// Made-up roots for these regions.
fn made_roots(alloc: Global, seq: u64, touched: &Regions) -> Result<Digests, NoMemory> {
    let mut roots = Items::new(alloc);
    'regions: for region in touched.as_slice() {
        roots.push(root_after(seq, *region))?;
    }
    Ok(roots)
}

fn roots_for(alloc: Global, seq: u64, touched: &Regions) -> Option<Digests>
    ensures { IfSome result (λ roots. length roots ≡ length touched.now) }
{
    match made_roots(alloc, seq, touched) {
        Ok(roots) if roots.len() == touched.len() => Some(roots),
        _ => None,
    }
}

/// Made-up roots for the regions that the batch touches.
fn roots_of(alloc: Global, window: &Window, batch: &Batch) -> Option<Digests>
    ensures { IfSome result (λ roots. length roots ≡ length (touched_by window.now.shape batch.now)) }
{
    match touched_regions(alloc, &window.geometry(), batch) {
        Ok(touched) => roots_for(alloc, window.submitted() % 16 + 1, &touched),
        Err(NoMemory) => None,
    }
}

/// Whether the payloads of the parts are those that the words spell; without words nothing is asked.
fn are_spelled(
    alloc: Global,
    parts: &[Record],
    words: &mut SplitWhitespace,
) -> Result<bool, NoMemory>
    requires { All IsRecord parts.now }
{
    'parts: for part in parts {
        let Some(word) = words.next() else {
            return Ok(true);
        };
        if payload(alloc, part)?.as_slice() != bytes(alloc, word).as_slice() {
            return Ok(false);
        }
    }
    Ok(words.next() == None)
}

/// Submits the batch with these roots, and says whether its parts are those that the words spell.
fn submit_with(
    alloc: Global,
    window: &mut Window,
    batch: &Batch,
    roots: &Digests,
    words: &mut SplitWhitespace,
) -> Result<bool, NoMemory>
    requires { length roots.now ≡ length (touched_by window.old.shape batch.now) }
{
    let geometry = window.geometry();
    if window.is_full()
        || window.submitted() == u64::MAX
        || batch.len() > 64
        || !are_in(&geometry, batch.as_slice())
    {
        return Ok(false);
    }
    match window.submit(alloc, batch, roots) {
        Ok(parts) => are_spelled(alloc, parts.as_slice(), words),
        Err(NoMemory) => Err(NoMemory),
    }
}

fn submit_batch(
    alloc: Global,
    window: &mut Window,
    batch: &Batch,
    words: &mut SplitWhitespace,
) -> Result<bool, NoMemory> {
    match roots_of(alloc, window, batch) {
        Some(roots) => submit_with(alloc, window, batch, &roots, words),
        None => Ok(false),
    }
}

fn submit(
    alloc: Global,
    window: &mut Window,
    words: &mut SplitWhitespace,
) -> Result<bool, NoMemory> {
    match batch(alloc, words) {
        Ok(batch) => submit_batch(alloc, window, &batch, words),
        Err(NoMemory) => Err(NoMemory),
    }
}

// ---- claims, acknowledgements, barriers

fn claim(window: &mut Window, words: &mut SplitWhitespace) -> bool {
    let geometry = window.geometry();
    let region = number(words);
    let replica = number(words);
    if region >= u64::from(geometry.regions()) || replica >= u64::from(geometry.replicas()) {
        return false;
    }
    window.claim(
        NodeName {
            region: region as u16,
            replica: replica as u8,
        },
        number(words),
    );
    true
}

fn barrier(alloc: Global, window: &mut Window, event: u64) -> Result<bool, NoMemory> {
    if window.waiting() >= 64 {
        return Ok(false);
    }
    window.barrier(alloc, event)?;
    Ok(true)
}

/// The number that a word spells, or none.
fn given(words: &mut SplitWhitespace) -> Option<u64> {
    match words.next() {
        Some(word) => word.parse::<u64>().ok(),
        None => None,
    }
}

fn due(words: &mut SplitWhitespace) -> Option<(u64, u64)> {
    match given(words) {
        Some(event) => Some((event, number(words))),
        None => None,
    }
}

fn is_number(window: &Window, words: &mut SplitWhitespace) -> bool {
    let region = number(words);
    region < u64::from(window.geometry().regions())
        && window.number_of(region as u16) == number(words)
}

fn is_root(window: &Window, words: &mut SplitWhitespace) -> bool {
    let region = number(words);
    region < u64::from(window.geometry().regions())
        && window.root_of(region as u16) == plain(number(words))
}

fn is_top(alloc: Global, window: &Window, words: &mut SplitWhitespace) -> bool {
    match words.next() {
        Some(word) => window.top().as_bytes().as_slice() == bytes(alloc, word).as_slice(),
        None => false,
    }
}

/// A line that asks, and whether the answer is the one that it names.
fn is_answered(
    alloc: Global,
    window: &mut Window,
    step: &str,
    words: &mut SplitWhitespace,
) -> bool {
    match step {
        "full" => window.is_full() == (words.next() == Some("yes")),
        "ack" => window.next_ack() == given(words),
        "next" => window.next_barrier() == due(words),
        "waiting" => window.waiting() == number(words),
        "acked" => window.acked() == number(words),
        "last" => window.submitted() == number(words),
        "session" => window.session() == number(words),
        "number" => is_number(window, words),
        "root" => is_root(window, words),
        "top" => is_top(alloc, window, words),
        _ => false,
    }
}

fn holds(alloc: Global, window: &mut Window, line: &str) -> Result<bool, NoMemory> {
    let mut words = line.split_whitespace();
    match words.next() {
        Some("submit") => submit(alloc, window, &mut words),
        Some("claim") => Ok(claim(window, &mut words)),
        Some("barrier") => barrier(alloc, window, number(&mut words)),
        Some(step) => Ok(is_answered(alloc, window, step, &mut words)),
        None => Ok(false),
    }
}

fn wrong_in<'a>(alloc: Global, window: &mut Window, text: &'a str) -> Option<&'a str> {
    for line in text.lines() {
        if !matches!(holds(alloc, window, line), Ok(true)) {
            return Some(line);
        }
    }
    None
}

/// The first line of the text that doesn't hold.
fn wrong_line<'a>(alloc: Global, text: &'a str) -> Option<&'a str> {
    match window(alloc) {
        Some(mut window) => wrong_in(alloc, &mut window, text),
        None => Some("window"),
    }
}

/// Three regions of four, out of order, one place twice; then two regions, then one place three times.
fn parts() -> &'static str {
    "session 3\n\
    last 4\n\
    acked 4\n\
    top 750968405ae2608a241c4ed5bef6cae8b4c02206ae8fa4d19358e0e94cb14387\n\
    submit 7 0102 5 0304 2 0506 5 0708 6 090a = 0100000000000000030000000000000005000100000000000000040000040000000000000004000000000000000500000000000000050000000000000005030001000200035151515151515151515151515151515151515151515151515151515151515151b730439eed9ecab7d92e2f217303fd92132e24e2b9811420e2ccbefb3bbad65f01000000020506 0100000000000000030000000000000005000200000000000000040000040000000000000004000000000000000500000000000000050000000000000005030001000200035252525252525252525252525252525252525252525252525252525252525252b730439eed9ecab7d92e2f217303fd92132e24e2b9811420e2ccbefb3bbad65f01000100020708 0100000000000000030000000000000005000300000000000000040000040000000000000004000000000000000500000000000000050000000000000005030001000200035353535353535353535353535353535353535353535353535353535353535353b730439eed9ecab7d92e2f217303fd92132e24e2b9811420e2ccbefb3bbad65f0200000002090a000100020102\n\
    last 5\n\
    number 0 4\n\
    root 0 0\n\
    number 1 5\n\
    root 1 81\n\
    number 2 5\n\
    root 2 82\n\
    number 3 5\n\
    root 3 83\n\
    top b730439eed9ecab7d92e2f217303fd92132e24e2b9811420e2ccbefb3bbad65f\n\
    submit 0 0b0c 4 0d0e = 0100000000000000030000000000000006000000000000000000040001040000000000000006000000000000000500000000000000060000000000000005020000000260606060606060606060606060606060606060606060606060606060606060606e2f74ddf2de1f45b50d29c88ee16438ceee3bb4590eec3728be9d05694fd65601000000020b0c 0100000000000000030000000000000006000200000000000000050001040000000000000006000000000000000500000000000000060000000000000005020000000262626262626262626262626262626262626262626262626262626262626262626e2f74ddf2de1f45b50d29c88ee16438ceee3bb4590eec3728be9d05694fd65601000000020d0e\n\
    last 6\n\
    number 0 6\n\
    root 0 96\n\
    number 1 5\n\
    root 1 81\n\
    number 2 6\n\
    root 2 98\n\
    number 3 5\n\
    root 3 83\n\
    top 6e2f74ddf2de1f45b50d29c88ee16438ceee3bb4590eec3728be9d05694fd656\n\
    submit 3 0f10 3 1112 3 1314 = 01000000000000000300000000000000070001000000000000000500000400000000000000060000000000000007000000000000000600000000000000050100017171717171717171717171717171717171717171717171717171717171717171745ddfcde0a25b66af2335571cb647a169ddfce521b6536abab13c6068180bfd01000100021314\n\
    last 7\n\
    number 0 6\n\
    root 0 96\n\
    number 1 7\n\
    root 1 113\n\
    number 2 6\n\
    root 2 98\n\
    number 3 5\n\
    root 3 83\n\
    top 745ddfcde0a25b66af2335571cb647a169ddfce521b6536abab13c6068180bfd"
}

/// Claims that come out of order: a batch is acknowledged once every replica of its leader claims it, and only after the
/// one before.
fn acknowledgements() -> &'static str {
    "submit 2 aaaa\n\
    submit 6 bbbb\n\
    submit 0 cccc 3 dddd\n\
    ack -\n\
    claim 3 0 6\n\
    claim 3 1 6\n\
    claim 0 1 7\n\
    ack -\n\
    claim 1 1 5\n\
    ack -\n\
    claim 1 0 4\n\
    ack -\n\
    claim 1 0 5\n\
    ack 5\n\
    acked 5\n\
    ack 6\n\
    ack -\n\
    claim 0 0 6\n\
    ack -\n\
    claim 0 0 9\n\
    ack 7\n\
    ack -\n\
    acked 7\n\
    last 7\n\
    submit 1 eeee\n\
    ack -\n\
    claim 0 1 8\n\
    ack 8\n\
    ack -"
}

/// A barrier with nothing unacknowledged is due at once, with the last number; others wait for the number that was the
/// last when they came.
fn barriers() -> &'static str {
    "waiting 0\n\
    next -\n\
    barrier 1\n\
    waiting 1\n\
    next 1 4\n\
    next -\n\
    waiting 0\n\
    submit 0 aaaa\n\
    barrier 3\n\
    next -\n\
    submit 1 bbbb\n\
    barrier 5\n\
    barrier 6\n\
    waiting 3\n\
    claim 0 0 6\n\
    next -\n\
    claim 0 1 5\n\
    ack 5\n\
    next 3 5\n\
    next -\n\
    ack -\n\
    waiting 2\n\
    claim 0 1 6\n\
    next -\n\
    ack 6\n\
    next 5 6\n\
    next 6 6\n\
    next -\n\
    waiting 0\n\
    barrier 7\n\
    next 7 6"
}

/// Sixteen batches, and one more after the first is acknowledged.
fn sixteen() -> &'static str {
    "full no\n\
    submit 0 0101\n\
    submit 1 0202\n\
    submit 2 0303\n\
    submit 3 0404\n\
    submit 4 0505\n\
    submit 5 0606\n\
    submit 6 0707\n\
    submit 7 0808\n\
    submit 0 0909\n\
    submit 1 0a0a\n\
    submit 2 0b0b\n\
    submit 3 0c0c\n\
    submit 4 0d0d\n\
    submit 5 0e0e\n\
    submit 6 0f0f\n\
    full no\n\
    submit 7 1010\n\
    full yes\n\
    last 20\n\
    number 0 14\n\
    number 3 20\n\
    claim 0 0 5\n\
    claim 0 1 5\n\
    full yes\n\
    ack 5\n\
    full no\n\
    submit 0 1111\n\
    full yes\n\
    last 21\n\
    acked 5"
}

#[test]
fn windows(rt: HostRuntime) {
    for text in [parts(), acknowledgements(), barriers(), sixteen()] {
        assert_eq!(rt; wrong_line(rt.alloc(), text), None);
    }
}
