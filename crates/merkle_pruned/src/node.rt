ghost use Rattle.std.specs.Prelude.{◌≡◌, ◌<◌, ◌≤◌, ◌-◌, ◌^◌, ◌/◌, ◌↔◌, IsTrue, None, Some, if◌then◌else◌, nat_lt, length, IfOk, OnOk, OnErr};
ghost use Rattle.merkle_region.specs.Tree.{climb, parent};
ghost use Rattle.merkle_pruned.specs.Subtree.{Closed, Opened, digest_of, closed_over, IsSound, with_leaf};
ghost use Rattle.merkle_pruned.specs.Path.{path_subtree, grafted, Meets};
ghost use Rattle.merkle_pruned.specs.Node.{subtree_of};

use salus_hash::{Digest, node_digest};
use salus_types::NoMemory;
use std::alloc::Global;

/// A subtree of a region's tree: a stub, of which the digest alone is kept, or a fork into two halves.
#[cycle(node)]
#[derive(Drop)]
pub enum Node {
    Stub(Digest),
    Fork(Box<Fork>),
}

#[cycle(node)]
#[derive(Drop)]
pub struct Fork {
    left: Node,
    right: Node,
}

/// The place within the right half of a subtree of this height, or `None` where the place lies in the left half.
fn in_right(height: u32, i: u32) -> Option<u32>
    requires { 0 < height }
    ensures { result ≡ (if nat_lt i (2 ^ (height - 1)) then None else Some (i - 2 ^ (height - 1))) }
{
    if height > 32 {
        return None;
    }
    let half = 1u32 << (height - 1);
    if i < half { None } else { Some(i - half) }
}

fn stub(digest: &Digest) -> Node
    ensures tree { subtree_of result ≡ Closed digest.now }
    ensures sound { length digest.now ≡ 32 }
{
    let _bytes = digest.as_bytes();
    Node::Stub(*digest)
}

impl Node {
    pub fn new(digest: &Digest) -> Node
        ensures tree { subtree_of result ≡ Closed digest.now }
        ensures sound { length digest.now ≡ 32 }
    {
        stub(digest)
    }

    /// Its digest: a stub's own, and one hash for each fork.
    pub fn digest(&self) -> Digest
        ensures { result ≡ digest_of (subtree_of self.now) }
    {
        match self {
            Node::Stub(digest) => *digest,
            Node::Fork(fork) => node_digest(&fork.left.digest(), &fork.right.digest()),
        }
    }

    /// The height and the digest of the stub that the place lies in.
    pub fn stub_over(&self, height: u32, i: u32) -> (u32, Digest)
        requires { IsSound (subtree_of self.now) height }
        ensures over { result ≡ closed_over (subtree_of self.now) height i }
        ensures within { result.0 ≤ height }
    {
        match self {
            Node::Stub(digest) => (height, *digest),
            Node::Fork(fork) => match in_right(height, i) {
                None => fork.left.stub_over(height - 1, i),
                Some(j) => fork.right.stub_over(height - 1, j),
            },
        }
    }

    pub fn set_leaf(&mut self, height: u32, i: u32, leaf: &Digest)
        requires { IsSound (subtree_of self.old) height }
        ensures tree { subtree_of self.new ≡ with_leaf (subtree_of self.old) height i leaf.now }
        ensures sound { IsSound (subtree_of self.new) height }
    {
        match self {
            Node::Stub(_) => *self = stub(leaf),
            Node::Fork(fork) => match in_right(height, i) {
                None => fork.left.set_leaf(height - 1, i, leaf),
                Some(j) => fork.right.set_leaf(height - 1, j, leaf),
            },
        }
    }

    /// What the leaf climbs to along the path, and whether it meets the digest of the stub over its place on the way.
    pub fn climbed(&self, height: u32, i: u32, leaf: &Digest, path: &[Digest]) -> (Digest, bool)
        requires sound { IsSound (subtree_of self.now) height }
        requires levels { height ≤ length path.now }
        ensures digest { result.0 ≡ climb i leaf.now path.now }
        ensures meets { IsTrue result.1 → Meets (subtree_of self.now) height i leaf.now path.now }
    {
        let (level, closed) = self.stub_over(height, i);
        let (below, above) = path.split_at(level as usize);
        let (place, reached) = climbed(i, leaf, below);
        let (_, top) = climbed(place, &reached, above);
        (top, same(&reached, &closed))
    }

    /// Opens the stub over the place along the path. After an error it is as it was.
    pub fn graft(
        &mut self,
        alloc: Global,
        height: u32,
        i: u32,
        leaf: &Digest,
        path: &[Digest],
    ) -> Result<(), NoMemory>
        requires sound { IsSound (subtree_of self.old) height }
        requires levels { height ≤ length path.now }
        ensures ok { OnOk result (subtree_of self.new ≡ grafted (subtree_of self.old) height i leaf.now path.now) }
        ensures err { OnErr result (subtree_of self.new ≡ subtree_of self.old) }
        ensures sound { IsSound (subtree_of self.new) height }
    {
        match self {
            Node::Stub(_) => {
                *self = opened(alloc, height, i, leaf, path)?;
                Ok(())
            }
            Node::Fork(fork) => match in_right(height, i) {
                None => fork.left.graft(alloc, height - 1, i, leaf, path),
                Some(j) => fork.right.graft(alloc, height - 1, j, leaf, path),
            },
        }
    }
}

/// The tree of a path: one box a level.
fn opened(
    alloc: Global,
    height: u32,
    i: u32,
    leaf: &Digest,
    path: &[Digest],
) -> Result<Node, NoMemory>
    requires { height ≤ length path.now }
    ensures tree { IfOk result (λ node. subtree_of node ≡ path_subtree height i leaf.now path.now) }
    ensures sound { IfOk result (λ node. IsSound (subtree_of node) height) }
{
    if height == 0 {
        return Ok(stub(leaf));
    }
    let sibling = stub(&path[height as usize - 1]);
    match in_right(height, i) {
        None => {
            let half = opened(alloc, height - 1, i, leaf, path)?;
            joined(alloc, half, sibling)
        }
        Some(j) => {
            let half = opened(alloc, height - 1, j, leaf, path)?;
            joined(alloc, sibling, half)
        }
    }
}

fn joined(alloc: Global, left: Node, right: Node) -> Result<Node, NoMemory>
    ensures { IfOk result (λ node. subtree_of node ≡ Opened (subtree_of left) (subtree_of right)) }
{
    Ok(Node::Fork(Box::new(alloc, Fork { left, right })?))
}

pub fn same(a: &Digest, b: &Digest) -> bool
    ensures { IsTrue result ↔ (a.now ≡ b.now) }
{
    a == b
}

fn parent_digest(place: u32, digest: &Digest, sibling: &Digest) -> Digest
    ensures { result ≡ parent place digest.now sibling.now }
{
    if place % 2 == 0 {
        node_digest(digest, sibling)
    } else {
        node_digest(sibling, digest)
    }
}

/// The place and the digest that a place and its digest reach with these siblings, from there upwards.
fn climbed(i: u32, digest: &Digest, siblings: &[Digest]) -> (u32, Digest)
    ensures place { result.0 ≡ i / 2 ^ length siblings.now }
    ensures digest { result.1 ≡ climb i digest.now siblings.now }
{
    let mut place = i;
    let mut reached = *digest;
    'siblings: for sibling in siblings {
        reached = parent_digest(place, &reached, sibling);
        place /= 2;
    }
    (place, reached)
}
