//! Finds a text in a list by a digital search tree. The node at an index is of the text at that
//! index, and the bits of a text's hash lead from node to node, so the tree holds no second copy of
//! a text. Whoever chooses the texts may choose equal hashes. Then the texts' own bits lead on, so
//! a search takes at most some eight steps a byte, after 64.
ghost use Rattle.std.specs.Prelude.{◌≡◌, ◌≤◌, OnErr, OnOk, bytes_eq, length, map};
ghost use Rattle.fluent_uri.specs.Uris.{uri_text};
ghost use Rattle.uri_links.specs.SearchTrees.{ChildrenFollow, HaveHashes, child, with_node_added, hash_of, descends_right, search};

use fluent_uri::Uri;
use std::alloc::AllocError;
use std::hash::{BuildHasher, BuildHasherDefault, FoldHasher};

/// What the tree keeps of a text: its hash, and the nodes on either side. No node has the first as
/// its child, so 0 is none.
#[derive(Clone, Copy)]
pub struct Node {
    hash: u64,
    left: usize,
    right: usize,
}

/// Where a search for a text ends.
#[derive(Clone, Copy)]
pub enum SearchEnd {
    /// At the index of the text.
    Found(usize),
    /// At a node without a child on the text's side, which is the right one if the flag is set.
    Missing(usize, bool),
}

/// Returns the hash by which the search tree finds a target's text.
#[tactic(auto, unfolding(crate::specs::SearchTrees::hash_of))]
pub fn hash_of(text: &str) -> u64
    ensures { result ≡ hash_of text.now }
{
    BuildHasherDefault::<FoldHasher>::new().hash_one(text)
}

/// Returns whether a search for a text in the tree goes to the right of a node at this depth.
#[tactic(auto, unfolding(crate::specs::SearchTrees::descends_right))]
fn descends_right(text: &str, hash: u64, depth: usize) -> bool
    requires { hash ≡ hash_of text.now }
    ensures { result ≡ descends_right text.now depth }
{
    if depth < 64 {
        return hash >> depth & 1 == 1;
    }
    let past = depth - 64;
    match text.as_bytes().get(past / 8) {
        Some(byte) => *byte >> (past % 8) & 1 == 1,
        None => false,
    }
}

impl Node {
    /// Returns the index of the child on the right or on the left, or 0 if there is none.
    fn child(&self, right: bool) -> usize
        ensures { result ≡ child self.now right }
    {
        if right { self.right } else { self.left }
    }

    /// Returns whether `text`, which has this hash, is the text of the node's target, `own`.
    fn has_text(&self, own: &Uri<String>, text: &str, hash: u64) -> bool
        requires own { self.now.hash ≡ hash_of (uri_text own.now) }
        requires hash { hash ≡ hash_of text.now }
        ensures { result ≡ bytes_eq text.now (uri_text own.now) }
    {
        self.hash == hash && own.as_str() == text
    }
}

/// Searches the tree for a text, whose hash is given, among the targets.
pub fn search(nodes: &[Node], targets: &[Uri<String>], text: &str, hash: u64) -> SearchEnd
    requires hash { hash ≡ hash_of text.now }
    requires hashes { HaveHashes nodes.now (map uri_text targets.now) }
    requires children { ChildrenFollow nodes.now }
    ensures { result ≡ search nodes.now (map uri_text targets.now) text.now }
{
    let mut id = 0;
    for depth in 0..nodes.len() {
        let node = nodes[id];
        if node.has_text(&targets[id], text, hash) {
            return SearchEnd::Found(id);
        }
        let right = descends_right(text, hash, depth);
        let child = node.child(right);
        if child == 0 {
            return SearchEnd::Missing(id, right);
        }
        id = child;
    }
    SearchEnd::Missing(id, false)
}

/// Adds the node of a text with this hash to the search tree, as the child at which the search for
/// it ended.
///
/// # Errors
///
/// Only if allocation fails. The nodes are then as they were.
pub fn add_node(
    nodes: &mut Vec<Node>,
    hash: u64,
    parent: usize,
    right: bool,
) -> Result<(), AllocError>
    requires { parent ≤ length nodes.old.items }
    ensures with_node_added { OnOk result (nodes.new.items
        ≡ with_node_added nodes.old.items hash parent right) }
    ensures kept { OnErr result (nodes.new.items ≡ nodes.old.items) }
{
    let id = nodes.len();
    nodes.push(Node {
        hash,
        left: 0,
        right: 0,
    })?;
    if right {
        nodes[parent].right = id;
    } else {
        nodes[parent].left = id;
    }
    Ok(())
}
