//! Versions of a map from numbers to numbers, as binary tries that share nodes.

ghost use Rattle.std.specs.Prelude.{◌≡◌, ◌<◌, ◌^◌, [], ◌∷◌, ◌++◌, length, IfOk, OnOk, OnErr};

use pct_io::NoMemory;
use std::alloc::Global;

// A node of the tries: the roots of its two halves, for the even and for the odd keys.
#[derive(Clone, Copy)]
struct Node {
    even: u32,
    odd: u32,
}

/// Versions of a map from numbers to numbers. A version is the number of its root: 0 is the map with the value 0 at every key, and a copy
/// of a version is a copy of its number. A trie of height h has the keys below 2 ^ h; at height 0 the root is the value.
#[derive(Drop)]
pub struct Versions {
    nodes: Vec<Node>,
}

impl Versions {
    ghost use Rattle.pct_versions.specs.Tries.{nodes_of, child_of, value_at, Extends, IsTrie, IsVersionWith};

    /// No version but 0.
    pub fn new(alloc: Global) -> Versions
        ensures { nodes_of result ≡ [] }
    {
        Versions {
            nodes: Vec::new(alloc),
        }
    }

    // The half of a trie that has the key.
    fn child(&self, root: u32, key: u32) -> u32
        ensures { result ≡ child_of (nodes_of self.now) root key }
    {
        let root = root as usize;
        if root == 0 || self.nodes.len() < root {
            return 0;
        }
        let node = self.nodes[root - 1];
        if key % 2 == 0 { node.even } else { node.odd }
    }

    /// The value of a version at a key.
    pub fn get(&self, height: u32, root: u32, key: u32) -> u32
        ensures { result ≡ value_at (nodes_of self.now) height root key }
    {
        if height == 0 {
            return root;
        }
        self.get(height - 1, self.child(root, key), key / 2)
    }

    /// Makes a version with the values of another one, but at the key, which must fit the height. All versions so far keep their values,
    /// also if `NoMemory` is returned. There is no
    /// memory for 2 ^ 32 nodes.
    pub fn set(&mut self, height: u32, root: u32, key: u32, value: u32) -> Result<u32, NoMemory>
        requires trie { IsTrie (nodes_of self.old) height root }
        requires key { key < 2 ^ height }
        ensures trie { IfOk result (λ version. IsTrie (nodes_of self.new) height version) }
        ensures values { IfOk result (λ version. IsVersionWith (nodes_of self.old) (nodes_of self.new) height root version key value) }
        ensures others { Extends (nodes_of self.old) (nodes_of self.new) }
    {
        if height == 0 {
            return Ok(value);
        }
        let half = self.child(root, key);
        let other = self.child(root, 1 - key % 2);
        let changed = self.set(height - 1, half, key / 2, value)?;
        let node = if key % 2 == 0 {
            Node {
                even: changed,
                odd: other,
            }
        } else {
            Node {
                even: other,
                odd: changed,
            }
        };
        let version = self.push(node)?;
        Ok(version)
    }

    // Adds a node: its number, from 1. There is no memory for 2 ^ 32 nodes.
    fn push(&mut self, node: Node) -> Result<u32, NoMemory>
        ensures number { IfOk result (λ number. number ≡ length (nodes_of self.new)) }
        ensures ok { OnOk result (nodes_of self.new ≡ nodes_of self.old ++ node ∷ []) }
        ensures err { OnErr result (nodes_of self.new ≡ nodes_of self.old) }
    {
        if u32::MAX as usize <= self.nodes.len() {
            return Err(NoMemory);
        }
        self.nodes.push(node)?;
        Ok(self.nodes.len() as u32)
    }
}
