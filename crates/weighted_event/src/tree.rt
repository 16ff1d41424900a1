//! A complete binary tree of least weights over places.

ghost use Rattle.std.specs.Prelude.{◌≡◌, ℕ, ◌+◌, ◌*◌, ◌/◌, ◌^◌, ◌<◌, ◌≤◌, [], length, drop, replicate, slice_set, IfOk};
ghost use Rattle.weighted_event.specs.Trees.{AreLeast, AreLeastBut, IsFirstPlace};

use std::alloc::{AllocError, Global};
use std::marker::Model;

/// What an empty place weighs: more than any weight is.
pub(crate) const EMPTY: u128 = 18_446_744_073_709_551_616;

/// What a search found, and how many nodes it looked at.
#[derive(Drop)]
pub(crate) struct Way {
    pub(crate) place: Option<usize>,
    pub(crate) visits: u64,
}

/// What each of a number of places weighs, under a tree in which each node weighs as much as the lightest place below it.
///
/// The root is node 1, and the children of node n are 2n and 2n + 1. The last half of the nodes are the places.
#[derive(Drop)]
pub(crate) struct Tree {
    nodes: Vec<u128>,
    places: usize,
    // How many nodes stand on the way from the root to a place.
    path: u64,
}

impl Model for Tree {
    ghost use Rattle.std.specs.Prelude.{drop};
    ghost use Rattle.weighted_event.specs.Trees.{Weights, IsTree};

    ghost Value = { Weights };

    ghost view = { λ t. record { weights = drop t.places t.nodes.items; path = t.path } };

    ghost invariant = { λ t. IsTree t.nodes.items t.places t.path };
}

// Each node on the way from this one up to the root gets the lesser of its children's weights.
fn lift(nodes: &mut [u128], places: usize, from: usize)
    requires count { length nodes.old ≡ 2 * places }
    requires there { from < 2 * places }
    requires least { AreLeastBut nodes.old places (from / 2) }
    ensures least { AreLeast nodes.new places }
    ensures leaves { drop places nodes.new ≡ drop places nodes.old }
{
    let mut at = from;
    while at > 1 {
        at /= 2;
        let least = nodes[2 * at].min(nodes[2 * at + 1]);
        if nodes[at] == least {
            return;
        }
        nodes[at] = least;
    }
}

impl Tree {
    /// No place, and no memory.
    pub(crate) fn new(alloc: Global) -> Tree
        ensures weights { result.weights ≡ [] }
        ensures path { result.path ≡ 0 }
    {
        Tree {
            nodes: Vec::new(alloc),
            places: 0,
            path: 0,
        }
    }

    /// So many empty places.
    pub(crate) fn with_places(alloc: Global, places: usize, path: u64) -> Result<Tree, AllocError>
        requires some { 0 < places }
        requires few { places < 2 ^ 62 }
        requires complete { 2 ^ path ≡ 2 * places }
        ensures weights { IfOk result (λ t. t.weights ≡ replicate places EMPTY) }
        ensures path { IfOk result (λ t. t.path ≡ path) }
    {
        let mut nodes = Vec::new(alloc);
        nodes.resize(2 * places, EMPTY)?;
        Ok(Tree {
            nodes,
            places,
            path,
        })
    }

    /// How many nodes a search looks at, at most.
    pub(crate) fn path(&self) -> u64
        ensures path { result ≡ self.now.path }
        ensures few { 2 ^ result ≤ 2 * length self.now.weights + 1 }
    {
        self.path
    }

    /// The first place that weighs at most `a`. The search goes down one way.
    pub(crate) fn first(&self, a: u64) -> Way
        ensures place { IsFirstPlace a self.now.weights result.place }
        ensures visits { result.visits ≤ self.now.path }
        ensures few { 2 ^ result.visits ≤ 2 * length self.now.weights + 1 }
    {
        let most = a as u128;
        let nodes = self.nodes.as_slice();
        if self.places == 0 {
            return Way {
                place: None,
                visits: 0,
            };
        }
        let mut visits = 1;
        if nodes[1] > most {
            return Way {
                place: None,
                visits,
            };
        }
        let mut at = 1;
        for _ in 1..self.path {
            visits += 1;
            at *= 2;
            if nodes[at] > most {
                at += 1;
            }
        }
        Way {
            place: Some(at - self.places),
            visits,
        }
    }

    /// This place weighs so much now. The nodes on the way from it to the root are looked at.
    pub(crate) fn set(&mut self, place: usize, weight: u128)
        requires { place < length self.old.weights }
        ensures weights { self.new.weights ≡ slice_set self.old.weights place weight }
        ensures path { self.new.path ≡ self.old.path }
    {
        let at = self.places + place;
        self.nodes[at] = weight;
        lift(&mut self.nodes, self.places, at);
    }
}
