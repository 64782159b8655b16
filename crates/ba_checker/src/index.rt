//! Clauses listed under one literal each.

ghost use Rattle.std.specs.Prelude.{◌≡◌, ℕ, ◌+◌, ◌-◌, ◌^◌, ◌≤◌, ◌<◌, ◌++◌, ◌∷◌, ◌||◌, [], ltb, IfOk, OnOk, OnErr, length, set, slice_index, slice_index_or, List};
ghost use Rattle.ba_checker.specs.States.{is_live_at};
ghost use Rattle.ba_checker.specs.Listed.{AreLinks, AreListed, latest, keys_of, all_keys, links, firsts, key_anew, anew};

use crate::store::Store;
use ba_items::fill_up;
use std::alloc::{AllocError, Global};
use std::marker::Model;

/// The indices of up to three literals of a clause: that under which it is listed, and two further ones. They
/// repeat if the clause has fewer. Those of the empty clause are 0.
#[derive(Clone, Copy)]
pub struct Keys {
    pub key: usize,
    pub second: usize,
    pub third: usize,
}

/// A clause in its list: its keys, and the link to the one before it.
#[derive(Clone, Copy)]
pub struct Node {
    key: u32,
    second: u32,
    third: u32,
    earlier: u32,
}

/// The keys of each clause, by its index. The clauses of a first key are linked from the latest to the
/// earliest. Links are indices plus 1, and 0 if there is none. A contract sees the list of the keys.
pub struct Index {
    nodes: Vec<Node>,
    heads: Vec<u32>,
    counts: Vec<u32>,
}

impl Drop for Index {
    fn drop(self) {
        let Index {
            nodes: _,
            heads: _,
            counts: _,
        } = self;
    }
}

impl Model for Index {
    ghost use Rattle.std.specs.Prelude.{List};
    ghost use Rattle.ba_checker.specs.declared.index.Keys.{Keys};
    ghost use Rattle.ba_checker.specs.Listed.{AreLinks, all_keys, links, firsts};

    ghost Value = { List Keys };

    ghost view = { λ i. all_keys i.nodes.items };

    ghost invariant = { λ i. AreLinks (firsts (all_keys i.nodes.items)) i.heads.items
        (links i.nodes.items) };
}

impl Index {
    /// No clauses. It takes no memory.
    pub fn new(alloc: Global) -> Index
        ensures { result ≡ [] }
    {
        Index {
            nodes: Vec::new(alloc),
            heads: Vec::new(alloc),
            counts: Vec::new(alloc),
        }
    }

    /// Makes room for keys below a number.
    pub fn grow(&mut self, keys: usize) -> Result<(), AllocError>
        ensures { self.new ≡ self.old }
    {
        fill_up(&mut self.heads, keys, 0)?;
        fill_up(&mut self.counts, keys, 0)
    }

    /// How many clauses are listed under a key, at most 2^32 - 1.
    pub fn count(&self, key: usize) -> u32 {
        match self.counts.get(key) {
            None => 0,
            Some(count) => *count,
        }
    }

    /// Lists the next clause.
    ///
    /// The only error is out of memory, also if 2^32 - 1 clauses or keys would be passed.
    pub fn push(&mut self, keys: Keys) -> Result<(), AllocError>
        ensures ok { OnOk result (self.new ≡ self.old ++ keys ∷ []) }
        ensures err { OnErr result (self.new ≡ self.old) }
    {
        let place = self.nodes.len();
        if place >= u32::MAX as usize {
            return Err(AllocError);
        }
        let node = packed(keys, link(self.heads.as_slice(), keys.key))?;
        fill_up(&mut self.heads, keys.key + 1, 0)?;
        fill_up(&mut self.counts, keys.key + 1, 0)?;
        self.nodes.push(node)?;
        relink(&mut self.heads, keys.key, place as u32 + 1);
        count_up(&mut self.counts, keys.key);
        Ok(())
    }

    /// Removes the last clause that was listed.
    pub fn pop(&mut self)
        ensures { (all : List Keys) (keys : Keys) → self.old ≡ all ++ keys ∷ [] → self.new ≡ all }
    {
        let Some(node) = self.nodes.pop() else {
            return;
        };
        relink(&mut self.heads, node.key as usize, node.earlier);
    }

    /// Lists the clauses anew, those that are no longer live under 1. No literal has that index, so they are
    /// not visited any more. It takes no memory.
    pub fn relist(&mut self, store: &Store)
        requires { AreListed self.old store.now }
        ensures { AreListed self.new store.now }
    {
        link_all(&mut self.nodes, &mut self.heads, &mut self.counts, store);
    }

    /// The latest clause that is listed under a key.
    pub fn latest(&self, key: usize) -> u32
        ensures { result ≡ latest (firsts self.now) key (length self.now) }
    {
        link(self.heads.as_slice(), key)
    }

    /// The clause that is listed before the one at an index, under its key.
    pub fn before(&self, place: usize) -> u32
        requires { place < length self.now }
        ensures { result ≡ latest (firsts self.now) (slice_index (firsts self.now) place) place }
    {
        self.nodes[place].earlier
    }

    /// The keys of the clause at an index.
    pub fn keys(&self, place: usize) -> Keys
        requires { place < length self.now }
        ensures { result ≡ slice_index_or self.now place result }
    {
        unpacked(self.nodes[place])
    }
}

/// The keys of a node.
fn unpacked(node: Node) -> Keys
    ensures { result ≡ keys_of node }
{
    Keys {
        key: node.key as usize,
        second: node.second as usize,
        third: node.third as usize,
    }
}

/// The node of keys. The only error is that a key needs more than 32 bits.
fn packed(keys: Keys, earlier: u32) -> Result<Node, AllocError>
    ensures { IfOk result (λ node. (keys_of node ≡ keys) × (node.earlier ≡ earlier)
        × (keys.key < 2 ^ 32 - 1)) }
{
    let most = u32::MAX as usize;
    if keys.key >= most || keys.second >= most || keys.third >= most {
        return Err(AllocError);
    }
    Ok(Node {
        key: keys.key as u32,
        second: keys.second as u32,
        third: keys.third as u32,
        earlier,
    })
}

/// Links the clauses anew, those that are no longer live under 1.
fn link_all(nodes: &mut Vec<Node>, heads: &mut Vec<u32>, counts: &mut Vec<u32>, store: &Store)
    requires links { AreLinks (firsts (all_keys nodes.old.items)) heads.old.items
        (links nodes.old.items) }
    requires listed { AreListed (all_keys nodes.old.items) store.now }
    ensures links { AreLinks (firsts (all_keys nodes.new.items)) heads.new.items
        (links nodes.new.items) }
    ensures listed { AreListed (all_keys nodes.new.items) store.now }
{
    let count = nodes.len();
    clear(heads);
    clear(counts);
    for place in 0..count {
        let keeps = keeps_key(store, place, heads.as_slice());
        let node = anew(keeps, nodes[place], heads.as_slice());
        nodes[place] = node;
        relink(heads, node.key as usize, place as u32 + 1);
        count_up(counts, node.key as usize);
    }
}

/// Whether a clause that is listed anew keeps its key: it is live, or the table has no room for 1.
fn keeps_key(store: &Store, place: usize, heads: &[u32]) -> bool
    requires { place < length store.now }
    ensures { result ≡ (is_live_at store.now place || ltb (length heads.now) 2) }
{
    store.is_live(place) || heads.len() < 2
}

/// The node of a clause that is listed anew.
fn anew(keeps: bool, node: Node, heads: &[u32]) -> Node
    ensures { result ≡ anew keeps node heads.now }
{
    let key = key_anew(keeps, node.key);
    Node {
        key,
        second: node.second,
        third: node.third,
        earlier: link(heads, key as usize),
    }
}

/// The key of a clause that is listed anew.
fn key_anew(keeps: bool, key: u32) -> u32
    ensures { result ≡ key_anew keeps key }
{
    if keeps { key } else { 1 }
}

/// The link at an index, or 0 past the end.
fn link(links: &[u32], place: usize) -> u32
    ensures { result ≡ slice_index links.now place }
{
    if place < links.len() { links[place] } else { 0 }
}

/// Sets all links to 0.
fn clear(links: &mut Vec<u32>)
    ensures none { (k : ℕ) → slice_index links.new.items k ≡ 0 }
    ensures len { length links.new.items ≡ length links.old.items }
{
    links.fill(0);
}

/// Sets the link at an index.
fn relink(links: &mut Vec<u32>, place: usize, link: u32)
    ensures { links.new.items ≡ set links.old.items place link }
{
    if place < links.len() {
        links[place] = link;
    }
}

/// Adds 1 to a count.
fn count_up(counts: &mut Vec<u32>, key: usize) {
    if key < counts.len() {
        counts[key] = counts[key].saturating_add(1);
    }
}
