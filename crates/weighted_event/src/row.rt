//! Weights in order of arrival, in the places of a tree.

ghost use Rattle.std.specs.Prelude.{◌≡◌, ◌≢◌, ℕ, List, MatchBool, IsSomeAnd, ◌+◌, ◌*◌, ◌^◌, ◌<◌, ◌≤◌, ◌++◌, ◌∷◌, slice_set, slice_index_or, [], length, false, true, IfOk, IfSome, IsOk, OnOk, OnErr, Some, None};
ghost use Rattle.weighted_event.specs.Rows.{item, is_in, without, gathered, AreApart, AreNoted, IsFirstFit, IsRow};

use crate::tree::{EMPTY, Tree};
use std::alloc::{AllocError, Global};
use std::marker::Model;

/// A weight, and the key that it stands under.
#[derive(Clone, Copy, Debug, PartialEq, Eq)]
pub struct Item {
    /// What it is named by. No other item of the row has it.
    pub key: usize,
    /// What it weighs.
    pub weight: u64,
}

/// What a search found, and how many nodes it looked at.
#[derive(Clone, Copy, Debug, PartialEq, Eq)]
pub struct Found {
    /// The first item that weighs little enough, if there is one.
    pub item: Option<Item>,
    /// How many nodes of the tree were looked at.
    pub visits: u64,
}

/// Weights in order of arrival, each under a key of its own.
///
/// Contracts see the items, oldest first; the room: how many there may be before one more needs memory; and the path: how many nodes a search looks at, at most. Only [`Row::reserve`] takes memory, and only it can be refused.
#[derive(Drop)]
pub struct Row {
    tree: Tree,
    // Who stands in each place.
    items: Vec<Option<Item>>,
    // The place of each key that an item has.
    places: Vec<usize>,
    // The first place that was never taken since the items were moved together.
    end: usize,
    alloc: Global,
}

impl Model for Row {
    ghost use Rattle.std.specs.Prelude.{length};
    ghost use Rattle.weighted_event.specs.Rows.{Weighed, gathered, IsIndexed};

    ghost Value = { Weighed };

    ghost view = { λ r. record { items = gathered r.items.items; room = length r.places.items; path = r.tree.path } };

    ghost invariant = { λ r. IsIndexed r.tree.weights r.items.items r.places.items r.end };
}

// The least power of two that is so great, and of which power it is; none if that is too great for any memory.
fn power_from(n: usize) -> Option<(usize, u64)>
    ensures power { IfSome result (λ p. p.0 ≡ 2 ^ p.1) }
    ensures fits { IfSome result (λ p. n ≤ p.0) }
    ensures least { IfSome result (λ p. p.0 ≤ 2 * n + 1) }
    ensures small { IfSome result (λ p. p.0 ≤ 2 ^ 59) }
    ensures few { IfSome result (λ p. p.1 < 64) }
{
    if n > 1 << 58 {
        return None;
    }
    let mut power = 1;
    for k in 0..60u64 {
        if n <= power {
            return Some((power, k));
        }
        power *= 2;
    }
    None
}

// The place of the item that has this key is noted, if the key is low enough.
fn note(places: &mut [usize], key: usize, at: usize)
    ensures { places.new ≡ slice_set places.old key at }
{
    if key < places.len() {
        places[key] = at;
    }
}

// The place of the item that has this key. It is looked for where it isn't noted.
fn place_of(items: &[Option<Item>], places: &[usize], key: usize) -> usize
    requires apart { AreApart items.now }
    requires noted { AreNoted places.now items.now }
    requires listed { is_in key (gathered items.now) ≡ true }
    ensures there { result < length items.now }
    ensures out { gathered (slice_set items.now result None) ≡ without key (gathered items.now) }
{
    if key < places.len() {
        return places[key];
    }
    for at in 0..items.len() {
        if has_key(items[at], key) {
            return at;
        }
    }
    unreachable!()
}

// Whether an item of this key stands there.
fn has_key(item: Option<Item>, key: usize) -> bool
    ensures { MatchBool result (IsSomeAnd item (λ x. x.key ≡ key)) (IfSome item (λ x. x.key ≢ key)) }
{
    match item {
        Some(it) => it.key == key,
        None => false,
    }
}

// The item in the place `from` moves to the place `to`, which is empty and stands before it.
fn shift(
    tree: &mut Tree,
    items: &mut [Option<Item>],
    places: &mut [usize],
    from: usize,
    to: usize,
    it: Item,
)
    requires row { IsRow tree.old.weights items.old places.old (length items.old) }
    requires before { to < from }
    requires there { slice_index_or items.old from None ≡ Some it }
    requires empty { slice_index_or items.old to None ≡ None }
    ensures row { IsRow tree.new.weights items.new places.new (length items.old) }
    ensures items { items.new ≡ slice_set (slice_set items.old to (Some it)) from None }
    ensures path { tree.new.path ≡ tree.old.path }
{
    tree.set(to, it.weight as u128);
    tree.set(from, EMPTY);
    items[to] = Some(it);
    items[from] = None;
    note(places, it.key, to);
}

// The items move together in their order, to the first places. How many there are is answered: the first place that is empty now.
fn compact(tree: &mut Tree, items: &mut [Option<Item>], places: &mut [usize]) -> usize
    requires row { IsRow tree.old.weights items.old places.old (length items.old) }
    ensures row { IsRow tree.new.weights items.new places.new result }
    ensures items { gathered items.new ≡ gathered items.old }
    ensures end { result ≤ length (gathered items.old) }
    ensures path { tree.new.path ≡ tree.old.path }
{
    let mut to = 0;
    for from in 0..items.len() {
        if let Some(it) = items[from] {
            if to < from {
                shift(tree, items, places, from, to, it);
            }
            to += 1;
        }
    }
    to
}

// A place that is empty with all that come after it, where the places from `end` on are. The items move together first if there is none.
fn vacant_place(
    tree: &mut Tree,
    items: &mut [Option<Item>],
    places: &mut [usize],
    end: usize,
) -> usize
    requires row { IsRow tree.old.weights items.old places.old end }
    requires some { length (gathered items.old) < length items.old }
    ensures row { IsRow tree.new.weights items.new places.new result }
    ensures items { gathered items.new ≡ gathered items.old }
    ensures there { result < length items.new }
    ensures path { tree.new.path ≡ tree.old.path }
{
    if end < items.len() {
        return end;
    }
    compact(tree, items, places)
}

// An item joins behind all others. The first place after it is answered.
fn add(
    tree: &mut Tree,
    items: &mut [Option<Item>],
    places: &mut [usize],
    end: usize,
    it: Item,
) -> usize
    requires row { IsRow tree.old.weights items.old places.old end }
    requires some { length (gathered items.old) < length items.old }
    requires fresh { is_in it.key (gathered items.old) ≡ false }
    ensures row { IsRow tree.new.weights items.new places.new result }
    ensures items { gathered items.new ≡ gathered items.old ++ it ∷ [] }
    ensures path { tree.new.path ≡ tree.old.path }
{
    let at = vacant_place(tree, items, places, end);
    tree.set(at, it.weight as u128);
    items[at] = Some(it);
    note(places, it.key, at);
    at + 1
}

// The items that stand in these places join the row in their order.
fn refill(row: &mut Row, items: &[Option<Item>])
    requires empty { row.old.items ≡ [] }
    requires apart { AreApart items.now }
    requires room { length (gathered items.now) ≤ row.old.room }
    ensures items { row.new.items ≡ gathered items.now }
    ensures room { row.new.room ≡ row.old.room }
{
    for at in 0..items.len() {
        if let Some(it) = items[at] {
            row.push(it.key, it.weight);
        }
    }
}

impl Row {
    /// The empty row. It takes no memory yet: it has room for no item (`room`).
    pub fn new(alloc: Global) -> Row
        ensures items { result.items ≡ [] }
        ensures room { result.room ≡ 0 }
        ensures path { result.path ≡ 0 }
    {
        Row {
            tree: Tree::new(alloc),
            items: Vec::new(alloc),
            places: Vec::new(alloc),
            end: 0,
            alloc,
        }
    }

    // An empty row that has room for so many.
    fn with_room(alloc: Global, n: usize) -> Result<Row, AllocError>
        ensures items { IfOk result (λ r. r.items ≡ []) }
        ensures room { IfOk result (λ r. n ≤ r.room) }
        ensures lean { IfOk result (λ r. r.room ≤ 2 * n + 1) }
    {
        let Some((room, power)) = power_from(n) else {
            return Err(AllocError);
        };
        let tree = Tree::with_places(alloc, 2 * room, power + 2)?;
        let mut items = Vec::new(alloc);
        items.resize(2 * room, None)?;
        let mut places = Vec::new(alloc);
        places.resize(room, 0)?;
        Ok(Row {
            tree,
            items,
            places,
            end: 0,
            alloc,
        })
    }

    /// How many nodes a search looks at, at most (`path`): no more than the logarithm of the room and two (`few`).
    pub fn path(&self) -> u64
        ensures path { result ≡ self.now.path }
        ensures few { 2 ^ result ≤ 4 * self.now.room + 1 }
    {
        self.tree.path()
    }

    /// How many items there may be before one more needs memory.
    pub fn room(&self) -> usize
        ensures { result ≡ self.now.room }
    {
        self.places.len()
    }

    /// Makes room for `n` items (`room`), and for no more than twice as many and one (`lean`).
    ///
    /// [`AllocError`] comes only where that room was missing (`succeeds`) and memory was refused. The row then is as it was (`refused`).
    /// Where there was room nothing changes (`kept`).
    pub fn reserve(&mut self, n: usize) -> Result<(), AllocError>
        ensures items { self.new.items ≡ self.old.items }
        ensures room { OnOk result (n ≤ self.new.room) }
        ensures lean { n ≤ self.new.room → self.old.room < n → self.new.room ≤ 2 * n + 1 }
        ensures kept { n ≤ self.old.room → self.new ≡ self.old }
        ensures refused { OnErr result (self.new ≡ self.old) }
        ensures succeeds { n ≤ self.old.room → IsOk result }
    {
        if n <= self.places.len() {
            return Ok(());
        }
        let mut wider = Row::with_room(self.alloc, n)?;
        refill(&mut wider, &self.items);
        *self = wider;
        Ok(())
    }

    /// An item of this weight joins at the back, under this key, which no item has. If the key is below the room, [`Row::remove`] finds the
    /// item at once; if not, it looks for it.
    ///
    /// Where the places behind the last item are used up, the items move together first: after as many calls as there is room for, at the least.
    pub fn push(&mut self, key: usize, weight: u64)
        requires room { length self.old.items < self.old.room }
        requires fresh { is_in key self.old.items ≡ false }
        ensures items { self.new.items ≡ self.old.items ++ item key weight ∷ [] }
        ensures room { self.new.room ≡ self.old.room }
        ensures path { self.new.path ≡ self.old.path }
    {
        let it = Item { key, weight };
        self.end = add(
            &mut self.tree,
            &mut self.items,
            &mut self.places,
            self.end,
            it,
        );
    }

    /// The item that has this key leaves the row.
    #[inline(never)]
    pub fn remove(&mut self, key: usize)
        requires { is_in key self.old.items ≡ true }
        ensures items { self.new.items ≡ without key self.old.items }
        ensures room { self.new.room ≡ self.old.room }
        ensures path { self.new.path ≡ self.old.path }
    {
        let at = place_of(&self.items, &self.places, key);
        self.tree.set(at, EMPTY);
        self.items[at] = None;
    }

    /// The first item that weighs at most `a`, if there is one (`item`). The search goes down one way in the tree, and takes no
    /// memory (`visits`, `few`).
    pub fn find(&self, a: u64) -> Found
        ensures item { IsFirstFit a self.now.items result.item }
        ensures visits { result.visits ≤ self.now.path }
        ensures few { 2 ^ result.visits ≤ 4 * self.now.room + 1 }
    {
        let way = self.tree.first(a);
        let item = match way.place {
            Some(at) => self.items[at],
            None => None,
        };
        Found {
            item,
            visits: way.visits,
        }
    }
}
