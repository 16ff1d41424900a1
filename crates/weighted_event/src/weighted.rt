//! A list whose entries have weights, of which at most one is notified at a time.

ghost use Rattle.std.specs.Prelude.{◌≡◌, ℕ, ◌+◌, ◌<◌, ◌≤◌, ◌^◌, [], length, true, false, IsTrue, IfOk, OnOk, OnErr, IsOk, IfSome, Some, None, slice_get};
ghost use Rattle.lock_event.specs.Lists.{joined, marked_count, with_key, is_marked_at, is_waiting_at, without, is_marked, IsListed, is_listed};
ghost use Rattle.lock_event.specs.Slots.{has_id};
ghost use Rattle.lock_event.specs.Chains.{is_in, at_slot, rewritten, with_waker};
ghost use Rattle.weighted_event.specs.Weights.{fitted, is_wanted};
ghost use Rattle.std.specs.Prelude.{◌*◌, max, ⊤, is_some};
ghost use Rattle.std.specs.Borrow.{sem};
ghost use Rattle.weighted_event.specs.LoadLends.{LendsBeside};
ghost use Rattle.weighted_event.specs.Rows.{is_in as is_ranked};
ghost use Rattle.lock_event.specs.Chains.{AreApart};
ghost use Rattle.weighted_event.specs.Ranks.{ranked, left_ranks, joined_ranks, AreAlike, IsRanked, IsReady, OnRanked};
ghost use Rattle.weighted_event.specs.Loads.{weight_of as its_weight, laden, load, weight_at, first_fit, marked_waker, without_marked_waker, waker_in, kept_at, HasAskedFor};

use crate::row::Row;
use lock_event::{Asked, Chain, Entry, EntryId, Mark, Memory, Slot, passed};
use std::alloc::Global;
use std::marker::Model;

/// What an entry of a [`WeightedEvent`] carries: how many units it waits for, and whom to wake.
#[derive(Drop)]
pub struct Load<W> {
    /// How many units it waits for.
    pub weight: u64,
    /// What is kept to wake it with.
    pub waker: Option<W>,
}

/// A list of entries in order of joining, each with a weight. At most one of them is notified at a time,
/// wherever it stands.
///
/// A semaphore's waiters each want a number of permits: that number is the weight. [`WeightedEvent::fit`]
/// notifies the first waiter that so many permits are enough for, even if one before it wants more. So
/// the list is not fair to large requests.
///
/// A list of more than eight entries of more than one weight is ranked: its weights stand in a tree of least
/// weights too, in which [`WeightedEvent::fit`] goes down one way.
///
/// Contracts see it as its entries, its room, and how many slots and nodes the last [`WeightedEvent::fit`] or
/// [`WeightedEvent::remove`] visited. Only [`WeightedEvent::listen`] and [`WeightedEvent::reserve`] take
/// memory, and only they can be refused. A join or a leave of a ranked list mends one way in its tree; the
/// join after which a list is ranked takes time in its length. The Rust crate has no such list.
#[derive(Drop)]
pub struct WeightedEvent<W> {
    chain: Chain<Load<W>>,
    // The slot of the notified entry.
    marked: Option<usize>,
    ranks: Ranks,
    visits: u64,
}

// Lists up to this length are walked.
const SHORT: usize = 8;

// How the weights are known beside the entries.
#[derive(Clone, Copy)]
enum Kind {
    // All entries have this weight.
    Alike(u64),
    // There are at most [`SHORT`] entries.
    Few,
    // The row has the weight of each entry.
    Ranked,
}

// The weights beside the entries: in a row only if there are many, of more than one weight. Of another kind, the row is empty.
#[derive(Drop)]
struct Ranks {
    row: Row,
    kind: Kind,
}

impl<W> Model for WeightedEvent<W> {
    ghost use Rattle.lock_event.specs.Waiting.{Waiters};
    ghost use Rattle.weighted_event.specs.declared.weighted.Load.{Load};

    ghost Value = { Waiters (Load W) };

    ghost use Rattle.std.specs.Prelude.{min};
    ghost use Rattle.weighted_event.specs.Ranks.{IsWeighted};

    ghost view = { λ e. record { entries = e.chain.entries; room = min e.chain.room e.ranks.row.room; visits = e.visits } };

    ghost invariant = { λ e. IsWeighted e.chain.entries e.chain.room e.marked e.ranks };
}

// What an entry wants.
fn weight_of<W>(entry: &Entry<Slot<Load<W>>>) -> u64
    ensures { result ≡ its_weight entry.now.key }
{
    match &entry.key.waker {
        Some(load) => load.weight,
        None => 0,
    }
}

// The slot of the first entry that so many are enough for. Each entry before it is one visit.
fn find<W>(chain: &mut Chain<Load<W>>, a: u64) -> Option<usize>
    requires { chain.old.visits ≡ 0 }
    ensures entries { chain.new.entries ≡ chain.old.entries }
    ensures room { chain.new.room ≡ chain.old.room }
    ensures found { result ≡ first_fit a chain.old.entries }
    ensures visits { chain.new.visits ≤ length chain.old.entries }
    ensures before { IfSome result (λ _. chain.new.visits + 1 ≤ length chain.old.entries) }
{
    chain.laws();
    let n = chain.len();
    let mut at = chain.first();
    for _ in 0..n {
        let Some(key) = at else {
            return None;
        };
        if weight_of(chain.at(key)) <= a {
            return at;
        }
        chain.look();
        at = chain.after(at);
    }
    None
}

// The slot of the first entry that so many are enough for, in the row if the list is longer than the way in its tree.
fn search<W>(chain: &mut Chain<Load<W>>, ranks: &Ranks, a: u64) -> Option<usize>
    requires fresh { chain.old.visits ≡ 0 }
    requires ranked { IsRanked chain.old.entries ranks.now.row.items ranks.now.kind }
    ensures entries { chain.new.entries ≡ chain.old.entries }
    ensures room { chain.new.room ≡ chain.old.room }
    ensures found { result ≡ first_fit a chain.old.entries }
    ensures visits { chain.new.visits ≤ length chain.old.entries }
    ensures before { IfSome result (λ _. chain.new.visits + 1 ≤ length chain.old.entries) }
    ensures few { chain.new.visits ≤ max 8 (ranks.now.row.path + 1) }
    ensures few_before { IfSome result (λ _. chain.new.visits + 1 ≤ max 8 (ranks.now.row.path + 1)) }
    ensures path { 2 ^ ranks.now.row.path ≤ 4 * ranks.now.row.room + 1 }
{
    chain.laws();
    let n = chain.len();
    let path = ranks.row.path();
    match ranks.kind {
        Kind::Alike(weight) => alike(chain, weight, a),
        Kind::Few => find(chain, a),
        Kind::Ranked => {
            if n <= SHORT || n as u64 <= path {
                find(chain, a)
            } else {
                let found = ranks.row.find(a);
                chain.looks(found.visits);
                match found.item {
                    Some(item) => Some(item.key),
                    None => None,
                }
            }
        }
    }
}

// The same, where all entries have this weight: the first of them, or none.
fn alike<W>(chain: &mut Chain<Load<W>>, weight: u64, a: u64) -> Option<usize>
    requires fresh { chain.old.visits ≡ 0 }
    requires alike { AreAlike weight chain.old.entries }
    ensures entries { chain.new.entries ≡ chain.old.entries }
    ensures room { chain.new.room ≡ chain.old.room }
    ensures found { result ≡ first_fit a chain.old.entries }
    ensures visits { chain.new.visits ≤ length chain.old.entries }
    ensures before { IfSome result (λ _. chain.new.visits + 1 ≤ length chain.old.entries) }
    ensures few { chain.new.visits ≤ 1 }
    ensures few_before { IfSome result (λ _. chain.new.visits ≡ 0) }
{
    let first = chain.first();
    if weight <= a {
        return first;
    }
    if first.is_some() {
        chain.look();
    }
    None
}

// Makes the row have room for n items, and for as many as the list's slots if there is memory.
fn widen(row: &mut Row, slots: usize, n: usize) -> Result<(), Memory>
    requires { n ≤ slots }
    ensures items { row.new.items ≡ row.old.items }
    ensures room { OnOk result (n ≤ row.new.room) }
    ensures kept { row.old.room ≤ row.new.room }
    ensures lean { row.old.room ≤ 2 * slots + 1 → row.new.room ≤ 2 * slots + 1 }
    ensures succeeds { n ≤ row.old.room → IsOk result }
{
    if row.reserve(slots).is_ok() {
        return Ok(());
    }
    match row.reserve(n) {
        Ok(()) => Ok(()),
        Err(_) => Err(Memory),
    }
}

// The weights of all entries come into the row, which is empty.
fn bring_in<W>(chain: &Chain<Load<W>>, row: &mut Row)
    requires empty { row.old.items ≡ [] }
    requires room { length chain.now.entries ≤ row.old.room }
    ensures items { row.new.items ≡ ranked chain.now.entries }
    ensures room { row.new.room ≡ row.old.room }
{
    chain.laws();
    let mut at = chain.first();
    for _ in 0..chain.len() {
        let Some(key) = at else {
            return;
        };
        row.push(key, weight_of(chain.at(key)));
        at = chain.after(at);
    }
}

// The ranks are made ready for one more entry, of this weight.
fn settle<W>(chain: &Chain<Load<W>>, ranks: &mut Ranks, weight: u64) -> Result<(), Memory>
    requires ranked { IsRanked chain.now.entries ranks.old.row.items ranks.old.kind }
    requires room { length chain.now.entries + 1 ≤ chain.now.room }
    ensures ranked { IsRanked chain.now.entries ranks.new.row.items ranks.new.kind }
    ensures ready { OnOk result (IsReady weight chain.now.entries ranks.new) }
    ensures kept { ranks.old.row.room ≤ ranks.new.row.room }
    ensures lean { ranks.old.row.room ≤ 2 * chain.now.room + 1 → ranks.new.row.room ≤ 2 * chain.now.room + 1 }
    ensures succeeds { length chain.now.entries + 1 ≤ ranks.old.row.room → IsOk result }
{
    let n = chain.len();
    if n == 0 {
        ranks.kind = Kind::Alike(weight);
        return Ok(());
    }
    match ranks.kind {
        Kind::Alike(common) => {
            if common == weight {
                return Ok(());
            }
        }
        Kind::Few => {}
        Kind::Ranked => return widen(&mut ranks.row, chain.capacity(), n + 1),
    }
    if n < SHORT {
        ranks.kind = Kind::Few;
        return Ok(());
    }
    widen(&mut ranks.row, chain.capacity(), n + 1)?;
    bring_in(chain, &mut ranks.row);
    ranks.kind = Kind::Ranked;
    Ok(())
}

// The ranks once an entry of this weight has joined.
fn join(ranks: &mut Ranks, key: usize, weight: u64)
    requires room { OnRanked ranks.old.kind (length ranks.old.row.items < ranks.old.row.room) }
    requires fresh { OnRanked ranks.old.kind (is_ranked key ranks.old.row.items ≡ false) }
    ensures items { ranks.new.row.items ≡ joined_ranks ranks.old.kind key weight ranks.old.row.items }
    ensures kind { ranks.new.kind ≡ ranks.old.kind }
    ensures room { ranks.new.row.room ≡ ranks.old.row.room }
{
    if let Kind::Ranked = ranks.kind {
        ranks.row.push(key, weight);
    }
}

// The ranks once an entry has left.
#[inline(always)]
fn leave(ranks: &mut Ranks, key: usize)
    requires { OnRanked ranks.old.kind (is_ranked key ranks.old.row.items ≡ true) }
    ensures items { ranks.new.row.items ≡ left_ranks ranks.old.kind key ranks.old.row.items }
    ensures kind { ranks.new.kind ≡ ranks.old.kind }
    ensures room { ranks.new.row.room ≡ ranks.old.row.room }
{
    if let Kind::Ranked = ranks.kind {
        ranks.row.remove(key);
    }
}

// The entry in this slot carries that now, and what it carried before is dropped. A new entry carried nothing: then no drop is called.
#[inline(always)]
fn put<W: Drop>(chain: &mut Chain<Load<W>>, key: usize, weight: u64, waker: Option<W>)
    requires listed { is_in key chain.old.entries ≡ true }
    requires counts { chain.old.visits + 1 < 2 ^ 64 }
    ensures entries { chain.new.entries ≡ rewritten key (with_waker (Some (load weight waker))) chain.old.entries }
    ensures room { chain.new.room ≡ chain.old.room }
{
    match chain.set_waker(key, Some(Load { weight, waker })) {
        Some(was) => drop(was),
        None => {}
    }
}

// What was kept to wake an entry with.
fn waker_of<W>(load: Option<Load<W>>) -> Option<W>
    ensures { result ≡ waker_in load }
{
    // It is taken apart to the waker itself: an option within an option would be moved by bytes that lie askew.
    match load {
        Some(
            Load {
                weight: _,
                waker: Some(waker),
            },
        ) => Some(waker),
        Some(
            Load {
                weight: _,
                waker: None,
            },
        ) => None,
        None => None,
    }
}

// Whether an entry stands in this slot that waits and carries a load.
fn is_laden<W>(chain: &Chain<Load<W>>, key: usize) -> bool
    ensures listed { result ≡ true → is_in key chain.now.entries ≡ true }
    ensures laden { result ≡ true → IfSome (at_slot key chain.now.entries) (λ e. (is_marked e.mark ≡ false) × (is_some e.key.waker ≡ true)) }
{
    if !chain.contains(key) {
        return false;
    }
    let entry = chain.at(key);
    !entry.mark.is_marked() && entry.key.waker.is_some()
}

// What a load keeps beside its weight, to write there.
#[inline(always)]
fn beside<W>(load: &mut Option<Load<W>>) -> &mut Option<W>
    requires { is_some load.old ≡ true }
    ensures* writes_back { sem 𝓛 (LendsBeside W.row load.entry result) }
    ensures waker { result.now ≡ waker_in load.old }
{
    match load {
        Some(load) => &mut load.waker,
        None => unreachable!(),
    }
}

// The waker of the entry in this slot.
fn take_waker<W>(chain: &mut Chain<Load<W>>, key: usize) -> Option<W>
    requires listed { is_in key chain.old.entries ≡ true }
    requires counts { chain.old.visits + 1 < 2 ^ 64 }
    ensures waker { IfSome (at_slot key chain.old.entries) (λ e. result ≡ waker_in e.key.waker) }
    ensures entries { IfSome (at_slot key chain.old.entries) (λ e. chain.new.entries ≡ rewritten key (with_waker (Some (load (its_weight e.key) None))) chain.old.entries) }
    ensures room { chain.new.room ≡ chain.old.room }
{
    let weight = weight_of(chain.at(key));
    let light = Load {
        weight,
        waker: None,
    };
    waker_of(chain.set_waker(key, Some(light)))
}

impl<W: Drop> WeightedEvent<W> {
    ghost use Rattle.weighted_event.specs.LoadLends.{LendsWakerOf};

    /// The empty list. It takes no memory yet: it has room for no entry (`room`).
    pub fn new(alloc: Global) -> WeightedEvent<W>
        ensures entries { result.entries ≡ [] }
        ensures room { result.room ≡ 0 }
    {
        WeightedEvent {
            chain: Chain::new(alloc),
            marked: None,
            ranks: Ranks {
                row: Row::new(alloc),
                kind: Kind::Few,
            },
            visits: 0,
        }
    }

    /// How many entries the list has.
    pub fn len(&self) -> usize
        ensures { result ≡ length self.now.entries }
    {
        self.chain.len()
    }

    /// The entry at this place, counted from the front. It walks there.
    pub fn entry(&self, index: usize) -> &Entry<Slot<Load<W>>>
        requires { index < length self.now.entries }
        ensures { slice_get self.now.entries index ≡ Some result.now }
    {
        self.chain.entry(index)
    }

    /// How many slots, and nodes of the tree of weights, the last [`WeightedEvent::fit`] or
    /// [`WeightedEvent::remove`] visited. It is 0 before the first of them.
    pub fn visits(&self) -> u64
        ensures { result ≡ self.now.visits }
    {
        self.visits
    }

    /// At most one entry is notified. The call does nothing: its clause hands a caller's proof that fact.
    pub fn at_most_one(&self)
        ensures { marked_count self.now.entries ≤ 1 }
    {
        let _ = &self.marked;
    }

    /// Makes room for `n` entries more than there are now (`room`): while the list is shorter than that,
    /// [`WeightedEvent::listen`] isn't refused.
    ///
    /// [`Memory`] comes only where that room was missing (`succeeds`) and memory was refused. The list then
    /// is as it was (`entries`), with at least the room that it had (`kept`).
    pub fn reserve(&mut self, n: usize) -> Result<(), Memory>
        ensures entries { self.new.entries ≡ self.old.entries }
        ensures room { OnOk result (length self.old.entries + n ≤ self.new.room) }
        ensures kept { self.old.room ≤ self.new.room }
        ensures succeeds { length self.old.entries + n ≤ self.old.room → IsOk result }
    {
        if self.chain.reserve(n).is_err() {
            return Err(Memory);
        }
        let slots = self.chain.capacity();
        let all = self.chain.len() + n;
        widen(&mut self.ranks.row, slots, all)
    }

    /// Whether an entry has this id, so that the calls that name an entry can be made with it. The id of an
    /// entry that has left may have come again, and then it is another entry's.
    pub fn contains(&self, id: EntryId) -> bool
        ensures { result ≡ is_listed (has_id id) self.now.entries }
    {
        self.chain.contains(id.number)
    }

    /// A new waiting entry of this weight joins at the back, with no waker and an id that no other entry has
    /// (`joined`, `fresh`). Any weight is fine, 0 too.
    ///
    /// [`Memory`] comes only where the list is as long as its room (`succeeds`) and memory was refused. The
    /// list then is as it was (`refused`). Room never shrinks (`room`).
    pub fn listen(&mut self, weight: u64) -> Result<EntryId, Memory>
        ensures joined { IfOk result (λ id. self.new.entries ≡ joined self.old.entries (laden id weight None)) }
        ensures fresh { IfOk result (λ id. is_listed (has_id id) self.old.entries ≡ false) }
        ensures refused { OnErr result (self.new.entries ≡ self.old.entries) }
        ensures succeeds { length self.old.entries < self.old.room → IsOk result }
        ensures room { self.old.room ≤ self.new.room }
    {
        // Room first: so nothing has changed if there is none.
        if self.chain.reserve(1).is_err() {
            return Err(Memory);
        }
        settle(&self.chain, &mut self.ranks, weight)?;
        self.chain.start();
        let Ok(number) = self.chain.push_back() else {
            return Err(Memory);
        };
        self.chain.start();
        put(&mut self.chain, number, weight, None);
        join(&mut self.ranks, number, weight);
        Ok(EntryId { number })
    }

    /// Notifies the first entry whose weight is at most `a`, if no entry is notified and there is such a one
    /// (`entries`). So if `a` are enough for some entry, an entry is notified afterwards (`told`).
    ///
    /// It visits at most as many slots and nodes as there are entries (`visits`), and few even of a long list
    /// (`few`). It visits none if one is notified already.
    pub fn fit(&mut self, a: u64)
        ensures entries { self.new.entries ≡ fitted its_weight a self.old.entries }
        ensures told { IsTrue (is_wanted its_weight a self.old.entries) → 0 < marked_count self.new.entries }
        ensures room { self.new.room ≡ self.old.room }
        ensures visits { self.new.visits ≤ length self.old.entries }
        ensures few { 2 ^ self.new.visits ≤ 256 * (self.old.room + 1) }
    {
        self.chain.start();
        self.chain.laws();
        if self.marked.is_some() {
            self.visits = 0;
            return;
        }
        let found = search(&mut self.chain, &self.ranks, a);
        let Some(key) = found else {
            self.visits = self.chain.visits();
            return;
        };
        let _ = self.chain.mark(key, Mark::Notified);
        self.marked = found;
        self.visits = self.chain.visits();
    }

    /// This entry, which has to stand in the list, leaves it. The answer says whether it was notified, and no
    /// other entry is notified in its place: that is the caller's to do, by [`WeightedEvent::fit`]. At most
    /// eight slots are visited (`visits`).
    pub fn remove(&mut self, id: EntryId) -> bool
        requires { IsListed (has_id id) self.old.entries }
        ensures answer { result ≡ is_marked_at (has_id id) self.old.entries }
        ensures entries { self.new.entries ≡ without (has_id id) self.old.entries }
        ensures room { self.new.room ≡ self.old.room }
        ensures visits { self.new.visits ≤ 8 }
    {
        self.chain.start();
        self.chain.laws();
        let (entry, _next) = self.chain.remove(id.number);
        self.marked = passed(self.marked, id.number, None);
        leave(&mut self.ranks, id.number);
        self.visits = self.chain.visits();
        entry.mark.is_marked()
    }

    /// Whether this entry, which has to stand in the list, has been notified.
    pub fn is_notified(&self, id: EntryId) -> bool
        requires { IsListed (has_id id) self.now.entries }
        ensures { result ≡ is_marked_at (has_id id) self.now.entries }
    {
        self.chain.at(id.number).mark.is_marked()
    }

    /// Asks for the notification of this entry, which has to stand in the list. If it has one, it leaves the
    /// list with it, and `w` is dropped (`answer`, `notified`). If not, it keeps `w` to be woken with, in
    /// place of what it kept before, and its weight stays (`waiting`).
    pub fn poll_entry(&mut self, id: EntryId, w: W) -> bool
        requires { IsListed (has_id id) self.old.entries }
        ensures answer { result ≡ is_marked_at (has_id id) self.old.entries }
        ensures notified { IsTrue result → self.new.entries ≡ without (has_id id) self.old.entries }
        ensures waiting { result ≡ false → self.new.entries ≡ with_key (has_id id) (laden id (weight_at id self.old.entries) (Some w)) self.old.entries }
        ensures room { self.new.room ≡ self.old.room }
    {
        let entry = self.chain.at(id.number);
        let marked = entry.mark.is_marked();
        let weight = weight_of(entry);
        self.chain.start();
        self.chain.laws();
        if marked {
            let _ = self.chain.remove(id.number);
            self.marked = passed(self.marked, id.number, None);
            leave(&mut self.ranks, id.number);
            return true;
        }
        put(&mut self.chain, id.number, weight, Some(w));
        false
    }

    /// Takes out the waker of the notified entry, if there is one that holds one. All else stays.
    pub fn next_waker(&mut self) -> Option<W>
        ensures waker { result ≡ marked_waker self.old.entries }
        ensures entries { self.new.entries ≡ without_marked_waker self.old.entries }
        ensures room { self.new.room ≡ self.old.room }
    {
        let Some(key) = self.marked else {
            return None;
        };
        self.chain.start();
        self.chain.laws();
        take_waker(&mut self.chain, key)
    }

    /// Asks for the notification of the entry that has this id, if one has. It is
    /// [`WeightedEvent::poll_entry`] for a caller to whom the list was out of sight: any id is fine, and no
    /// waker is dropped here (`asked`).
    pub fn ask(&mut self, id: EntryId, waker: Option<W>) -> Asked<W>
        ensures asked { HasAskedFor id waker self.old.entries result self.new.entries }
        ensures room { self.new.room ≡ self.old.room }
    {
        if !self.chain.contains(id.number) {
            return Asked::Unlisted { unused: waker };
        }
        let entry = self.chain.at(id.number);
        let marked = entry.mark.is_marked();
        let weight = weight_of(entry);
        self.chain.start();
        self.chain.laws();
        if marked {
            let (gone, _next) = self.chain.remove(id.number);
            self.marked = passed(self.marked, id.number, None);
            leave(&mut self.ranks, id.number);
            return Asked::Notified {
                kept: waker_of(gone.key.waker),
                unused: waker,
            };
        }
        let kept = self
            .chain
            .set_waker(id.number, Some(Load { weight, waker }));
        Asked::Waiting {
            kept: waker_of(kept),
        }
    }

    /// What the entry that has this id keeps to be woken with, to write there, if it waits (`waits`, `waker`). It then keeps what was
    /// last written there, and all else stays (`writes_back`).
    ///
    /// Of an entry that waits it is `None` only where the entry carries no weight, and each that has joined carries one.
    #[inline(always)]
    pub fn waker_mut(&mut self, id: EntryId) -> Option<&mut Option<W>>
        ensures* writes_back { sem 𝓛 (LendsWakerOf W.row id self.entry result) }
        ensures waits { is_some result ≡ true → is_waiting_at (has_id id) self.old.entries ≡ true }
        ensures waker { IfSome result (λ w. w.now ≡ kept_at id self.old.entries) }
    {
        if is_laden(&self.chain, id.number) {
            Some(beside(self.chain.waker_mut(id.number)))
        } else {
            None
        }
    }

    /// The entry that has this id, if one has, leaves the list without asking. It is
    /// [`WeightedEvent::remove`] for a caller to whom the list was out of sight: any id is fine. The answer
    /// says whether the entry was notified, with what was kept to wake it.
    #[inline(always)]
    pub fn withdraw(&mut self, id: EntryId) -> (bool, Option<W>)
        ensures answer { result.0 ≡ is_marked_at (has_id id) self.old.entries }
        ensures waker { result.1 ≡ kept_at id self.old.entries }
        ensures entries { self.new.entries ≡ without (has_id id) self.old.entries }
        ensures room { self.new.room ≡ self.old.room }
    {
        if !self.chain.contains(id.number) {
            return (false, None);
        }
        self.chain.start();
        self.chain.laws();
        let (gone, _next) = self.chain.remove(id.number);
        self.marked = passed(self.marked, id.number, None);
        leave(&mut self.ranks, id.number);
        (gone.mark.is_marked(), waker_of(gone.key.waker))
    }
}
