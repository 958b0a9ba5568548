// The check of a tree's store, by loops and by descent, and the mender. Slots and nodes go by their numbers in the slice: node q begins with
// slot q * order, and the node under slot p is node p + 1.
#![tactic(auto)]

ghost use Rattle.std.specs.Prelude.{Ok, ◌≡◌, ◌⊎◌, ℕ, suc, ◌*◌, ◌+◌, ◌^◌, ◌≤◌, ◌<◌, length};
ghost use Rattle.promise.specs.Queue.{leaves};
ghost use Rattle.promise.specs.Served.{hit};
ghost use Rattle.tree_model.specs.Node.{sum_counts};
ghost use Rattle.tree_model.specs.Words.{slot_words, slot_of};
ghost use Rattle.tree_model.specs.Promise.{tree_queue};
ghost use Rattle.tree_model.specs.Calls.{slot_limit};
ghost use Rattle.tree_model.specs.Damage.{room};
ghost use Rattle.tree_mend_model.specs.Check.{broken, rank_above, broken_at, checked, node_whole, slot_whole, descended};
ghost use Rattle.tree_mend_model.specs.Mend.{keeps, skips, skipped, pushes, mended, mended_as};
ghost use Rattle.tree_mend.specs.Lie.{under_if, SlotIn, WalkIn, StoreLies, NodeLies, SlotLies};
ghost use Rattle.tree_mend.specs.Settle.{settled, settled_if, Settles, Cleared, Mendable};

pub mod numbers;

use strip::{Element, Rank, Refusal, goes_down, is_blank, is_untagged, stays};
use tree::clear;
use tree_model::Slot;
use tree_node::scan::sum_counts;
use tree_node::shape::{shape_fits, shape_of};
use tree_node::slot::{slot_at, write_slot};

// ---- one slot

// The sum of the counts under slot p, where there is a node under it. Eight 32-bit counts cannot wrap a usize.
fn counts_under(s: &[u32], order: usize, p: usize, under: bool) -> usize
    requires { SlotIn order p under s.now }
    ensures { result ≡ sum_counts (under_if order under s.now p) }
{
    if !under {
        return 0;
    }
    sum_counts(s, (p + 1) * order, order)
}

// Whether slot p is broken, under a slot of that rank.
fn slot_broken(s: &[u32], order: usize, p: usize, under: bool, above: Rank) -> bool
    requires { SlotIn order p under s.now }
    ensures { result ≡ broken above.0 (under_if order under s.now p) (slot_of s.now p) }
{
    let a = slot_at(s, p);
    let sum = counts_under(s, order, p, under);
    if a.count == 0 {
        return !is_blank(a.element) | (sum != 0);
    }
    (a.count as usize - 1 != sum) | (a.element.rank.0 < above.0)
}

fn rank_at(s: &[u32], p: usize) -> Rank
    requires { slot_words * p + slot_words ≤ length s.now }
    ensures { result.0 ≡ (slot_of s.now p).element.rank.0 }
{
    slot_at(s, p).element.rank
}

// ---- by loops

// The rank of the slot above a node; 0 for the root.
fn rank_above(s: &[u32], node: usize) -> Rank
    requires { slot_words * node ≤ length s.now }
    ensures { result.0 ≡ rank_above s.now node }
{
    if node == 0 {
        return Rank(0);
    }
    rank_at(s, node - 1)
}

// Whether slot p is broken, where the first `inner` slots have a node under them.
fn broken_at(s: &[u32], order: usize, inner: usize, p: usize) -> bool
    requires { WalkIn order inner p s.now }
    ensures { result ≡ broken_at order inner s.now p }
{
    let above = rank_above(s, p / order);
    slot_broken(s, order, p, p < inner, above)
}

// The first broken slot in slice order: the walk over levels and slots is left there at once.
fn first_broken(s: &[u32], order: usize, levels: usize, inner: usize) -> Option<u32>
    requires { StoreLies order levels inner s.now }
    ensures { Ok result ≡ checked order levels s.now }
{
    let mut found = None;
    let mut first = 0;
    let mut nodes = 1;
    'walk: for level in 0..levels {
        let end = first + nodes * order;
        for p in first..end {
            if broken_at(s, order, inner, p) {
                found = Some(p as u32);
                break 'walk;
            }
        }
        first = end;
        nodes *= order;
    }
    found
}

// Whether no slot is broken, or else the first broken one.
pub fn check(store: &[u32], order: usize, levels: usize) -> Result<Option<u32>, Refusal>
    ensures { result ≡ checked order levels store.now }
{
    let shape = shape_of(order, levels);
    if !shape_fits(shape, store.len()) {
        return Err(Refusal::BadShape);
    }
    Ok(first_broken(store, order, levels, shape.room))
}

// ---- by descent: the check of a node calls the check of its slots, and each slot that of the node under it, with the levels left falling

#[cycle(node_whole_slot_whole)]
fn node_whole(s: &[u32], order: usize, left: usize, node: usize, above: Rank) -> bool
    requires { NodeLies order left node s.now }
    ensures { result ≡ node_whole order left s.now node above.0 }
{
    if left == 0 {
        return true;
    }
    let first = node * order;
    for p in first..first + order {
        if !slot_whole(s, order, left - 1, p, above) {
            return false;
        }
    }
    true
}

#[cycle(node_whole_slot_whole)]
fn slot_whole(s: &[u32], order: usize, left: usize, p: usize, above: Rank) -> bool
    requires { SlotLies order left p s.now }
    ensures { result ≡ slot_whole order left s.now above.0 p }
{
    if slot_broken(s, order, p, left > 0, above) {
        return false;
    }
    let rank = rank_at(s, p);
    node_whole(s, order, left, p + 1, rank)
}

// Whether no slot is broken.
pub fn is_whole(store: &[u32], order: usize, levels: usize) -> Result<bool, Refusal>
    ensures { result ≡ descended order levels store.now }
{
    let shape = shape_of(order, levels);
    if !shape_fits(shape, store.len()) {
        return Err(Refusal::BadShape);
    }
    Ok(node_whole(store, order, levels, 0, Rank(0)))
}

// ---- the mender

// The order, which is 2, 4 or 8, as a power of 2.
fn power_of(order: usize) -> usize
    requires { (order ≡ 2) ⊎ (order ≡ 4) ⊎ (order ≡ 8) }
    ensures { (order ≡ 2 ^ result) × (result < 64) }
{
    order.trailing_zeros() as usize
}

// A tree that is only pushed into fills evenly, so that its counts need not be read: push n, from 0, takes place n mod M of a node, and goes
// on below as push n / M - 1, with the element that it met where that has the higher rank.
fn settle(to: &mut [u32], order: usize, power: usize, n: usize, x: Element)
    requires { Settles order power n to.old }
    ensures { (k : ℕ) → n < room order (suc k) → to.new ≡ settled order k 0 n x to.old }
{
    let mut down = x;
    let mut left = n;
    let mut first = 0;
    // not a counter: `left` falls by the power at each level
    while order <= left {
        let next = left >> power;
        let p = first + (left - next * order);
        let y = slot_at(to, p).element;
        let up = stays(down, y);
        let count = (next + 1) as u32;
        let kept = Slot { element: up, count };
        write_slot(to, p, kept);
        down = goes_down(down, y);
        left = next - 1;
        first = (p + 1) * order;
    }
    let last = Slot {
        element: down,
        count: 1,
    };
    write_slot(to, first + left, last);
}

// How many were pushed, and how many skipped.
#[derive(Clone, Copy)]
pub struct Tally {
    pub pushed: usize,
    pub skipped: usize,
}

// One slot's part: its element is pushed, unless the slot is empty or its tag is 0, which is skipped.
fn mend_slot(to: &mut [u32], order: usize, power: usize, t: Tally, a: Slot) -> Tally
    requires settles { Settles order power t.pushed to.old }
    requires pushed_in { t.pushed ≤ slot_limit }
    requires skipped_in { t.skipped ≤ slot_limit }
    ensures counts { (result.pushed ≡ t.pushed + hit (keeps a)) × (result.skipped ≡ t.skipped + hit (skips a)) }
    ensures words { (k : ℕ) → t.pushed < room order (suc k) → to.new ≡ settled_if order k t.pushed a to.old }
{
    if a.count == 0 {
        return t;
    }
    if is_untagged(a.element) {
        return Tally {
            skipped: t.skipped + 1,
            ..t
        };
    }
    settle(to, order, power, t.pushed, a.element);
    Tally {
        pushed: t.pushed + 1,
        ..t
    }
}

// So many slots of the first store, in slice order, into the second, which has been cleared. Answers how many were skipped.
fn mend_slots(from: &[u32], to: &mut [u32], order: usize, slots: usize) -> usize
    requires { Mendable order slots from.now to.old }
    ensures skipped { result ≡ skipped from.now 0 slots }
    ensures words { (k : ℕ) → Cleared order (suc k) to.old → slots ≡ room order (suc k) → to.new ≡ leaves (tree_queue order (suc k)) (pushes from.now 0 slots) to.old }
{
    let power = power_of(order);
    let mut t = Tally {
        pushed: 0,
        skipped: 0,
    };
    for i in 0..slots {
        t = mend_slot(to, order, power, t, slot_at(from, i));
    }
    t.skipped
}

// Clears the second store and pushes into it, in slice order, every slot of the first with a count not 0; those with tag 0 are skipped and
// counted. The first is left alone.
pub fn mend(from: &[u32], to: &mut [u32], order: usize, levels: usize) -> Result<u32, Refusal>
    ensures { mended_as result to.new ≡ mended order levels from.now to.old }
{
    let shape = shape_of(order, levels);
    if !shape_fits(shape, from.len()) {
        return Err(Refusal::BadShape);
    }
    if !shape_fits(shape, to.len()) {
        return Err(Refusal::BadShape);
    }
    let _ = clear(to, order, levels);
    let skipped = mend_slots(from, to, order, shape.slots);
    Ok(skipped as u32)
}
