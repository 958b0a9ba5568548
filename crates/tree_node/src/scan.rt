// One scan of a node, over the lent words. A node is named by the number of its first slot.
ghost use Rattle.std.specs.Prelude.{◌≡◌, ◌<◌, ◌≤◌, IfSome};
ghost use Rattle.std.specs.Option.{unwrap_or};
ghost use Rattle.tree_model.specs.Node.{least_count, lowest, sum_counts};
ghost use Rattle.tree_model.specs.Words.{node_of};
ghost use Rattle.tree_model.specs.Damage.{slot_ok, node_ok};
ghost use Rattle.tree_model.specs.Calls.{slot_limit};
ghost use Rattle.tree_node.specs.Look.{turn_or, least_in, low_in, Led, FirstFilled, NodeIn};

use crate::full::{full, full_low};
use crate::slot::slot_at;
use strip::{is_blank, turn_of};
use tree_model::Slot;

// The largest order. A scan that says so is laid out flat by the compiler, with no loop left.
const ORDER_LIMIT: usize = 8;

// ---- one scan of a node, for both questions: is it whole, and which place

// Whether a slot is not damaged, with room for so many below it.
fn slot_ok(a: Slot, room: usize) -> bool
    requires { room ≤ slot_limit }
    ensures { result ≡ slot_ok room a }
{
    (a.count as usize <= room + 1) & ((a.count != 0) | is_blank(a.element))
}

// Whether no slot of the node is damaged, and the chosen place. No option: `look_least` and `look_low` promise the place of a damaged node
// too, and `tree_plan` reads it.
#[derive(Clone, Copy)]
pub struct Look {
    pub ok: bool,
    pub place: usize,
}

// The place of the smallest count, leftmost on a tie. An empty slot has count 0, so where there is one this is the first of them.
pub fn look_least(s: &[u32], at: usize, order: usize, room: usize) -> Look
    requires { NodeIn order at s.now × (order ≤ 8) × (room ≤ slot_limit) }
    ensures whole { result.ok ≡ node_ok room (node_of order s.now at) }
    ensures place { result.place ≡ least_count (node_of order s.now at) }
    ensures within { result.place < order }
{
    let mut ok = true;
    let mut best = 0;
    let mut few: u64 = 4294967296;
    for j in 0..order.min(ORDER_LIMIT) {
        let a = slot_at(s, at + j);
        ok = ok & slot_ok(a, room);
        let c = a.count as u64;
        if c < few {
            best = j;
            few = c;
        }
    }
    Look { ok, place: best }
}

// When an occupied slot's element leaves, by rank and then by tag, as one number; for an empty slot the highest number.
fn turn_or(a: Slot) -> u64
    ensures { result ≡ turn_or a }
{
    if a.count == 0 {
        return u64::MAX;
    }
    turn_of(a.element)
}

// The place of the lowest turn, leftmost on a tie; the order where no turn is below the highest. The loop of `look_least` with another key,
// and not one loop for both: an edit of `scan_bundle_1` names a mistake in each.
fn look_each(s: &[u32], at: usize, order: usize, room: usize) -> Look
    requires { NodeIn order at s.now × (order ≤ 8) × (room ≤ slot_limit) }
    ensures whole { result.ok ≡ node_ok room (node_of order s.now at) }
    ensures led { Led (node_of order s.now at) result.place }
    ensures within { result.place ≤ order }
{
    let mut ok = true;
    let mut best = order;
    let mut low = u64::MAX;
    for j in 0..order.min(ORDER_LIMIT) {
        let a = slot_at(s, at + j);
        ok = ok & slot_ok(a, room);
        let k = turn_or(a);
        if k < low {
            best = j;
            low = k;
        }
    }
    Look { ok, place: best }
}

// .. in a node of four slots: two pairs are compared, then the winners. On a tie the left one stays, so that the leftmost wins. Not by
// `full::four`: the edits `scan_bundle_1`, `scan_bundle_2` and `four_second_pair` name mistakes in this function.
fn look_four(s: &[u32], at: usize, room: usize) -> Look
    requires { NodeIn 4 at s.now × (room ≤ slot_limit) }
    ensures whole { result.ok ≡ node_ok room (node_of 4 s.now at) }
    ensures led { Led (node_of 4 s.now at) result.place }
    ensures within { result.place ≤ 4 }
{
    let a = slot_at(s, at);
    let b = slot_at(s, at + 1);
    let c = slot_at(s, at + 2);
    let d = slot_at(s, at + 3);
    let ok = slot_ok(a, room) & slot_ok(b, room) & slot_ok(c, room) & slot_ok(d, room);
    let mut best = 0;
    let mut low = turn_or(a);
    let second = turn_or(b);
    if second < low {
        best = 1;
        low = second;
    }
    let mut right = 2;
    let mut high = turn_or(c);
    let fourth = turn_or(d);
    if fourth < high {
        right = 3;
        high = fourth;
    }
    if high < low {
        best = right;
        low = high;
    }
    if low == u64::MAX {
        best = 4;
    }
    Look { ok, place: best }
}

// .. by the order
fn look_turns(s: &[u32], at: usize, order: usize, room: usize) -> Look
    requires { NodeIn order at s.now × (order ≤ 8) × (room ≤ slot_limit) }
    ensures whole { result.ok ≡ node_ok room (node_of order s.now at) }
    ensures led { Led (node_of order s.now at) result.place }
    ensures within { result.place ≤ order }
{
    if order == 4 {
        return look_four(s, at, room);
    }
    look_each(s, at, order, room)
}

// The first occupied place.
fn first_filled(s: &[u32], at: usize, order: usize) -> Option<usize>
    requires { NodeIn order at s.now }
    ensures { FirstFilled (node_of order s.now at) (unwrap_or result order) }
{
    for j in 0..order {
        if slot_at(s, at + j).count != 0 {
            return Some(j);
        }
    }
    None
}

// The place of the occupied slot of lowest rank, of those of that rank the one of lowest tag, leftmost on a tie of both; the order where
// all are empty.
fn look_any(s: &[u32], at: usize, order: usize, room: usize) -> Look
    requires { NodeIn order at s.now × (order ≤ 8) × (room ≤ slot_limit) }
    ensures whole { result.ok ≡ node_ok room (node_of order s.now at) }
    ensures place { result.place ≡ lowest (node_of order s.now at) }
    ensures within { result.place ≤ order }
{
    let v = look_turns(s, at, order, room);
    if v.place == order {
        // nothing is here, or an element of the highest turn, which an empty slot has too
        let first = first_filled(s, at, order).unwrap_or(order);
        return Look { place: first, ..v };
    }
    v
}

// .. in a full node first
pub fn look_low(s: &[u32], at: usize, order: usize, room: usize) -> Look
    requires { NodeIn order at s.now × (order ≤ 8) × (room ≤ slot_limit) }
    ensures whole { result.ok ≡ node_ok room (node_of order s.now at) }
    ensures place { result.place ≡ lowest (node_of order s.now at) }
    ensures within { result.place ≤ order }
{
    if let Some(place) = full_low(s, at, order, room) {
        return Look { ok: true, place };
    }
    look_any(s, at, order, room)
}

// ---- who goes on, in a node that is not damaged: the place of the element that leaves first; none where nothing is held too

pub fn find_low(s: &[u32], at: usize, order: usize, room: usize) -> Option<usize>
    requires { NodeIn order at s.now × (order ≤ 8) × (room ≤ slot_limit) }
    ensures place { result ≡ low_in room (node_of order s.now at) }
    ensures within { IfSome result (λ p. p < order) }
{
    if let Some(place) = full_low(s, at, order, room) {
        return Some(place);
    }
    let v = look_any(s, at, order, room);
    (v.ok & (v.place < order)).then_some(v.place)
}

// .. and the place of the smallest count
pub fn find_least(s: &[u32], at: usize, order: usize, room: usize) -> Option<usize>
    requires { NodeIn order at s.now × (order ≤ 8) × (room ≤ slot_limit) }
    ensures { result ≡ least_in room (node_of order s.now at) }
{
    if let Some(w) = full(s, at, order, room, &|a: Slot| a.count as u64) {
        return Some(w.place);
    }
    let v = look_least(s, at, order, room);
    v.ok.then_some(v.place)
}

// Whether no slot of a node is damaged, with room for so many below each.
pub fn node_ok(s: &[u32], at: usize, order: usize, room: usize) -> bool
    requires { NodeIn order at s.now × (room ≤ slot_limit) }
    ensures { result ≡ node_ok room (node_of order s.now at) }
{
    let mut ok = true;
    for j in 0..order {
        ok = ok & slot_ok(slot_at(s, at + j), room);
    }
    ok
}

// The sum of a node's counts.
pub fn sum_counts(s: &[u32], at: usize, order: usize) -> usize
    requires { NodeIn order at s.now × (order ≤ 8) }
    ensures { result ≡ sum_counts (node_of order s.now at) }
{
    let mut sum: usize = 0;
    for j in 0..order {
        sum += slot_at(s, at + j).count as usize;
    }
    sum
}
