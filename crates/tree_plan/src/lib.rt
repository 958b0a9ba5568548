// A step at one node looked at before anything is written: the step, where all that it reads is in order. Each node is scanned once.
#![tactic(auto)]

ghost use Rattle.std.specs.Prelude.{◌≡◌, ◌&&◌, ◌+◌, ◌*◌, ◌<◌, ◌≤◌, ℕ, IfSome, is_some};
ghost use Rattle.tree_model.specs.Node.{least_count, lowest, move};
ghost use Rattle.tree_model.specs.Words.{node_of};
ghost use Rattle.tree_model.specs.Damage.{node_ok, has_room, has_some};
ghost use Rattle.tree_model.specs.Calls.{slot_limit};
ghost use Rattle.strip.specs.Answers.{blank};
ghost use Rattle.tree_node.specs.Look.{NodeIn};
ghost use Rattle.tree_plan.specs.Planning.{Chosen, PlanIn, Planned, lifts_ok, put_from, take_from, swap_from};

use strip::{Element, goes_down, lower, no_element, stays};
use tree_model::{Move, Op, Slot};
use tree_node::scan::{look_least, look_low};
use tree_node::slot::slot_at;

// ---- choices

// The slot that a step chooses, and its place.
#[derive(Clone, Copy)]
pub struct Choice {
    pub place: usize,
    pub slot: Slot,
}

// For a put: the slot with the smallest count, where the node is in order and that slot leaves room.
pub fn choose_least(s: &[u32], at: usize, order: usize, room: usize) -> Option<Choice>
    requires { NodeIn order at s.now × (order ≤ 8) × (room ≤ slot_limit) }
    ensures order { is_some result ≡ (node_ok room (node_of order s.now at) && has_room room (node_of order s.now at)) }
    ensures chosen { IfSome result (λ c. Chosen order at s.now (least_count (node_of order s.now at)) c.place c.slot) }
    ensures small { IfSome result (λ c. c.slot.count ≤ slot_limit) }
{
    let l = look_least(s, at, order, room);
    let slot = slot_at(s, at + l.place);
    let ok = l.ok & (slot.count as usize <= room);
    ok.then_some(Choice {
        place: l.place,
        slot,
    })
}

// For a take, a swap or a read for the lowest: the occupied slot of lowest rank, where the node is in order and has one.
pub fn choose_low(s: &[u32], at: usize, order: usize, room: usize) -> Option<Choice>
    requires { NodeIn order at s.now × (order ≤ 8) × (room ≤ slot_limit) }
    ensures order { is_some result ≡ (node_ok room (node_of order s.now at) && has_some (node_of order s.now at)) }
    ensures chosen { IfSome result (λ c. Chosen order at s.now (lowest (node_of order s.now at)) c.place c.slot) }
{
    let l = look_low(s, at, order, room);
    if l.place == order {
        return None;
    }
    let slot = slot_at(s, at + l.place);
    l.ok.then_some(Choice {
        place: l.place,
        slot,
    })
}

// ---- steps

fn step_at(place: usize, element: Element, count: u32, rest: Op) -> Move
    ensures { result ≡ move place element count rest }
{
    let slot = Slot { element, count };
    Move { place, slot, rest }
}

// Nothing is done: no slot has that place. It is a step and no None, since `node_move` has it so.
pub fn no_step(order: usize) -> Move
    ensures { result ≡ move order blank 0 Op.Nothing }
{
    step_at(order, no_element(), 0, Op::Nothing)
}

// A put at the chosen slot.
#[tactic(auto, unfolding(crate::specs::Planning::put_from, tree_model::specs::Node::is_empty))]
pub fn plan_put(place: usize, slot: Slot, x: Element) -> Move
    requires { slot.count ≤ slot_limit }
    ensures { result ≡ put_from place slot x }
{
    if slot.count == 0 {
        return step_at(place, x, 1, Op::Nothing);
    }
    let y = slot.element;
    let down = goes_down(x, y);
    step_at(place, stays(x, y), slot.count + 1, Op::Put(down))
}

// A take at the chosen slot: above count 1 it lifts the lowest element of the node below, the first of which begins at slot `first`.
#[tactic(auto, unfolding(crate::specs::Planning::lifts_ok, crate::specs::Planning::take_from))]
pub fn plan_take(
    s: &[u32],
    first: usize,
    order: usize,
    room: usize,
    place: usize,
    slot: Slot,
) -> Option<Move>
    requires { (1 < slot.count → NodeIn order (first + place * order) s.now) × (order ≤ 8) × (room ≤ slot_limit) }
    ensures order { is_some result ≡ lifts_ok room slot (node_of order s.now (first + place * order)) }
    ensures step { IfSome result (λ v. v ≡ take_from place slot (node_of order s.now (first + place * order))) }
{
    if slot.count <= 1 {
        return Some(step_at(place, no_element(), 0, Op::Nothing));
    }
    let c = choose_low(s, first + place * order, order, room)?;
    let up = c.slot.element;
    Some(step_at(place, up, slot.count - 1, Op::Take))
}

// A swap likewise. One function for both would be no plainer: they share the choice below, and nothing after it.
#[tactic(auto, unfolding(crate::specs::Planning::lifts_ok, crate::specs::Planning::swap_from))]
pub fn plan_swap(
    s: &[u32],
    first: usize,
    order: usize,
    room: usize,
    place: usize,
    slot: Slot,
    x: Element,
) -> Option<Move>
    requires { (1 < slot.count → NodeIn order (first + place * order) s.now) × (order ≤ 8) × (room ≤ slot_limit) }
    ensures order { is_some result ≡ lifts_ok room slot (node_of order s.now (first + place * order)) }
    ensures step { IfSome result (λ v. v ≡ swap_from place slot (node_of order s.now (first + place * order)) x) }
{
    if slot.count <= 1 {
        return Some(step_at(place, x, slot.count, Op::Nothing));
    }
    let c = choose_low(s, first + place * order, order, room)?;
    let up = c.slot.element;
    if lower(up, x) {
        return Some(step_at(place, up, slot.count, Op::Swap(x)));
    }
    Some(step_at(place, x, slot.count, Op::Nothing))
}

// ---- the step of a node: `room` is the room below a slot of this level, `under` below one of the next

fn put_at(s: &[u32], at: usize, order: usize, room: usize, x: Element) -> Option<Move>
    requires { NodeIn order at s.now × (order ≤ 8) × (room ≤ slot_limit) }
    ensures { (under first : ℕ) → Planned order room under (Op.Put x) at first s.now result }
{
    let c = choose_least(s, at, order, room)?;
    Some(plan_put(c.place, c.slot, x))
}

fn take_at(
    s: &[u32],
    at: usize,
    first: usize,
    order: usize,
    room: usize,
    under: usize,
) -> Option<Move>
    requires { PlanIn order at first room under s.now }
    ensures { Planned order room under Op.Take at first s.now result }
{
    let c = choose_low(s, at, order, room)?;
    plan_take(s, first, order, under, c.place, c.slot)
}

fn swap_at(
    s: &[u32],
    at: usize,
    first: usize,
    order: usize,
    room: usize,
    under: usize,
    x: Element,
) -> Option<Move>
    requires { PlanIn order at first room under s.now }
    ensures { Planned order room under (Op.Swap x) at first s.now result }
{
    let c = choose_low(s, at, order, room)?;
    plan_swap(s, first, order, under, c.place, c.slot, x)
}

// The step of any operation at the node whose first slot is slot `at`; the node below its first place begins at slot `first`.
pub fn plan_of(
    s: &[u32],
    at: usize,
    first: usize,
    order: usize,
    room: usize,
    under: usize,
    op: Op,
) -> Option<Move>
    requires { PlanIn order at first room under s.now }
    ensures { Planned order room under op at first s.now result }
{
    // each arm hands over other values: a closure for the step would be no plainer
    match op {
        Op::Nothing => Some(no_step(order)),
        Op::Put(x) => put_at(s, at, order, room, x),
        Op::Take => take_at(s, at, first, order, room, under),
        Op::Swap(x) => swap_at(s, at, first, order, room, under, x),
    }
}
