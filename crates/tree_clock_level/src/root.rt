// The request: its answer, and the step of its operation at the root, which is scanned once. `room` is the room below a root's slot.
ghost use Rattle.std.specs.Prelude.{◌≡◌};
ghost use Rattle.tree_model.specs.Damage.{node_ok};
ghost use Rattle.tree_model.specs.Words.{node_of};
ghost use Rattle.tree_clock_model.specs.Calls.{pops_or_replaces, marks};
ghost use Rattle.tree_clock_level.specs.Root.{RootIn, AtRest, Still, Ruled, RulesRoot};

use strip::{Answer, Element, Refusal, Request, asks_something, is_refused, is_untagged};
use tree_model::{Move, Op};
use tree_node::room_under;
use tree_node::scan::node_ok;
use tree_plan::{choose_least, choose_low, no_step, plan_put, plan_swap, plan_take};

// What a request comes to where all that it reads is in order: its answer, the operation at the root, and that operation's step.
#[derive(Clone, Copy)]
pub struct RootStep {
    pub answer: Answer,
    pub op: Op,
    pub step: Move,
}

#[tactic(auto, unfolding(tree_clock_model::specs::Calls::pops_or_replaces))]
fn pops_or_replaces(request: Request) -> bool
    ensures { result ≡ pops_or_replaces request }
{
    matches!(request, Request::Pop | Request::Replace(_))
}

// The mark that a cycle with this request and answer leaves.
#[tactic(auto, unfolding(tree_clock_model::specs::Calls::marks))]
pub fn leaves_mark(request: Request, answer: Answer) -> bool
    ensures { result ≡ marks request answer }
{
    asks_something(request) & !is_refused(answer)
}

// Nothing is done at the root.
fn still(order: usize, answer: Answer) -> RootStep
    ensures { AtRest order answer result }
{
    RootStep {
        answer,
        op: Op::Nothing,
        step: no_step(order),
    }
}

// .. and where an operation was asked for the root is tested all the same.
fn stands(s: &[u32], order: usize, room: usize, answer: Answer) -> Option<RootStep>
    requires { RootIn order room s.now }
    ensures { Still order (node_ok room (node_of order s.now 0)) answer result }
{
    node_ok(s, 0, order, room).then_some(still(order, answer))
}

// No strip without a tag is let in, whatever the root holds. A root that is whole and leaves no room is full.
fn rule_push(s: &[u32], order: usize, room: usize, x: Element) -> Option<RootStep>
    requires { RootIn order room s.now }
    ensures { Ruled order room (Request.Push x) s.now result }
{
    if is_untagged(x) {
        return stands(s, order, room, Err(Refusal::NoTag)); // nothing to put
    }
    let Some(c) = choose_least(s, 0, order, room) else {
        return stands(s, order, room, Err(Refusal::Full));
    };
    Some(RootStep {
        answer: Ok(None),
        op: Op::Put(x),
        step: plan_put(c.place, c.slot, x),
    })
}

// A root that is whole and has no lowest is empty.
fn rule_pop(s: &[u32], order: usize, room: usize) -> Option<RootStep>
    requires { RootIn order room s.now }
    ensures { Ruled order room Request.Pop s.now result }
{
    let Some(c) = choose_low(s, 0, order, room) else {
        return stands(s, order, room, Err(Refusal::Empty)); // nothing to take
    };
    let under = room_under(order, room);
    let step = plan_take(s, order, order, under, c.place, c.slot)?;
    let least = c.slot.element;
    Some(RootStep {
        answer: Ok(Some(least)),
        op: Op::Take,
        step,
    })
}

// Refused without a tag, and like a pop; else the lowest is answered even where x's rank is lower, and x is swapped in. One function for
// both, over a closure that plans, would be no plainer: its contract would speak of the closure's.
fn rule_replace(s: &[u32], order: usize, room: usize, x: Element) -> Option<RootStep>
    requires { RootIn order room s.now }
    ensures { Ruled order room (Request.Replace x) s.now result }
{
    if is_untagged(x) {
        return stands(s, order, room, Err(Refusal::NoTag)); // nothing to swap in
    }
    let Some(c) = choose_low(s, 0, order, room) else {
        return stands(s, order, room, Err(Refusal::Empty)); // nothing to swap with
    };
    let under = room_under(order, room);
    let step = plan_swap(s, order, order, under, c.place, c.slot, x)?;
    let low = c.slot.element;
    Some(RootStep {
        answer: Ok(Some(low)),
        op: Op::Swap(x),
        step,
    })
}

// What the request comes to with this mark. An idle cycle reads no root, and a pop or replace with the mark on is too soon.
pub fn rule_root(
    s: &[u32],
    order: usize,
    room: usize,
    mark: bool,
    request: Request,
) -> Option<RootStep>
    requires { RootIn order room s.now }
    ensures { RulesRoot order room mark request s.now result }
{
    if mark & pops_or_replaces(request) {
        return stands(s, order, room, Err(Refusal::TooSoon));
    }
    // each arm hands over other values: a closure for the step would be no plainer
    match request {
        Request::Idle => Some(still(order, Ok(None))),
        Request::Push(x) => rule_push(s, order, room, x),
        Request::Pop => rule_pop(s, order, room),
        Request::Replace(x) => rule_replace(s, order, room, x),
    }
}
