// The multi-way tree worked by clock cycles, over lent words and a state that goes by value. Each call tests the shape and hands on to
// the steps.
#![tactic(auto)]

ghost use Rattle.std.specs.Prelude.{◌≡◌};
ghost use Rattle.tree_model.specs.Calls.{held_count};
ghost use Rattle.tree_clock_model.specs.Calls.{cycle_outcome, cycled, clocked_cleared, drain_outcome, drains};

use strip::{Element, Refusal, Request, left_as, report};
pub use tree_clock_level::shaped::fresh_state;
use tree_clock_level::shaped::{clear_shaped, cycle_shaped, drain_shaped};
use tree_clock_model::{Cycled, Drained, State};
use tree_node::shape::{shape_fits, shape_of};

// ---- a cycle

// One cycle with this request.
pub fn cycle(
    store: &mut [u32],
    order: usize,
    levels: usize,
    state: State,
    request: Request,
) -> Cycled
    ensures { cycle_outcome result.answer store.new result.state ≡ cycled order levels request state store.old }
{
    let shape = shape_of(order, levels);
    if !shape_fits(shape, store.len()) {
        return left_as(Refusal::BadShape, state);
    }
    cycle_shaped(store, order, shape.below, shape.room, state, request)
}

pub fn push(store: &mut [u32], order: usize, levels: usize, state: State, x: Element) -> Cycled
    ensures { cycle_outcome result.answer store.new result.state ≡ cycled order levels (Request.Push x) state store.old }
{
    cycle(store, order, levels, state, Request::Push(x))
}

pub fn pop(store: &mut [u32], order: usize, levels: usize, state: State) -> Cycled
    ensures { cycle_outcome result.answer store.new result.state ≡ cycled order levels Request.Pop state store.old }
{
    cycle(store, order, levels, state, Request::Pop)
}

pub fn replace(store: &mut [u32], order: usize, levels: usize, state: State, x: Element) -> Cycled
    ensures { cycle_outcome result.answer store.new result.state ≡ cycled order levels (Request.Replace x) state store.old }
{
    cycle(store, order, levels, state, Request::Replace(x))
}

// ---- clear and held

// Zeros in the store, nothing pending and the mark off. Refused, the state that was handed over comes back.
pub fn clear(store: &mut [u32], order: usize, levels: usize, state: State) -> Cycled
    ensures { cycle_outcome result.answer store.new result.state ≡ clocked_cleared order levels state store.old }
{
    let shape = shape_of(order, levels);
    if !shape_fits(shape, store.len()) {
        return left_as(Refusal::BadShape, state);
    }
    let cleared = clear_shaped(store, shape.slots);
    Cycled {
        answer: Ok(None),
        state: cleared,
    }
}

// How many are held, by the root alone: no record is read.
pub fn held(store: &[u32], order: usize, levels: usize) -> Result<u32, Refusal>
    ensures { result ≡ held_count order levels store.now }
{
    tree::held(store, order, levels)
}

// ---- drain

// Idle cycles until nothing is pending or the budget is spent: how many were run, and whether work is left.
pub fn drain(store: &mut [u32], order: usize, levels: usize, state: State, budget: usize) -> Drained
    ensures { drain_outcome result.answer result.cycles result.left store.new result.state ≡ drains order levels budget state store.old }
{
    let shape = shape_of(order, levels);
    if !shape_fits(shape, store.len()) {
        return report(Err(Refusal::BadShape), 0, false, state);
    }
    drain_shaped(store, order, shape.below, shape.room, state, budget)
}
