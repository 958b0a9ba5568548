// The clocked tree's steps on a tree whose shape has been tested: one cycle, one drain, one clear. `below` levels are below the root, with
// `room` below each of its slots.
ghost use Rattle.std.specs.Prelude.{◌≡◌, true, ◌*◌, ◌≤◌, suc, length};
ghost use Rattle.tree_model.specs.Calls.{shape_ok};
ghost use Rattle.tree_model.specs.Words.{slot_words, wipe};
ghost use Rattle.tree_clock_model.specs.Calls.{cycle_outcome, cycled, fresh, drain_outcome, drains};
ghost use Rattle.tree_clock_level.specs.Root.{RoomIs};

use crate::records::{is_nothing, is_quiet, no_work};
use crate::root::{leaves_mark, rule_root};
use crate::{ran, run_levels};
use strip::{Refusal, Request, is_refused, left_as, report};
use tree_clock_model::{Cycled, Drained, RECORDS, State};
use tree_node::slot::{SLOT_WORDS, zero_words};

// ---- a cycle

pub fn cycle_shaped(
    store: &mut [u32],
    order: usize,
    below: usize,
    room: usize,
    state: State,
    request: Request,
) -> Cycled
    requires { (shape_ok order (suc below) (length store.old) ≡ true) × RoomIs order below room }
    ensures { cycle_outcome result.answer store.new result.state ≡ cycled order (suc below) request state store.old }
{
    let Some(g) = rule_root(store, order, room, state.mark, request) else {
        return left_as(Refusal::Damaged, state);
    };
    let mark = leaves_mark(request, g.answer);
    if is_nothing(g.op) && is_quiet(below, state.records) {
        // with nothing to do at any level only the mark changes
        return ran(g.answer, state.records, mark);
    }
    run_levels(store, order, below, room, g, state, mark)
}

// ---- a clear

// A state with nothing pending and the mark off, for a machine that was never used.
#[tactic(auto, unfolding(tree_clock_model::specs::Calls::fresh))]
pub fn fresh_state() -> State
    ensures { result ≡ fresh }
{
    State {
        records: [no_work(); RECORDS],
        mark: false,
    }
}

// Zeros in the words of so many slots, and the state that a clear leaves.
#[tactic(auto, unfolding(tree_model::specs::Words::wipe))]
pub fn clear_shaped(store: &mut [u32], slots: usize) -> State
    requires { slot_words * slots ≤ length store.old }
    ensures { (store.new ≡ wipe slots store.old) × (result ≡ fresh) }
{
    zero_words(store, slots * SLOT_WORDS);
    fresh_state()
}

// ---- a drain

// Each cycle leaves one more level with nothing to do, so that no more are run than there are levels from 2, whatever the budget.
pub fn drain_shaped(
    store: &mut [u32],
    order: usize,
    below: usize,
    room: usize,
    state: State,
    budget: usize,
) -> Drained
    requires { (shape_ok order (suc below) (length store.old) ≡ true) × RoomIs order below room }
    ensures { drain_outcome result.answer result.cycles result.left store.new result.state ≡ drains order (suc below) budget state store.old }
{
    let mut now = state;
    for run in 0..budget {
        if is_quiet(below, now.records) {
            return report(Ok(None), run, false, now);
        }
        let c = cycle_shaped(store, order, below, room, now, Request::Idle);
        if is_refused(c.answer) {
            return report(c.answer, run, true, c.state);
        }
        now = c.state;
    }
    let quiet = is_quiet(below, now.records);
    report(Ok(None), budget, !quiet, now)
}
