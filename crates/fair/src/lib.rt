// Weighted fair ranks above the one-at-a-time tree. Lent are the state (the clock, then the last finish of each flow) and the tree's store.
#![tactic(auto)]

ghost use Rattle.std.specs.Prelude.{◌≡◌, ◌+◌, ◌≤◌, ◌<◌, length};
ghost use Rattle.tree_model.specs.Calls.{held_count};
ghost use Rattle.fair_model.specs.Ranks.{Good, cells, finish};
ghost use Rattle.fair_model.specs.Calls.{desk, noted, pops, pushes, reply, resets, strip_ok, timed, told};

pub mod numbers;

use fair_model::{FairAnswer, FairRefusal, Flow, Weight};
use fair_table::step_of;
use strip::{Answer, Element, Length, Rank, Refusal, Tag};
use tree_node::slot::zero_words;

// The words of a state: the clock and 64 finishes.
pub const STATE_WORDS: usize = 65;

// ---- the numbers

// Are flow, weight and length within the limits?
fn strip_ok(flow: Flow, weight: Weight, length: Length) -> bool
    ensures { result ≡ strip_ok flow.0 weight.0 length.0 }
{
    // five comparisons and no branch: `contains` (tried) proves only by cases of each range
    (flow.0 < 64)
        & ((1 <= weight.0) & ((weight.0 <= 1024) & ((1 <= length.0) & (length.0 <= 9216))))
}

// A length in cells of 64 bytes, rounded up.
fn cells_of(bytes: u32) -> u32
    requires { bytes ≤ 9216 }
    ensures { result ≡ cells bytes }
{
    bytes.div_ceil(64)
}

// The larger of the clock and the last finish, plus cells times step. In 64 bits, so that nothing wraps.
fn finish_of(clock: u32, last: u32, flow: Flow, weight: Weight, length: Length) -> u64
    requires { Good flow.0 weight.0 length.0 }
    ensures { result ≡ finish clock last weight.0 length.0 }
{
    let cost = cells_of(length.0) * step_of(weight.0);
    u64::from(clock.max(last)) + u64::from(cost)
}

// ---- what is noted in the state

// The finish of a flow, where the queue has taken its strip.
fn note(state: &mut [u32], flow: u32, rank: u32, answer: Answer) -> FairAnswer
    requires { flow + 1 < length state.old }
    ensures { (result ≡ told answer) × (state.new ≡ noted answer flow rank state.old) }
{
    let given = answer?;
    if given.is_none() {
        state[flow as usize + 1] = rank;
    }
    Ok(given)
}

// The clock, where the queue has given an element.
fn set_clock(state: &mut [u32], answer: Answer) -> FairAnswer
    requires { 0 < length state.old }
    ensures { (result ≡ told answer) × (state.new ≡ timed answer state.old) }
{
    let given = answer?;
    if let Some(e) = given {
        state[0] = e.rank.0;
    }
    Ok(given)
}

// ---- the calls

pub fn push(
    state: &mut [u32],
    store: &mut [u32],
    order: usize,
    levels: usize,
    flow: Flow,
    weight: Weight,
    tag: Tag,
    length: Length,
) -> FairAnswer
    ensures { reply result (desk state.new store.new) ≡ pushes order levels flow.0 weight.0 length.0 tag.0 (desk state.old store.old) }
{
    if !strip_ok(flow, weight, length) {
        return Err(FairRefusal::BadStrip);
    }
    if state.len() < STATE_WORDS {
        return Err(FairRefusal::Queue(Refusal::BadShape));
    }
    let next = finish_of(state[0], state[flow.0 as usize + 1], flow, weight, length);
    let Ok(rank) = u32::try_from(next) else {
        return Err(FairRefusal::ClockSpent);
    };
    let x = Element {
        rank: Rank(rank),
        tag,
        length,
    };
    let answer = tree::push(store, order, levels, x);
    note(state, flow.0, rank, answer)
}

pub fn pop(state: &mut [u32], store: &mut [u32], order: usize, levels: usize) -> FairAnswer
    ensures { reply result (desk state.new store.new) ≡ pops order levels (desk state.old store.old) }
{
    if state.len() < STATE_WORDS {
        return Err(FairRefusal::Queue(Refusal::BadShape));
    }
    let answer = tree::pop(store, order, levels);
    set_clock(state, answer)
}

// The store is read only: by the root, how many are held. Where that is refused, so is the reset.
pub fn reset(state: &mut [u32], store: &[u32], order: usize, levels: usize) -> FairAnswer
    ensures { reply result (desk state.new store.now) ≡ resets order levels (desk state.old store.now) }
{
    if state.len() < STATE_WORDS {
        return Err(FairRefusal::Queue(Refusal::BadShape));
    }
    if 0 < tree::held(store, order, levels)? {
        return Err(FairRefusal::NotEmpty);
    }
    zero_words(state, STATE_WORDS);
    Ok(None)
}

// The queue's own: no word of the state is read.
pub fn held(store: &[u32], order: usize, levels: usize) -> Result<u32, Refusal>
    ensures { result ≡ held_count order levels store.now }
{
    tree::held(store, order, levels)
}
