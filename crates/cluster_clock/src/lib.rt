// The cluster heap worked by clock cycles, over lent words and records that go by value. Each call tests the shape and hands on to the steps. An operation may
// be asked for in every cycle: nothing is ever too soon.
#![tactic(auto)]

ghost use Rattle.std.specs.Prelude.{◌≡◌, ◌≤◌};
ghost use Rattle.cluster.specs.Coded.{nodes_of};
ghost use Rattle.cluster_clock_model.specs.Calls.{clock_cleared, clock_held, drain_outcome, drains, cycled, cycle_outcome};
ghost use Rattle.cluster_model.specs.Heap.{room};

use cluster::{nodes, shape_ok};
pub use cluster_clock_level::shaped::fresh_records;
use cluster_clock_level::shaped::{cycle_shaped, drain_shaped, open_root};
use cluster_clock_model::{ClusterCycled, ClusterDrained, STAGES, Stage};
use strip::{Element, Refusal, Request, left_as, report};

// How many elements so many levels hold. As `cluster`'s own, and here once more: one that both call would be public, and ask its
// callers for what only a tested shape gives.
fn room_of(places: usize, levels: usize) -> usize
    requires { (places ≤ 16) × (nodes_of levels ≤ 5460) }
    ensures { result ≡ room places levels }
{
    places * nodes(levels)
}

// ---- a cycle

// One cycle with this request.
pub fn cycle(
    store: &mut [u32],
    places: usize,
    levels: usize,
    records: [Stage; STAGES],
    request: Request,
) -> ClusterCycled
    ensures { cycle_outcome result.answer store.new result.state ≡ cycled places levels request records store.old }
{
    if !shape_ok(places, levels, store.len()) {
        return left_as(Refusal::BadShape, records);
    }
    let below = levels - 1;
    let top = room_of(places, below);
    cycle_shaped(store, places, below, top, records, request)
}

pub fn push(
    store: &mut [u32],
    places: usize,
    levels: usize,
    records: [Stage; STAGES],
    x: Element,
) -> ClusterCycled
    ensures { cycle_outcome result.answer store.new result.state ≡ cycled places levels (Request.Push x) records store.old }
{
    cycle(store, places, levels, records, Request::Push(x))
}

pub fn pop(
    store: &mut [u32],
    places: usize,
    levels: usize,
    records: [Stage; STAGES],
) -> ClusterCycled
    ensures { cycle_outcome result.answer store.new result.state ≡ cycled places levels Request.Pop records store.old }
{
    cycle(store, places, levels, records, Request::Pop)
}

pub fn replace(
    store: &mut [u32],
    places: usize,
    levels: usize,
    records: [Stage; STAGES],
    x: Element,
) -> ClusterCycled
    ensures { cycle_outcome result.answer store.new result.state ≡ cycled places levels (Request.Replace x) records store.old }
{
    cycle(store, places, levels, records, Request::Replace(x))
}

// ---- clear and held

// Zeros in the store, and nothing pending. Refused, the records that were handed over come back.
pub fn clear(
    store: &mut [u32],
    places: usize,
    levels: usize,
    records: [Stage; STAGES],
) -> ClusterCycled
    ensures { cycle_outcome result.answer store.new result.state ≡ clock_cleared places levels records store.old }
{
    if !shape_ok(places, levels, store.len()) {
        return left_as(Refusal::BadShape, records);
    }
    ClusterCycled {
        answer: cluster::clear(store, places, levels),
        state: fresh_records(),
    }
}

// How many are held, by the root alone, in the middle of any work too: no record is read.
pub fn held(store: &[u32], places: usize, levels: usize) -> Result<u32, Refusal>
    ensures { result ≡ clock_held places levels store.now }
{
    if !shape_ok(places, levels, store.len()) {
        return Err(Refusal::BadShape);
    }
    let top = room_of(places, levels - 1);
    match open_root(store, places, top) {
        Some(root) => Ok(root.held as u32),
        None => Err(Refusal::Damaged),
    }
}

// ---- drain

// Idle cycles until nothing is pending or the budget is spent: how many were run, and whether work is left.
pub fn drain(
    store: &mut [u32],
    places: usize,
    levels: usize,
    records: [Stage; STAGES],
    budget: usize,
) -> ClusterDrained
    ensures { drain_outcome result.answer result.cycles result.left store.new result.state ≡ drains places levels budget records store.old }
{
    if !shape_ok(places, levels, store.len()) {
        return report(Err(Refusal::BadShape), 0, false, records);
    }
    let below = levels - 1;
    let top = room_of(places, below);
    drain_shaped(store, places, below, top, records, budget)
}
