// The clocked cluster heap's steps on a heap whose shape has been tested: what a request comes to at the root, one cycle, one drain. `below` levels are below
// the root, each of whose children has room for `top`.
ghost use Rattle.std.specs.Prelude.{◌≡◌, true, ◌≤◌, suc, length};
ghost use Rattle.cluster_clock_model.specs.Calls.{drain_outcome, drains, fresh, is_nothing, quiet, stage_count, cycled, cycle_outcome};
ghost use Rattle.cluster_model.specs.Calls.{shape_ok};
ghost use Rattle.cluster_model.specs.Heap.{room};
ghost use Rattle.cluster_clock_level.specs.Turn.{Opened, RootIn, Rules, RulesFor};

use crate::levels::{run_levels, stages_ok};
use crate::{Job, Task, no_stage};
use cluster_clock_model::{ClusterCycled, ClusterDrained, Due, STAGES, Stage};
use cluster_node::{COUNTS, PLACE_WORDS, RIGHT, elem_at, look, node_ok};
use strip::{
    Answer, Element, Refusal, Request, asks_something, is_refused, is_untagged, left_as, report,
};

// ---- the root

// How many the heap holds by a root that is in order, and the root's lowest place with its element.
#[derive(Clone, Copy)]
pub struct Root {
    pub held: usize,
    pub place: usize,
    pub low: Element,
}

// The root is node 0: its counts are words 0 and 1, its places begin at word 2. One place of it may be waiting.
pub fn open_root(s: &[u32], k: usize, top: usize) -> Option<Root>
    requires { RootIn k top s.now }
    ensures { Opened k top s.now result }
{
    let v = look(s, COUNTS, k);
    if !node_ok(s, k - 1, top, 0, v) {
        return None;
    }
    Some(Root {
        held: v.count + (s[0] as usize + s[RIGHT] as usize),
        place: v.low,
        low: elem_at(s, COUNTS + v.low * PLACE_WORDS),
    })
}

// ---- a request

// What a request comes to: the answer, and the root's task.
#[derive(Clone, Copy)]
pub struct Ruled {
    pub answer: Answer,
    pub task: Task,
}

// Nothing is done at the root.
fn still(answer: Answer) -> Ruled
    ensures { (result.answer ≡ answer) × (result.task ≡ record { job = Job.Rest; node = 0; place = 0 }) }
{
    let task = Task {
        job: Job::Rest,
        node: 0,
        place: 0,
    };
    Ruled { answer, task }
}

fn rule_push(capacity: usize, held: usize, place: usize, low: Element, x: Element) -> Ruled
    ensures { Rules capacity held place low (Request.Push x) result }
{
    if is_untagged(x) {
        return still(Err(Refusal::NoTag));
    }
    if capacity <= held {
        return still(Err(Refusal::Full));
    }
    let task = Task {
        job: Job::Put(x),
        node: 0,
        place: 0,
    };
    Ruled {
        answer: Ok(None),
        task,
    }
}

fn rule_pop(capacity: usize, held: usize, place: usize, low: Element) -> Ruled
    ensures { Rules capacity held place low Request.Pop result }
{
    if held == 0 {
        return still(Err(Refusal::Empty));
    }
    let task = Task {
        job: Job::Take,
        node: 0,
        place,
    };
    Ruled {
        answer: Ok(Some(low)),
        task,
    }
}

// The lowest is answered even where x's rank is lower, and x is swapped in.
fn rule_replace(capacity: usize, held: usize, place: usize, low: Element, x: Element) -> Ruled
    ensures { Rules capacity held place low (Request.Replace x) result }
{
    if is_untagged(x) {
        return still(Err(Refusal::NoTag));
    }
    if held == 0 {
        return still(Err(Refusal::Empty));
    }
    let task = Task {
        job: Job::Swap(x),
        node: 0,
        place,
    };
    Ruled {
        answer: Ok(Some(low)),
        task,
    }
}

fn rule(capacity: usize, held: usize, place: usize, low: Element, request: Request) -> Ruled
    ensures { Rules capacity held place low request result }
{
    // each arm hands over other values: a closure for the step would be no plainer
    match request {
        Request::Idle => still(Ok(None)),
        Request::Push(x) => rule_push(capacity, held, place, low, x),
        Request::Pop => rule_pop(capacity, held, place, low),
        Request::Replace(x) => rule_replace(capacity, held, place, low, x),
    }
}

// What the request comes to at the root, if the root is in order. An idle cycle reads no root.
pub fn rule_root(s: &[u32], k: usize, top: usize, request: Request) -> Option<Ruled>
    requires { RootIn k top s.now }
    ensures { RulesFor k top request s.now result }
{
    if !asks_something(request) {
        return Some(still(Ok(None)));
    }
    let g = open_root(s, k, top)?;
    Some(rule(k + (top + top), g.held, g.place, g.low, request))
}

// ---- a cycle

// All tests come before the first write.
pub fn cycle_shaped(
    store: &mut [u32],
    k: usize,
    below: usize,
    top: usize,
    records: [Stage; STAGES],
    request: Request,
) -> ClusterCycled
    requires { (shape_ok k (suc below) (length store.old) ≡ true) × (top ≡ room k below) }
    ensures { cycle_outcome result.answer store.new result.state ≡ cycled k (suc below) request records store.old }
{
    let Some(g) = rule_root(store, k, top, request) else {
        return left_as(Refusal::Damaged, records);
    };
    if !stages_ok(store, k, below, top, records) {
        return left_as(Refusal::Damaged, records);
    }
    let left = run_levels(store, k, below, g.task, records);
    ClusterCycled {
        answer: g.answer,
        state: left,
    }
}

// ---- a drain

fn is_nothing(due: Due) -> bool
    ensures { result ≡ is_nothing due }
{
    matches!(due, Due::Nothing)
}

// Whether nothing is pending in the first so many records.
pub fn is_quiet(count: usize, records: [Stage; STAGES]) -> bool
    requires { count ≤ stage_count }
    ensures { result ≡ quiet count records 0 }
{
    let mut ok = true;
    for i in 0..count {
        ok &= is_nothing(records[i].due);
    }
    ok
}

// Nothing pending.
pub fn fresh_records() -> [Stage; STAGES]
    ensures { result ≡ fresh }
{
    [no_stage(); STAGES]
}

// Each cycle leaves one more level with nothing to do, so that no more are run than there are levels from 2, whatever the budget.
pub fn drain_shaped(
    store: &mut [u32],
    k: usize,
    below: usize,
    top: usize,
    records: [Stage; STAGES],
    budget: usize,
) -> ClusterDrained
    requires { (shape_ok k (suc below) (length store.old) ≡ true) × (top ≡ room k below) }
    ensures { drain_outcome result.answer result.cycles result.left store.new result.state ≡ drains k (suc below) budget records store.old }
{
    let mut pending = records;
    for run in 0..budget {
        if is_quiet(below, pending) {
            return report(Ok(None), run, false, pending);
        }
        let c = cycle_shaped(store, k, below, top, pending, Request::Idle);
        if is_refused(c.answer) {
            return report(c.answer, run, true, c.state);
        }
        pending = c.state;
    }
    let quiet = is_quiet(below, pending);
    report(Ok(None), budget, !quiet, pending)
}
