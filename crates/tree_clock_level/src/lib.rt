// The levels: each does one step a cycle, by what stood at the cycle's start. `under` is the room below a slot of the next level.
#![tactic(auto)]

ghost use Rattle.std.specs.Prelude.{◌≡◌, cond, false, ◌+◌, ◌*◌, ◌<◌, ◌≤◌};
ghost use Rattle.tree_model.specs.Calls.{slot_limit};
ghost use Rattle.tree_model.specs.Node.{is_nothing};
ghost use Rattle.tree_clock_model.specs.Calls.{cycle_outcome};
ghost use Rattle.tree_clock_level.specs.Root.{RoomIs};
ghost use Rattle.tree_clock_level.specs.Steps.{LevelIn, LevelPlanned, NextLevel, Rooted, RootPlanned, SecondLevel, state_of, StepOf, Within, written, turned_by};

pub mod records;
pub mod root;
pub mod shaped;

use records::{is_idle, is_nothing, land, no_work, work_at};
use root::RootStep;
use strip::{Answer, Refusal, left_as};
use tree_clock_model::{Cycled, RECORDS, State};
use tree_model::{Move, Slot, Work};
use tree_node::room_under;
use tree_node::slot::write_slot;
use tree_plan::plan_of;

// The most levels that a tree has: the root's and one for each record.
const LEVELS: usize = RECORDS + 1;

// A level: its first slot, how many nodes it has, and the room below a slot of it.
#[derive(Clone, Copy)]
pub struct AtLevel {
    pub base: usize,
    pub nodes: usize,
    pub room: usize,
}

// Level 2, by the room below a root's slot.
fn second_level(order: usize, top: usize) -> AtLevel
    requires { 0 < order }
    ensures { SecondLevel order top result }
{
    let room = room_under(order, top);
    AtLevel {
        base: order,
        nodes: order,
        room,
    }
}

// The next level begins behind the last slot, and has a node below each slot.
fn next_level(order: usize, at: AtLevel) -> AtLevel
    requires { (0 < order) × (at.base + at.nodes * order ≤ slot_limit) }
    ensures { NextLevel order at result }
{
    let nodes = at.nodes * order;
    let room = room_under(order, at.room);
    AtLevel {
        base: at.base + nodes,
        nodes,
        room,
    }
}

// A slot and where it is written.
#[derive(Clone, Copy)]
pub struct Write {
    pub at: usize,
    pub slot: Slot,
}

// A level's step: what it writes, and what it leaves for the next level's record.
#[derive(Clone, Copy)]
pub struct Step {
    pub write: Write,
    pub rest: Work,
}

// The step v at the node whose first slot is slot `first` of the level at slot `base`.
fn step_of(v: Move, base: usize, first: usize) -> Step
    requires { base + first + v.place < 4294967296 }
    ensures { StepOf base first v result }
{
    let write = Write {
        at: base + first + v.place,
        slot: v.slot,
    };
    let rest = work_at(v.rest, first + v.place);
    Step { write, rest }
}

// The step of a level's pending work, where all that it reads is in order.
fn plan_level(s: &[u32], order: usize, at: AtLevel, under: usize, w: Work) -> Option<Step>
    requires { LevelIn order at.base at.nodes at.room under s.now × (is_nothing w.op ≡ false) }
    ensures { LevelPlanned order at.base at.nodes at.room under w s.now result }
{
    if at.nodes <= w.node {
        return None;
    }
    let first = w.node * order;
    let child = at.base + at.nodes * order + first * order;
    let v = plan_of(s, at.base + first, child, order, at.room, under, w.op)?;
    Some(step_of(v, at.base, first))
}

fn write_all(s: &mut [u32], count: usize, writes: [Write; LEVELS])
    requires { Within count writes s.old }
    ensures { s.new ≡ written count writes s.old }
{
    for w in &writes[..count] {
        write_slot(s, w.at, w.slot);
    }
}

// How many slots the root's step writes.
fn steps_of(g: RootStep) -> usize
    ensures { result ≡ cond (is_nothing g.op) 0 1 }
{
    if is_nothing(g.op) { 0 } else { 1 }
}

// ---- what a cycle gives back

// A cycle that has run.
pub fn ran(answer: Answer, records: [Work; RECORDS], mark: bool) -> Cycled
    ensures { (result.answer ≡ answer) × (result.state ≡ state_of records mark) }
{
    let state = State { records, mark };
    Cycled { answer, state }
}

// ---- all levels

// Every level does its one step, the root the operation's, with `below` levels below it. All tests come before the first write: the writes
// wait in an array with their number, since nothing is allocated.
pub fn run_levels(
    s: &mut [u32],
    order: usize,
    below: usize,
    top: usize,
    g: RootStep,
    state: State,
    mark: bool,
) -> Cycled
    requires { Rooted order below s.old × RoomIs order below top × RootPlanned order below g s.old }
    ensures { cycle_outcome result.answer s.new result.state ≡ turned_by order below g.answer g.op mark state s.old }
{
    let root = step_of(g.step, 0, 0);
    let mut load = root.rest;
    let mut records = state.records;
    let mut writes = [root.write; LEVELS];
    let mut n = steps_of(g);
    let mut at = second_level(order, top);
    for i in 0..below {
        let own = records[i];
        let due = land(load, own);
        records[i] = due;
        load = no_work();
        let next = next_level(order, at);
        if !is_idle(own) {
            let Some(p) = plan_level(s, order, at, next.room, own) else {
                return left_as(Refusal::Damaged, state);
            };
            writes[n] = p.write;
            n += 1;
            load = p.rest;
        }
        at = next;
    }
    write_all(s, n, writes);
    ran(g.answer, records, mark)
}
